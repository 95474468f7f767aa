use crate::helpers::Step::{Close, Decision, Forge, Open, Seat};
use crate::helpers::{DONE, Outcome, Step, ask, follow, perform};
use models::{Model, Stamped, Standard};
use run::Answer::Decided;
use run::Run;
use std::process::Abort;
use values::{Kind, Setpoint};

const NONE: Option<u16> = None;

fn opens<M: Model>(model: &M, proposals: &[u16]) -> Outcome {
    let mut cells = [None; 318];
    let mut run = Run::<Setpoint>::new(&mut cells);
    ask(&mut run, model, Open(proposals.len(), 1, proposals, 0))
}

#[test]
fn a_block_needs_more_than_b_and_e_and_l(rt: HostRuntime) {
    let all = [500; 6];
    for (n, outcome) in &[(5, Err(3)), (6, DONE)] {
        assert_eq!(rt;
            opens(&Standard::Unaware, &all[..*n]),
            *outcome,
            "{n} under unaware"
        );
    }
    for (n, outcome) in &[(3, Err(3)), (4, DONE)] {
        let aware = Stamped(Standard::Aware);
        assert_eq!(rt;
            opens(&aware, &all[..*n]),
            *outcome,
            "{n} under stamped aware"
        );
    }
    for (n, outcome) in &[(2, Err(3)), (3, DONE)] {
        let carried = Stamped(Standard::Carried);
        assert_eq!(rt;
            opens(&carried, &all[..*n]),
            *outcome,
            "{n} under stamped carried"
        );
    }
}

// What five controllers under aware hold after the first round.
fn proposed(
    rt: &impl Abort,
    proposals: &[u16; 5],
    initial: u16,
    round: &[Step],
) -> [Option<u16>; 5] {
    let mut cells = [None; 200];
    {
        let model = Standard::Aware;
        let mut run = Run::<Setpoint>::new(&mut cells);
        perform(rt, &mut run, &model, &[Open(5, 1, proposals, initial)]);
        perform(rt, &mut run, &model, round);
    }
    [cells[150], cells[151], cells[152], cells[153], cells[154]]
}

// Three cells are needed, and at most one may be filled otherwise.
#[test]
fn a_proposal_needs_enough_cells_and_few_otherwise(rt: HostRuntime) {
    const NOBODY: &[Step] = &[Seat(0), Close];
    // 3 was left, and is silent: all hear 500, 500, 500, -, 610
    let heard = proposed(&rt, &[500, 500, 500, 700, 610], 1 << 3, NOBODY);
    assert_eq!(rt; heard, [Some(500); 5]);
    // two are filled otherwise
    let heard = proposed(&rt, &[500, 500, 500, 610, 610], 0, NOBODY);
    assert_eq!(rt; heard, [NONE; 5]);
    // 2 is seated: 0 hears 500, 500, 500, -, 610 and 1 hears 500, 500, 610, -, 610; the others hear 500 twice only
    const ROUND: &[Step] = &[
        Seat(1 << 2),
        Forge(2, 0, 0, Some(500)),
        Forge(2, 1, 0, Some(610)),
        Forge(2, 2, 0, Some(500)),
        Close,
    ];
    let heard = proposed(&rt, &[500, 500, 500, 500, 610], 1 << 3, ROUND);
    assert_eq!(rt; heard, [Some(500), None, None, None, None]);
}

// Three controllers and no faults: all three cells are needed, and all three mean the fallback.
#[test]
fn a_proposal_that_breaks_the_rule_counts_as_the_fallback(rt: HostRuntime) {
    let mut cells = [None; 60];
    {
        let mut run = Run::<Setpoint>::new(&mut cells);
        const CALLS: &[Step] = &[Open(3, 0, &[905, 400, 0], 0), Seat(0), Close];
        perform(&rt, &mut run, &Standard::Aware, CALLS);
    }
    for place in 36..39 {
        let value = cells[place].map(|row| Setpoint::value(&row).tenths());
        assert_eq!(rt; value, Some(400), "at {place}");
    }
}

// Six controllers under unaware: a candidate needs three senders, v four candidates or three cells of the coordinator.
#[test]
fn four_candidates_decide(rt: HostRuntime) {
    let mut cells = [None; 318];
    {
        let model = Standard::Unaware;
        let mut run = Run::<Setpoint>::new(&mut cells);
        // 4 and 5 tell nothing in the collecting round, so columns 4 and 5 are empty
        const ROUNDS: &[Step] = &[
            Open(6, 1, &[500; 6], 0),
            Seat(1 << 4),
            Close,
            Seat(1 << 5),
            Close,
            Seat(1 << 0),
        ];
        perform(&rt, &mut run, &model, ROUNDS);
        for receiver in 0..6 {
            // the coordinator's row has two cells only
            let row = [
                Forge(0, receiver, 0, Some(500)),
                Forge(0, receiver, 1, Some(500)),
            ];
            perform(&rt, &mut run, &model, &row);
        }
        perform(&rt, &mut run, &model, &[Close]);
    }
    // 5 was seated in the collecting round, and 0 is in the deciding one
    let same = Some(500);
    for controller in 1..5 {
        let row = 216 + 6 * controller;
        let heard = [same, same, same, same, None, None];
        assert_eq!(rt; &cells[row..row + 6], heard.as_slice());
    }
    let v = [None, same, same, same, same, same];
    assert_eq!(rt; &cells[252..258], v.as_slice());
}

// Six controllers under unaware, with no value that four hold. In phase 0 the coordinator tells 1, 2 and 3 a row that
// holds 610 and 500 three times each, and 610 first. In phase 1 controller 0 makes 1 and 2 alone hold 610, and tells
// only some of their 610 in the collecting round; so columns 0, 1 and 2 have candidates, which are not enough.
fn three_candidates(rt: &impl Abort, told: [usize; 3]) -> [Option<u16>; 6] {
    let mut cells = [None; 318];
    {
        let model = Standard::Unaware;
        let mut run = Run::<Setpoint>::new(&mut cells);
        const BEGIN: &[Step] = &[
            Open(6, 1, &[500, 500, 500, 610, 610, 610], 0),
            Seat(0),
            Close,
            Seat(0),
            Close,
            Seat(1),
        ];
        perform(rt, &mut run, &model, BEGIN);
        for receiver in 1..4 {
            for (column, value) in [610, 500, 500, 610, 610, 500].iter().enumerate() {
                perform(
                    rt,
                    &mut run,
                    &model,
                    &[Forge(0, receiver, column, Some(*value))],
                );
            }
        }
        const PROPOSING: &[Step] = &[
            Close,
            Seat(1),
            Forge(0, 1, 0, Some(610)),
            Forge(0, 2, 0, Some(610)),
            Close,
            Seat(1),
        ];
        perform(rt, &mut run, &model, PROPOSING);
        for receiver in told {
            perform(rt, &mut run, &model, &[Forge(0, receiver, 0, Some(610))]);
        }
        perform(rt, &mut run, &model, &[Close, Seat(1), Close]);
    }
    [
        cells[252], cells[253], cells[254], cells[255], cells[256], cells[257],
    ]
}

#[test]
fn three_candidates_leave_it_to_the_coordinator(rt: HostRuntime) {
    let high = Some(610);
    // the row of 1, the coordinator, has three cells
    let v = three_candidates(&rt, [1, 3, 4]);
    assert_eq!(rt; v, [None, high, high, high, high, high]);
    // it has two, and the rows of 2, 3 and 4 have three: the fallback
    let low = Some(400);
    let v = three_candidates(&rt, [2, 3, 4]);
    assert_eq!(rt; v, [None, low, low, low, low, low]);
}

// Six controllers under unaware, and each coordinator is seated in its whole phase. It tells three controllers 500 and
// two 610, so no value ever has four holders, and the decisions differ.
#[test]
fn a_decision_is_kept_while_four_hold_it(rt: HostRuntime) {
    let model = Standard::Unaware;
    let mut cells = [None; 318];
    let mut run = Run::<Setpoint>::new(&mut cells);
    perform(
        &rt,
        &mut run,
        &model,
        &[Open(6, 1, &[500, 500, 500, 610, 610, 610], 0)],
    );
    for phase in 0..6 {
        let set = 1 << phase;
        let begin = [Seat(set), Close, Seat(set), Close, Seat(set)];
        perform(&rt, &mut run, &model, &begin);
        for (away, value) in [500, 500, 500, 610, 610].iter().enumerate() {
            let receiver = (phase + 1 + away) % 6;
            let row = [0, 1, 2].map(|column| Forge(phase, receiver, column, Some(*value)));
            perform(&rt, &mut run, &model, &row);
        }
        perform(&rt, &mut run, &model, &[Close]);
    }
    const STEPS: &[(Step, Outcome)] = &[
        (Decision(0), Ok(Decided(Some(500)))),
        (Decision(1), Ok(Decided(Some(500)))),
        (Decision(2), Ok(Decided(Some(500)))),
        (Decision(3), Ok(Decided(Some(610)))),
        (Decision(4), Ok(Decided(Some(610)))),
        (Decision(5), Err(12)),
        (Seat(1 << 5), DONE),
        (Forge(5, 0, 0, Some(500)), DONE), // 0 hears 500 four times
        (Forge(5, 1, 0, Some(610)), DONE), // 1 hears both three times
        (Close, DONE),
        (Decision(0), Ok(Decided(Some(500)))),
        (Decision(1), Ok(Decided(None))),
        (Decision(2), Ok(Decided(None))),
        (Decision(5), Err(12)),
    ];
    follow(&rt, &mut run, &model, STEPS);
}

#[test]
fn a_block_of_one_decides_after_three_rounds(rt: HostRuntime) {
    let models = [
        Standard::Aware,
        Standard::Unaware,
        Standard::Buffered,
        Standard::Carried,
        Standard::Fixed,
    ];
    for model in &models {
        let mut cells = [None; 8];
        let mut run = Run::<Setpoint>::new(&mut cells);
        const STEPS: &[(Step, Outcome)] = &[
            (Open(1, 0, &[500], 0), DONE),
            (Seat(0), DONE),
            (Close, DONE),
            (Seat(0), DONE),
            (Close, DONE),
            (Decision(0), Ok(Decided(None))),
            (Seat(0), DONE),
            (Decision(0), Ok(Decided(None))),
            (Close, DONE),
            (Decision(0), Ok(Decided(Some(500)))),
        ];
        follow(&rt, &mut run, model, STEPS);
    }
}

#[test]
fn two_that_differ_decide_on_the_fallback(rt: HostRuntime) {
    let model = Standard::Aware;
    let mut cells = [None; 26];
    let mut run = Run::<Setpoint>::new(&mut cells);
    perform(&rt, &mut run, &model, &[Open(2, 0, &[500, 600], 0)]);
    for _ in 0..5 {
        perform(&rt, &mut run, &model, &[Seat(0), Close]);
    }
    const STEPS: &[(Step, Outcome)] = &[
        (Decision(0), Ok(Decided(None))),
        (Seat(0), DONE),
        (Close, DONE),
        (Decision(0), Ok(Decided(Some(400)))),
        (Decision(1), Ok(Decided(Some(400)))),
    ];
    follow(&rt, &mut run, &model, STEPS);
}
