use crate::helpers::Step::{Close, Forge, Open, Seat};
use crate::helpers::{DONE, Outcome, Step, follow, perform};
use models::{Model, Stamped, Standard};
use run::Run;
use std::process::Abort;
use values::Setpoint;

const NONE: Option<u16> = None;

// Four controllers under carried: the fault arrives after its new host has sent, so it forges for whoever was seated
// before.
#[test]
fn a_phase_goes_round_by_round(rt: HostRuntime) {
    const CALLS: &[Step] = &[
        Open(4, 1, &[500, 500, 500, 610], 1 << 1),
        Seat(1 << 3),
        Forge(1, 0, 0, Some(500)),
        Forge(1, 2, 0, Some(610)),
        Forge(1, 2, 0, Some(500)), // a later cell replaces an earlier one
        Close,
        Seat(1 << 3),
        Forge(3, 0, 0, Some(610)),
        Close,
        Seat(1 << 1),
        Close,
    ];
    let high = Some(500);
    // how many calls, and v then
    let stages = [
        (1, [high, None, high, Some(610)]),
        (6, [high, None, high, None]),
        (9, [high, None, high, None]),
        (11, [high, None, high, high]),
    ];
    for (made, v) in &stages {
        let mut cells = [None; 116];
        {
            let mut run = Run::<Setpoint>::new(&mut cells);
            perform(&rt, &mut run, &Standard::Carried, &CALLS[..*made]);
        }
        assert_eq!(rt; &cells[80..84], v.as_slice(), "after {made} calls");
        // 3 was seated in the collecting round
        let known = *made >= 9;
        let row = [high, None, high, Some(610)];
        let row = if known { row } else { [NONE; 4] };
        assert_eq!(rt; &cells[64..68], row.as_slice(), "after {made} calls");
        assert_eq!(rt; &cells[76..80], [NONE; 4].as_slice());
    }
}

// Six controllers under unaware. In the collecting round 1 is uniform and 2 is free.
#[test]
fn a_uniform_sender_tells_all_the_same(rt: HostRuntime) {
    let mut cells = [None; 318];
    {
        let model = Standard::Unaware;
        let mut run = Run::<Setpoint>::new(&mut cells);
        const STEPS: &[(Step, Outcome)] = &[
            (Open(6, 1, &[500; 6], 0), DONE),
            (Seat(1 << 1), DONE),
            (Close, DONE),
            (Seat(1 << 2), DONE),
            (Forge(1, 0, 0, Some(610)), DONE),
            (Forge(2, 0, 0, Some(620)), DONE),
            (Forge(0, 0, 0, Some(630)), Err(10)),
            (Forge(2, 3, 0, Some(630)), DONE),
            (Seat(0), Err(8)),
            (Forge(2, 4, 0, Some(640)), DONE),
            (Forge(2, 3, 0, None), DONE),
            (Close, DONE),
        ];
        follow(&rt, &mut run, &model, STEPS);
    }
    let told = [Some(620), None, None, None, Some(640), None];
    let same = Some(500);
    for receiver in 0..6 {
        let row = 216 + 6 * receiver;
        let heard = [same, Some(610), told[receiver], same, same, same];
        let heard = if receiver == 2 { [NONE; 6] } else { heard };
        assert_eq!(rt; &cells[row..row + 6], heard.as_slice(), "row of {receiver}");
    }
}

// What four controllers settle on that hold nothing in common, so that the coordinator's row decides. The coordinator
// is 0, and was seated before.
fn coordinator_tells<M: Model>(
    rt: &impl Abort,
    model: &M,
    receiver: usize,
    row: [u16; 3],
) -> [Option<u16>; 4] {
    let mut cells = [None; 116];
    {
        let mut run = Run::<Setpoint>::new(&mut cells);
        let calls = [
            Open(4, 1, &[500, 610, 500, 610], 0),
            Seat(0),
            Close,
            Seat(1 << 0),
            Close,
            Seat(0),
            Forge(0, receiver, 0, Some(row[0])),
            Forge(0, receiver, 1, Some(row[1])),
            Forge(0, receiver, 2, Some(row[2])),
            Close,
        ];
        perform(rt, &mut run, model, &calls);
    }
    [cells[80], cells[81], cells[82], cells[83]]
}

#[test]
fn stamps_keep_a_coordinator_from_telling_one_alone(rt: HostRuntime) {
    let v = coordinator_tells(&rt, &Standard::Carried, 1, [610, 610, 500]);
    assert_eq!(rt; v, [Some(400), Some(610), Some(400), Some(400)]);
    let v = coordinator_tells(&rt, &Stamped(Standard::Carried), 0, [500, 610, 610]);
    assert_eq!(rt; v, [Some(610); 4]);
}

// Four controllers, opened under carried, which needs three cells for a proposal; aware would need two.
#[test]
fn the_counts_are_those_of_the_model_at_open(rt: HostRuntime) {
    let mut cells = [None; 116];
    {
        let mut run = Run::<Setpoint>::new(&mut cells);
        const OPENS: &[(Step, Outcome)] = &[(Open(4, 1, &[500, 500, 610, 610], 1 << 2), DONE)];
        follow(&rt, &mut run, &Standard::Carried, OPENS);
        follow(&rt, &mut run, &Standard::Fixed, &[(Seat(1 << 1), Err(7))]);
        // the model at seat gives moves and classes: 2 was left, and is silent under aware
        const STEPS: &[(Step, Outcome)] = &[
            (Seat(0), DONE),
            (Forge(2, 0, 0, Some(500)), Err(10)),
            (Close, DONE),
        ];
        follow(&rt, &mut run, &Standard::Aware, STEPS);
    }
    assert_eq!(rt; &cells[80..84], [NONE; 4].as_slice());
}
