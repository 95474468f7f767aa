use crate::helpers::Step::{Close, Decision, Forge, Open, Seat};
use crate::helpers::{DONE, Outcome, Step, ask, follow, perform};
use models::Standard;
use run::Answer::Decided;
use run::{MOST_CELLS, Run};
use values::Setpoint;

// Where several refusals apply, the first in the order of the checks is given; what else a call breaks stands beside it.

#[test]
fn idle_refuses_all_but_open(rt: HostRuntime) {
    let mut cells = [None; 8];
    let mut run = Run::<Setpoint>::new(&mut cells);
    const STEPS: &[(Step, Outcome)] = &[
        (Seat(0xffff), Err(8)), // also 6
        (Forge(9, 9, 9, Some(500)), Err(8)), // also 9
        (Close, Err(8)),
        (Decision(0), Err(8)),
        (Decision(99), Err(8)), // also 9
        (Open(1, 0, &[500], 0), DONE),
    ];
    follow(&rt, &mut run, &Standard::Fixed, STEPS);
}

#[test]
fn open_refuses_in_order(rt: HostRuntime) {
    let model = Standard::Unaware;
    let mut small = [None; 317];
    let mut run = Run::<Setpoint>::new(&mut small);
    const SMALL: &[(Step, Outcome)] = &[
        (Open(0, 0, &[500], 0b10_0000_0000), Err(1)), // also 2, 3, 5, 6
        (Open(17, 17, &[], 0), Err(1)), // also 2, 3, 4, 5
        (Open(15, 15, &[], 1 << 15), Err(2)), // also 3, 4, 5, 6
        (Open(10, 2, &[], 1 << 10), Err(3)), // also 4, 5, 6
        (Open(6, 1, &[], 1 << 6), Err(4)), // also 5, 6
    ];
    follow(&rt, &mut run, &model, SMALL);
    let mut enough = [None; 318];
    let mut run = Run::<Setpoint>::new(&mut enough);
    const STEPS: &[(Step, Outcome)] = &[
        (Open(6, 1, &[], 1 << 6), Err(5)), // also 6
        (Open(6, 1, &[500; 7], 1 << 6), Err(5)), // also 6
        (Open(6, 1, &[500; 6], 1 << 6), Err(6)),
        (Open(6, 1, &[500; 6], 1 << 9), Err(6)),
        (Open(6, 1, &[500; 6], 0b11), Err(6)),
        (Open(6, 1, &[500; 6], 1 << 5), DONE),
        (Open(0, 0, &[], 0), Err(8)), // also 1, 2, 3
        (Seat(0), DONE),
        (Open(6, 1, &[500; 6], 1 << 5), Err(8)),
    ];
    follow(&rt, &mut run, &model, STEPS);
}

#[test]
fn the_largest_block_has_16(rt: HostRuntime) {
    let model = Standard::Unaware;
    let mut cells = [None; MOST_CELLS];
    let mut small = Run::<Setpoint>::new(&mut cells[..4687]);
    assert_eq!(rt; ask(&mut small, &model, Open(16, 3, &[500; 16], 0)), Err(4));
    let mut run = Run::<Setpoint>::new(&mut cells);
    const STEPS: &[(Step, Outcome)] = &[
        (Open(17, 1, &[500; 17], 0), Err(1)), // also 4
        (Open(16, 3, &[500; 16], 0), DONE),
        (Seat(0b1111), Err(6)),
        (Seat(0b1000_0000_1000_0001), DONE),
        (Forge(15, 15, 0, None), DONE),
        (Forge(16, 0, 0, None), Err(9)),
        (Forge(0, 16, 0, None), Err(9)),
        (Close, DONE),
        (Decision(16), Err(9)),
        (Decision(15), Err(12)),
        (Decision(14), Ok(Decided(None))),
    ];
    follow(&rt, &mut run, &model, STEPS);
}

#[test]
fn seat_and_close_refuse_in_order(rt: HostRuntime) {
    let mut cells = [None; 318];
    let mut run = Run::<Setpoint>::new(&mut cells);
    const STEPS: &[(Step, Outcome)] = &[
        (Open(6, 1, &[500; 6], 1 << 2), DONE),
        (Seat(1 << 6), Err(6)), // also 7
        (Seat(0b110), Err(6)), // also 7
        (Seat(1 << 1), Err(7)),
        (Seat(0), Err(7)),
        (Forge(0, 6, 0, None), Err(8)), // also 9
        (Close, Err(8)),
        (Seat(1 << 2), DONE),
        (Seat(1 << 6), Err(8)), // also 6, 7
        (Seat(1 << 2), Err(8)),
        (Close, DONE),
        (Close, Err(8)),
        (Seat(1 << 3), Err(7)),
    ];
    follow(&rt, &mut run, &Standard::Fixed, STEPS);
}

#[test]
fn forge_refuses_in_order(rt: HostRuntime) {
    let mut cells = [None; 318];
    let mut run = Run::<Setpoint>::new(&mut cells);
    // 0 is honest, 1 uniform and 2 free
    const STEPS: &[(Step, Outcome)] = &[
        (Open(6, 1, &[500; 6], 1 << 1), DONE),
        (Seat(1 << 2), DONE),
        (Forge(6, 0, 0, Some(500)), Err(9)),
        (Forge(0, 6, 0, Some(500)), Err(9)), // also 10
        (Forge(0, 0, 1, Some(500)), Err(9)), // also 10
        (Forge(2, 0, 1, Some(500)), Err(9)),
        (Forge(0, 0, 0, Some(500)), Err(10)),
        (Forge(0, 0, 0, None), Err(10)),
        (Forge(1, 1, 0, Some(500)), Err(10)),
        (Forge(1, 0, 0, Some(500)), DONE),
        (Forge(2, 5, 0, Some(500)), DONE),
        (Forge(2, 5, 0, None), DONE),
    ];
    follow(&rt, &mut run, &Standard::Unaware, STEPS);
}

#[test]
fn a_deciding_message_has_n_columns(rt: HostRuntime) {
    let mut cells = [None; 200];
    let mut run = Run::<Setpoint>::new(&mut cells);
    let model = Standard::Aware;
    const ROUNDS: &[Step] = &[
        Open(5, 1, &[500; 5], 0),
        Seat(0),
        Close,
        Seat(1 << 1),
        Close,
        Seat(1 << 2),
    ];
    perform(&rt, &mut run, &model, ROUNDS);
    const STEPS: &[(Step, Outcome)] = &[
        (Forge(2, 4, 4, Some(500)), DONE),
        (Forge(1, 4, 5, Some(500)), Err(9)), // also 10
        (Forge(2, 4, 5, Some(500)), Err(9)),
        (Forge(1, 0, 0, Some(500)), Err(10)), // 1 is silent
    ];
    follow(&rt, &mut run, &model, STEPS);
}

#[test]
fn decision_refuses_in_order(rt: HostRuntime) {
    let mut cells = [None; 200];
    let mut run = Run::<Setpoint>::new(&mut cells);
    const STEPS: &[(Step, Outcome)] = &[
        (Open(5, 1, &[500; 5], 1 << 4), DONE),
        (Decision(5), Err(9)),
        (Decision(4), Err(12)),
        (Decision(3), Ok(Decided(None))),
        (Seat(1 << 3), DONE),
        (Decision(5), Err(9)),
        (Decision(4), Err(12)),
        (Decision(3), Ok(Decided(None))),
        (Close, DONE),
        (Decision(4), Ok(Decided(None))),
        (Decision(3), Err(12)),
    ];
    follow(&rt, &mut run, &Standard::Aware, STEPS);
}

#[test]
fn a_thousand_rounds_are_the_most(rt: HostRuntime) {
    let model = Standard::Fixed;
    let mut cells = [None; 8];
    let mut run = Run::<Setpoint>::new(&mut cells);
    assert_eq!(rt; ask(&mut run, &model, Open(1, 0, &[500], 0)), DONE);
    for _ in 0..1000 {
        perform(&rt, &mut run, &model, &[Seat(0), Close]);
    }
    const STEPS: &[(Step, Outcome)] = &[
        (Seat(0), Err(11)),
        (Seat(1 << 6), Err(11)), // also 6, 7
        (Forge(0, 0, 0, None), Err(8)),
        (Close, Err(8)),
        (Decision(0), Ok(Decided(Some(500)))),
    ];
    follow(&rt, &mut run, &model, STEPS);
}
