use crate::helpers::Step::{Close, Decision, Forge, Open, Seat};
use crate::helpers::{DONE, Outcome, Step, call_of};
use models::{Set, Standard};
use run::Answer::Decided;
use run::{Answer, Call, Opening, play};
use std::process::Abort;
use values::{Cell, Refusal, Setpoint};

// What lies where no answer was put.
const LEFT: Result<Answer<u16>, Refusal> = Err(Refusal::TextRoom);

// Plays at most 21 calls, and asserts what each comes to, in its place.
fn plays(rt: &impl Abort, cells: &mut [Cell<u16>], model: Standard, steps: &[(Step, Outcome)]) {
    let n = steps.len();
    assert!(rt; n <= 21);
    let mut calls = [Call::Close; 21];
    for (at, (step, _)) in steps.iter().enumerate() {
        calls[at] = call_of(*step);
    }
    let mut answers = [LEFT; 21];
    let count = play::<Setpoint, Standard>(cells, &model, &calls[..n], &mut answers[..n]);
    assert_eq!(rt; count, n);
    for (at, (_, outcome)) in steps.iter().enumerate() {
        assert_eq!(rt; answers[at].map_err(u8::from), *outcome, "at step {at}");
    }
}

// Refused calls stand between the others, and each call has its answer in its place.
#[test]
fn each_call_is_answered_in_its_place(rt: HostRuntime) {
    const STEPS: &[(Step, Outcome)] = &[
        (Decision(0), Err(8)),
        (Seat(0), Err(8)),
        (Open(1, 1, &[500], 0), Err(2)),
        (Open(1, 0, &[500], 0), DONE),
        (Open(1, 0, &[610], 0), Err(8)),
        (Decision(0), Ok(Decided(None))),
        (Decision(1), Err(9)),
        (Close, Err(8)),
        (Seat(1), Err(6)),
        (Seat(0), DONE),
        (Seat(0), Err(8)),
        (Forge(0, 0, 1, Some(610)), Err(9)),
        (Forge(0, 0, 0, Some(610)), Err(10)),
        (Close, DONE),
        (Seat(0), DONE),
        (Close, DONE),
        (Seat(0), DONE),
        (Decision(0), Ok(Decided(None))),
        (Close, DONE),
        (Decision(0), Ok(Decided(Some(500)))),
        (Close, Err(8)),
    ];
    let mut cells = [Some(777); 10];
    plays(&rt, &mut cells, Standard::Aware, STEPS);
    assert_eq!(rt; [cells[8], cells[9]], [Some(777); 2]);
}

// Four controllers under carried: all hear 500 twice, and 610 once or twice; only 1 is told 500 once more.
#[test]
fn what_is_forged_in_a_list_counts(rt: HostRuntime) {
    const STEPS: &[(Step, Outcome)] = &[
        (Open(4, 1, &[500, 500, 610, 700], 1 << 3), DONE),
        (Seat(1 << 3), DONE),
        (Forge(3, 0, 0, Some(610)), DONE),
        (Forge(3, 1, 0, Some(500)), DONE),
        (Forge(3, 2, 0, Some(500)), DONE),
        (Forge(3, 2, 0, None), DONE),
        (Forge(2, 2, 0, Some(500)), Err(10)),
        (Close, DONE),
        (Decision(3), Err(12)),
    ];
    let mut cells = [Some(777); 116];
    plays(&rt, &mut cells, Standard::Carried, STEPS);
    assert_eq!(rt; &cells[80..84], [None, Some(500), None, None].as_slice());
}

// As many calls are performed as there are places for answers; where there are more places, the others stay.
#[test]
fn calls_and_room_bound_each_other(rt: HostRuntime) {
    let opening = Opening {
        n: 1,
        t: 0,
        proposals: &[500],
        initial: Set(0),
    };
    let calls = [Call::Open(opening), Call::Seat(Set(0)), Call::Close];
    for places in 0..5 {
        let mut cells = [Some(777); 8];
        let mut answers = [LEFT; 5];
        let count = play::<Setpoint, Standard>(
            &mut cells,
            &Standard::Aware,
            &calls,
            &mut answers[..places],
        );
        assert_eq!(rt; count, places.min(3));
        for at in 0..5 {
            let outcome = if at < count { Ok(Answer::Done) } else { LEFT };
            assert_eq!(rt; answers[at], outcome, "at {at} of {places} places");
        }
        assert!(rt; count > 0 || cells == [Some(777); 8]);
    }
}
