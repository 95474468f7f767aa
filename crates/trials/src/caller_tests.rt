use crate::callers::asking::ask_twice;
use crate::callers::first_round::first_round;
use crate::callers::listed::list_vote;
use crate::callers::played::perform_all;
use crate::callers::rounds::{Plan, run_plans};
use crate::helpers::Step::{Close, Decision, Open, Seat};
use crate::helpers::{DONE, Step, call_of};
use crate::rising::Rising;
use models::{Set, Standard};
use run::Answer::Decided;
use run::{Answer, Opening, Place, Run};
use values::{Refusal, Setpoint};

const ALL_480: [u16; 6] = [480; 6];

fn block_of_six() -> Opening<'static, u16> {
    Opening {
        n: 6,
        t: 1,
        proposals: &ALL_480,
        initial: Set(2),
    }
}

#[test]
fn one_asks_twice(rt: HostRuntime) {
    let mut cells = [None; 318];
    let up = [Set(2), Set(4), Set(8)];
    let down = [Set(4), Set(2)];
    let high = [Set(32); 15];
    let opening = block_of_six();
    assert_eq!(rt;
        ask_twice::<Setpoint, Rising>(&mut cells, &Rising, opening, &up, &high, (0, 4)),
        Ok((None, Some(480)))
    );
    assert_eq!(rt;
        ask_twice::<Setpoint, Rising>(&mut cells, &Rising, opening, &down, &high, (0, 4)),
        Err(Refusal::ForbiddenMove)
    );
    assert_eq!(rt;
        ask_twice::<Setpoint, Rising>(&mut cells, &Rising, opening, &up, &high, (0, 5)),
        Err(Refusal::WasSeated)
    );
}

#[test]
fn plans_pass_over_refused_forgeries(rt: HostRuntime) {
    let mut cells = [None; 318];
    let place = Place {
        sender: 3,
        receiver: 0,
        column: 0,
    };
    let nowhere = Place {
        sender: 6,
        receiver: 0,
        column: 0,
    };
    let forgeries = [(place, Some(900)), (nowhere, Some(900))];
    let plans = [Plan {
        set: Set(8),
        forgeries: &forgeries,
    }; 18];
    assert_eq!(rt;
        run_plans::<Setpoint, Standard>(
            &mut cells,
            &Standard::Unaware,
            block_of_six(),
            &plans,
            (0, 4)
        ),
        Ok((Some(480), Some(480)))
    );
}

#[test]
fn a_list_is_performed(rt: HostRuntime) {
    const STEPS: [Step; 8] = [
        Open(1, 0, &[500], 0),
        Seat(0),
        Close,
        Seat(0),
        Close,
        Seat(0),
        Close,
        Decision(0),
    ];
    let calls = STEPS.map(call_of);
    let mut cells = [None; 8];
    let mut answers = [Ok(Answer::Done); 8];
    let count = perform_all::<Setpoint, Standard>(
        &mut cells,
        &Standard::Fixed,
        &calls,
        &mut answers,
    );
    assert_eq!(rt; count, 8);
    assert_eq!(rt; answers[6].map_err(u8::from), DONE);
    assert_eq!(rt; answers[7].map_err(u8::from), Ok(Decided(Some(500))));
}

#[test]
fn a_first_round_is_run(rt: HostRuntime) {
    let mut cells = [None; 318];
    let mut run = Run::<Setpoint>::new(&mut cells);
    assert_eq!(rt;
        first_round::<Setpoint>(&mut run, block_of_six(), Set(4)),
        Ok(())
    );
    assert_eq!(rt; run.decision(2), Err(Refusal::WasSeated));
    assert_eq!(rt; run.decision(1), Ok(None));
}

#[test]
fn a_vote_is_listed(rt: HostRuntime) {
    let mut setpoints = [None; 26];
    let mut text = [0; 512];
    // two controllers with 500 and 600 under aware, t = 0, and six rounds in which nobody is seated
    let mut file = [0; 34];
    file[..20].copy_from_slice(&[
        0, 0, 0, 2, 0, 0, 6, 0, 0, 0, 16, 0, 20, 0, 34, 0, 244, 1, 88, 2,
    ]);
    let len = list_vote(&file, &mut setpoints, &mut [], &mut text);
    assert_eq!(rt; len, Some(22));
    assert!(rt; text.starts_with(b"run 2 0 6\n0 400\n1 400\n"));
    file[5] = 1;
    assert_eq!(rt; list_vote(&file, &mut setpoints, &mut [], &mut text), None);
}
