use crate::helpers::Step::{Close, Decision, Forge, Open, Seat};
use crate::helpers::{DONE, Outcome, Step, ask, follow, perform};
use models::Standard;
use run::Answer::Decided;
use run::Run;
use std::process::Abort;
use values::Setpoint;

const OLD: Option<u16> = Some(777);

fn bother(rt: &impl Abort, run: &mut Run<Setpoint>, refused: &[(Step, u8)]) {
    for (step, number) in refused {
        follow(rt, run, &Standard::Fixed, &[(*step, Err(*number))]);
    }
}

// Decisions alter nothing, whether they are refused or not.
fn ask_for_decisions(run: &mut Run<Setpoint>) -> [Outcome; 4] {
    let model = Standard::Fixed;
    [0, 1, 2, 3].map(|controller| ask(run, &model, Decision(controller)))
}

fn bother_idle(rt: &impl Abort, run: &mut Run<Setpoint>) {
    const REFUSED: &[(Step, u8)] = &[
        (Open(0, 0, &[], 0), 1),
        (Open(4, 4, &[600; 4], 0), 2),
        (Open(3, 1, &[600; 3], 0), 3),
        (Open(5, 1, &[600; 5], 0), 4),
        (Open(4, 1, &[600; 3], 0), 5),
        (Open(4, 1, &[600; 4], 0b11), 6),
        (Seat(0), 8),
        (Forge(0, 0, 0, Some(600)), 8),
        (Close, 8),
        (Decision(0), 8),
    ];
    bother(rt, run, REFUSED);
}

fn bother_waiting(rt: &impl Abort, run: &mut Run<Setpoint>) {
    const REFUSED: &[(Step, u8)] = &[
        (Open(4, 1, &[600; 4], 0), 8),
        (Seat(0b11), 6),
        (Seat(1 << 3), 7),
        (Forge(2, 0, 0, Some(600)), 8),
        (Close, 8),
        (Decision(4), 9),
        (Decision(2), 12),
    ];
    bother(rt, run, REFUSED);
}

fn bother_seated(rt: &impl Abort, run: &mut Run<Setpoint>) {
    const REFUSED: &[(Step, u8)] = &[
        (Open(4, 1, &[600; 4], 0), 8),
        (Seat(1 << 2), 8),
        (Forge(2, 4, 0, Some(600)), 9),
        (Forge(2, 0, 4, Some(600)), 9),
        (Forge(0, 0, 0, Some(600)), 10),
        (Decision(4), 9),
        (Decision(2), 12),
    ];
    bother(rt, run, REFUSED);
}

// A whole run of four controllers, of which 2 is always seated and tells each something else; there are refused calls
// and decisions between the others or there are none.
fn whole_run(rt: &impl Abort, cells: &mut [Option<u16>], bothered: bool) -> [Outcome; 4] {
    let model = Standard::Fixed;
    let mut run = Run::<Setpoint>::new(cells);
    if bothered {
        bother_idle(rt, &mut run);
    }
    perform(
        rt,
        &mut run,
        &model,
        &[Open(4, 1, &[500, 500, 600, 610], 1 << 2)],
    );
    for _ in 0..13 {
        if bothered {
            bother_waiting(rt, &mut run);
            let _ = ask_for_decisions(&mut run);
        }
        perform(
            rt,
            &mut run,
            &model,
            &[Seat(1 << 2), Forge(2, 0, 0, Some(500))],
        );
        if bothered {
            bother_seated(rt, &mut run);
            let _ = ask_for_decisions(&mut run);
        }
        perform(rt, &mut run, &model, &[Forge(2, 3, 0, Some(610)), Close]);
    }
    if bothered {
        bother_waiting(rt, &mut run);
    }
    ask_for_decisions(&mut run)
}

// In the first round 0 hears 500 three times, in the second 0 notes down 500 twice, and in the third all take what the
// coordinator, 0, noted down.
#[test]
fn a_refused_call_leaves_all_as_it_was(rt: HostRuntime) {
    let mut cells = [OLD; 120];
    let mut bothered = [OLD; 120];
    let high = Ok(Decided(Some(500)));
    assert_eq!(rt;
        whole_run(&rt, &mut cells, false),
        [high, high, Err(12), high]
    );
    assert_eq!(rt;
        whole_run(&rt, &mut bothered, true),
        [high, high, Err(12), high]
    );
    assert_eq!(rt; cells, bothered);
    // the cells past those that the block needs
    assert_eq!(rt; &cells[116..], [OLD; 4].as_slice());
}

#[test]
fn nothing_old_is_seen(rt: HostRuntime) {
    let mut cells = [OLD; 116];
    {
        let mut run = Run::<Setpoint>::new(&mut cells);
        const STEPS: &[(Step, Outcome)] = &[
            (Decision(0), Err(8)),
            (Open(4, 1, &[500, 510, 520, 530], 1 << 2), DONE),
            (Decision(0), Ok(Decided(None))),
        ];
        follow(&rt, &mut run, &Standard::Carried, STEPS);
    }
    // forged cells and rows, v, and decisions
    for place in 0..80 {
        assert_eq!(rt; cells[place], None, "at {place}");
    }
    let v = [Some(500), Some(510), None, Some(530)];
    assert_eq!(rt; &cells[80..84], v.as_slice());
    for place in 84..88 {
        assert_eq!(rt; cells[place], None, "at {place}");
    }
}

// After a seat nothing is forged yet: what was forged in the round before is gone.
#[test]
fn a_seat_forgets_what_was_forged(rt: HostRuntime) {
    let mut cells = [OLD; 116];
    {
        let mut run = Run::<Setpoint>::new(&mut cells);
        const CALLS: &[Step] = &[
            Open(4, 1, &[500; 4], 1 << 2),
            Seat(1 << 2),
            Forge(2, 3, 0, Some(610)),
            Close,
            Seat(1 << 2),
        ];
        perform(&rt, &mut run, &Standard::Fixed, CALLS);
    }
    for place in 0..64 {
        assert_eq!(rt; cells[place], None, "at {place}");
    }
}
