ghost use Rattle.std.specs.Prelude.{◌<◌, ◌≤◌};

use crate::helpers::Step::{Close, Forge, Open, Seat};
use crate::helpers::{DONE, ask, perform};
use models::{Class, Model, Moved, Set, Stamped, Standard};
use run::Run;
use std::process::Abort;
use values::{Cell, Setpoint};

const OLD: Cell<u16> = Some(777);

// Whom the fault grips. It moves from round to round, and in the deciding round of each phase but the last it grips the
// coordinator, so only the last coordinator is sure to be unseated where it counts.
fn seated_in(n: usize, round: usize) -> Set
    requires few { 1 < n }
{
    let phase = round / 3;
    let controller = match round % 3 {
        _ if phase >= n => round % n,
        0 => (phase + 2) % n,
        1 => (phase + 1) % n,
        _ if phase + 1 == n => 1,
        _ => phase,
    };
    Set(1 << (controller % 16))
}

// Forges at every place of the round's messages, another cell for each receiver: only for a free sender are all taken.
fn forge_all<M: Model>(
    rt: &impl Abort,
    run: &mut Run<Setpoint>,
    model: &M,
    n: usize,
    round: usize,
    moved: Moved,
)
    requires size { n ≤ 7 }
    requires limit { round < 1000 }
{
    let columns = if round % 3 == 2 && round < 3 * n {
        n
    } else {
        1
    };
    for sender in 0..n {
        let class = model.class(moved, sender);
        for receiver in 0..n {
            let forgeable = class == Class::Free || class == Class::Uniform && receiver == 0;
            let outcome = if forgeable { DONE } else { Err(10) };
            for column in 0..columns {
                let value = 500 + 10 * ((receiver + column + round) % n) as u16;
                let call = Forge(sender, receiver, column, Some(value));
                assert_eq!(rt; ask(run, model, call), outcome);
            }
            let past = Forge(sender, receiver, columns, None);
            assert_eq!(rt; ask(run, model, past), Err(9));
        }
    }
}

// The decision of every unseated controller: one cell, alike for all.
fn common(rt: &impl Abort, run: &mut Run<Setpoint>, n: usize, seated: Set) -> Cell<u16> {
    let mut common = None;
    for controller in 0..n {
        match run.decision(controller).map_err(u8::from) {
            Ok(cell) => {
                assert!(rt; !seated.holds(controller));
                assert_eq!(rt; cell, common.unwrap_or(cell), "of {controller}");
                common = Some(cell);
            }
            Err(number) => assert!(rt; number == 12 && seated.holds(controller)),
        }
    }
    common.flatten()
}

// What is left in the cells after the last round.
fn check_cells(rt: &impl Abort, cells: &[Cell<u16>; 480], n: usize, seated: Set)
    requires size { n ≤ 7 }
{
    // whoever was seated holds nothing
    let v = n * n * n + n * n;
    for controller in 0..n {
        if seated.holds(controller) {
            let kept = [cells[v + controller], cells[v + n + controller]];
            assert_eq!(rt; kept, [None; 2], "of {controller}");
        }
    }
    // the cells past those that the block needs
    let needed = n * n * n + 2 * n * n + 5 * n;
    for place in needed..480 {
        assert_eq!(rt; cells[place], OLD, "at {place}");
    }
}

// The decision, after a run of the smallest block that bears one fault, which grips every controller once more after
// the last phase.
fn whole_run<M: Model>(
    rt: &impl Abort,
    model: &M,
    n: usize,
    proposals: [u16; 7],
    moving: bool,
) -> Cell<u16>
    requires few { 1 < n }
    requires size { n ≤ 7 }
{
    let mut cells = [OLD; 480];
    let mut agreed = None;
    let mut before = Set(1);
    {
        let mut run = Run::<Setpoint>::new(&mut cells);
        let smaller = Open(n - 1, 1, &proposals[..n - 1], 1);
        assert_eq!(rt; ask(&mut run, model, smaller), Err(3));
        perform(rt, &mut run, model, &[Open(n, 1, &proposals[..n], 1)]);
        for round in 0..4 * n {
            let after = if moving { seated_in(n, round) } else { Set(1) };
            let t = 1;
            let moved = Moved { before, after, t };
            perform(rt, &mut run, model, &[Seat(after.0)]);
            forge_all(rt, &mut run, model, n, round, moved);
            perform(rt, &mut run, model, &[Close]);
            let cell = common(rt, &mut run, n, after);
            assert_eq!(rt; cell.is_some(), round + 1 >= 3 * n, "round {round}");
            assert_eq!(rt; cell, agreed.or(cell), "round {round}");
            agreed = cell;
            before = after;
        }
    }
    check_cells(rt, &cells, n, before);
    agreed
}

// Whatever is proposed there is one decision, and if all but 0 propose 500 it is 500.
fn agree<M: Model>(rt: &impl Abort, model: &M, n: usize, moving: bool)
    requires few { 1 < n }
    requires size { n ≤ 7 }
{
    let apart = [500, 510, 520, 530, 540, 550, 560];
    assert!(rt; whole_run(rt, model, n, apart, moving).is_some());
    let camps = [500, 610, 500, 610, 500, 610, 500];
    assert!(rt; whole_run(rt, model, n, camps, moving).is_some());
    // 0 is in the initial set, and may propose what it likes
    let alike = [610, 500, 500, 500, 500, 500, 500];
    assert_eq!(rt; whole_run(rt, model, n, alike, moving), Some(500));
}

#[test]
fn all_decide_alike(rt: HostRuntime) {
    agree(&rt, &Standard::Aware, 5, true);
    agree(&rt, &Standard::Unaware, 6, true);
    agree(&rt, &Standard::Buffered, 7, true);
    agree(&rt, &Standard::Carried, 4, true);
    agree(&rt, &Standard::Fixed, 4, false);
    agree(&rt, &Stamped(Standard::Aware), 4, true);
    agree(&rt, &Stamped(Standard::Carried), 3, true);
}
