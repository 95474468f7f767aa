ghost use Rattle.std.specs.Prelude.{◌≡◌, ℕ, ◌+◌, ◌*◌, ◌<◌, ◌≤◌, length, if◌then◌else◌, None, ◌==◌, drop};
ghost use Rattle.values.specs.Cells.{seen};
ghost use Rattle.protocol.specs.Machine.{needed};
ghost use Rattle.run.specs.Stores.{store, kept_cells, work_cells};
ghost use Rattle.run.specs.Views.{kept_in};
ghost use Rattle.run.specs.Closing.{left, Renews, Empties};

use crate::hearing::Sent;
use crate::layout::{kept_cells, parts, work_cells};
use crate::rounds::{collect, decide, maintain, propose};
use crate::store::{clear, clear_decisions, put_decisions, put_rows, put_v};
use crate::turns::{Block, Seating};
use models::{MOST_CONTROLLERS, Set};
use protocol::{MOST_ROUNDS, Stage};
use values::{Cell, Kind};

// Computes from what was sent what each controller keeps: in work cells first, so that none reads another's new cells.
fn renew<K: Kind>(
    block: &Block,
    seating: &Seating,
    kept: &mut [Cell<K::Row>],
    work: &mut [Cell<K::Row>],
)
    requires limit { block.now.round < MOST_ROUNDS }
    requires kept { length kept.old ≡ kept_cells block.now.n }
    requires work { length work.old ≡ work_cells block.now.n }
    ensures { Renews K.rules K.plain block.now seating.now kept.old kept.new }
{
    let n = block.n;
    let stage = Stage::of(n, block.round);
    let (next_rows, rest) = work.split_at_mut(n * n);
    let (next, rest) = rest.split_at_mut(n);
    let (column, rest) = rest.split_at_mut(n);
    let (candidates, _) = rest.split_at_mut(n);
    let sent = Sent::<K>::over(n, stage, seating.classes, kept);
    match stage {
        Stage::Proposing => {
            propose(&sent, block.counts, column, next);
            put_v(kept, n, next);
            clear_decisions(kept, n);
        }
        Stage::Collecting => {
            collect(&sent, next_rows);
            put_rows(kept, n, next_rows);
            clear_decisions(kept, n);
        }
        Stage::Deciding => {
            let phase = block.round / 3;
            decide(&sent, block.counts, phase, column, candidates, next);
            put_v(kept, n, next);
            if block.round + 1 == 3 * n {
                put_decisions(kept, n, next);
            } else {
                clear_decisions(kept, n);
            }
        }
        Stage::Maintaining => {
            maintain(&sent, block.counts, column, next);
            put_decisions(kept, n, next);
        }
    }
}

// Empties a controller's row.
fn clear_row<K: Kind>(n: usize, controller: usize, rows: &mut [Cell<K::Row>])
    requires size { n ≤ MOST_CONTROLLERS }
    requires controller { controller < n }
    requires rows { length rows.old ≡ n * n }
    ensures { (i j : ℕ) → i < n → j < n
        → seen K.rules K.plain rows.new (i * n + j) ≡ (if i == controller then None else seen K.rules K.plain rows.old (i * n + j)) }
{
    let start = controller * n;
    clear(&mut rows[start..start + n]);
}

// Empties v, row and decision of each controller that the set holds.
fn empty<K: Kind>(n: usize, set: Set, kept: &mut [Cell<K::Row>])
    requires size { n ≤ MOST_CONTROLLERS }
    requires kept { length kept.old ≡ kept_cells n }
    ensures { Empties K.rules K.plain n set.0 kept.old kept.new }
{
    parts!(let (_, rows, v, decisions, _) = kept.split_at_mut(n));
    for controller in 0..n {
        if set.holds(controller) {
            v[controller] = None;
            decisions[controller] = None;
            clear_row::<K>(n, controller, rows);
        }
    }
}

/// Closes a round in the store: renews what each unseated controller keeps, and empties what a seated one keeps. The
/// forged cells stay, and so do the cells past those that the block needs.
pub(crate) fn close<K: Kind>(cells: &mut [Cell<K::Row>], block: &Block, seating: &Seating)
    requires limit { block.now.round < MOST_ROUNDS }
    requires roomy { needed block.now.n ≤ length cells.old }
    ensures forged { (store block.now.n cells.new).forged ≡ (store block.now.n cells.old).forged }
    ensures kept { kept_in K.rules K.plain block.now.n (store block.now.n cells.new) ≡ left K.rules K.plain block.now seating.now (store block.now.n cells.old) }
    ensures past { drop (needed block.now.n) cells.new ≡ drop (needed block.now.n) cells.old }
{
    let n = block.n;
    let (kept, rest) = cells.split_at_mut(kept_cells(n));
    let (work, _) = rest.split_at_mut(work_cells(n));
    renew::<K>(block, seating, kept, work);
    empty::<K>(n, seating.set, kept);
}
