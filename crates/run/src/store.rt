ghost use Rattle.std.specs.Prelude.{◌≡◌, ◌*◌, ◌<◌, ◌≤◌, length, None, replicate, drop};
ghost use Rattle.values.specs.Cells.{shows};
ghost use Rattle.protocol.specs.Machine.{needed};
ghost use Rattle.run.specs.Stores.{store, kept_cells, with_forged};
ghost use Rattle.run.specs.Views.{kept_in, AreStarted};

use crate::calls::{Opening, Place};
use crate::layout::parts;
use crate::places::forged_place;
use models::MOST_CONTROLLERS;
use values::{Cell, Kind};

/// Empties cells.
pub(crate) fn clear<R: Copy>(cells: &mut [Cell<R>])
    ensures { cells.new ≡ replicate (length cells.old) None }
{
    cells.fill(None);
}

/// Fills the store for a block that is opened: v with the proposals, but none for whoever the initial set holds. Forged
/// cells, controllers' rows and decisions are emptied.
pub(crate) fn fill_opened<K: Kind>(cells: &mut [Cell<K::Row>], opening: Opening<K::Row>)
    requires size { opening.n ≤ MOST_CONTROLLERS }
    requires roomy { needed opening.n ≤ length cells.old }
    requires proposals { length opening.proposals.now ≡ opening.n }
    ensures forged { (store opening.entry.n cells.new).forged ≡ replicate (opening.entry.n * opening.entry.n * opening.entry.n) None }
    ensures kept { AreStarted K.rules K.plain opening.entry cells.new }
    ensures past { drop (needed opening.entry.n) cells.new ≡ drop (needed opening.entry.n) cells.old }
{
    let Opening {
        n,
        proposals,
        initial,
        ..
    } = opening;
    parts!(let (forged, rows, v, decisions, _) = cells.split_at_mut(n));
    clear(forged);
    clear(rows);
    clear(decisions);
    for controller in 0..n {
        v[controller] = if initial.holds(controller) {
            None
        } else {
            Some(proposals[controller])
        };
    }
}

/// Empties the forged cells.
pub(crate) fn clear_forged<R: Copy>(cells: &mut [Cell<R>], n: usize)
    requires size { n ≤ MOST_CONTROLLERS }
    requires roomy { needed n ≤ length cells.old }
    ensures store { store n cells.new ≡ record (store n cells.old) { forged = replicate (n * n * n) None } }
    ensures past { drop (needed n) cells.new ≡ drop (needed n) cells.old }
{
    parts!(let (forged, _, _, _, _) = cells.split_at_mut(n));
    clear(forged);
}

/// Puts a cell at a place of a forged message.
pub(crate) fn put_forged<R: Copy>(cells: &mut [Cell<R>], n: usize, place: Place, cell: Cell<R>)
    requires size { n ≤ MOST_CONTROLLERS }
    requires roomy { needed n ≤ length cells.old }
    requires sender { place.sender < n }
    requires receiver { place.receiver < n }
    requires column { place.column < n }
    ensures store { store n cells.new ≡ with_forged n place cell (store n cells.old) }
    ensures past { drop (needed n) cells.new ≡ drop (needed n) cells.old }
{
    parts!(let (forged, _, _, _, _) = cells.split_at_mut(n));
    forged[forged_place(n, place.sender, place.receiver, place.column)] = cell;
}

/// Puts all controllers' rows.
pub(crate) fn put_rows<R: Copy>(cells: &mut [Cell<R>], n: usize, new: &[Cell<R>])
    requires size { n ≤ MOST_CONTROLLERS }
    requires roomy { kept_cells n ≤ length cells.old }
    requires new { length new.now ≡ n * n }
    ensures { store n cells.new ≡ record (store n cells.old) { rows = new.now } }
{
    parts!(let (_, rows, _, _, _) = cells.split_at_mut(n));
    rows.copy_from_slice(new);
}

/// Puts the v of all controllers.
pub(crate) fn put_v<R: Copy>(cells: &mut [Cell<R>], n: usize, new: &[Cell<R>])
    requires size { n ≤ MOST_CONTROLLERS }
    requires roomy { kept_cells n ≤ length cells.old }
    requires new { length new.now ≡ n }
    ensures { store n cells.new ≡ record (store n cells.old) { v = new.now } }
{
    parts!(let (_, _, v, _, _) = cells.split_at_mut(n));
    v.copy_from_slice(new);
}

/// Puts the decisions of all controllers.
pub(crate) fn put_decisions<R: Copy>(cells: &mut [Cell<R>], n: usize, new: &[Cell<R>])
    requires size { n ≤ MOST_CONTROLLERS }
    requires roomy { kept_cells n ≤ length cells.old }
    requires new { length new.now ≡ n }
    ensures { store n cells.new ≡ record (store n cells.old) { decisions = new.now } }
{
    parts!(let (_, _, _, decisions, _) = cells.split_at_mut(n));
    decisions.copy_from_slice(new);
}

/// Empties the decisions of all controllers.
pub(crate) fn clear_decisions<R: Copy>(cells: &mut [Cell<R>], n: usize)
    requires size { n ≤ MOST_CONTROLLERS }
    requires roomy { kept_cells n ≤ length cells.old }
    ensures { store n cells.new ≡ record (store n cells.old) { decisions = replicate n None } }
{
    parts!(let (_, _, _, decisions, _) = cells.split_at_mut(n));
    clear(decisions);
}

/// The decision of a controller.
pub(crate) fn decision_at<K: Kind>(
    cells: &[Cell<K::Row>],
    n: usize,
    controller: usize,
) -> Cell<K::Row>
    requires size { n ≤ MOST_CONTROLLERS }
    requires roomy { needed n ≤ length cells.now }
    requires controller { controller < n }
    ensures { shows K.rules K.plain result ≡ (kept_in K.rules K.plain n (store n cells.now) controller).decision }
{
    parts!(let (_, _, _, decisions, _) = cells.split_at(n));
    decisions[controller]
}
