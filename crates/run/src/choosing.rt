ghost use Rattle.std.specs.Prelude.{◌≡◌, ◌+◌, ◌<◌, length};
ghost use Rattle.values.specs.Rules.{means};
ghost use Rattle.values.specs.Cells.{shows, seen};
ghost use Rattle.protocol.specs.Rounds.{at_place, chosen, held_by, settled};

use models::{Counts, MOST_CONTROLLERS};
use values::{Cell, Kind, Quorum, winner};

/// The cell at a place; an empty one where there is no place.
pub(crate) fn at_place<K: Kind>(cells: &[Cell<K::Row>], place: Option<usize>) -> Cell<K::Row>
    ensures { shows K.rules K.plain result ≡ at_place (seen K.rules K.plain cells.now) place }
{
    cells.get(place?).copied().flatten()
}

/// The value that qualifies among the cells, if there is one; of several, the one in the lowest-numbered cell.
pub(crate) fn chosen<K: Kind>(cells: &[Cell<K::Row>], quorum: Quorum) -> Cell<K::Row>
    ensures { shows K.rules K.plain result ≡ chosen quorum.at_least quorum.otherwise_at_most (seen K.rules K.plain cells.now) (length cells.now) }
{
    at_place::<K>(cells, winner::<K>(cells, quorum))
}

/// The quorum of a value that at least so many of some cells hold, however many are filled otherwise.
pub(crate) fn held_by(at_least: usize, cells: usize) -> Quorum
    ensures { (result.at_least ≡ at_least) × (result.otherwise_at_most ≡ cells) }
{
    Quorum {
        at_least,
        otherwise_at_most: cells,
    }
}

/// The value, as its row, that a deciding round settles on: one that more than l + e candidates are; else one that more
/// than l cells hold of the row that the coordinator sent; else the fallback.
pub(crate) fn settled<K: Kind>(
    candidates: &[Cell<K::Row>],
    row: &[Cell<K::Row>],
    counts: Counts,
) -> K::Row
    requires few { counts.l + counts.e < MOST_CONTROLLERS }
    requires size { length row.now ≡ length candidates.now }
    ensures { means K.rules K.plain result ≡ settled (length candidates.now) counts K.rules.fallback (seen K.rules K.plain candidates.now) (seen K.rules K.plain row.now) }
{
    let of_candidates = held_by(counts.l + counts.e + 1, candidates.len());
    let of_row = held_by(counts.l + 1, row.len());
    chosen::<K>(candidates, of_candidates)
        .or(chosen::<K>(row, of_row))
        .unwrap_or(K::fallback().row())
}
