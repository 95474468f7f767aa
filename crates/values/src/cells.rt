ghost use Rattle.std.specs.Prelude.{◌≡◌, length, IsTrue, ◌↔◌};
ghost use Rattle.values.specs.Rules.{means};
ghost use Rattle.values.specs.Cells.{seen, holders, others, meets, qualifies_among, winning, IsWinner};

use crate::kinds::Kind;

/// A place for a value, which lies in it as a value's row (`Kind::Row`); `None` where it is empty.
///
/// The row may break its kind's rule, and then stands for the fallback: `Kind::value` returns the value that it means.
/// `==` on cells compares the plain numbers, `same_value` what the rows mean.
pub type Cell<R> = Option<R>;

/// What a value needs to qualify: enough cells that hold it, and not too many that are filled otherwise.
#[derive(Clone, Copy, PartialEq, Eq, Debug)]
pub struct Quorum {
    /// How many cells at least hold the value.
    pub at_least: usize,
    /// How many cells at most are filled with another value.
    pub otherwise_at_most: usize,
}

impl Quorum {
    /// Whether a value's two counts, as `tally` returns them, meet the two bounds.
    pub fn is_met(self, counts: (usize, usize)) -> bool
        ensures { result ≡ meets self.at_least self.otherwise_at_most counts.0 counts.1 }
    {
        let (held, otherwise) = counts;
        held >= self.at_least && otherwise <= self.otherwise_at_most
    }
}

// Clauses name what a row means by `K.rules` and `K.plain`: a member for it would cost each kind one law more.

/// Whether two rows mean the same value: two that break the rule both mean the fallback.
pub fn same_value<K: Kind>(a: &K::Row, b: &K::Row) -> bool
    ensures { IsTrue result ↔ (means K.rules K.plain a.now ≡ means K.rules K.plain b.now) }
{
    K::value(a).same(&K::value(b))
}

/// How many cells hold the value that the row means, and how many are filled otherwise, in this order.
pub fn tally<K: Kind>(cells: &[Cell<K::Row>], row: &K::Row) -> (usize, usize)
    ensures held { result.0 ≡ holders (seen K.rules K.plain cells.now) (length cells.now) (means K.rules K.plain row.now) }
    ensures otherwise { result.1 ≡ others (seen K.rules K.plain cells.now) (length cells.now) (means K.rules K.plain row.now) }
{
    // One pass counts both.
    let mut held: usize = 0;
    let mut otherwise: usize = 0;
    for cell in cells {
        match cell {
            Some(other) if same_value::<K>(other, row) => held += 1,
            Some(_) => otherwise += 1,
            None => {}
        }
    }
    (held, otherwise)
}

// Whether a cell is filled with a value that qualifies among the cells.
fn qualifies<K: Kind>(cells: &[Cell<K::Row>], cell: &Cell<K::Row>, quorum: Quorum) -> bool
    ensures { result ≡ qualifies_among K.rules K.plain quorum.at_least quorum.otherwise_at_most cells.now cell.now }
{
    cell.is_some_and(|row| quorum.is_met(tally::<K>(cells, &row)))
}

/// The lowest place whose value qualifies among the cells; `None` where no cell's value does.
pub fn winner<K: Kind>(cells: &[Cell<K::Row>], quorum: Quorum) -> Option<usize>
    ensures value { result ≡ winning quorum.at_least quorum.otherwise_at_most (seen K.rules K.plain cells.now) (length cells.now) }
    ensures law { IsWinner quorum.at_least quorum.otherwise_at_most (seen K.rules K.plain cells.now) (length cells.now) result }
{
    cells
        .iter()
        .position(|cell| qualifies::<K>(cells, cell, quorum))
}
