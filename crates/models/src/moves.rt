use crate::sets::Set;

/// A move of the faults from one set of seated controllers to another.
#[derive(Clone, Copy, PartialEq, Eq, Debug)]
pub struct Moved {
    /// Who is seated before the move.
    pub before: Set,
    /// Who is seated after it.
    pub after: Set,
    /// How many controllers are seated at one time at most. A model returns for more than 15 what it does for 15.
    pub t: usize,
}
