use models::Set;
use values::Cell;

/// What a block is opened with. `Run::open` says which openings are refused.
#[derive(Clone, Copy)]
pub struct Opening<'c, R> {
    /// The number of controllers: from 1 to 16, and above b + e + l of the model that open names.
    pub n: usize,
    /// How many of them are seated at one time at most: fewer than n.
    pub t: usize,
    /// What each controller proposes: n values' rows, by controller.
    pub proposals: &'c [R],
    /// The set that counts as that of the round before the first: at most t controllers of the block.
    pub initial: Set,
}

/// Where a message's cell is forged. `Run::forge` says which places are refused.
#[derive(Clone, Copy)]
pub struct Place {
    /// Who the message is from, by number.
    pub sender: usize,
    /// Whom it is for, by number; a uniform sender tells all what is forged for controller 0.
    pub receiver: usize,
    /// Which of its cells: 0 to n - 1 in a deciding round, 0 in any other.
    pub column: usize,
}

/// What can be asked of a run. The methods of `Run` with these names say what each does.
#[derive(Clone, Copy)]
pub enum Call<'c, R> {
    /// Opens a block.
    Open(Opening<'c, R>),
    /// Begins a round with this set seated.
    Seat(Set),
    /// Puts a cell at a place of a forged message.
    Forge(Place, Cell<R>),
    /// Ends the round that is seated.
    Close,
    /// Asks for the decision of this controller.
    Decision(usize),
}

/// What a run answers to a call that it does not refuse.
///
/// `==` compares values' rows number by number. Two rows that break the rule of their kind mean one value, the
/// fallback, but `==` tells them apart where their numbers differ. `values::same_value` compares what rows mean.
#[derive(Clone, Copy, PartialEq, Eq, Debug)]
pub enum Answer<R> {
    /// The call was performed.
    Done,
    /// The decision of the controller that was asked: an empty cell, or a value's row. A row that breaks the rule of
    /// its kind stands for the fallback; `Kind::value` gives the value that a row means.
    Decided(Cell<R>),
}
