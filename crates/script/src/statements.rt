use crate::figures::Figure;
use models::Set;
use run::Place;
use values::Cell;

/// A call as a script has it, with its proposals. Its values are of any type: figures, or the rows of a kind.
#[derive(Drop)]
pub enum Statement<V> {
    /// Opens a block.
    Open {
        /// The number of controllers.
        n: usize,
        /// How many of them are seated at one time at most.
        t: usize,
        /// The set before the first round.
        initial: Set,
        /// What the controllers propose, from controller 0 on.
        proposals: Vec<V>,
    },
    /// Begins a round with this set seated.
    Seat(Set),
    /// Puts a cell at a place of a forged message.
    Forge(Place, Cell<V>),
    /// Ends the round that is seated.
    Close,
    /// Asks for the decision of this controller.
    Decision(usize),
}
