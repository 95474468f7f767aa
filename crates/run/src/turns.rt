ghost use Rattle.std.specs.Prelude.{◌≡◌, ◌≤◌, ◌<◌, ◌+◌, suc};
ghost use Rattle.models.specs.declared.sets.TheConstants.{MOST_CONTROLLERS};

use models::{Class, Counts, MOST_CONTROLLERS, Set};
use protocol::MOST_ROUNDS;

/// A block that was opened.
#[derive(Clone, Copy)]
pub struct Block {
    /// The number of controllers.
    pub n: usize,
    /// How many of them are seated at one time at most.
    pub t: usize,
    /// The counts of the model named at open.
    pub counts: Counts,
    /// How many rounds are closed, and so the number of the round that comes.
    pub round: usize,
    /// The set of the last closed round, or the initial set where none is closed.
    pub last: Set,
    ghost size: { n ≤ MOST_CONTROLLERS },
    ghost faults: { t < n },
    ghost resilient: { counts.b + counts.e + counts.l < n },
}

impl Block {
    // The block after the close of a round in which the set's members were seated.
    pub(crate) fn closed(self, set: Set) -> Block
        requires { self.round < MOST_ROUNDS }
        ensures same { (result.n ≡ self.n) × (result.t ≡ self.t) × (result.counts ≡ self.counts) }
        ensures next { (result.round ≡ suc self.round) × (result.last ≡ set) }
    {
        let Block {
            n,
            t,
            counts,
            round,
            ..
        } = self;
        Block {
            n,
            t,
            counts,
            round: round + 1,
            last: set,
        }
    }
}

/// A round that is not closed yet.
#[derive(Clone, Copy)]
pub struct Seating {
    /// Who is seated.
    pub set: Set,
    /// How each controller sends, as the model named at seat has it.
    pub classes: [Class; MOST_CONTROLLERS],
}

/// The turn that a run stands at.
#[derive(Clone, Copy)]
pub enum Turn {
    /// No block is opened.
    Idle,
    /// A block waits for a seat.
    Waiting(Block),
    /// A round of the block is seated.
    Seated(Block, Seating),
}
