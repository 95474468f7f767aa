//! Models of faults: how far faults may move among the controllers of a block, and how a controller then behaves.
//! A fault is what the pages for people call an upset.
#![tactic(auto)]

ghost use Rattle.std.specs.Prelude.{◌≡◌};
ghost use Rattle.models.specs.Laws.{Meaning, Bounded, Capped, Lawful};

mod classes;
mod moves;
mod sets;
mod stamps;
mod standards;

pub use classes::{Class, Counts};
pub use moves::Moved;
pub use sets::{MOST_CONTROLLERS, Set};
pub use stamps::{Stamped, stamps_keep_the_laws};
pub use standards::{Standard, UnknownModel, counts_are_reached};

/// A model of faults, which is asked about a move of the faults from one set of seated controllers to another.
///
/// Whoever builds a model of their own owes this: every method returns for every input, the same for the same input,
/// and alters nothing. For a t above 15 it returns what it returns for 15.
pub trait Model {
    // what its methods return
    ghost meaning: { Self → Meaning };

    /// Whether the faults may move from the set before to the set after.
    fn allows(&self, moved: Moved) -> bool
        ensures { result ≡ (meaning self.now).allowed moved.before.0 moved.after.0 moved.t };

    /// How a controller sends in the round of the set after.
    fn class(&self, moved: Moved, controller: usize) -> Class
        ensures { result ≡ (meaning self.now).class moved.before.0 moved.after.0 moved.t controller };

    /// The counts b, e and l for at most t seated controllers, each at most 48.
    fn counts(&self, t: usize) -> Counts
        ensures { result ≡ (meaning self.now).counts t };

    // each count is at most 48
    ghost bounded: { (m : Self) → Bounded (meaning m) };

    // for a t above 15 all is as for 15
    ghost capped: { (m : Self) → Capped (meaning m) };
}

/// A model that keeps the four laws, which is all that an argument about a vote has to know of it.
pub trait LawfulModel: Model {
    /// The model is lawful. Calling this does nothing; its promise is the theorem.
    fn lawful(&self)
        ensures { Lawful (Self.Model.meaning self.now) };
}
