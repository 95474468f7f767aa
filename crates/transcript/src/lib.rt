//! Transcripts: performing a script, and telling what each call was answered. docs/BENCH.md says how one looks.
#![tactic(auto)]

mod layers;
mod outcomes;
mod performing;
mod replaying;
mod rows;
mod tallies;
mod telling;

pub use layers::Layered;
pub use outcomes::{Decisions, Outcome, outcome_of};
pub use performing::perform;
pub use replaying::{Replay, play_script, tell};
pub use rows::Scripted;
