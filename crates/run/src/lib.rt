//! The run: the machine of `protocol` in code, over a store that its caller lends.
#![tactic(auto)]

mod calls;
mod checks;
mod choosing;
mod closing;
mod dues;
mod hearing;
mod layout;
mod places;
mod plays;
mod rounds;
mod run;
mod store;
mod turns;

pub use calls::{Answer, Call, Opening, Place};
pub use layout::{MOST_CELLS, needed};
pub use plays::play;
pub use run::Run;
