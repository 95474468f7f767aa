//! Packing: a script as a run file. docs/BENCH.md says which scripts can be packed, and docs/FORMAT.md what bytes a run
//! file has.
#![tactic(auto)]

mod drafts;
mod files;
mod layouts;
mod misfits;
mod packs;

pub use misfits::{Misfit, PackError, Unfit};
pub use packs::pack;
