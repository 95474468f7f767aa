//! Values and cells: what controllers propose and vote on, and how it is counted.
#![tactic(auto)]

mod buffers;
mod cells;
mod kinds;
mod reading;
mod refusals;
mod setpoints;
mod sheets;

pub use buffers::Buffer;
pub use cells::{Cell, Quorum, same_value, tally, winner};
pub use kinds::Kind;
pub use reading::numbers;
pub use refusals::Refusal;
pub use setpoints::Setpoint;
pub use sheets::{Shares, Sheet};
