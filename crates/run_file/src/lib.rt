//! Run files: reading one, performing the run that it tells, and listing what its controllers then hold. docs/FORMAT.md
//! has the format.
#![tactic(auto)]

mod headers;
mod lines;
mod listings;
mod numbers;
mod parts;
mod pieces;
mod reading;
mod stops;
mod texts;
mod votes;

pub use headers::MOST_BYTES;
pub use listings::{LEAST_ROOM, Listing, list};
pub use stops::Stop;
