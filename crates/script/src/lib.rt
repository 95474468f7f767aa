//! Scripts: lists of calls as text, one a line. docs/BENCH.md says what a script may have.
#![tactic(auto)]

mod figures;
mod flaws;
mod numbers;
mod reading;
mod scripts;
mod statements;
mod words;
mod writing;

pub use figures::Figure;
pub use flaws::{Expected, Flaw, Flaws, ScriptError, Wrong};
pub use scripts::{House, Line, Script, ValueKind, read};
pub use statements::Statement;
pub use writing::{put_figure, put_number, put_set};
