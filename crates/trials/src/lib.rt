//! Tests of the public calls of the other crates; a value kind and two models of faults as whoever uses the library
//! would build their own; and callers that conclude something.
#![tactic(auto)]

#[cfg(test)]
mod caller_tests;
pub mod callers;
#[cfg(test)]
mod cell_tests;
#[cfg(test)]
mod display_tests;
#[cfg(test)]
mod file_tests;
#[cfg(test)]
mod heard_tests;
#[cfg(test)]
mod helpers;
pub mod leaving;
#[cfg(test)]
mod leaving_tests;
#[cfg(test)]
mod model_tests;
#[cfg(test)]
mod play_tests;
#[cfg(test)]
mod refusal_tests;
#[cfg(test)]
mod refused_tests;
pub mod rising;
#[cfg(test)]
mod run_tests;
#[cfg(test)]
mod script_tests;
#[cfg(test)]
mod set_tests;
#[cfg(test)]
mod setpoint_tests;
#[cfg(test)]
mod sheet_run_tests;
#[cfg(test)]
mod sheet_tests;
#[cfg(test)]
mod stage_tests;
#[cfg(test)]
mod store_tests;
pub mod unlawful;
#[cfg(test)]
mod whole_run_tests;
#[cfg(test)]
mod window_tests;
pub mod windows;
