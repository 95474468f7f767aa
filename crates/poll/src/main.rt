#![tactic(auto)]

mod polls;

use models::MOST_CONTROLLERS;
use polls::{PollError, hold};
use std::io::Read;
use std::process::ExitCode;
use std::{fmt, io};

// One byte more than the largest block has, which is enough to see that an input is too long.
const MOST_BYTES: u64 = 2 * MOST_CONTROLLERS as u64 + 1;

// Why the program ends without a poll. Displays as one line for people.
#[derive(Drop)]
enum Failure {
    // Standard input cannot be read.
    Read(io::Error),
    // The text cannot be written.
    Write(io::Error),
    // No poll is held.
    Held(PollError),
}

impl fmt::Display for Failure {
    fn fmt<W: fmt::Write>(&self, f: &mut fmt::Formatter<W>) -> fmt::Result {
        match self {
            Failure::Read(error) => write!(f, "the proposals cannot be read: {error}"),
            Failure::Write(error) => write!(f, "the poll cannot be written: {error}"),
            Failure::Held(error) => write!(f, "{error}"),
        }
    }
}

// Polls standard input on standard output. A refusal is printed there too, as its number.
fn poll_input(rt: &HostRuntime) -> Result<(), Failure> {
    let mut input = Vec::new(rt.alloc());
    rt.stdin()
        .take(MOST_BYTES)
        .read_to_end(&mut input)
        .map_err(Failure::Read)?;
    match hold(rt.alloc(), &input) {
        Ok(poll) => print!(rt; "{poll}").map_err(Failure::Write),
        Err(error) => {
            if let PollError::Refused(refusal) = &error {
                println!(rt; "refused {refusal}").map_err(Failure::Write)?;
            }
            Err(Failure::Held(error))
        }
    }
}

// By `ExitCode`, since an error that `main` returns is printed for programmers.
fn main(rt: HostRuntime) -> ExitCode {
    match poll_input(&rt) {
        Ok(()) => ExitCode::SUCCESS,
        Err(failure) => {
            // Where not even this can be written, the status is left to tell.
            let _ = eprintln!(rt; "{failure}");
            ExitCode::FAILURE
        }
    }
}
