#![tactic(auto)]

ghost use Rattle.std.specs.Prelude.{◌≤◌, length, IfOk};

use run::MOST_CELLS;
use run_file::{LEAST_ROOM, MOST_BYTES, Stop, list};
use std::io::{Read, Write};
use std::process::ExitCode;
use std::{fmt, io};
use values::{Cell, Shares};

// One byte more than the longest run file has: enough to see that an input is too long.
const INPUT_BYTES: usize = MOST_BYTES + 1;

// Why the program ends without a listing. Displays as one line for people.
#[derive(Drop)]
enum Failure {
    // Standard input cannot be read.
    Read(io::Error),
    // The text cannot be written.
    Write(io::Error),
    // The file is refused; its text is written all the same.
    Refused(Stop),
}

impl fmt::Display for Failure {
    fn fmt<W: fmt::Write>(&self, f: &mut fmt::Formatter<W>) -> fmt::Result {
        match self {
            Failure::Read(error) => write!(f, "the file cannot be read: {error}"),
            Failure::Write(error) => write!(f, "the listing cannot be written: {error}"),
            Failure::Refused(stop) => write!(f, "{stop}"),
        }
    }
}

// Reads until the input ends or `room` is full, and returns how many came. A read that a signal interrupts is an
// error like any other: a loop that tries again need not end.
fn fill(rt: &HostRuntime, room: &mut [u8]) -> io::Result<usize>
    ensures { IfOk result (λ len. len ≤ length room.new) }
{
    let mut input = rt.stdin();
    let mut len = 0;
    while len < room.len() {
        let more = input.read(&mut room[len..])?;
        if more == 0 {
            break;
        }
        len += more;
    }
    Ok(len)
}

// Lists standard input on standard output.
fn list_input(rt: &HostRuntime) -> Result<(), Failure> {
    let mut file = [0u8; INPUT_BYTES];
    let len = fill(rt, &mut file).map_err(Failure::Read)?;
    let mut setpoints: [Cell<u16>; MOST_CELLS] = [None; MOST_CELLS];
    let mut sheets: [Cell<Shares>; MOST_CELLS] = [None; MOST_CELLS];
    let mut text = [0u8; LEAST_ROOM];
    let listing = list(&file[..len], &mut setpoints, &mut sheets, &mut text);
    rt.stdout()
        .write_all(&text[..listing.len])
        .map_err(Failure::Write)?;
    match listing.stop {
        None => Ok(()),
        Some(stop) => Err(Failure::Refused(stop)),
    }
}

// It returns an `ExitCode`, since an error that `main` returns is printed for programmers.
fn main(rt: HostRuntime) -> ExitCode {
    match list_input(&rt) {
        Ok(()) => ExitCode::SUCCESS,
        Err(failure) => {
            // Where not even this line can be written, the status still tells.
            let _ = eprintln!(rt; "{failure}");
            ExitCode::FAILURE
        }
    }
}
