#![tactic(auto)]

use packing::{PackError, pack};
use script::{ScriptError, read};
use std::alloc::Global;
use std::io::{Read, Write};
use std::process::ExitCode;
use std::{fmt, io};

// Why the program ends without a run file. Displays as lines for people.
#[derive(Drop)]
enum Failure {
    // Standard input cannot be read.
    Read(io::Error),
    // The file cannot be written.
    Write(io::Error),
    // There is no script to pack.
    Script(ScriptError),
    // The script is no run file.
    Pack(PackError),
}

impl fmt::Display for Failure {
    fn fmt<W: fmt::Write>(&self, f: &mut fmt::Formatter<W>) -> fmt::Result {
        match self {
            Failure::Read(error) => write!(f, "the script cannot be read: {error}"),
            Failure::Write(error) => write!(f, "the run file cannot be written: {error}"),
            Failure::Script(error) => write!(f, "{error}"),
            Failure::Pack(error) => write!(f, "{error}"),
        }
    }
}

// The run file of a script.
fn file_of(heap: Global, text: &[u8]) -> Result<Vec<u8>, Failure> {
    let script = read(heap, text).map_err(Failure::Script)?;
    pack(heap, &script).map_err(Failure::Pack)
}

// Packs standard input on standard output.
fn pack_input(rt: &HostRuntime) -> Result<(), Failure> {
    let mut text = Vec::new(rt.alloc());
    rt.stdin().read_to_end(&mut text).map_err(Failure::Read)?;
    let file = file_of(rt.alloc(), &text)?;
    rt.stdout().write_all(&file).map_err(Failure::Write)
}

// By `ExitCode`, since an error that `main` returns is printed for programmers.
fn main(rt: HostRuntime) -> ExitCode {
    match pack_input(&rt) {
        Ok(()) => ExitCode::SUCCESS,
        Err(failure) => {
            // Where not even this can be written, the status is left to tell.
            let _ = eprintln!(rt; "{failure}");
            ExitCode::FAILURE
        }
    }
}
