#![tactic(auto)]

use script::{ScriptError, read};
use std::alloc::Global;
use std::io::{Read, Write};
use std::process::ExitCode;
use std::{fmt, io};
use transcript::{play_script, tell};

// Why the program ends without a transcript. Displays as lines for people.
#[derive(Drop)]
enum Failure {
    // Standard input cannot be read.
    Read(io::Error),
    // The text cannot be written.
    Write(io::Error),
    // There is no script to perform.
    Script(ScriptError),
}

impl fmt::Display for Failure {
    fn fmt<W: fmt::Write>(&self, f: &mut fmt::Formatter<W>) -> fmt::Result {
        match self {
            Failure::Read(error) => write!(f, "the script cannot be read: {error}"),
            Failure::Write(error) => write!(f, "the transcript cannot be written: {error}"),
            Failure::Script(error) => write!(f, "{error}"),
        }
    }
}

// The transcript of a script.
fn transcript_of(heap: Global, text: &[u8]) -> Result<String, ScriptError> {
    let script = read(heap, text)?;
    let replay = play_script(heap, &script)?;
    Ok(tell(heap, &script, &replay)?)
}

// Replays standard input on standard output.
fn replay_input(rt: &HostRuntime) -> Result<(), Failure> {
    let mut text = Vec::new(rt.alloc());
    rt.stdin().read_to_end(&mut text).map_err(Failure::Read)?;
    let transcript = transcript_of(rt.alloc(), &text).map_err(Failure::Script)?;
    rt.stdout()
        .write_all(transcript.as_bytes())
        .map_err(Failure::Write)
}

// By `ExitCode`, since an error that `main` returns is printed for programmers.
fn main(rt: HostRuntime) -> ExitCode {
    match replay_input(&rt) {
        Ok(()) => ExitCode::SUCCESS,
        Err(failure) => {
            // Where not even this can be written, the status is left to tell.
            let _ = eprintln!(rt; "{failure}");
            ExitCode::FAILURE
        }
    }
}
