ghost use Rattle.std.specs.Prelude.{◌≡◌, ℕ, List, [], ◌++◌, None, codes, decimal, string_bytes, OnOk};
ghost use Rattle.std.specs.Option.{unwrap_or};
ghost use Rattle.protocol.specs.Stages.{coordinator_of};
ghost use Rattle.script.specs.Figures.{numbers_of};
ghost use Rattle.script.specs.Statements.{written_call, replied, log_by};
ghost use Rattle.transcript.specs.Told.{coordinated, purpose, round_line, begun, TellsAnswer, TellsCall, TellsCalls};
ghost use Rattle.run.specs.Standing.{entry};

use models::Set;
use protocol::{Stage, coordinator};
use run::Answer;
use script::{Figure, Line, Statement, put_figure, put_number, put_set};
use std::alloc::AllocError;
use values::Refusal;

/// Adds a name and its number.
pub(crate) fn put_named(name: &str, number: usize, out: &mut String) -> Result<(), AllocError>
    ensures { OnOk result (string_bytes out.new ≡ string_bytes out.old ++ (name.now ++ decimal number)) }
{
    out.push_str(name)?;
    put_number(number, out)
}

fn put_coordinator(phase: usize, out: &mut String) -> Result<(), AllocError>
    ensures { OnOk result (string_bytes out.new ≡ string_bytes out.old ++ (codes ", coordinator " ++ decimal (coordinator_of phase))) }
{
    put_named(", coordinator ", coordinator(phase), out)
}

// Adds what a round of a phase is for, the phase, and who coordinates it.
fn put_in_phase(name: &str, phase: usize, out: &mut String) -> Result<(), AllocError>
    ensures { OnOk result (string_bytes out.new ≡ string_bytes out.old ++ (name.now ++ coordinated phase)) }
{
    out.push_str(name)?;
    put_named(", phase ", phase, out)?;
    put_coordinator(phase, out)
}

// Adds what a round is for.
fn put_purpose(stage: Stage, phase: usize, out: &mut String) -> Result<(), AllocError>
    ensures { OnOk result (string_bytes out.new ≡ string_bytes out.old ++ purpose stage phase) }
{
    match stage {
        Stage::Proposing => put_in_phase("proposing", phase, out),
        Stage::Collecting => put_in_phase("collecting", phase, out),
        Stage::Deciding => put_in_phase("deciding", phase, out),
        Stage::Maintaining => out.push_str("maintaining"),
    }
}

// Adds the line about a round that begins, in a block of n controllers.
fn put_round(n: usize, round: usize, set: Set, out: &mut String) -> Result<(), AllocError>
    ensures { OnOk result (string_bytes out.new ≡ string_bytes out.old ++ round_line n round set.0) }
{
    out.push_str("# round ")?;
    put_number(round, out)?;
    out.push_str(": ")?;
    put_purpose(Stage::of(n, round), round / 3, out)?;
    out.push_str(", seated ")?;
    put_set(set, out)?;
    out.push_str("\n")
}

// Adds what is said of an answer.
fn put_answer(answer: &Result<Answer<Figure>, Refusal>, out: &mut String) -> Result<(), AllocError>
    ensures { OnOk result ((text : List ℕ) × TellsAnswer (replied answer.now) text × (string_bytes out.new ≡ string_bytes out.old ++ text)) }
{
    match answer {
        Ok(Answer::Done) => out.push_str("accepted"),
        Ok(Answer::Decided(None)) => out.push_str("none"),
        Ok(Answer::Decided(Some(figure))) => put_figure(*figure, out),
        Err(why) => {
            out.push_str("refused ")?;
            put_number(u8::from(*why).into(), out)?;
            out.push_str(": ")?;
            out.push_str(why.meaning())
        }
    }
}

// How far a transcript has come: how many controllers the block has, and how many rounds are closed.
#[derive(Clone, Copy)]
struct Progress {
    opened: Option<usize>,
    closed: usize,
}

impl Progress {
    ghost use Rattle.std.specs.Prelude.{◌≡◌, ◌+◌, ◌<◌, ◌^◌};
    ghost use Rattle.run.specs.Standing.{entry};
    ghost use Rattle.protocol.specs.Transcripts.{closes_in};
    ghost use Rattle.script.specs.Statements.{written_call, replied};
    ghost use Rattle.transcript.specs.Told.{opened_first};

    // After one more call with its answer.
    fn after(
        self,
        statement: &Statement<Figure>,
        answer: &Result<Answer<Figure>, Refusal>,
    ) -> Progress
        requires { self.closed < 2 ^ 63 }
        ensures opened { result.opened ≡ opened_first self.opened (entry (written_call statement.now) (replied answer.now)) }
        ensures closed { result.closed ≡ self.closed + closes_in (written_call statement.now) (replied answer.now) }
    {
        let Progress { opened, closed } = self;
        match (statement, answer) {
            (Statement::Open { n, .. }, Ok(_)) => Progress {
                opened: opened.or(Some(*n)),
                closed,
            },
            (Statement::Close, Ok(_)) => Progress {
                opened,
                closed: closed + 1,
            },
            _ => self,
        }
    }
}

// Adds the line of the round that a call begins, if it is an accepted seat.
fn put_begun(
    progress: Progress,
    statement: &Statement<Figure>,
    answer: &Result<Answer<Figure>, Refusal>,
    out: &mut String,
) -> Result<(), AllocError>
    ensures { OnOk result (string_bytes out.new ≡ string_bytes out.old ++ begun (unwrap_or progress.opened 0) progress.closed (written_call statement.now) (replied answer.now)) }
{
    match (statement, answer) {
        (Statement::Seat(set), Ok(_)) => {
            put_round(progress.opened.unwrap_or(0), progress.closed, *set, out)
        }
        _ => Ok(()),
    }
}

// Adds the lines of a call.
fn put_call(
    progress: Progress,
    statement: &Statement<Figure>,
    answer: &Result<Answer<Figure>, Refusal>,
    out: &mut String,
) -> Result<(), AllocError>
    ensures { OnOk result ((text : List ℕ) × TellsCall (unwrap_or progress.opened 0) progress.closed (entry (written_call statement.now) (replied answer.now)) text × (string_bytes out.new ≡ string_bytes out.old ++ text)) }
{
    put_begun(progress, statement, answer, out)?;
    statement.write(out)?;
    out.push_str("  # ")?;
    put_answer(answer, out)?;
    out.push_str("\n")
}

/// Adds the lines of calls, each with its answer.
pub(crate) fn put_calls(
    lines: &[Line],
    answers: &[Result<Answer<Figure>, Refusal>],
    out: &mut String,
) -> Result<(), AllocError>
    ensures { OnOk result ((text : List ℕ) × TellsCalls None 0 (log_by numbers_of lines.now answers.now) text × (string_bytes out.new ≡ string_bytes out.old ++ text)) }
{
    let mut progress = Progress {
        opened: None,
        closed: 0,
    };
    for (line, answer) in lines.iter().zip(answers) {
        put_call(progress, &line.statement, answer, out)?;
        progress = progress.after(&line.statement, answer);
    }
    Ok(())
}
