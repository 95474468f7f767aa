ghost use Rattle.std.specs.Prelude.{◌≡◌, ◌++◌, ℕ, List, IfOk, OnOk, codes, decimal, string_bytes};
ghost use Rattle.script.specs.Scripts.{rules_of};
ghost use Rattle.script.specs.Statements.{log_by};
ghost use Rattle.script.specs.declared.figures.Figure.{Figure};
ghost use Rattle.transcript.specs.Layers.{under_stamps};
ghost use Rattle.models.specs.Standards.{standard};
ghost use Rattle.transcript.specs.Rows.{ArePerformed};
ghost use Rattle.transcript.specs.Outcomes.{IsOutcome};
ghost use Rattle.transcript.specs.Told.{head_lines, closed_line, clean_line, decisions_line, outcome_lines, TellsScript};
ghost use Rattle.transcript.specs.Replays.{named_model, IsReplay};

use crate::layers::Layered;
use crate::outcomes::{Decisions, Outcome, outcome_of};
use crate::performing::perform;
use crate::telling::{put_calls, put_named};
use models::Set;
use run::Answer;
use script::{Figure, Script, ValueKind, put_figure, put_number, put_set};
use std::alloc::{AllocError, Global};
use values::{Refusal, Setpoint, Sheet};

/// What a script came to when it was performed.
#[derive(Drop)]
pub struct Replay {
    /// The answer or the refusal of each call, in the order of the lines.
    pub answers: Vec<Result<Answer<Figure>, Refusal>>,
    /// What comes of them.
    pub outcome: Outcome,
}

// The answers to a script's calls.
fn answers(
    heap: Global,
    script: &Script,
) -> Result<Vec<Result<Answer<Figure>, Refusal>>, AllocError>
    ensures { IfOk result (λ answers. ArePerformed (rules_of script.now.house.kind) script.now.cells (named_model script.now.house) script.now.lines.items answers.items) }
{
    let model = Layered {
        base: script.house.base,
        layers: script.house.stamps,
    };
    match script.house.kind {
        ValueKind::Setpoint => perform::<Setpoint, _>(heap, &model, script.cells, &script.lines),
        ValueKind::Sheet => perform::<Sheet, _>(heap, &model, script.cells, &script.lines),
    }
}

/// Performs a script on a new run, under the model of its first line, over as many empty cells as it says.
///
/// The answers are the machine's to its calls, and obey the law of transcripts; the outcome is computed from the calls
/// and these answers alone. Where some controller was a clean coordinator, no two filled decisions differ. The only error
/// is want of memory.
pub fn play_script(heap: Global, script: &Script) -> Result<Replay, AllocError>
    ensures { IfOk result (λ replay. IsReplay script.now replay) }
{
    let answers = answers(heap, script)?;
    let outcome = outcome_of(heap, &script.lines, &answers)?;
    Ok(Replay { answers, outcome })
}

// Adds the first two lines: what the script votes on, and its cells.
fn put_head(script: &Script, out: &mut String) -> Result<(), AllocError>
    ensures { OnOk result (string_bytes out.new ≡ string_bytes out.old ++ head_lines script.now.house script.now.cells) }
{
    script.house.write(out)?;
    out.push_str("\ncells ")?;
    put_number(script.cells, out)?;
    out.push_str("\n")
}

// Adds what is said of the filled decisions.
fn put_decisions(decisions: Decisions, out: &mut String) -> Result<(), AllocError>
    ensures { OnOk result (string_bytes out.new ≡ string_bytes out.old ++ decisions_line decisions) }
{
    out.push_str("# filled decisions: ")?;
    match decisions {
        Decisions::Nothing => out.push_str("none\n"),
        Decisions::Equal(figure) => {
            out.push_str("all ")?;
            put_figure(figure, out)?;
            out.push_str("\n")
        }
        Decisions::Unequal => out.push_str("not all equal\n"),
    }
}

// Adds a line with a name and its number.
fn put_named_line(name: &str, number: usize, out: &mut String) -> Result<(), AllocError>
    ensures { OnOk result (string_bytes out.new ≡ string_bytes out.old ++ (name.now ++ (decimal number ++ codes "\n"))) }
{
    put_named(name, number, out)?;
    out.push_str("\n")
}

// Adds how many rounds were closed.
fn put_closed(closed: usize, out: &mut String) -> Result<(), AllocError>
    ensures { OnOk result (string_bytes out.new ≡ string_bytes out.old ++ closed_line closed) }
{
    put_named_line("# rounds closed: ", closed, out)
}

// Adds who were clean coordinators.
fn put_clean(clean: Set, out: &mut String) -> Result<(), AllocError>
    ensures { OnOk result (string_bytes out.new ≡ string_bytes out.old ++ clean_line clean.0) }
{
    out.push_str("# clean coordinators: ")?;
    put_set(clean, out)?;
    out.push_str("\n")
}

// Adds the last three lines.
fn put_outcome(outcome: &Outcome, out: &mut String) -> Result<(), AllocError>
    ensures { OnOk result (string_bytes out.new ≡ string_bytes out.old ++ outcome_lines outcome.now) }
{
    put_closed(outcome.closed, out)?;
    put_clean(outcome.clean, out)?;
    put_decisions(outcome.decisions, out)
}

/// The transcript of a script that was performed, as docs/BENCH.md has it: each call with its answer, and what came of
/// them. Where calls and answers are not as many, the rest is not told. The only error is want of memory.
pub fn tell(heap: Global, script: &Script, replay: &Replay) -> Result<String, AllocError>
    ensures { IfOk result (λ text. TellsScript script.now replay.now (string_bytes text)) }
{
    let mut out = String::new(heap);
    put_head(script, &mut out)?;
    put_calls(&script.lines, &replay.answers, &mut out)?;
    put_outcome(&replay.outcome, &mut out)?;
    Ok(out)
}
