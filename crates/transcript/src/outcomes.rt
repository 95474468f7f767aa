ghost use Rattle.std.specs.Prelude.{◌≡◌, ℕ, ◌++◌, [], ◌∷◌, Some, List, IfOk};
ghost use Rattle.protocol.specs.Transcripts.{Transcript, Entry, cell_in};
ghost use Rattle.script.specs.Figures.{numbers_of};
ghost use Rattle.script.specs.Statements.{log_by};
ghost use Rattle.script.specs.declared.figures.Figure.{Figure};
ghost use Rattle.transcript.specs.Outcomes.{AgreeIfClean, IsDecided, IsOutcome};

use crate::tallies::Tally;
use models::Set;
use run::Answer;
use script::{Figure, Line};
use std::alloc::{AllocError, Global};
use values::Refusal;

/// The decisions that a transcript tells.
#[derive(Clone, Copy, PartialEq, Eq, Debug)]
pub enum Decisions {
    /// No filled decision was answered.
    Nothing,
    /// All filled decisions that were answered are equal, and this is their value.
    Equal(Figure),
    /// Two filled decisions that were answered differ.
    Unequal,
}

impl Decisions {
    /// With one more filled decision.
    pub(crate) fn with(self, figure: Figure) -> Decisions
        ensures { (log : Transcript) (e : Entry) → IsDecided log self → cell_in e.call e.answer ≡ Some (Some (numbers_of figure))
            → IsDecided (log ++ e ∷ []) result }
    {
        match self {
            Decisions::Nothing => Decisions::Equal(figure),
            Decisions::Equal(first) if first == figure => self,
            Decisions::Equal(_) => Decisions::Unequal,
            Decisions::Unequal => self,
        }
    }
}

/// What comes of a transcript.
#[derive(Clone, Copy, PartialEq, Eq, Debug)]
pub struct Outcome {
    /// How many rounds were closed.
    pub closed: usize,
    /// The clean coordinators whose phase was closed.
    pub clean: Set,
    /// The decisions that were answered.
    pub decisions: Decisions,
}

/// What comes of a script's lines and the answers to them. Where one list is longer, its rest counts for nothing.
pub fn outcome_of(
    heap: Global,
    lines: &[Line],
    answers: &[Result<Answer<Figure>, Refusal>],
) -> Result<Outcome, AllocError>
    ensures told { IfOk result (λ o. (means : Figure → List ℕ) → IsOutcome (log_by means lines.now answers.now) o) }
    ensures agreed { IfOk result (λ o. (means : Figure → List ℕ) → AgreeIfClean (log_by means lines.now answers.now) o) }
{
    let mut tally = Tally::new(heap);
    for (line, answer) in lines.iter().zip(answers) {
        tally.add(&line.statement, answer)?;
    }
    Ok(tally.outcome())
}
