ghost use Rattle.std.specs.Prelude.{◌≡◌, ℕ, ◌+◌, ◌^◌, ◌<◌, ◌≤◌, List, [], ◌∷◌, ◌++◌, true, ◌↔◌, OnOk};
ghost use Rattle.protocol.specs.Transcripts.{Transcript, Unseated};
ghost use Rattle.run.specs.Standing.{entry};
ghost use Rattle.script.specs.Statements.{call_by, replied};
ghost use Rattle.script.specs.declared.figures.Figure.{Figure};
ghost use Rattle.transcript.specs.Outcomes.{IsOutcome, WasClean, AreClean};
ghost use Rattle.transcript.specs.Tallies.{Tells};

use crate::outcomes::{Decisions, Outcome};
use models::{MOST_CONTROLLERS, Set};
use run::Answer;
use script::{Figure, Statement};
use std::alloc::{AllocError, Global};
use values::Refusal;

/// What a transcript tells, as far as it was read.
#[derive(Drop)]
pub(crate) struct Tally {
    // How many controllers the block has that was opened first.
    block: Option<usize>,
    // How many closes were accepted.
    closed: usize,
    // The sets of the accepted seats, which are those of rounds 0, 1, 2 and so on.
    sets: Vec<Set>,
    // The filled decisions.
    decisions: Decisions,
}

impl Tally {
    /// The tally of no lines.
    pub(crate) fn new(heap: Global) -> Tally
        ensures tells { Tells [] result }
        ensures closed { result.closed ≡ 0 }
    {
        Tally {
            block: None,
            closed: 0,
            sets: Vec::new(heap),
            decisions: Decisions::Nothing,
        }
    }

    /// Adds a line's call and its answer.
    pub(crate) fn add(
        &mut self,
        statement: &Statement<Figure>,
        answer: &Result<Answer<Figure>, Refusal>,
    ) -> Result<(), AllocError>
        requires { self.old.closed < 2 ^ 63 }
        ensures tells { OnOk result ((means : Figure → List ℕ) (log : Transcript) → Tells log self.old
            → Tells (log ++ entry (call_by means statement.now) (replied answer.now) ∷ []) self.new) }
        ensures closed { OnOk result (self.new.closed ≤ self.old.closed + 1) }
    {
        // A refused call adds nothing.
        let Ok(answer) = answer else { return Ok(()) };
        match statement {
            Statement::Open { n, .. } => self.block = self.block.or(Some(*n)),
            Statement::Seat(set) => self.sets.push(*set)?,
            Statement::Close => self.closed += 1,
            Statement::Decision(_) => {
                if let Answer::Decided(Some(figure)) = answer {
                    self.decisions = self.decisions.with(*figure);
                }
            }
            Statement::Forge(..) => {}
        }
        Ok(())
    }

    /// What the transcript comes to.
    pub(crate) fn outcome(&self) -> Outcome
        ensures { (log : Transcript) → Tells log self.now → IsOutcome log result }
    {
        Outcome {
            closed: self.closed,
            clean: self.clean(),
            decisions: self.decisions,
        }
    }

    // The clean coordinators whose phase is closed.
    fn clean(&self) -> Set
        ensures { (log : Transcript) → Tells log self.now → AreClean log result.0 }
    {
        let mut clean = 0;
        for controller in 0..MOST_CONTROLLERS {
            if self.was_clean(controller) {
                clean |= 1 << controller;
            }
        }
        Set(clean)
    }

    fn was_clean(&self, controller: usize) -> bool
        requires { controller < MOST_CONTROLLERS }
        ensures { (log : Transcript) → Tells log self.now → (result ≡ true) ↔ WasClean log controller }
    {
        let collecting = 3 * controller + 1;
        let deciding = 3 * controller + 2;
        self.block.is_some_and(|n| controller < n)
            && deciding < self.closed
            && self.unseated(collecting, controller)
            && self.unseated(deciding, controller)
    }

    fn unseated(&self, round: usize, controller: usize) -> bool
        ensures { (log : Transcript) → Tells log self.now → (result ≡ true) ↔ Unseated log round controller }
    {
        match self.sets.get(round) {
            Some(set) => !set.holds(controller),
            // Nobody is seated in a round that was never reached.
            None => true,
        }
    }
}
