ghost use Rattle.models.specs.Laws.{Lawful};
ghost use Rattle.models.specs.Stamps.{stamped};
ghost use Rattle.std.proofs.Common.{rules};

use crate::classes::{Class, Counts};
use crate::moves::Moved;
use crate::{LawfulModel, Model as FaultModel};

/// Stamps over a model: whoever would be free is uniform, e is 0, and all else is the model's.
///
/// Each message is stamped by a trusted counter (Pan, Potop-Butucaru, LIPIcs.OPODIS.2025.7), so that nobody can tell
/// two receivers different things under one stamp.
#[derive(Clone, Copy)]
pub struct Stamped<M>(pub M);

impl<M: FaultModel> FaultModel for Stamped<M> {
    ghost meaning = { λ s. stamped (M.Model.meaning s.0) };

    ghost bounded = { Prim.search rules };

    ghost capped = { Prim.search rules };

    fn allows(&self, moved: Moved) -> bool {
        self.0.allows(moved)
    }

    fn class(&self, moved: Moved, controller: usize) -> Class {
        match self.0.class(moved, controller) {
            Class::Free => Class::Uniform,
            other => other,
        }
    }

    fn counts(&self, t: usize) -> Counts {
        Counts {
            e: 0,
            ..self.0.counts(t)
        }
    }
}

/// Stamps on a lawful model make a lawful model. Calling this does nothing; its promise is the theorem.
pub fn stamps_keep_the_laws<M: FaultModel>(model: &M)
    ensures { Lawful (M.meaning model.now) → Lawful (stamped (M.meaning model.now)) }
{}

impl<M: LawfulModel> LawfulModel for Stamped<M> {
    fn lawful(&self) {
        self.0.lawful();
        stamps_keep_the_laws(&self.0);
    }
}
