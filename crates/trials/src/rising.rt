ghost use Rattle.trials.specs.Rising.{rising};
ghost use Rattle.std.proofs.Common.{rules};

use models::{Class, Counts, LawfulModel, Model as FaultModel, Moved, Standard};

/// A model made of one of the table by narrowing its moves: as unaware, but the number of the set never falls, so that a
/// single fault stays or moves to a controller with a higher number.
#[derive(Clone, Copy, PartialEq, Eq, Debug)]
pub struct Rising;

impl FaultModel for Rising {
    ghost meaning = { λ _. rising };

    ghost bounded = { Prim.search rules };

    ghost capped = { Prim.search rules };

    fn allows(&self, moved: Moved) -> bool {
        moved.before.0 <= moved.after.0
    }

    fn class(&self, moved: Moved, controller: usize) -> Class {
        Standard::Unaware.class(moved, controller)
    }

    fn counts(&self, t: usize) -> Counts {
        Standard::Unaware.counts(t)
    }
}

impl LawfulModel for Rising {
    fn lawful(&self) {
        Standard::Unaware.lawful();
    }
}
