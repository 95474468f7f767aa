use models::{Class, Counts, LawfulModel, Model as FaultModel, Moved, Stamped, Standard};

/// A model of the table under any number of stamp layers.
#[derive(Clone, Copy, PartialEq, Eq, Debug)]
pub struct Layered {
    /// The model below the stamps.
    pub base: Standard,
    /// How many layers of stamps there are.
    pub layers: usize,
}

impl FaultModel for Layered {
    ghost use Rattle.std.proofs.Common.{rules};
    ghost use Rattle.models.specs.Standards.{standard};
    ghost use Rattle.transcript.specs.Layers.{layered, stay_bounded, stay_capped};

    ghost meaning = { layered };

    ghost bounded = { λ s. stay_bounded s.layers (standard s.base) (Prim.search rules) };

    ghost capped = { λ s. stay_capped s.layers (standard s.base) (Prim.search rules) };

    fn allows(&self, moved: Moved) -> bool {
        self.base.allows(moved)
    }

    // Stamps on stamps change nothing more.
    fn class(&self, moved: Moved, controller: usize) -> Class {
        if self.layers == 0 {
            self.base.class(moved, controller)
        } else {
            Stamped(self.base).class(moved, controller)
        }
    }

    fn counts(&self, t: usize) -> Counts {
        if self.layers == 0 {
            self.base.counts(t)
        } else {
            Stamped(self.base).counts(t)
        }
    }
}

impl LawfulModel for Layered {
    fn lawful(&self) {}
}
