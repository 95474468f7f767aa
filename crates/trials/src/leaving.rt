ghost use Rattle.std.specs.Prelude.{◌≡◌, true};
ghost use Rattle.models.specs.Laws.{Few};
ghost use Rattle.trials.specs.Leaving.{leaving};
ghost use Rattle.std.proofs.Common.{rules};

use models::{Class, Counts, LawfulModel, Model as FaultModel, Moved, Set, Stamped};

/// A model of faults written outside the library: a fault stays or leaves for good, and a controller that it left is
/// silent for a round.
#[derive(Clone, Copy, PartialEq, Eq, Debug)]
pub struct Leaving;

impl FaultModel for Leaving {
    ghost meaning = { λ _. leaving };

    ghost bounded = { Prim.search rules };

    ghost capped = { Prim.search rules };

    fn allows(&self, moved: Moved) -> bool {
        moved.before.0 & moved.after.0 == moved.after.0
    }

    fn class(&self, moved: Moved, controller: usize) -> Class {
        if moved.after.holds(controller) {
            Class::Free
        } else if moved.before.holds(controller) {
            Class::Silent
        } else {
            Class::Honest
        }
    }

    fn counts(&self, t: usize) -> Counts {
        let t = t.min(15);
        Counts { b: t, e: t, l: t }
    }
}

impl LawfulModel for Leaving {
    fn lawful(&self) {}
}

/// Whether a set may stay as it is: under a lawful model a set of at most t controllers may.
pub fn may_stay<M: LawfulModel>(model: &M, set: Set, t: usize) -> bool
    ensures value { result ≡ (M.Model.meaning model.now).allowed set.0 set.0 t }
    ensures law { Few set.0 t → result ≡ true }
{
    model.lawful();
    model.allows(Moved {
        before: set,
        after: set,
        t,
    })
}

/// The same of the model with stamps on it, twice.
pub fn may_stay_stamped<M: LawfulModel + Copy>(model: M, set: Set, t: usize) -> bool
    ensures value { result ≡ (M.Model.meaning model).allowed set.0 set.0 t }
    ensures law { Few set.0 t → result ≡ true }
{
    may_stay(&Stamped(Stamped(model)), set, t)
}
