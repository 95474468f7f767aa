ghost use Rattle.models.specs.Laws.{Meaning, Lawful};
ghost use Rattle.trials.specs.Unlawful.{AllHonest, NoMove};

/// No model that calls every controller honest is lawful.
pub fn all_honest_is_unlawful()
    ensures { (m : Meaning) → AllHonest m → Lawful m → ⊥ }
{}

/// No model that allows no move is lawful.
pub fn no_move_is_unlawful()
    ensures { (m : Meaning) → NoMove m → Lawful m → ⊥ }
{}
