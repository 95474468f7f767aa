ghost use Rattle.std.specs.Prelude.{IfOk};
ghost use Rattle.trials.specs.FirstRounds.{RunsFirstRound};

use models::{Set, Standard};
use run::{Opening, Run};
use values::{Kind, Refusal};

/// Opens a block under unaware and runs its first round, in which nothing is forged. The first refusal ends it.
pub fn first_round<K: Kind>(
    run: &mut Run<K>,
    opening: Opening<K::Row>,
    set: Set,
) -> Result<(), Refusal>
    ensures { IfOk result (λ _. RunsFirstRound opening.entry set run.old run.new) }
{
    run.open(&Standard::Unaware, opening)?;
    run.seat(&Standard::Unaware, set)?;
    run.close()?;
    Ok(())
}
