ghost use Rattle.std.specs.Prelude.{[], ◌∷◌, IfOk};
ghost use Rattle.trials.specs.Callers.{DecidedAlike, RunsRounds};

use models::{LawfulModel, Model, Set};
use run::{Opening, Place, Run};
use values::{Cell, Kind, Refusal};

/// A round as a user plans it.
#[derive(Clone, Copy)]
pub struct Plan<'c, R> {
    /// Who is seated.
    pub set: Set,
    /// What is forged, one place after another; a later cell at a place replaces an earlier one.
    pub forgeries: &'c [(Place, Cell<R>)],
}

/// Runs a planned round on a run that its caller holds. Forgeries that are refused are passed over.
pub fn run_round<K: Kind, M: Model>(
    run: &mut Run<K>,
    model: &M,
    plan: Plan<K::Row>,
) -> Result<(), Refusal>
    ensures { IfOk result (λ _. RunsRounds (M.meaning model.now) (plan.entry.set.0 ∷ []) 1 run.old run.new) }
{
    run.seat(model, plan.set)?;
    for (place, cell) in plan.forgeries.iter().copied() {
        let _ = run.forge(place, cell);
    }
    run.close()
}

/// A whole vote by plans, and then the decisions of two controllers. The first refusal, but of a forgery, ends it.
pub fn run_plans<K: Kind, M: LawfulModel>(
    cells: &mut [Cell<K::Row>],
    model: &M,
    opening: Opening<K::Row>,
    plans: &[Plan<K::Row>],
    asked: (usize, usize),
) -> Result<(Cell<K::Row>, Cell<K::Row>), Refusal>
    ensures { IfOk result (DecidedAlike K.rules K.plain opening.entry plans.now) }
{
    model.lawful();
    let mut run = Run::<K>::new(cells);
    run.open(model, opening)?;
    for plan in plans {
        run_round::<K, M>(&mut run, model, *plan)?;
    }
    let first = run.decision(asked.0)?;
    let second = run.decision(asked.1)?;
    Ok((first, second))
}
