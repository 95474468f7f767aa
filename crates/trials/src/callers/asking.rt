ghost use Rattle.std.specs.Prelude.{IfOk};
ghost use Rattle.trials.specs.Callers.{AskedTwice};

use models::{LawfulModel, Set};
use run::{Opening, Run};
use values::{Cell, Kind, Refusal};

/// Opens a block, runs a round for each of some sets and asks a controller; then runs a round for each further set and asks
/// another. Nothing is forged. The first refusal ends it.
pub fn ask_twice<K: Kind, M: LawfulModel>(
    cells: &mut [Cell<K::Row>],
    model: &M,
    opening: Opening<K::Row>,
    earlier: &[Set],
    later: &[Set],
    asked: (usize, usize),
) -> Result<(Cell<K::Row>, Cell<K::Row>), Refusal>
    ensures { IfOk result (AskedTwice K.rules K.plain opening.entry earlier.now later.now) }
{
    model.lawful();
    let mut run = Run::<K>::new(cells);
    run.open(model, opening)?;
    for set in earlier {
        run.seat(model, *set)?;
        run.close()?;
    }
    let first = run.decision(asked.0)?;
    for set in later {
        run.seat(model, *set)?;
        run.close()?;
    }
    let second = run.decision(asked.1)?;
    Ok((first, second))
}
