ghost use Rattle.std.specs.Prelude.{◌≡◌, min, length};
ghost use Rattle.trials.specs.Played.{AllSame, AllProposed};

use models::LawfulModel;
use run::{Answer, Call, play};
use values::{Cell, Kind, Refusal};

/// Performs calls on a new run, puts their answers into the places lent for them, and returns how many were performed.
pub fn perform_all<K: Kind, M: LawfulModel>(
    cells: &mut [Cell<K::Row>],
    model: &M,
    calls: &[Call<K::Row>],
    answers: &mut [Result<Answer<K::Row>, Refusal>],
) -> usize
    ensures count { result ≡ min (length calls.now) (length answers.old) }
    ensures equal { AllSame K.rules K.plain result calls.now answers.new }
    ensures valid { AllProposed K.rules K.plain result calls.now answers.new (M.meaning model.now) }
{
    model.lawful();
    play::<K, M>(cells, model, calls, answers)
}
