ghost use Rattle.std.specs.Prelude.{◌≡◌, ◌<◌, min, length, take, drop, slice_set};
ghost use Rattle.models.specs.Laws.{Lawful};
ghost use Rattle.protocol.specs.Transcripts.{Law};
ghost use Rattle.run.specs.Promises.{log_of, AreAnswered, TellsDecisions, ShowStateLeft, StayPastBlock};

use crate::calls::{Answer, Call};
use crate::run::Run;
use models::Model;
use protocol::decisions_agree;
use values::{Cell, Kind, Refusal};

// Puts an answer at its place. It is over any type, since then it is plain where the element at an index lies.
fn put<A: Copy>(answers: &mut [A], at: usize, answer: A)
    requires { at < length answers.old }
    ensures { answers.new ≡ slice_set answers.old at answer }
{
    answers[at] = answer;
}

/// Makes a new run over the cells and performs the calls one after another, all under one model. Call i's answer or
/// refusal is put into `answers[i]`. A refused call does not end it; the end of the calls or of the places does.
///
/// Returns how many calls were performed. The places past them stay as they are. So do the cells past those that the
/// block needs, and all cells if no block was opened. Under a lawful model the calls that were performed, beside their
/// answers, obey `Law`, which says how decisions agree.
pub fn play<K: Kind, M: Model>(
    cells: &mut [Cell<K::Row>],
    model: &M,
    calls: &[Call<K::Row>],
    answers: &mut [Result<Answer<K::Row>, Refusal>],
) -> usize
    ensures count { result ≡ min (length calls.now) (length answers.old) }
    ensures answers { AreAnswered K.rules K.plain cells.old (M.meaning model.now) (take result calls.now) (take result answers.new) }
    ensures law { Lawful (M.meaning model.now) → Law (M.meaning model.now) (log_of K.rules K.plain (take result calls.now) (take result answers.new)) }
    ensures decided { TellsDecisions K.rules K.plain result calls.now answers.new }
    ensures rest { drop result answers.new ≡ drop result answers.old }
    ensures left { ShowStateLeft K.rules K.plain cells.old (M.meaning model.now) (take result calls.now) cells.new }
    ensures past { StayPastBlock K.rules K.plain cells.old (M.meaning model.now) (take result calls.now) cells.new }
{
    // The theorem that `law` rests on; the call does nothing.
    decisions_agree();
    let count = calls.len().min(answers.len());
    let mut run = Run::<K>::new(cells);
    for at in 0..count {
        // By `get`, since generic code cannot copy a call out of a slice by its index.
        let Some(call) = calls.get(at).copied() else {
            unreachable!()
        };
        put(answers, at, run.perform(model, call));
    }
    count
}
