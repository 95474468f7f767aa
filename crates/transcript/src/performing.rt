ghost use Rattle.std.specs.Prelude.{◌≡◌, IfOk, None, Ok, length, map, replicate};
ghost use Rattle.values.specs.Rules.{means};
ghost use Rattle.protocol.specs.Transcripts.{Law};
ghost use Rattle.run.specs.Calls.{asked, said};
ghost use Rattle.run.specs.declared.calls.Answer.TheVariants.{Done};
ghost use Rattle.run.specs.Promises.{replies, log_of};
ghost use Rattle.script.specs.Statements.{call_by, replied};
ghost use Rattle.transcript.specs.Rows.{calls_under, over_cells, ArePerformed};

use crate::rows::{self, Scripted};
use models::LawfulModel;
use run::{Answer, Call, MOST_CELLS, play};
use script::{Figure, Line, Statement};
use std::alloc::{AllocError, Global};
use values::{Cell, Kind, Refusal};

// The calls of the lines, in a kind's rows. They own their proposals.
fn statements<K: Scripted>(
    heap: Global,
    lines: &[Line],
) -> Result<Vec<Statement<K::Row>>, AllocError>
    ensures { IfOk result (λ statements. map (call_by (means K.rules K.plain)) statements.items ≡ calls_under K.rules lines.now) }
{
    // A loop, since each statement may want memory.
    let mut statements = Vec::new(heap);
    for line in lines {
        statements.push(rows::rows::<K>(heap, &line.statement)?)?;
    }
    Ok(statements)
}

// The same calls as a run takes them: they borrow their proposals.
fn calls<K: Kind>(
    heap: Global,
    statements: &[Statement<K::Row>],
) -> Result<Vec<Call<'_, K::Row>>, AllocError>
    ensures { IfOk result (λ calls. map (asked K.rules K.plain) calls.items ≡ map (call_by (means K.rules K.plain)) statements.now) }
{
    // By a closure, here and below: the language takes no path to a generic function.
    statements
        .iter()
        .map(|statement| rows::call::<K>(statement))
        .collect(heap)
}

// An answer with a figure in place of a row.
fn in_figures<K: Scripted>(
    answer: &Result<Answer<K::Row>, Refusal>,
) -> Result<Answer<Figure>, Refusal>
    ensures { replied result ≡ said K.rules K.plain answer.now }
{
    match answer {
        Ok(Answer::Done) => Ok(Answer::Done),
        Ok(Answer::Decided(cell)) => {
            Ok(Answer::Decided(cell.map(|row| K::value(&row).figure())))
        }
        Err(why) => Err(*why),
    }
}

fn all_in_figures<K: Scripted>(
    heap: Global,
    answers: &[Result<Answer<K::Row>, Refusal>],
) -> Result<Vec<Result<Answer<Figure>, Refusal>>, AllocError>
    ensures { IfOk result (λ figures. map replied figures.items ≡ map (said K.rules K.plain) answers.now) }
{
    answers
        .iter()
        .map(|answer| in_figures::<K>(answer))
        .collect(heap)
}

// A store of so many empty cells.
fn store<R: Copy>(heap: Global, cells: usize) -> Result<Vec<Cell<R>>, AllocError>
    ensures { IfOk result (λ store. store.items ≡ replicate cells None) }
{
    vec![in heap; None; cells]
}

// So many places for answers, to be filled by `play`.
fn places<R: Copy>(
    heap: Global,
    count: usize,
) -> Result<Vec<Result<Answer<R>, Refusal>>, AllocError>
    ensures { IfOk result (λ places. places.items ≡ replicate count (Ok Done)) }
{
    vec![in heap; Ok(Answer::Done); count]
}

// The answers of a new run over so many empty cells.
fn answers<K: Kind, M: LawfulModel>(
    heap: Global,
    model: &M,
    cells: usize,
    calls: &[Call<K::Row>],
) -> Result<Vec<Result<Answer<K::Row>, Refusal>>, AllocError>
    ensures answered { IfOk result (λ answers. map (said K.rules K.plain) answers.items ≡ replies (over_cells K.rules cells) (M.meaning model.now) (map (asked K.rules K.plain) calls.now)) }
    ensures law { IfOk result (λ answers. Law (M.meaning model.now) (log_of K.rules K.plain calls.now answers.items)) }
{
    // The law of transcripts rests on that of models; the call does nothing.
    model.lawful();
    let mut store = store::<K::Row>(heap, cells)?;
    let mut answers = places::<K::Row>(heap, calls.len())?;
    play::<K, M>(&mut store, model, calls, &mut answers);
    Ok(answers)
}

// The same as `perform`, over a store of exactly so many cells.
fn perform_over<K: Scripted, M: LawfulModel>(
    heap: Global,
    model: &M,
    cells: usize,
    lines: &[Line],
) -> Result<Vec<Result<Answer<Figure>, Refusal>>, AllocError>
    ensures count { IfOk result (λ answers. length answers.items ≡ length lines.now) }
    ensures performed { IfOk result (λ answers. ArePerformed K.rules cells (M.meaning model.now) lines.now answers.items) }
{
    let statements = statements::<K>(heap, lines)?;
    let calls = calls::<K>(heap, &statements)?;
    let answers = answers::<K, M>(heap, model, cells, &calls)?;
    all_in_figures::<K>(heap, &answers)
}

/// Performs the calls of lines one after another, all under one model, on a new run over so many empty cells. Returns
/// the answer or the refusal of each call, in the order of the lines; a refused call does not end it.
///
/// A figure whose numbers break the rule of the kind, or are more or fewer than a value has, stands for the fallback.
/// The only error is want of memory. Calls and answers obey `Law`, which says how decisions agree.
pub fn perform<K: Scripted, M: LawfulModel>(
    heap: Global,
    model: &M,
    cells: usize,
    lines: &[Line],
) -> Result<Vec<Result<Answer<Figure>, Refusal>>, AllocError>
    ensures count { IfOk result (λ answers. length answers.items ≡ length lines.now) }
    ensures performed { IfOk result (λ answers. ArePerformed K.rules cells (M.meaning model.now) lines.now answers.items) }
{
    // More cells than the largest block needs serve no call.
    perform_over::<K, M>(heap, model, cells.min(MOST_CELLS), lines)
}
