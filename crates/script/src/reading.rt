ghost use Rattle.std.specs.Prelude.{◌≡◌, map};
ghost use Rattle.std.specs.Option.{option_map};
ghost use Rattle.std.specs.Str.{bytes_eq};
ghost use Rattle.script.specs.Words.{texts};
ghost use Rattle.script.specs.Lines.{number_first, set_first, cell_first, call_in, open_in, seat_in, forge_in, close_in, decision_in, figures_in, house_in, stamps_in, cells_in, kind_of, model_of, cell_of, ended};
ghost use Rattle.script.specs.InCode.{Reads, ReadsFirst, Says};
ghost use Rattle.script.specs.Statements.{written_call};
ghost use Rattle.script.specs.Figures.{numbers_of};

use crate::figures::Figure;
use crate::flaws::Expected;
use crate::numbers::{figure, number, set};
use crate::scripts::{House, ValueKind};
use crate::statements::Statement;
use models::{Set, Standard};
use run::Place;
use std::alloc::{AllocError, Global};
use values::Cell;

// The words of a line that are not read yet.
type Words<'w> = &'w [&'w [u8]];

/// Why no statement was read from a line.
#[derive(Clone, Copy, PartialEq, Eq, Debug)]
pub(crate) enum Misread {
    /// Something else was expected.
    Expected(Expected),
    /// The heap has not enough memory.
    NoMemory,
}

impl From<Expected> for Misread {
    ghost use Rattle.script.specs.declared.reading.Misread.TheVariants as misread;

    ghost from_gives = { λ expected r. r ≡ misread.Expected expected };

    fn from(expected: Expected) -> Misread {
        Misread::Expected(expected)
    }
}

impl From<AllocError> for Misread {
    ghost use Rattle.script.specs.declared.reading.Misread.TheVariants.{NoMemory};

    ghost from_gives = { λ _ r. r ≡ NoMemory };

    fn from(_: AllocError) -> Misread {
        Misread::NoMemory
    }
}

fn next_number<'w>(words: Words<'w>) -> Result<(usize, Words<'w>), Expected>
    ensures { ReadsFirst (λ x. x) (number_first (texts words.now)) result }
{
    let (word, rest) = words.split_first().ok_or(Expected::Number)?;
    let number = number(word).ok_or(Expected::Number)?;
    Ok((number, rest))
}

fn next_set<'w>(words: Words<'w>) -> Result<(Set, Words<'w>), Expected>
    ensures { ReadsFirst (λ set. set.0) (set_first (texts words.now)) result }
{
    let (word, rest) = words.split_first().ok_or(Expected::Set)?;
    let set = set(word).ok_or(Expected::Set)?;
    Ok((set, rest))
}

/// Whether a word is this one.
pub(crate) fn is(word: &[u8], name: &str) -> bool
    ensures { result ≡ bytes_eq word.now name.now }
{
    word == name.as_bytes()
}

// What the word of a cell says: that it is empty, or its figure.
fn cell(word: &[u8]) -> Option<Cell<Figure>>
    ensures { option_map (option_map numbers_of) result ≡ cell_of word.now }
{
    if is(word, "empty") {
        return Some(None);
    }
    figure(word).map(Some)
}

fn next_cell<'w>(words: Words<'w>) -> Result<(Cell<Figure>, Words<'w>), Expected>
    ensures { ReadsFirst (option_map numbers_of) (cell_first (texts words.now)) result }
{
    let (word, rest) = words.split_first().ok_or(Expected::Cell)?;
    let cell = cell(word).ok_or(Expected::Cell)?;
    Ok((cell, rest))
}

// Refuses a line that goes on.
fn end(words: Words) -> Result<(), Expected>
    ensures { Says (λ x. x) (ended tt (texts words.now)) result }
{
    if words.is_empty() {
        Ok(())
    } else {
        Err(Expected::End)
    }
}

// Figures to the end of the line.
fn figures(heap: Global, words: Words) -> Result<Vec<Figure>, Misread>
    ensures { Reads (λ found. map numbers_of found.items) (figures_in (texts words.now)) result }
{
    let mut found = Vec::new(heap);
    for word in words {
        let figure = figure(word).ok_or(Expected::Value)?;
        found.push(figure).map_err(AllocError::from)?;
    }
    Ok(found)
}

fn read_open(heap: Global, words: Words) -> Result<Statement<Figure>, Misread>
    ensures { Reads written_call (open_in (texts words.now)) result }
{
    let (n, words) = next_number(words)?;
    let (t, words) = next_number(words)?;
    let (initial, words) = next_set(words)?;
    let proposals = figures(heap, words)?;
    Ok(Statement::Open {
        n,
        t,
        initial,
        proposals,
    })
}

fn read_seat(words: Words) -> Result<Statement<Figure>, Expected>
    ensures { Says written_call (seat_in (texts words.now)) result }
{
    let (set, words) = next_set(words)?;
    end(words)?;
    Ok(Statement::Seat(set))
}

fn read_forge(words: Words) -> Result<Statement<Figure>, Expected>
    ensures { Says written_call (forge_in (texts words.now)) result }
{
    let (sender, words) = next_number(words)?;
    let (receiver, words) = next_number(words)?;
    let (column, words) = next_number(words)?;
    let (cell, words) = next_cell(words)?;
    end(words)?;
    let place = Place {
        sender,
        receiver,
        column,
    };
    Ok(Statement::Forge(place, cell))
}

fn read_close(words: Words) -> Result<Statement<Figure>, Expected>
    ensures { Says written_call (close_in (texts words.now)) result }
{
    end(words)?;
    Ok(Statement::Close)
}

fn read_decision(words: Words) -> Result<Statement<Figure>, Expected>
    ensures { Says written_call (decision_in (texts words.now)) result }
{
    let (controller, words) = next_number(words)?;
    end(words)?;
    Ok(Statement::Decision(controller))
}

/// The call that the words of a line say.
pub(crate) fn read_call(heap: Global, words: Words) -> Result<Statement<Figure>, Misread>
    ensures { Reads written_call (call_in (texts words.now)) result }
{
    let (word, rest) = words.split_first().ok_or(Expected::Call)?;
    let word = *word;
    if is(word, "open") {
        read_open(heap, rest)
    } else if is(word, "seat") {
        Ok(read_seat(rest)?)
    } else if is(word, "forge") {
        Ok(read_forge(rest)?)
    } else if is(word, "close") {
        Ok(read_close(rest)?)
    } else if is(word, "decision") {
        Ok(read_decision(rest)?)
    } else {
        Err(Expected::Call.into())
    }
}

fn kind(word: &[u8]) -> Option<ValueKind>
    ensures { result ≡ kind_of word.now }
{
    if is(word, "setpoint") {
        Some(ValueKind::Setpoint)
    } else if is(word, "sheet") {
        Some(ValueKind::Sheet)
    } else {
        None
    }
}

fn model(word: &[u8]) -> Option<Standard>
    ensures { result ≡ model_of word.now }
{
    if is(word, "aware") {
        Some(Standard::Aware)
    } else if is(word, "unaware") {
        Some(Standard::Unaware)
    } else if is(word, "buffered") {
        Some(Standard::Buffered)
    } else if is(word, "carried") {
        Some(Standard::Carried)
    } else if is(word, "fixed") {
        Some(Standard::Fixed)
    } else {
        None
    }
}

// How many layers of stamps the rest of a first line names.
fn stamps(words: Words) -> Result<usize, Expected>
    ensures { Says (λ layers. layers) (stamps_in (texts words.now)) result }
{
    for word in words {
        if !is(word, "stamped") {
            return Err(Expected::Stamped);
        }
    }
    Ok(words.len())
}

/// What the words of a first line say.
pub(crate) fn read_house(words: Words) -> Result<House, Expected>
    ensures { Says (λ house. house) (house_in (texts words.now)) result }
{
    let (word, words) = words.split_first().ok_or(Expected::Kind)?;
    let kind = kind(word).ok_or(Expected::Kind)?;
    let (word, words) = words.split_first().ok_or(Expected::Model)?;
    let base = model(word).ok_or(Expected::Model)?;
    let stamps = stamps(words)?;
    Ok(House { kind, base, stamps })
}

/// How many cells the words behind `cells` say.
pub(crate) fn read_cells(words: Words) -> Result<usize, Expected>
    ensures { Says (λ cells. cells) (cells_in (texts words.now)) result }
{
    let (cells, words) = next_number(words)?;
    end(words)?;
    Ok(cells)
}
