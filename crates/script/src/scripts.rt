ghost use Rattle.std.specs.Prelude.{◌≡◌, ◌++◌, if◌then◌else◌, map, drop, Some, None, IfOk, OnOk};
ghost use Rattle.script.specs.Words.{texts, lines_of};
ghost use Rattle.script.specs.Scripts.{rules_of, keeps, kept, judged, unless_blank, said_from, calls_in, call_flaws, house_at, first_in, says_cells, cells_at, stored_in, flaw_of, kind_said};
ghost use Rattle.script.specs.declared.flaws.Wrong.TheVariants as wrong;
ghost use Rattle.script.specs.InCode.{said_line, call_of_line, result_map, IsFirst, IsStored, IsReading, KeepKnownRule};
ghost use Rattle.script.specs.Statements.{written_call};
ghost use Rattle.script.specs.Figures.{numbers_of};

use crate::figures::Figure;
use crate::flaws::{Expected, Flaw, Flaws, ScriptError, Wrong};
use crate::reading::{Misread, is, read_call, read_cells, read_house};
use crate::statements::Statement;
use crate::words::{lines, words};
use models::Standard;
use run::MOST_CELLS;
use std::alloc::{AllocError, Global};
use values::{Kind, Refusal, Setpoint, Sheet};

/// The kind of the values that a script votes on.
#[derive(Clone, Copy, PartialEq, Eq, Debug)]
pub enum ValueKind {
    /// Setpoints: the word `setpoint`.
    Setpoint,
    /// Sheets: the word `sheet`.
    Sheet,
}

/// What a script votes on, and in what kind of house: its first line.
#[derive(Clone, Copy, PartialEq, Eq, Debug)]
pub struct House {
    /// The kind of the values.
    pub kind: ValueKind,
    /// The model, without its stamps.
    pub base: Standard,
    /// How many layers of stamps there are.
    pub stamps: usize,
}

/// A line of a script that is a call.
#[derive(Drop)]
pub struct Line {
    /// Its number, from 1 on.
    pub number: usize,
    /// The call.
    pub statement: Statement<Figure>,
}

/// A script: what it votes on, and its calls.
#[derive(Drop)]
pub struct Script {
    /// What its first line says.
    pub house: House,
    /// How many cells the store has.
    pub cells: usize,
    /// The number of the line that says the cells; 0 if none does.
    pub cells_line: usize,
    /// Its calls, in their order.
    pub lines: Vec<Line>,
    /// The number of the line behind the last line feed.
    pub end: usize,
}

// A line that has words, with its number.
#[derive(Drop)]
struct Said<'t> {
    number: usize,
    // There is one at least.
    words: Vec<&'t [u8]>,
}

// Adds a line, if it has words.
fn add_said<'t>(
    number: usize,
    words: Vec<&'t [u8]>,
    found: &mut Vec<Said<'t>>,
) -> Result<(), AllocError>
    ensures { OnOk result (map said_line found.new.items ≡ map said_line found.old.items ++ unless_blank number (texts words.entry.items)) }
{
    if !words.is_empty() {
        found.push(Said { number, words })?;
    }
    Ok(())
}

// The lines that have words, with their numbers from 1 on.
fn said_lines<'t>(heap: Global, lines: &[&'t [u8]]) -> Result<Vec<Said<'t>>, AllocError>
    ensures { IfOk result (λ found. map said_line found.items ≡ said_from 1 (texts lines.now)) }
{
    let mut found = Vec::new(heap);
    for (index, line) in lines.iter().enumerate() {
        let words = words(heap, line)?;
        add_said(index + 1, words, &mut found)?;
    }
    Ok(found)
}

// Whether a figure keeps the rule of a kind.
fn is_kept(kind: ValueKind, figure: Figure) -> bool
    ensures { result ≡ (rules_of kind).allowed (numbers_of figure) }
{
    match (kind, figure) {
        (ValueKind::Setpoint, Figure::Setpoint(tenths)) => Setpoint::checked(&tenths).is_some(),
        (ValueKind::Sheet, Figure::Sheet(shares)) => Sheet::checked(&shares).is_some(),
        _ => false,
    }
}

// Whether all figures of a call keep the rule of a kind.
fn are_kept(kind: ValueKind, statement: &Statement<Figure>) -> bool
    ensures { result ≡ keeps (rules_of kind) (written_call statement.now) }
{
    match statement {
        Statement::Open { proposals, .. } => {
            proposals.iter().all(|figure| is_kept(kind, *figure))
        }
        Statement::Forge(_, Some(figure)) => is_kept(kind, *figure),
        _ => true,
    }
}

// What the words of a call's line come to.
fn judge(
    heap: Global,
    kind: Option<ValueKind>,
    words: &[&[u8]],
) -> Result<Result<Statement<Figure>, Wrong>, AllocError>
    ensures { IfOk result (λ r. result_map written_call r ≡ judged kind (texts words.now)) }
{
    match read_call(heap, words) {
        Ok(statement) => match kind {
            Some(kind) if !are_kept(kind, &statement) => Ok(Err(Wrong::Refused(Refusal::Value))),
            _ => Ok(Ok(statement)),
        },
        Err(Misread::Expected(expected)) => Ok(Err(Wrong::Expected(expected))),
        Err(Misread::NoMemory) => Err(AllocError),
    }
}

// The calls of lines, and the flaws of those that have one.
fn read_lines(
    heap: Global,
    kind: Option<ValueKind>,
    said: &[Said],
) -> Result<(Vec<Line>, Vec<Flaw>), AllocError>
    ensures calls { IfOk result (λ r. map call_of_line r.0.items ≡ calls_in kind (map said_line said.now)) }
    ensures flaws { IfOk result (λ r. r.1.items ≡ call_flaws kind (map said_line said.now)) }
    ensures kept { IfOk result (λ r. KeepKnownRule kind r.0.items) }
{
    let mut lines = Vec::new(heap);
    let mut flaws = Vec::new(heap);
    for Said { number, words } in said {
        match judge(heap, kind, words)? {
            Ok(statement) => {
                let number = *number;
                lines.push(Line { number, statement })?;
            }
            Err(wrong) => {
                let line = *number;
                flaws.push(Flaw { line, wrong })?;
            }
        }
    }
    Ok((lines, flaws))
}

impl<'t> Said<'t> {
    // The flaw of this line, where something else was expected.
    fn flaw(&self, expected: Expected) -> Flaw
        ensures { result ≡ record { line = self.now.number; wrong = wrong.Expected expected } }
    {
        Flaw {
            line: self.number,
            wrong: Wrong::Expected(expected),
        }
    }

    // What it says as a first line.
    fn house(&self) -> Result<House, Flaw>
        ensures { result ≡ house_at (said_line self.now) }
    {
        match read_house(&self.words) {
            Ok(house) => Ok(house),
            Err(expected) => Err(self.flaw(expected)),
        }
    }

    // The cells of the store, and its number, if it says them.
    fn cells(&self) -> Option<Result<(usize, usize), Flaw>>
        ensures { result ≡ (if says_cells (said_line self.now).words then Some (cells_at self.now.number (drop 1 (said_line self.now).words)) else None) }
    {
        let (word, words) = self.words.split_first()?;
        if !is(word, "cells") {
            return None;
        }
        Some(match read_cells(words) {
            Ok(cells) => Ok((cells, self.number)),
            Err(expected) => Err(self.flaw(expected)),
        })
    }
}

// What the first line says, and the lines behind it. Where there is none, the line `end` is told.
fn split_house<'s, 't>(said: &'s [Said<'t>], end: usize) -> (Result<House, Flaw>, &'s [Said<'t>])
    ensures { IsFirst (first_in end (map said_line said.now)) result }
{
    match said.split_first() {
        Some((first, rest)) => (first.house(), rest),
        None => (
            Err(Flaw {
                line: end,
                wrong: Wrong::Expected(Expected::Kind),
            }),
            said,
        ),
    }
}

// The cells of the store with the number of the line that says them, and the lines behind.
fn split_cells<'s, 't>(said: &'s [Said<'t>]) -> (Result<(usize, usize), Flaw>, &'s [Said<'t>])
    ensures { IsStored (stored_in (map said_line said.now)) result }
{
    if let Some((first, rest)) = said.split_first()
        && let Some(cells) = first.cells()
    {
        return (cells, rest);
    }
    (Ok((MOST_CELLS, 0)), said)
}

// The flaw of a line, added to others if there is one.
fn add_flaw<X: Copy>(read: &Result<X, Flaw>, flaws: &mut Vec<Flaw>) -> Result<(), AllocError>
    ensures { OnOk result (flaws.new.items ≡ flaws.old.items ++ flaw_of read.now) }
{
    if let Err(flaw) = read {
        flaws.push(*flaw)?;
    }
    Ok(())
}

fn kind_of(house: &Result<House, Flaw>) -> Option<ValueKind>
    ensures { result ≡ kind_said house.now }
{
    match house {
        Ok(house) => Some(house.kind),
        Err(_) => None,
    }
}

/// Reads a script. docs/BENCH.md says what each line may have, and what is a flaw.
pub fn read(heap: Global, text: &[u8]) -> Result<Script, ScriptError>
    ensures { IsReading text.now result }
{
    let lines = lines(heap, text)?;
    let said = said_lines(heap, &lines)?;
    let (house, said) = split_house(&said, lines.len());
    let (cells, said) = split_cells(said);
    let (calls, more) = read_lines(heap, kind_of(&house), said)?;
    let mut flaws = Vec::new(heap);
    add_flaw(&house, &mut flaws)?;
    add_flaw(&cells, &mut flaws)?;
    flaws.extend_from_slice(&more)?;
    match (house, cells) {
        (Ok(house), Ok((cells, cells_line))) if flaws.is_empty() => Ok(Script {
            house,
            cells,
            cells_line,
            lines: calls,
            end: lines.len(),
        }),
        _ => Err(ScriptError::Flawed(Flaws { all: flaws })),
    }
}
