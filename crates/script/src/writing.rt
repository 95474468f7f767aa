ghost use Rattle.std.specs.Prelude.{◌≡◌, if◌then◌else◌, [], ◌∷◌, ◌++◌, map, codes, decimal, replicate, string_bytes, OnOk};
ghost use Rattle.std.specs.Option.{option_map};
ghost use Rattle.script.specs.Figures.{numbers_of};
ghost use Rattle.script.specs.Written.{written_figure, written_set, written_cell, behind_blanks, kind_word, model_word};

use crate::figures::Figure;
use crate::scripts::{House, ValueKind};
use crate::statements::Statement;
use models::{MOST_CONTROLLERS, Set, Standard};
use run::Place;
use std::alloc::AllocError;
use values::{Cell, Shares};

/// Adds a number in decimal.
pub fn put_number(number: usize, out: &mut String) -> Result<(), AllocError>
    ensures { OnOk result (string_bytes out.new ≡ string_bytes out.old ++ decimal number) }
{
    let mut digits = itoa::Buffer::new();
    out.push_str(digits.format(number))
}

/// Adds a figure: its numbers, with a slash between two.
pub fn put_figure(figure: Figure, out: &mut String) -> Result<(), AllocError>
    ensures { OnOk result (string_bytes out.new ≡ string_bytes out.old ++ written_figure (numbers_of figure)) }
{
    match figure {
        Figure::Setpoint(tenths) => put_number(tenths.into(), out),
        Figure::Sheet(shares) => put_shares(shares, out),
    }
}

fn put_shares(shares: Shares, out: &mut String) -> Result<(), AllocError>
    ensures { OnOk result (string_bytes out.new ≡ string_bytes out.old ++ written_figure (numbers_of (Figure.Sheet shares))) }
{
    put_number(shares.zone0.into(), out)?;
    out.push_str("/")?;
    put_number(shares.zone1.into(), out)?;
    out.push_str("/")?;
    put_number(shares.zone2.into(), out)?;
    out.push_str("/")?;
    put_number(shares.zone3.into(), out)
}

// Adds a member of a set, behind a comma unless it is the first.
fn put_member(first: bool, member: usize, out: &mut String) -> Result<(), AllocError>
    ensures { OnOk result (string_bytes out.new ≡ string_bytes out.old ++ ((if first then [] else 44 ∷ []) ++ decimal member)) }
{
    if !first {
        out.push_str(",")?;
    }
    put_number(member, out)
}

/// Adds a set: its members between braces, with a comma between two.
pub fn put_set(set: Set, out: &mut String) -> Result<(), AllocError>
    ensures { OnOk result (string_bytes out.new ≡ string_bytes out.old ++ written_set set.0) }
{
    out.push_str("{")?;
    let mut first = true;
    for controller in 0..MOST_CONTROLLERS {
        if set.holds(controller) {
            put_member(first, controller, out)?;
            first = false;
        }
    }
    out.push_str("}")
}

// Adds a cell: its figure, or the word `empty`.
fn put_cell(cell: Cell<Figure>, out: &mut String) -> Result<(), AllocError>
    ensures { OnOk result (string_bytes out.new ≡ string_bytes out.old ++ written_cell (option_map numbers_of cell)) }
{
    match cell {
        None => out.push_str("empty"),
        Some(figure) => put_figure(figure, out),
    }
}

// Adds a number behind a blank.
fn put_number_behind(number: usize, out: &mut String) -> Result<(), AllocError>
    ensures { OnOk result (string_bytes out.new ≡ string_bytes out.old ++ (32 ∷ decimal number)) }
{
    out.push_str(" ")?;
    put_number(number, out)
}

// Adds a set behind a blank.
fn put_set_behind(set: Set, out: &mut String) -> Result<(), AllocError>
    ensures { OnOk result (string_bytes out.new ≡ string_bytes out.old ++ (32 ∷ written_set set.0)) }
{
    out.push_str(" ")?;
    put_set(set, out)
}

// Adds the figures, each behind a blank.
fn put_figures(figures: &[Figure], out: &mut String) -> Result<(), AllocError>
    ensures { OnOk result (string_bytes out.new ≡ string_bytes out.old ++ behind_blanks (map written_figure (map numbers_of figures.now))) }
{
    for figure in figures {
        out.push_str(" ")?;
        put_figure(*figure, out)?;
    }
    Ok(())
}

// Adds what an open takes, word by word.
fn put_opening(
    n: usize,
    t: usize,
    initial: Set,
    proposals: &[Figure],
    out: &mut String,
) -> Result<(), AllocError>
    ensures { OnOk result (string_bytes out.new ≡ string_bytes out.old ++ behind_blanks (decimal n ∷ decimal t ∷ written_set initial.0 ∷ map written_figure (map numbers_of proposals.now))) }
{
    put_number_behind(n, out)?;
    put_number_behind(t, out)?;
    put_set_behind(initial, out)?;
    put_figures(proposals, out)
}

// Adds the numbers of a place, each behind a blank.
fn put_place(place: Place, out: &mut String) -> Result<(), AllocError>
    ensures { OnOk result (string_bytes out.new ≡ string_bytes out.old ++ ((32 ∷ decimal place.sender) ++ ((32 ∷ decimal place.receiver) ++ (32 ∷ decimal place.column)))) }
{
    put_number_behind(place.sender, out)?;
    put_number_behind(place.receiver, out)?;
    put_number_behind(place.column, out)
}

impl Statement<Figure> {
    ghost use Rattle.std.specs.Prelude.{◌≡◌, ◌++◌, string_bytes, OnOk};
    ghost use Rattle.std.specs.Prelude.{Ok};
    ghost use Rattle.script.specs.Words.{words_of};
    ghost use Rattle.script.specs.Lines.{call_in};
    ghost use Rattle.script.specs.Written.{written, IsWritable};
    ghost use Rattle.script.specs.Statements.{written_call};

    /// Adds the call as a line of a script has it: its words, with a blank between two. Read again, the line is the call.
    #[tactic(auto, using(crate::proofs::RereadingCalls::call_again))]
    pub fn write(&self, out: &mut String) -> Result<(), AllocError>
        ensures text { OnOk result (string_bytes out.new ≡ string_bytes out.old ++ written (written_call self.now)) }
        ensures back { IsWritable (written_call self.now) → call_in (words_of (written (written_call self.now))) ≡ Ok (written_call self.now) }
    {
        match self {
            Statement::Open {
                n,
                t,
                initial,
                proposals,
            } => {
                out.push_str("open")?;
                put_opening(*n, *t, *initial, proposals, out)
            }
            Statement::Seat(set) => {
                out.push_str("seat")?;
                put_set_behind(*set, out)
            }
            Statement::Forge(place, cell) => {
                out.push_str("forge")?;
                put_place(*place, out)?;
                out.push_str(" ")?;
                put_cell(*cell, out)
            }
            Statement::Close => out.push_str("close"),
            Statement::Decision(controller) => {
                out.push_str("decision")?;
                put_number_behind(*controller, out)
            }
        }
    }
}

fn kind_name(kind: ValueKind) -> &'static str
    ensures { result.now ≡ kind_word kind }
{
    match kind {
        ValueKind::Setpoint => "setpoint",
        ValueKind::Sheet => "sheet",
    }
}

fn model_name(model: Standard) -> &'static str
    ensures { result.now ≡ model_word model }
{
    match model {
        Standard::Aware => "aware",
        Standard::Unaware => "unaware",
        Standard::Buffered => "buffered",
        Standard::Carried => "carried",
        Standard::Fixed => "fixed",
    }
}

// Adds the word `stamped` so often, each behind a blank.
fn put_stamps(layers: usize, out: &mut String) -> Result<(), AllocError>
    ensures { OnOk result (string_bytes out.new ≡ string_bytes out.old ++ behind_blanks (replicate layers (codes "stamped"))) }
{
    let mut left = layers;
    while left > 0 {
        out.push_str(" stamped")?;
        left -= 1;
    }
    Ok(())
}

impl House {
    ghost use Rattle.std.specs.Prelude.{◌≡◌, ◌++◌, string_bytes, OnOk, Ok};
    ghost use Rattle.script.specs.Words.{words_of};
    ghost use Rattle.script.specs.Lines.{house_in};
    ghost use Rattle.script.specs.Written.{written_house};

    /// Adds the first line of a script that says this. Read again, the line says it.
    #[tactic(auto, using(crate::proofs::RereadingCalls::house_again))]
    pub fn write(&self, out: &mut String) -> Result<(), AllocError>
        ensures text { OnOk result (string_bytes out.new ≡ string_bytes out.old ++ written_house self.now) }
        ensures back { house_in (words_of (written_house self.now)) ≡ Ok self.now }
    {
        out.push_str(kind_name(self.kind))?;
        out.push_str(" ")?;
        out.push_str(model_name(self.base))?;
        put_stamps(self.stamps, out)
    }
}
