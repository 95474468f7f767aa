ghost use Rattle.std.specs.Prelude.{◌≡◌, ◌≤◌, [], ◌∷◌, ◌++◌, map, length, None, OnOk, IfOk};
ghost use Rattle.std.specs.List.{flat_map};
ghost use Rattle.std.specs.Option.{option_map};
ghost use Rattle.models.specs.Standards.{code_of};
ghost use Rattle.script.specs.Figures.{numbers_of};
ghost use Rattle.packing.specs.Bytes.{two_bytes, value_bytes, blank, cell_bytes, line_bytes, kind_byte, stamps_byte, header_bytes, file_bytes};
ghost use Rattle.packing.specs.Packed.{room_misfit};
ghost use Rattle.packing.specs.InCode.{drawn, forged_by, opened};

use crate::drafts::{Draft, Forgery};
use crate::layouts::{Layout, PROPOSALS_START};
use models::Set;
use run_file::MOST_BYTES;
use script::{Figure, House, ValueKind};
use std::alloc::{AllocError, Global};
use values::{Cell, Shares};

/// What a run file has of an open.
#[derive(Clone, Copy)]
pub(crate) struct Opening<'s> {
    /// The number of controllers.
    pub n: u8,
    /// How many of them are seated at one time at most.
    pub t: u8,
    /// The set before the first round.
    pub initial: Set,
    /// What the controllers propose, from controller 0 on.
    pub proposals: &'s [Figure],
}

// Adds a number: two bytes, the low one first.
fn put_number(number: u16, out: &mut Vec<u8>) -> Result<(), AllocError>
    ensures { OnOk result (out.new.items ≡ out.old.items ++ two_bytes number) }
{
    out.extend_from_slice(&number.to_le_bytes())
}

fn put_numbers(numbers: &[u16], out: &mut Vec<u8>) -> Result<(), AllocError>
    ensures { OnOk result (out.new.items ≡ out.old.items ++ value_bytes numbers.now) }
{
    for number in numbers {
        put_number(*number, out)?;
    }
    Ok(())
}

// Adds the bytes of a value.
fn put_figure(figure: Figure, out: &mut Vec<u8>) -> Result<(), AllocError>
    ensures { OnOk result (out.new.items ≡ out.old.items ++ value_bytes (numbers_of figure)) }
{
    match figure {
        Figure::Setpoint(tenths) => put_number(tenths, out),
        Figure::Sheet(shares) => put_numbers(
            &[shares.zone0, shares.zone1, shares.zone2, shares.zone3],
            out,
        ),
    }
}

// What stands in the place of a value where a cell is empty.
fn blank(kind: ValueKind) -> Figure
    ensures { numbers_of result ≡ blank kind }
{
    match kind {
        ValueKind::Setpoint => Figure::Setpoint(0),
        ValueKind::Sheet => Figure::Sheet(Shares {
            zone0: 0,
            zone1: 0,
            zone2: 0,
            zone3: 0,
        }),
    }
}

// Adds the tag of a cell, and its value.
fn put_cell(kind: ValueKind, cell: Cell<Figure>, out: &mut Vec<u8>) -> Result<(), AllocError>
    ensures { OnOk result (out.new.items ≡ out.old.items ++ cell_bytes kind (option_map numbers_of cell)) }
{
    let (tag, figure) = match cell {
        None => (0, blank(kind)),
        Some(figure) => (1, figure),
    };
    out.push(tag)?;
    put_figure(figure, out)
}

fn put_forgery(kind: ValueKind, forgery: &Forgery, out: &mut Vec<u8>) -> Result<(), AllocError>
    ensures { OnOk result (out.new.items ≡ out.old.items ++ line_bytes kind (forged_by forgery.now)) }
{
    put_number(forgery.round, out)?;
    out.extend_from_slice(&[forgery.sender, forgery.receiver, forgery.column])?;
    put_cell(kind, forgery.cell, out)
}

fn put_forgeries(
    kind: ValueKind,
    forgeries: &[Forgery],
    out: &mut Vec<u8>,
) -> Result<(), AllocError>
    ensures { OnOk result (out.new.items ≡ out.old.items ++ flat_map (line_bytes kind) (map forged_by forgeries.now)) }
{
    for forgery in forgeries {
        put_forgery(kind, forgery, out)?;
    }
    Ok(())
}

fn put_proposals(proposals: &[Figure], out: &mut Vec<u8>) -> Result<(), AllocError>
    ensures { OnOk result (out.new.items ≡ out.old.items ++ flat_map value_bytes (map numbers_of proposals.now)) }
{
    for proposal in proposals {
        put_figure(*proposal, out)?;
    }
    Ok(())
}

// Adds the initial set, and then the set of each round.
fn put_sets(initial: Set, sets: &[Set], out: &mut Vec<u8>) -> Result<(), AllocError>
    ensures { OnOk result (out.new.items ≡ out.old.items ++ value_bytes (initial.0 ∷ map (λ set. set.0) sets.now)) }
{
    put_number(initial.0, out)?;
    for set in sets {
        put_number(set.0, out)?;
    }
    Ok(())
}

fn kind_byte(kind: ValueKind) -> u8
    ensures { result ≡ kind_byte kind }
{
    match kind {
        ValueKind::Setpoint => 0,
        ValueKind::Sheet => 1,
    }
}

// Adds the header of a file of this layout.
fn put_header(
    house: House,
    opening: &Opening,
    draft: &Draft,
    layout: Layout,
    out: &mut Vec<u8>,
) -> Result<(), AllocError>
    requires sets { length draft.now.sets.items ≤ layout.end }
    requires forgeries { length draft.now.forgeries.items ≤ layout.end }
    requires order { (layout.sets ≤ layout.lines) × (layout.lines ≤ layout.end) }
    requires room { layout.end ≤ MOST_BYTES }
    ensures { OnOk result (out.new.items ≡ out.old.items ++ ((kind_byte house.kind ∷ code_of house.base ∷ stamps_byte house.stamps ∷ opening.now.n ∷ opening.now.t ∷ 0 ∷ []) ++ value_bytes (length draft.now.sets.items ∷ length draft.now.forgeries.items ∷ 16 ∷ layout.sets ∷ layout.lines ∷ []))) }
{
    let kind = kind_byte(house.kind);
    let stamps = u8::from(house.stamps > 0);
    out.extend_from_slice(&[kind, house.base.into(), stamps, opening.n, opening.t, 0])?;
    let numbers = [
        draft.sets.len() as u16,
        draft.forgeries.len() as u16,
        PROPOSALS_START,
        layout.sets as u16,
        layout.lines as u16,
    ];
    put_numbers(&numbers, out)
}

/// The bytes of a run file.
pub(crate) fn file(
    heap: Global,
    house: House,
    opening: &Opening,
    draft: &Draft,
) -> Result<Vec<u8>, AllocError>
    requires { room_misfit house.kind opening.now.n (drawn draft.now) ≡ None }
    ensures { IfOk result (λ v. v.items ≡ file_bytes house (opened opening.now) (drawn draft.now).sets (drawn draft.now).forged) }
{
    let layout = Layout::of(
        house.kind,
        opening.n,
        draft.sets.len(),
        draft.forgeries.len(),
    );
    let mut out = Vec::with_capacity(heap, layout.end)?;
    put_header(house, opening, draft, layout, &mut out)?;
    put_proposals(opening.proposals, &mut out)?;
    put_sets(opening.initial, &draft.sets, &mut out)?;
    put_forgeries(house.kind, &draft.forgeries, &mut out)?;
    Ok(out)
}
