ghost use Rattle.std.specs.Prelude.{◌≡◌, map, None, IfOk, IfErr};
ghost use Rattle.script.specs.Statements.{written_call};
ghost use Rattle.packing.specs.Packed.{cells_misfit, room_misfit, opened_by, drafted, no_rounds, numbered, behind, packed};
ghost use Rattle.packing.specs.Promises.{AsksForScript, IsPackable};
ghost use Rattle.packing.specs.declared.misfits.PackError.TheVariants.{NoMemory};
ghost use Rattle.packing.specs.InCode.{drawn, opened, IsFound, Finds, IsMade};

use crate::drafts::{Draft, is_large};
use crate::files::{Opening, file};
use crate::misfits::{Misfit, PackError};
use run::MOST_CELLS;
use script::{Figure, House, Line, Script, Statement, ValueKind};
use std::alloc::Global;

// Refuses a store of fewer cells than a run file is played over.
fn check_cells(cells: usize) -> Result<(), Misfit>
    ensures { IsFound (cells_misfit cells) result }
{
    if cells < MOST_CELLS {
        Err(Misfit::FewCells)
    } else {
        Ok(())
    }
}

// What a run file has of a first call.
fn open(call: &Statement<Figure>) -> Result<Opening<'_>, Misfit>
    ensures { Finds opened (opened_by (written_call call.now)) result }
{
    let Statement::Open {
        n,
        t,
        initial,
        proposals,
    } = call
    else {
        return Err(Misfit::NoOpen);
    };
    if proposals.len() != *n {
        return Err(Misfit::ProposalCount);
    }
    if is_large(*n) || is_large(*t) {
        return Err(Misfit::LargeNumber);
    }
    Ok(Opening {
        n: *n as u8,
        t: *t as u8,
        initial: *initial,
        proposals,
    })
}

// The run file of a first call and of the lines behind it.
fn pack_behind(
    heap: Global,
    house: House,
    first: &Line,
    rest: &[Line],
) -> Result<Vec<u8>, PackError>
    ensures { IsMade (λ v. v.items) (behind house (numbered first.now) (map numbered rest.now)) result }
{
    let opening = open(&first.statement).map_err(|misfit| misfit.at(first.number))?;
    let draft = Draft::of(heap, house.kind, opening.n, first.number, rest)?;
    Ok(file(heap, house, &opening, &draft)?)
}

/// The bytes of a script's run file; or its first line that does not fit; or want of memory.
///
/// A script can be packed if its calls are one open, then rounds (a seat, any forges, a close), and then any decisions,
/// which leave no trace; if the open has a proposal for each controller, and each number that has one byte fits there; if
/// the file has room for all; and if the script says enough cells (`IsPackable`). Where its values keep the rule of their
/// kind, the file is in order, and asks for the same calls (`AsksFor`). A figure of the other kind is written as it is.
pub fn pack(heap: Global, script: &Script) -> Result<Vec<u8>, PackError>
    ensures packed { IsMade (λ v. v.items) (packed script.now) result }
    ensures fits { IfErr result (λ why. IsPackable script.now → why ≡ NoMemory) }
    ensures asks { IfOk result (λ v. AsksForScript script.now v.items) }
{
    check_cells(script.cells).map_err(|misfit| misfit.at(script.cells_line))?;
    match script.lines.split_first() {
        Some((first, rest)) => pack_behind(heap, script.house, first, rest),
        None => Err(Misfit::NoOpen.at(script.end).into()),
    }
}
