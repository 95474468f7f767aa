ghost use Rattle.std.specs.Prelude.{◌≡◌, map, length, IfOk};
ghost use Rattle.std.specs.Result.{result_ok};
ghost use Rattle.std.specs.Option.{option_to_list};
ghost use Rattle.values.specs.Rules.{meant};
ghost use Rattle.values.specs.Setpoints.{tenths_of};
ghost use Rattle.poll.specs.Polls.{pieces, proposed, cells_of, sized, shown, unseen, counted, standings_of, told, Polled};

use crate::polls::{Poll, PollError, Standing};
use models::MOST_CONTROLLERS;
use std::alloc::{AllocError, Global};
use values::{Cell, Kind, Refusal, Setpoint, tally};

// What each controller proposes, by two bytes each, or the refusal of its bytes.
fn read_proposals(heap: Global, input: &[u8]) -> Result<Vec<Result<Setpoint, Refusal>>, AllocError>
    ensures { IfOk result (λ v. map (meant tenths_of) v.items ≡ proposed input.now) }
{
    input
        .chunks(Setpoint::WIDTH)
        .map(Setpoint::read)
        .collect(heap)
}

// How many controllers propose: an odd byte at the end counts as one.
fn controllers(input: &[u8]) -> usize
    ensures { result ≡ length (pieces input.now) }
{
    input.len().div_ceil(Setpoint::WIDTH)
}

// Refuses a block of no controllers or too many.
fn check_size(n: usize) -> Result<(), Refusal>
    ensures { result ≡ sized n }
{
    if (1..=MOST_CONTROLLERS).contains(&n) {
        Ok(())
    } else {
        Err(Refusal::BlockSize)
    }
}

// The cell of a proposal, empty where the proposal is refused.
fn cell_of(proposal: &Result<Setpoint, Refusal>) -> Cell<u16>
    ensures { shown result ≡ result_ok (meant tenths_of proposal.now) }
{
    proposal.ok().map(|setpoint| setpoint.row())
}

fn cells_of(
    heap: Global,
    proposals: &[Result<Setpoint, Refusal>],
) -> Result<Vec<Cell<u16>>, AllocError>
    ensures { IfOk result (λ v. map shown v.items ≡ cells_of (map (meant tenths_of) proposals.now)) }
{
    proposals.iter().map(cell_of).collect(heap)
}

// How the value of a cell stands among all cells, if the cell is filled and no earlier cell holds the same.
fn first_standing(earlier: &[Cell<u16>], cell: Cell<u16>, cells: &[Cell<u16>]) -> Option<Standing>
    ensures { map told (option_to_list result) ≡ map (counted (map shown cells.now)) (unseen (map shown earlier.now) (shown cell)) }
{
    let row = cell?;
    let (before, _) = tally::<Setpoint>(earlier, &row);
    if before > 0 {
        return None;
    }
    let (holding, otherwise) = tally::<Setpoint>(cells, &row);
    Some(Standing {
        value: Setpoint::value(&row),
        holding,
        otherwise,
    })
}

fn standings(heap: Global, cells: &[Cell<u16>]) -> Result<Vec<Standing>, AllocError>
    ensures { IfOk result (λ v. map told v.items ≡ standings_of (map shown cells.now)) }
{
    // A loop: std's lemma on `filter_map` asks for the standing itself, and clauses know only what it tells.
    let mut found = Vec::new(heap);
    for (i, cell) in cells.iter().enumerate() {
        if let Some(standing) = first_standing(&cells[..i], *cell, cells) {
            found.push(standing)?;
        }
    }
    Ok(found)
}

/// Reads the proposals of one block, two bytes for each controller from 0 on, and counts each distinct value.
///
/// An odd byte at the end is a proposal too, which is refused. The block is refused with `BlockSize` if there are no
/// proposals or more than 16; else it is polled, or memory is wanting (`NoMemory`).
pub fn hold(heap: Global, input: &[u8]) -> Result<Poll, PollError>
    ensures { Polled input.now result }
{
    check_size(controllers(input))?;
    let proposals = read_proposals(heap, input)?;
    let cells = cells_of(heap, &proposals)?;
    let standings = standings(heap, &cells)?;
    Ok(Poll {
        proposals,
        standings,
    })
}
