ghost use Rattle.std.specs.Prelude.{◌≡◌, ◌≤◌};
ghost use Rattle.values.specs.Refusals.{TellsWhy, FindsOr};
ghost use Rattle.protocol.specs.Machine.{misfits, seat_refusal, forge_refusal, decision_refusal};
ghost use Rattle.run.specs.Checks.{IsOpened, IsSeated, why_open, bare, bare_seating};

use crate::calls::{Opening, Place};
use crate::layout::needed;
use crate::turns::{Block, Seating};
use models::{Class, MOST_CONTROLLERS, Model, Moved, Set};
use protocol::{MOST_ROUNDS, Stage};
use values::{Kind, Refusal};

// Whether a set is too large for a block: it holds a controller that the block does not have, or more than t.
fn misfits(n: usize, t: usize, set: Set) -> bool
    requires { n ≤ MOST_CONTROLLERS }
    ensures { result ≡ misfits n t set.0 }
{
    u32::from(set.0) >> n > 0 || set.size() > t
}

/// The block that an open makes, or why it is refused: the checks stand in the order of `open_refusal`.
pub(crate) fn check_open<K: Kind, M: Model>(
    model: &M,
    opening: &Opening<K::Row>,
    cells: usize,
) -> Result<Block, Refusal>
    ensures { FindsOr (IsOpened K.rules K.plain (M.meaning model.now) opening.now cells) (why_open K.rules K.plain (M.meaning model.now) opening.now cells) result }
{
    let Opening {
        n,
        t,
        proposals,
        initial,
    } = *opening;
    if n == 0 || n > MOST_CONTROLLERS {
        return Err(Refusal::BlockSize);
    }
    if t >= n {
        return Err(Refusal::FaultCount);
    }
    let counts = model.counts(t);
    if n <= counts.b + counts.e + counts.l {
        return Err(Refusal::Resilience);
    }
    if cells < needed(n) {
        return Err(Refusal::StoreSize);
    }
    if proposals.len() != n {
        return Err(Refusal::ProposalCount);
    }
    if misfits(n, t, initial) {
        return Err(Refusal::SetMembers);
    }
    Ok(Block {
        n,
        t,
        counts,
        round: 0,
        last: initial,
    })
}

/// The classes that a seat fixes, or why it is refused.
pub(crate) fn check_seat<M: Model>(model: &M, block: &Block, set: Set) -> Result<Seating, Refusal>
    ensures { FindsOr (IsSeated (M.meaning model.now) block.now set.0) (seat_refusal (M.meaning model.now) (bare block.now) set.0) result }
{
    if block.round >= MOST_ROUNDS {
        return Err(Refusal::RoundLimit);
    }
    if misfits(block.n, block.t, set) {
        return Err(Refusal::SetMembers);
    }
    let moved = Moved {
        before: block.last,
        after: set,
        t: block.t,
    };
    if !model.allows(moved) {
        return Err(Refusal::ForbiddenMove);
    }
    // In a loop: of an array that a closure fills, std promises too little to know the classes by.
    let mut classes = [Class::Honest; MOST_CONTROLLERS];
    for controller in 0..block.n {
        classes[controller] = model.class(moved, controller);
    }
    Ok(Seating { set, classes })
}

/// Why a forged cell is refused at a place, if it is.
pub(crate) fn check_forge(block: &Block, seating: &Seating, place: Place) -> Result<(), Refusal>
    ensures { TellsWhy (forge_refusal (bare block.now) (bare_seating block.now seating.now) place.sender place.receiver place.column) result }
{
    let Place {
        sender,
        receiver,
        column,
    } = place;
    let n = block.n;
    if sender >= n || receiver >= n || column >= Stage::of(n, block.round).columns(n) {
        return Err(Refusal::NoSuchPlace);
    }
    match seating.classes[sender] {
        Class::Honest | Class::Silent => Err(Refusal::NotForgeable),
        Class::Uniform if receiver > 0 => Err(Refusal::NotForgeable),
        Class::Uniform | Class::Free => Ok(()),
    }
}

/// Why a controller's decision is refused, if it is.
pub(crate) fn check_decision(block: &Block, controller: usize) -> Result<(), Refusal>
    ensures { TellsWhy (decision_refusal (bare block.now) controller) result }
{
    if controller >= block.n {
        return Err(Refusal::NoSuchPlace);
    }
    if block.last.holds(controller) {
        return Err(Refusal::WasSeated);
    }
    Ok(())
}
