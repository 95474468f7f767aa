ghost use Rattle.std.specs.Prelude.{◌≤◌, length};
ghost use Rattle.protocol.specs.declared.stages.TheConstants.{MOST_ROUNDS};
ghost use Rattle.protocol.specs.Machine.{needed};
ghost use Rattle.run.specs.Turns.{size_of, begun};

use crate::calls::{Answer, Call, Opening, Place};
use crate::checks::{check_decision, check_forge, check_open, check_seat};
use crate::closing;
use crate::dues::Due;
use crate::store::{clear_forged, decision_at, fill_opened, put_forged};
use crate::turns::{Block, Seating, Turn};
use models::{Model, Set};
use protocol::{
    MOST_ROUNDS, decisions_agree, rounds_under_any_counts, stamped_aware_runs_algorithm_2,
    stamped_carried_runs_algorithm_3, the_machine_obeys_its_laws, unaware_runs_algorithm_1,
};
use values::{Cell, Kind, Refusal};

/// A run: the machine of `protocol`, over a store that its caller lends.
///
/// It stands idle until a block is opened; then it waits for a seat, is seated until the close, and waits again. A call
/// at another turn than its own is refused. A refused call alters neither the turn nor a cell.
#[derive(Drop)]
pub struct Run<'a, K: Kind> {
    cells: &'a mut [Cell<K::Row>],
    turn: Turn,
    ghost roomy: { needed (size_of turn) ≤ length cells.now },
    ghost limit: { begun turn ≤ MOST_ROUNDS },
}

impl<'a, K: Kind> Run<'a, K> {
    ghost use Rattle.std.specs.Prelude.{◌≡◌, MatchResult, IfErr};
    ghost use Rattle.run.specs.Dues.{IsOpen, IsDue};
    ghost use Rattle.run.specs.Promises.{ClosesAnyRound, Published, PublishedAfter};
    ghost use Rattle.run.specs.Standing.{LawWith};
    ghost use Rattle.protocol.specs.Machine as machine;
    ghost use Rattle.run.specs.Calls.{asked, said, said_done, said_cell};
    ghost use Rattle.run.specs.Runs.{setting_over, setting, state, Unaltered, Performs, PerformsAnyway, Answers};

    /// A new run, which is idle. Its store may have any number of cells, and they stay as they are; an open needs
    /// `needed(n)` of them.
    pub fn new(cells: &'a mut [Cell<K::Row>]) -> Run<'a, K>
        ensures named { result.cells.ghost_name ≡ cells.entry.ghost_name }
        ensures cells { result.cells.now ≡ cells.old }
        ensures idle { state result ≡ machine.Idle }
        ensures setting { setting result ≡ setting_over K.rules cells.old }
    {
        Run {
            cells,
            turn: Turn::Idle,
        }
    }

    // The call with what it finds at its turn, or the refusal of a call that comes at another. Only here is a call
    // looked at together with the turn.
    fn due<'c>(&self, call: Call<'c, K::Row>) -> Result<Due<'c, K::Row>, Refusal>
        ensures { MatchResult result (λ due. IsDue call.entry self.now.turn due) (λ why. Answers self.now (asked K.rules K.plain call.entry) (machine.Refused why)) }
    {
        match (call, self.turn) {
            (Call::Open(opening), Turn::Idle) => Ok(Due::Open(opening)),
            (Call::Seat(set), Turn::Waiting(block)) => Ok(Due::Seat(block, set)),
            (Call::Forge(place, cell), Turn::Seated(block, seating)) => {
                Ok(Due::Forge(block, seating, place, cell))
            }
            (Call::Close, Turn::Seated(block, seating)) => Ok(Due::Close(block, seating)),
            (Call::Decision(controller), Turn::Waiting(block) | Turn::Seated(block, _)) => {
                Ok(Due::Decision(block, controller))
            }
            _ => Err(Refusal::OutOfTurn),
        }
    }

    // An open of an idle run.
    fn open_idle<M: Model>(&mut self, model: &M, opening: Opening<K::Row>) -> Result<(), Refusal>
        requires { self.now.turn ≡ Turn.Idle }
        ensures { Performs (M.meaning model.now) (asked K.rules K.plain (Call.Open opening.entry)) (said_done K.rules K.plain result) self.old self.new }
    {
        let cells = self.cells.len();
        let block = check_open::<K, M>(model, &opening, cells)?;
        fill_opened::<K>(self.cells, opening);
        self.turn = Turn::Waiting(block);
        Ok(())
    }

    // A seat of a block that waits.
    fn seat_waiting<M: Model>(&mut self, model: &M, block: Block, set: Set) -> Result<(), Refusal>
        requires { self.now.turn ≡ Turn.Waiting block }
        ensures { Performs (M.meaning model.now) (machine.Seat set.0) (said_done K.rules K.plain result) self.old self.new }
    {
        let seating = check_seat(model, &block, set)?;
        clear_forged(self.cells, block.n);
        self.turn = Turn::Seated(block, seating);
        Ok(())
    }

    // A forge in a round that is seated.
    fn forge_seated(
        &mut self,
        block: Block,
        seating: Seating,
        place: Place,
        cell: Cell<K::Row>,
    ) -> Result<(), Refusal>
        requires { self.now.turn ≡ Turn.Seated block seating }
        ensures { PerformsAnyway (asked K.rules K.plain (Call.Forge place cell)) (said_done K.rules K.plain result) self.old self.new }
    {
        check_forge(&block, &seating, place)?;
        put_forged(self.cells, block.n, place, cell);
        Ok(())
    }

    // A close of a round that is seated. None is refused.
    fn close_seated(&mut self, block: Block, seating: Seating)
        requires { self.now.turn ≡ Turn.Seated block seating }
        ensures { PerformsAnyway machine.Close machine.Done self.old self.new }
    {
        closing::close::<K>(self.cells, &block, &seating);
        self.turn = Turn::Waiting(block.closed(seating.set));
    }

    // A decision of a block that waits or is seated.
    fn decision_of(&self, block: Block, controller: usize) -> Result<Cell<K::Row>, Refusal>
        requires { IsOpen block self.now.turn }
        ensures { Answers self.now (machine.Decision controller) (said_cell K.rules K.plain result) }
    {
        check_decision(&block, controller)?;
        Ok(decision_at::<K>(self.cells, block.n, controller))
    }

    /// Performs any of the five calls, and returns its answer or its refusal. Only an open and a seat ask the model.
    ///
    /// What each call does, and when it is refused, stands at the method with its name.
    pub fn perform<M: Model>(
        &mut self,
        model: &M,
        call: Call<K::Row>,
    ) -> Result<Answer<K::Row>, Refusal>
        ensures { Performs (M.meaning model.now) (asked K.rules K.plain call.entry) (said K.rules K.plain result) self.old self.new }
    {
        match self.due(call)? {
            Due::Open(opening) => {
                self.open_idle(model, opening)?;
                Ok(Answer::Done)
            }
            Due::Seat(block, set) => {
                self.seat_waiting(model, block, set)?;
                Ok(Answer::Done)
            }
            Due::Forge(block, seating, place, cell) => {
                self.forge_seated(block, seating, place, cell)?;
                Ok(Answer::Done)
            }
            Due::Close(block, seating) => {
                self.close_seated(block, seating);
                Ok(Answer::Done)
            }
            Due::Decision(block, controller) => {
                let cell = self.decision_of(block, controller)?;
                Ok(Answer::Decided(cell))
            }
        }
    }

    /// Opens a block: each v becomes that controller's proposal, or empty if the initial set holds it; forged cells,
    /// controllers' rows and decisions become empty. The counts of this model serve the whole run.
    ///
    /// Refused with the first that applies: `OutOfTurn` unless the run is idle, `BlockSize`, `FaultCount`, `Resilience`
    /// by the model's counts for t, `StoreSize`, `ProposalCount`, `SetMembers` for the initial set.
    pub fn open<M: Model>(&mut self, model: &M, opening: Opening<K::Row>) -> Result<(), Refusal>
        ensures { Performs (M.meaning model.now) (asked K.rules K.plain (Call.Open opening.entry)) (said_done K.rules K.plain result) self.old self.new }
    {
        self.perform(model, Call::Open(opening))?;
        Ok(())
    }

    /// Begins a round: whoever the set holds is seated, this model fixes the classes, and nothing is forged yet.
    ///
    /// Refused with the first that applies: `OutOfTurn` unless a block waits, `RoundLimit` after 1,000 rounds,
    /// `SetMembers`, `ForbiddenMove` where the model does not allow the move from the last set to this one.
    pub fn seat<M: Model>(&mut self, model: &M, set: Set) -> Result<(), Refusal>
        ensures { Performs (M.meaning model.now) (machine.Seat set.0) (said_done K.rules K.plain result) self.old self.new }
    {
        // Its type is written out, here and below, since nothing else fixes the lifetime of a call without proposals.
        let call: Call<'a, K::Row> = Call::Seat(set);
        self.perform(model, call)?;
        Ok(())
    }

    /// Puts a cell, filled or empty, at a place of a forged message, where it replaces an earlier one.
    ///
    /// Refused with the first that applies: `OutOfTurn` unless a round is seated, `NoSuchPlace`, `NotForgeable` by the
    /// sender's class, which the seat fixed.
    pub fn forge(&mut self, place: Place, cell: Cell<K::Row>) -> Result<(), Refusal>
        ensures performed { PerformsAnyway (asked K.rules K.plain (Call.Forge place cell)) (said_done K.rules K.plain result) self.old self.new }
        ensures refused { IfErr result (λ _. Unaltered self.old self.new) }
        ensures stays { setting self.new ≡ setting self.old }
    {
        let call: Call<'a, K::Row> = Call::Forge(place, cell);
        match self.due(call)? {
            Due::Forge(block, seating, ..) => self.forge_seated(block, seating, place, cell),
            _ => unreachable!(),
        }
    }

    /// Ends a round: each unseated controller computes from what was sent, and what a seated one kept is emptied. It is
    /// refused with `OutOfTurn` unless a round is seated, and for nothing else.
    ///
    /// For every unseated controller of a block with the counts of unaware, the round is one of Algorithm 1 of
    /// IS-RR-2014-004; with the counts of stamped aware or stamped carried, it is one of Algorithm 2 or Algorithm 3 of
    /// LIPIcs.OPODIS.2025.7 (docs/PUBLICATIONS.md).
    pub fn close(&mut self) -> Result<(), Refusal>
        ensures performed { PerformsAnyway machine.Close (said_done K.rules K.plain result) self.old self.new }
        ensures any_counts { ClosesAnyRound (setting self.old) (state self.old) (state self.new) }
        ensures published { Published (setting self.old) (state self.old) (state self.new) }
        ensures after_calls { PublishedAfter self.old self.new }
        ensures refused { IfErr result (λ _. Unaltered self.old self.new) }
        ensures stays { setting self.new ≡ setting self.old }
    {
        // The theorems that these promises rest on; the calls do nothing.
        rounds_under_any_counts();
        unaware_runs_algorithm_1();
        stamped_aware_runs_algorithm_2();
        stamped_carried_runs_algorithm_3();
        the_machine_obeys_its_laws();
        let call: Call<'a, K::Row> = Call::Close;
        match self.due(call)? {
            Due::Close(block, seating) => self.close_seated(block, seating),
            _ => unreachable!(),
        }
        Ok(())
    }

    /// The decision of a controller: an empty cell, or a value's row. Where rows that break the rule of their kind were
    /// proposed or forged it may be one of these, and stands for the fallback. `K::value(&row)` is the value that a row
    /// means, and `same_value` compares two.
    ///
    /// Refused with the first that applies: `OutOfTurn` if the run is idle, `NoSuchPlace` if the block has no such
    /// controller, `WasSeated`.
    pub fn decision(&self, controller: usize) -> Result<Cell<K::Row>, Refusal>
        ensures performed { PerformsAnyway (machine.Decision controller) (said_cell K.rules K.plain result) self.now self.now }
        ensures law { LawWith self.now (machine.Decision controller) (said_cell K.rules K.plain result) }
    {
        // The theorem that `law` rests on; the call does nothing.
        decisions_agree();
        let call: Call<'a, K::Row> = Call::Decision(controller);
        match self.due(call)? {
            Due::Decision(block, _) => self.decision_of(block, controller),
            _ => unreachable!(),
        }
    }
}
