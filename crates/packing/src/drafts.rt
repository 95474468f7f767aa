ghost use Rattle.std.specs.Prelude.{◌≡◌, ◌≤◌, length, None, Ok, OnOk, IfOk, map};
ghost use Rattle.std.specs.Option.{option_map};
ghost use Rattle.protocol.specs.Machine.{Seat, Forge};
ghost use Rattle.script.specs.Figures.{numbers_of};
ghost use Rattle.script.specs.Statements.{written_call};
ghost use Rattle.packing.specs.Bytes.{most_in_byte};
ghost use Rattle.packing.specs.Packed.{is_large, place_misfit, turn_misfit, room_misfit, end_misfit, added, no_rounds, drafted, round_of, numbered, unless, misfit_of};
ghost use Rattle.packing.specs.InCode.{drawn, forged_by, IsFound, IsMade};

use crate::layouts::Layout;
use crate::misfits::{Misfit, PackError};
use models::Set;
use run::Place;
use run_file::MOST_BYTES;
use script::{Figure, Line, Statement, ValueKind};
use std::alloc::{AllocError, Global};
use values::Cell;

/// What the calls behind the open have come to.
#[derive(Clone, Copy)]
pub(crate) enum Stage {
    /// No round is seated, and no decision was asked for.
    Rounds,
    /// The round of this number is seated.
    Seated(u16),
    /// Decisions are asked for.
    Decisions,
}

/// What a sender tells a receiver in a column of a round.
#[derive(Clone, Copy)]
pub(crate) struct Forgery {
    /// The round, by its number.
    pub round: u16,
    /// Who tells it.
    pub sender: u8,
    /// Who is told.
    pub receiver: u8,
    /// The column of the message.
    pub column: u8,
    /// What is told.
    pub cell: Cell<Figure>,
}

/// The rounds of a run file, as far as a script's calls have come.
#[derive(Drop)]
pub(crate) struct Draft {
    /// Where the calls stand.
    pub stage: Stage,
    /// The set of each round.
    pub sets: Vec<Set>,
    /// What the rounds forge, in their order.
    pub forgeries: Vec<Forgery>,
}

/// Whether a number has no room in one byte.
pub(crate) fn is_large(number: usize) -> bool
    ensures { result ≡ is_large number }
{
    number > usize::from(u8::MAX)
}

// Refuses places that a forgery line cannot name.
fn check_place(call: &Statement<Figure>) -> Result<(), Misfit>
    ensures { IsFound (place_misfit (written_call call.now)) result }
{
    match call {
        Statement::Forge(place, _)
            if is_large(place.sender) || is_large(place.receiver) || is_large(place.column) => {
            Err(Misfit::LargeNumber)
        }
        _ => Ok(()),
    }
}

// Refuses a call that cannot come now.
fn check_turn(stage: Stage, call: &Statement<Figure>) -> Result<(), Misfit>
    ensures { IsFound (turn_misfit stage (written_call call.now)) result }
{
    match (call, stage) {
        (Statement::Open { .. }, _) => Err(Misfit::SecondOpen),
        (Statement::Forge(..) | Statement::Close, Stage::Seated(_)) => Ok(()),
        (Statement::Forge(..) | Statement::Close, _) => Err(Misfit::NoRound),
        (Statement::Seat(_) | Statement::Decision(_), Stage::Seated(_)) => {
            Err(Misfit::RoundNotClosed)
        }
        (Statement::Seat(_), Stage::Decisions) => Err(Misfit::AfterDecision),
        (Statement::Seat(_) | Statement::Decision(_), _) => Ok(()),
    }
}

// Refuses an end while a round is seated.
fn check_end(stage: Stage) -> Result<(), Misfit>
    ensures { IsFound (end_misfit stage) result }
{
    match stage {
        Stage::Seated(_) => Err(Misfit::RoundNotClosed),
        _ => Ok(()),
    }
}

// The number of the round that is seated; 0 where none is.
fn round_of(stage: Stage) -> u16
    ensures { result ≡ round_of stage }
{
    match stage {
        Stage::Seated(round) => round,
        _ => 0,
    }
}

impl Draft {
    fn new(heap: Global) -> Draft
        ensures { drawn result ≡ no_rounds }
    {
        Draft {
            stage: Stage::Rounds,
            sets: Vec::new(heap),
            forgeries: Vec::new(heap),
        }
    }

    // Refuses a draft whose file would be too long.
    fn check_room(&self, kind: ValueKind, n: u8) -> Result<(), Misfit>
        requires sets { length (drawn self.now).sets ≤ MOST_BYTES }
        requires forged { length (drawn self.now).forged ≤ MOST_BYTES }
        ensures { IsFound (room_misfit kind n (drawn self.now)) result }
    {
        let layout = Layout::of(kind, n, self.sets.len(), self.forgeries.len());
        if layout.end > MOST_BYTES {
            Err(Misfit::NoRoom)
        } else {
            Ok(())
        }
    }

    fn seat(&mut self, set: Set) -> Result<(), AllocError>
        requires { length (drawn self.now).sets ≤ MOST_BYTES }
        ensures { OnOk result (drawn self.new ≡ added (drawn self.old) (Seat set.0)) }
    {
        let round = self.sets.len() as u16;
        self.sets.push(set)?;
        self.stage = Stage::Seated(round);
        Ok(())
    }

    fn forge(&mut self, place: Place, cell: Cell<Figure>) -> Result<(), AllocError>
        requires { (place.sender ≤ most_in_byte) × (place.receiver ≤ most_in_byte) × (place.column ≤ most_in_byte) }
        ensures { OnOk result (drawn self.new ≡ added (drawn self.old) (Forge place.sender place.receiver place.column (option_map numbers_of cell))) }
    {
        self.forgeries.push(Forgery {
            round: round_of(self.stage),
            sender: place.sender as u8,
            receiver: place.receiver as u8,
            column: place.column as u8,
            cell,
        })?;
        Ok(())
    }

    // Adds a call that fits.
    fn add(&mut self, call: &Statement<Figure>) -> Result<(), AllocError>
        requires place { place_misfit (written_call call.now) ≡ None }
        requires room { length (drawn self.now).sets ≤ MOST_BYTES }
        ensures { OnOk result (drawn self.new ≡ added (drawn self.old) (written_call call.now)) }
    {
        match call {
            // No open fits here.
            Statement::Open { .. } => {}
            Statement::Seat(set) => self.seat(*set)?,
            Statement::Forge(place, cell) => self.forge(*place, *cell)?,
            Statement::Close => self.stage = Stage::Rounds,
            Statement::Decision(_) => self.stage = Stage::Decisions,
        }
        Ok(())
    }

    // Adds a line, unless it does not fit.
    fn add_line(&mut self, kind: ValueKind, n: u8, line: &Line) -> Result<(), PackError>
        requires { room_misfit kind n (drawn self.now) ≡ None }
        ensures added { OnOk result (drawn self.new ≡ added (drawn self.old) (written_call line.now.statement)) }
        ensures fits { IsMade (λ x. x) (unless line.now.number (misfit_of kind n (drawn self.old) (written_call line.now.statement)) (Ok tt)) result }
        ensures room { OnOk result (room_misfit kind n (drawn self.new) ≡ None) }
    {
        let call = &line.statement;
        check_place(call).map_err(|misfit| misfit.at(line.number))?;
        check_turn(self.stage, call).map_err(|misfit| misfit.at(line.number))?;
        self.add(call)?;
        self.check_room(kind, n)
            .map_err(|misfit| misfit.at(line.number))?;
        Ok(())
    }

    /// The draft of the lines behind the line of an open, for a block of n; or the first of them that does not fit.
    pub(crate) fn of(
        heap: Global,
        kind: ValueKind,
        n: u8,
        open_line: usize,
        lines: &[Line],
    ) -> Result<Draft, PackError>
        ensures made { IsMade drawn (drafted kind n open_line no_rounds (map numbered lines.now)) result }
        ensures room { IfOk result (λ draft. room_misfit kind n (drawn draft) ≡ None) }
    {
        let mut draft = Draft::new(heap);
        let mut last = open_line;
        for line in lines {
            draft.add_line(kind, n, line)?;
            last = line.number;
        }
        check_end(draft.stage).map_err(|misfit| misfit.at(last))?;
        Ok(draft)
    }
}
