//! What several tests make or read.
//!
//! A test is proved before it runs, and each call and assertion that is written in it makes that proof longer. So what
//! a test tries stands in a table, in a constant where it can, and a loop asserts all of it.
use models::{Model, Moved, Set};
use run::{Answer, Call, Opening, Place, Run};
use std::process::Abort;
use values::{Cell, Kind, Quorum, Setpoint, Shares};

pub fn shares(zone0: u16, zone1: u16, zone2: u16, zone3: u16) -> Shares {
    Shares {
        zone0,
        zone1,
        zone2,
        zone3,
    }
}

pub fn from_to(before: u16, after: u16, t: usize) -> Moved {
    Moved {
        before: Set(before),
        after: Set(after),
        t,
    }
}

pub fn quorum(at_least: usize, otherwise_at_most: usize) -> Quorum {
    Quorum {
        at_least,
        otherwise_at_most,
    }
}

// The row of the value that is read, or the number of the refusal: tests hold the number, since people know it.
pub fn read_row<K: Kind>(bytes: &[u8]) -> Result<K::Row, u8> {
    K::read(bytes).map(|value| value.row()).map_err(u8::from)
}

/// A call on a run of setpoints, short enough for a line of a table.
#[derive(Clone, Copy)]
pub enum Step<'c> {
    /// n, t, the proposals and the initial set.
    Open(usize, usize, &'c [u16], u16),
    /// The set.
    Seat(u16),
    /// The sender, the receiver, the column and the cell.
    Forge(usize, usize, usize, Cell<u16>),
    /// Nothing more.
    Close,
    /// The controller.
    Decision(usize),
}

pub fn call_of(step: Step) -> Call<u16> {
    match step {
        Step::Open(n, t, proposals, initial) => Call::Open(Opening {
            n,
            t,
            proposals,
            initial: Set(initial),
        }),
        Step::Seat(set) => Call::Seat(Set(set)),
        Step::Forge(sender, receiver, column, cell) => Call::Forge(
            Place {
                sender,
                receiver,
                column,
            },
            cell,
        ),
        Step::Close => Call::Close,
        Step::Decision(controller) => Call::Decision(controller),
    }
}

/// What a run of setpoints answers to a call, or the number of the refusal.
pub type Outcome = Result<Answer<u16>, u8>;

pub const DONE: Outcome = Ok(Answer::Done);

// By the method of each call; the tests of `play` go through `perform`.
pub fn ask<M: Model>(run: &mut Run<Setpoint>, model: &M, step: Step) -> Outcome {
    let outcome = match call_of(step) {
        Call::Open(opening) => run.open(model, opening).map(|()| Answer::Done),
        Call::Seat(set) => run.seat(model, set).map(|()| Answer::Done),
        Call::Forge(place, cell) => run.forge(place, cell).map(|()| Answer::Done),
        Call::Close => run.close().map(|()| Answer::Done),
        Call::Decision(controller) => run.decision(controller).map(Answer::Decided),
    };
    outcome.map_err(u8::from)
}

/// Makes the calls, and asserts what each comes to.
pub fn follow<M: Model>(
    rt: &impl Abort,
    run: &mut Run<Setpoint>,
    model: &M,
    steps: &[(Step, Outcome)],
) {
    for (at, (step, outcome)) in steps.iter().enumerate() {
        assert_eq!(rt; ask(run, model, *step), *outcome, "at step {at}");
    }
}

/// Makes the calls, none of which is refused.
pub fn perform<M: Model>(rt: &impl Abort, run: &mut Run<Setpoint>, model: &M, steps: &[Step]) {
    for (at, step) in steps.iter().enumerate() {
        assert_eq!(rt; ask(run, model, *step), DONE, "at step {at}");
    }
}
