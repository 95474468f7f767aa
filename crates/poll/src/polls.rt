ghost use Rattle.std.specs.Prelude.{◌≡◌, Some};
ghost use Rattle.poll.specs.declared.polls.PollError.TheVariants.{Refused, NoMemory};

use std::alloc::AllocError;
use std::fmt;
use values::{Refusal, Setpoint};

mod counting;

pub use counting::hold;

/// What the controllers of a block propose, and how each distinct value stands. Displays as lines for people.
#[derive(Drop)]
pub struct Poll {
    /// What each controller proposes, from controller 0 on, or why its bytes are refused.
    pub proposals: Vec<Result<Setpoint, Refusal>>,
    /// A standing for each distinct value, in the order in which the values first appear.
    pub standings: Vec<Standing>,
}

/// A distinct value, with how many cells hold it and how many are filled otherwise.
#[derive(Drop)]
pub struct Standing {
    /// The value that stands so.
    pub value: Setpoint,
    /// How many cells hold it.
    pub holding: usize,
    /// How many cells are filled otherwise.
    pub otherwise: usize,
}

impl fmt::Display for Standing {
    ghost use Rattle.poll.specs.Polls.{line_of};

    ghost output = { λ standing. Some (line_of standing) };

    fn fmt<W: fmt::Write>(&self, f: &mut fmt::Formatter<W>) -> fmt::Result {
        let Standing {
            value,
            holding,
            otherwise,
        } = self;
        write!(
            f,
            "value {value}: held by {holding}, filled otherwise {otherwise}"
        )
    }
}

// What a poll prints is not promised: the gate compares it with the output of an example.
impl fmt::Display for Poll {
    fn fmt<W: fmt::Write>(&self, f: &mut fmt::Formatter<W>) -> fmt::Result {
        let n = self.proposals.len();
        writeln!(f, "proposals: {n}, setpoints in tenths of a degree Celsius")?;
        for (controller, proposal) in self.proposals.iter().enumerate() {
            match proposal {
                Ok(setpoint) => writeln!(f, "controller {controller} proposes {setpoint}")?,
                Err(refusal) => writeln!(f, "controller {controller} refused {refusal}")?,
            }
        }
        for standing in &self.standings {
            writeln!(f, "{standing}")?;
        }
        Ok(())
    }
}

/// Why no poll was held. Displays as one line for people.
#[derive(Drop)]
pub enum PollError {
    /// The block is refused, with `BlockSize`.
    Refused(Refusal),
    /// The heap has not enough memory for the poll.
    NoMemory,
}

impl fmt::Display for PollError {
    fn fmt<W: fmt::Write>(&self, f: &mut fmt::Formatter<W>) -> fmt::Result {
        f.write_str(match self {
            PollError::Refused(refusal) => refusal.meaning(),
            PollError::NoMemory => "there is not memory enough",
        })
    }
}

// By hand: `hold` promises which error comes, and the `From` that `thiserror` derives has no contract.
impl From<AllocError> for PollError {
    ghost from_gives = { λ _ r. r ≡ NoMemory };

    fn from(_: AllocError) -> PollError {
        PollError::NoMemory
    }
}

impl From<Refusal> for PollError {
    ghost from_gives = { λ e r. r ≡ Refused e };

    fn from(refusal: Refusal) -> PollError {
        PollError::Refused(refusal)
    }
}
