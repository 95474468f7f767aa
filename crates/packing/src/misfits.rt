ghost use Rattle.std.specs.Prelude.{◌≡◌};
ghost use Rattle.packing.specs.declared.misfits.PackError.TheVariants as because;

use run::MOST_CELLS;
use std::alloc::AllocError;
use std::error::Error;
use std::fmt;

/// Why a line of a script does not fit a run file.
#[derive(Clone, Copy, PartialEq, Eq, Debug)]
pub enum Misfit {
    /// The script says fewer cells than a run file is played over.
    FewCells,
    /// The first call is no open, or there is no call.
    NoOpen,
    /// The open has more or fewer proposals than controllers.
    ProposalCount,
    /// A number is larger than its one byte can tell.
    LargeNumber,
    /// An open comes after the first.
    SecondOpen,
    /// A forge or a close comes where no round is seated.
    NoRound,
    /// A round is seated, and a seat or a decision comes, or the script ends.
    RoundNotClosed,
    /// A seat comes after a decision.
    AfterDecision,
    /// The file would be too long.
    NoRoom,
}

// The gate compares what is printed with the second program's.
impl fmt::Display for Misfit {
    fn fmt<W: fmt::Write>(&self, f: &mut fmt::Formatter<W>) -> fmt::Result {
        f.write_str(match self {
            Misfit::FewCells => return write!(f, "a run file is played over {MOST_CELLS} cells"),
            Misfit::LargeNumber => {
                let most = u8::MAX;
                return write!(f, "a run file has no number above {most} here");
            }
            Misfit::NoOpen => "a run file begins with an open",
            Misfit::ProposalCount => "a run file has one proposal for each controller",
            Misfit::SecondOpen => "a run file has no second open",
            Misfit::NoRound => "a round must be seated here",
            Misfit::RoundNotClosed => "the round must be closed first",
            Misfit::AfterDecision => "only decisions can follow a decision",
            Misfit::NoRoom => "a run file has no room for more",
        })
    }
}

/// A line of a script that does not fit a run file. Displays as one line for people, as docs/BENCH.md has it.
#[derive(Clone, Copy, PartialEq, Eq, Debug)]
pub struct Unfit {
    /// The number of the line, from 1 on.
    pub line: usize,
    /// Why it does not fit.
    pub misfit: Misfit,
}

impl fmt::Display for Unfit {
    fn fmt<W: fmt::Write>(&self, f: &mut fmt::Formatter<W>) -> fmt::Result {
        let Unfit { line, misfit } = self;
        write!(f, "line {line}: {misfit}")
    }
}

impl Error for Unfit {}

/// Why no run file was made of a script. Displays as one line for people.
#[derive(Clone, Copy, PartialEq, Eq, Debug)]
pub enum PackError {
    /// The script is no run file: its first line that does not fit.
    Unfit(Unfit),
    /// The heap has not enough memory.
    NoMemory,
}

impl fmt::Display for PackError {
    fn fmt<W: fmt::Write>(&self, f: &mut fmt::Formatter<W>) -> fmt::Result {
        match self {
            PackError::Unfit(unfit) => write!(f, "{unfit}"),
            PackError::NoMemory => f.write_str("there is not memory enough"),
        }
    }
}

impl Error for PackError {}

// By hand, here and below: the contracts say which error comes.
impl From<AllocError> for PackError {
    ghost from_gives = { λ _ r. r ≡ because.NoMemory };

    fn from(_: AllocError) -> PackError {
        PackError::NoMemory
    }
}

impl From<Unfit> for PackError {
    ghost from_gives = { λ unfit r. r ≡ because.Unfit unfit };

    fn from(unfit: Unfit) -> PackError {
        PackError::Unfit(unfit)
    }
}

impl Misfit {
    ghost use Rattle.std.specs.Prelude.{◌≡◌};

    /// The misfit of a line.
    pub(crate) fn at(self, line: usize) -> Unfit
        ensures { result ≡ record { line = line; misfit = self } }
    {
        Unfit { line, misfit: self }
    }
}
