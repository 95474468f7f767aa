ghost use Rattle.std.specs.Prelude.{◌≡◌, None};

use std::error::Error;
use std::fmt;
use values::Refusal;

/// Why nothing more is done with a run file. Displays as one line for people, with the words of the refusal:
/// `round 3: the model does not allow the move`.
#[derive(Clone, Copy, PartialEq, Eq, Debug)]
pub struct Stop {
    /// Why the file is refused, or a call that it asks for.
    pub refusal: Refusal,
    /// The round that the refused call belongs to; none for an open, and where no call was refused.
    pub round: Option<u16>,
}

impl From<Refusal> for Stop {
    ghost from_gives = { λ refusal stop. stop ≡ record { refusal = refusal; round = None } };

    fn from(refusal: Refusal) -> Stop {
        Stop {
            refusal,
            round: None,
        }
    }
}

// Tests hold what is printed: no definition has the words, so no contract can promise them.
impl fmt::Display for Stop {
    fn fmt<W: fmt::Write>(&self, f: &mut fmt::Formatter<W>) -> fmt::Result {
        if let Some(round) = self.round {
            write!(f, "round {round}: ")?;
        }
        f.write_str(self.refusal.meaning())
    }
}

impl Error for Stop {}
