ghost use Rattle.std.specs.Prelude.{◌≡◌, Some, decimal};
ghost use Rattle.values.specs.Refusals.{number_of, IsOneLine};

use std::error::Error;
use std::fmt;

/// Why a call, a value or a run file was refused. Displays as its number.
///
/// Here n is how many controllers a block has, t how many are seated at one time at most, and R and G how many rounds
/// and forgery lines a run file has.
#[derive(Clone, Copy, PartialEq, Eq, Debug)]
pub enum Refusal {
    /// n is 0 or above 16.
    BlockSize = 1,
    /// t is not below n: faults could seat every controller at once.
    FaultCount = 2,
    /// n is not above b + e + l, the counts of the model for t.
    Resilience = 3,
    /// The store has fewer than n * n * n + 2 * n * n + 5 * n cells.
    StoreSize = 4,
    /// The proposals are more or fewer than n.
    ProposalCount = 5,
    /// A set holds a controller whose number is n or above, or holds more than t controllers.
    SetMembers = 6,
    /// The model that seat names does not allow the move from the last set to this one.
    ForbiddenMove = 7,
    /// The call is for another turn than the run stands at, as a close before its round is seated.
    OutOfTurn = 8,
    /// The number of a controller is n or above, or a message of this round has no such column.
    NoSuchPlace = 9,
    /// The sender is honest or silent, so nothing of it is forged; or it is uniform, and is forged at receiver 0 alone.
    NotForgeable = 10,
    /// The run has closed 1,000 rounds, the most that a run has.
    RoundLimit = 11,
    /// The controller is in the set of the last closed round; before any close, in the initial set.
    WasSeated = 12,
    /// The run file is shorter than 16 bytes, or longer than 65,535.
    FileSize = 21,
    /// The header has an unknown code for the kind, the model or the stamps, or its byte 5 is not 0.
    HeaderCode = 22,
    /// An offset in the header or the length of the file is not what the header's n, R and G make it.
    Layout = 23,
    /// A value's numbers break its kind's rule, or its bytes are more or fewer than its kind's width.
    Value = 24,
    /// A forgery line's round is R or above, or is below that of the line before; or its tag is above 1; or the tag is
    /// 0 and a byte of the value is not.
    ForgeryLine = 25,
    /// The room for the text is under 512 bytes.
    TextRoom = 26,
}

impl Refusal {
    /// What the refusal means, in words for people: plain ASCII print, to stand in a line.
    ///
    /// A sentence without its capital and its stop. It says upset for a fault.
    pub fn meaning(self) -> &'static str
        ensures { IsOneLine result.now }
    {
        match self {
            Refusal::BlockSize => "the block must have from 1 to 16 controllers",
            Refusal::FaultCount => {
                "the upsets could grip the whole block at once: t must be below n"
            }
            Refusal::Resilience => {
                "the block is too small for this model and t: n must be above b + e + l"
            }
            Refusal::StoreSize => "the store is too small for a block of this size",
            Refusal::ProposalCount => "there must be exactly one proposal for each controller",
            Refusal::SetMembers => {
                "a set names a controller that the block lacks, or more than t controllers"
            }
            Refusal::ForbiddenMove => "the model does not allow the move",
            Refusal::OutOfTurn => {
                "this call is out of turn: the run takes only others at this point"
            }
            Refusal::NoSuchPlace => {
                "there is no such controller, or the message has no such column"
            }
            Refusal::NotForgeable => {
                "this sender forges nothing, or one message for all, which is given as its message to receiver 0"
            }
            Refusal::RoundLimit => "a run ends after 1,000 rounds, and this one has had them",
            Refusal::WasSeated => {
                "an upset gripped this controller in the last closed round, or before round 0 if no round is closed"
            }
            Refusal::FileSize => "the file is shorter than 16 bytes or longer than 65,535",
            Refusal::HeaderCode => {
                "the header has an unknown code for the kind, the model or stamps, or its byte 5 is not 0"
            }
            Refusal::Layout => {
                "the header gives a part of the file a wrong start, or the file is too long or too short for its header"
            }
            Refusal::Value => "a value breaks its kind's rule, or has too few or too many bytes",
            Refusal::ForgeryLine => {
                "a forgery line is for a round that the file lacks, is out of order, has a tag above 1, or has tag 0 and yet a value"
            }
            Refusal::TextRoom => "a listing needs room for at least 512 bytes of text",
        }
    }
}

impl From<Refusal> for u8 {
    ghost from_gives = { λ refusal number. number ≡ number_of refusal };

    /// The number by which people know the refusal: 1 to 12 for calls of a run, 21 to 26 for values and run files.
    fn from(refusal: Refusal) -> u8 {
        refusal as u8
    }
}

impl fmt::Display for Refusal {
    ghost output = { λ refusal. Some (decimal (number_of refusal)) };

    fn fmt<W: fmt::Write>(&self, f: &mut fmt::Formatter<W>) -> fmt::Result {
        write!(f, "{}", u8::from(*self))
    }
}

impl Error for Refusal {}
