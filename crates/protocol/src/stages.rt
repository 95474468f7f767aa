ghost use Rattle.std.specs.Prelude.{◌≡◌};
ghost use Rattle.protocol.specs.Stages.{stage_of, columns_of, coordinator_of};

/// How many rounds a run has at most.
pub const MOST_ROUNDS: usize = 1000;

/// What the controllers of a block do in a round.
#[derive(Clone, Copy, PartialEq, Eq, Debug)]
pub enum Stage {
    /// They vote on their values.
    Proposing,
    /// Each notes down the values that it hears: its row, of n cells.
    Collecting,
    /// They tell each other their rows, and settle on a value.
    Deciding,
    /// They keep the decision, and give it back to those who lost it.
    Maintaining,
}

impl Stage {
    /// The stage of a round of a block of n controllers; rounds are numbered from 0 on.
    pub fn of(n: usize, round: usize) -> Stage
        ensures { result ≡ stage_of n round }
    {
        // 3 * n <= round, but 3 * n may be too large for a usize
        if round / 3 >= n {
            return Stage::Maintaining;
        }
        match round % 3 {
            0 => Stage::Proposing,
            1 => Stage::Collecting,
            _ => Stage::Deciding,
        }
    }

    /// How many columns a message has at this stage in a block of n: n in a deciding round, else 1.
    pub fn columns(self, n: usize) -> usize
        ensures { result ≡ columns_of self n }
    {
        match self {
            Stage::Deciding => n,
            _ => 1,
        }
    }
}

/// The controller that coordinates a phase: the one with the phase's number.
///
/// What is heard of its row counts where the candidates of the deciding round settle nothing.
pub fn coordinator(phase: usize) -> usize
    ensures { result ≡ coordinator_of phase }
{
    phase
}
