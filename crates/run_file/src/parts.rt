ghost use Rattle.std.specs.Prelude.{◌≤◌};

use crate::headers::Header;
use crate::lines::LINE_HEAD;
use crate::numbers::number_at;
use crate::pieces::Pieces;
use models::Set;
use values::Refusal;

// The byte at which the proposals start, and how many bytes a set has.
const PROPOSALS_START: usize = 16;

const SET_WIDTH: usize = 2;

/// The parts of a run file after its header.
#[derive(Clone, Copy)]
pub(crate) struct Parts<'f> {
    /// The bytes of each controller's proposal.
    pub proposals: Pieces<'f>,
    /// The set of the round before the first.
    pub initial: Set,
    /// The two bytes of each round's set.
    pub sets: Pieces<'f>,
    /// The bytes of each forgery line.
    pub lines: Pieces<'f>,
}

impl<'f> Parts<'f> {
    ghost use Rattle.std.specs.Prelude.{not, IfOk};
    ghost use Rattle.values.specs.declared.refusals.Refusal.TheVariants.{Layout};
    ghost use Rattle.protocol.specs.Machine.{◌when◌};
    ghost use Rattle.run_file.specs.Files.{laid_out};
    ghost use Rattle.values.specs.Refusals.{TellsWhy};
    ghost use Rattle.run_file.specs.InCode.{IsParted};

    /// The parts of a file, if its offsets and its length are what its counts and the width of a value give.
    pub(crate) fn of(file: &'f [u8], header: &Header, width: usize) -> Result<Parts<'f>, Refusal>
        requires { width ≤ 16 }
        ensures refused { TellsWhy (Layout when not (laid_out width header.now file.now)) result }
        ensures parts { IfOk result (λ parts. IsParted width header.now file.now parts) }
    {
        let n = usize::from(header.n);
        let rounds = usize::from(header.rounds);
        let forgeries = usize::from(header.forgeries);
        let sets_start = PROPOSALS_START + n * width;
        let lines_start = sets_start + SET_WIDTH * (rounds + 1);
        let end = lines_start + forgeries * (LINE_HEAD + width);
        if usize::from(header.proposals_at) != PROPOSALS_START
            || usize::from(header.sets_at) != sets_start
            || usize::from(header.forgeries_at) != lines_start
            || file.len() != end
        {
            return Err(Refusal::Layout);
        }
        Ok(Parts {
            proposals: Pieces::over(n, width, &file[PROPOSALS_START..]),
            initial: Set(number_at(file, sets_start)),
            sets: Pieces::over(rounds, SET_WIDTH, &file[sets_start + SET_WIDTH..]),
            lines: Pieces::over(forgeries, LINE_HEAD + width, &file[lines_start..]),
        })
    }
}
