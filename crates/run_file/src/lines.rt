ghost use Rattle.std.specs.Prelude.{◌≡◌, ◌≤◌, length, IfOk};
ghost use Rattle.values.specs.Refusals.{TellsWhy};
ghost use Rattle.run_file.specs.Lines.{all_zero, line, line_refusal};
ghost use Rattle.run_file.specs.InCode.{IsLine};

use crate::numbers::number_at;
use run::Place;
use values::{Cell, Kind, Refusal};

// How many bytes a line has before its value.
pub(crate) const LINE_HEAD: usize = 6;

/// A forgery line of a run file, as it is performed.
#[derive(Drop)]
pub(crate) struct Line<K: Kind> {
    /// The round that it belongs to.
    pub round: u16,
    /// Where it forges.
    pub place: Place,
    /// What it forges.
    pub cell: Cell<K::Row>,
}

impl<K: Kind> Line<K> {
    /// The line in these bytes, or why it is refused: in a file of so many rounds, after a line of the round `last`.
    pub(crate) fn read(bytes: &[u8], rounds: u16, last: u16) -> Result<Line<K>, Refusal>
        requires { 6 ≤ length bytes.now }
        ensures refused { TellsWhy (line_refusal K.rules rounds last (line bytes.now)) result }
        ensures read { IfOk result (λ x. IsLine K.rules K.plain x (line bytes.now)) }
    {
        let round = number_at(bytes, 0);
        if round >= rounds || round < last {
            return Err(Refusal::ForgeryLine);
        }
        let place = Place {
            sender: bytes[2].into(),
            receiver: bytes[3].into(),
            column: bytes[4].into(),
        };
        let value = &bytes[LINE_HEAD..];
        match bytes[5] {
            0 if all_zero(value) => Ok(Line {
                round,
                place,
                cell: None,
            }),
            1 => Ok(Line {
                round,
                place,
                cell: Some(K::read(value)?.row()),
            }),
            _ => Err(Refusal::ForgeryLine),
        }
    }
}

// Whether each byte is 0.
fn all_zero(bytes: &[u8]) -> bool
    ensures { result ≡ all_zero bytes.now }
{
    bytes.iter().all(|byte| *byte == 0)
}
