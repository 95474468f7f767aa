ghost use Rattle.std.specs.Prelude.{◌≡◌, ◌≤◌};
ghost use Rattle.script.specs.Scripts.{rules_of};
ghost use Rattle.packing.specs.Bytes.{sets_start, lines_start, file_end};

use run_file::MOST_BYTES;
use script::ValueKind;
use values::{Kind, Setpoint, Sheet};

/// The byte at which the proposals start.
pub(crate) const PROPOSALS_START: u16 = 16;

// How many bytes a set has.
const SET_WIDTH: usize = 2;

// How many bytes a forgery line has before its value.
const LINE_HEAD: usize = 6;

/// Where the parts of a run file start, and where it ends.
#[derive(Clone, Copy)]
pub(crate) struct Layout {
    /// The byte at which the sets start.
    pub sets: usize,
    /// The byte at which the forgery lines start.
    pub lines: usize,
    /// How many bytes the file has.
    pub end: usize,
}

// How many bytes a value of a kind has.
fn width(kind: ValueKind) -> usize
    ensures { result ≡ (rules_of kind).width }
{
    match kind {
        ValueKind::Setpoint => Setpoint::WIDTH,
        ValueKind::Sheet => Sheet::WIDTH,
    }
}

impl Layout {
    /// The layout of a file with so many controllers, rounds and forgery lines.
    pub(crate) fn of(kind: ValueKind, n: u8, rounds: usize, lines: usize) -> Layout
        requires rounds { rounds ≤ MOST_BYTES }
        requires lines { lines ≤ MOST_BYTES }
        ensures sets { result.sets ≡ sets_start (rules_of kind).width n }
        ensures lines { result.lines ≡ lines_start (rules_of kind).width n rounds }
        ensures end { result.end ≡ file_end (rules_of kind).width n rounds lines }
    {
        let width = width(kind);
        let sets = usize::from(PROPOSALS_START) + usize::from(n) * width;
        let lines_start = sets + SET_WIDTH * (rounds + 1);
        Layout {
            sets,
            lines: lines_start,
            end: lines_start + lines * (LINE_HEAD + width),
        }
    }
}
