ghost use Rattle.std.specs.Prelude.{◌≤◌, OnOk};
ghost use Rattle.values.specs.Refusals.{TellsWhy};
ghost use Rattle.run_file.specs.Files.{proposals_refusal};
ghost use Rattle.run_file.specs.Lines.{lines_refusal};
ghost use Rattle.run_file.specs.InCode.{pieces_of, lines_in, HasRows, ReadsParts};

use crate::headers::Header;
use crate::lines::Line;
use crate::parts::Parts;
use crate::pieces::Pieces;
use models::MOST_CONTROLLERS;
use values::{Kind, Refusal};

// Reads the proposals into values' rows, or returns why they are refused. All are read, but only the first 16 are kept:
// no open takes a larger block.
fn read_proposals<K: Kind>(
    proposals: Pieces,
    rows: &mut [K::Row; MOST_CONTROLLERS],
) -> Result<(), Refusal>
    ensures refused { TellsWhy (proposals_refusal K.rules (pieces_of proposals.entry)) result }
    ensures read { OnOk result (HasRows K.rules K.plain proposals.entry rows.new) }
{
    let mut rest = proposals;
    let mut controller = 0;
    while let Some((bytes, after)) = rest.split_first() {
        let value = K::read(bytes)?;
        if controller < rows.len() {
            rows[controller] = value.row();
        }
        controller += 1;
        rest = after;
    }
    Ok(())
}

// Reads all forgery lines of a file with so many rounds, and returns why they are refused, if they are.
fn check_lines<K: Kind>(lines: Pieces, rounds: u16) -> Result<(), Refusal>
    requires { 6 ≤ lines.width }
    ensures { TellsWhy (lines_refusal K.rules rounds 0 (lines_in lines.entry)) result }
{
    let mut last = 0;
    let mut rest = lines;
    while let Some((bytes, after)) = rest.split_first() {
        last = Line::<K>::read(bytes, rounds, last)?.round;
        rest = after;
    }
    Ok(())
}

/// The parts of a file, with its proposals read into values' rows; or the first refusal, by the layout, a proposal or a
/// line.
pub(crate) fn read_parts<'f, K: Kind>(
    file: &'f [u8],
    header: &Header,
    rows: &mut [K::Row; MOST_CONTROLLERS],
) -> Result<Parts<'f>, Refusal>
    requires narrow { K.rules.width ≤ 16 }
    ensures { ReadsParts K.rules K.plain header.now file.now rows.new result }
{
    let parts = Parts::of(file, header, K::WIDTH)?;
    read_proposals::<K>(parts.proposals, rows)?;
    check_lines::<K>(parts.lines, header.rounds)?;
    Ok(parts)
}
