ghost use Rattle.std.specs.Prelude.{◌≤◌, length};
ghost use Rattle.values.specs.Added.{Puts};
ghost use Rattle.models.specs.Laws.{Meaning};
ghost use Rattle.run.specs.Calls.{said_cell};
ghost use Rattle.run.specs.Runs.{setting, state};
ghost use Rattle.run_file.specs.Texts.{first_line, shown, controller_lines, round_words, refused_line};

use crate::headers::Header;
use crate::stops::Stop;
use run::Run;
use values::{Buffer, Cell, Kind, Refusal};

/// Writes the first line of a listing.
pub(crate) fn write_first_line(header: &Header, out: &mut Buffer)
    ensures { Puts out.old (first_line header.now) out.new }
{
    out.put_str("run ");
    out.put_numbers(&[header.n.into(), header.t.into(), header.rounds]);
    out.put_byte(b'\n');
}

// Writes what a controller's line says of its decision.
fn write_decision<K: Kind>(decision: Result<Cell<K::Row>, Refusal>, out: &mut Buffer)
    ensures { Puts out.old (shown (said_cell K.rules K.plain decision)) out.new }
{
    match decision {
        Ok(Some(row)) => K::value(&row).write(out),
        Ok(None) => out.put_str("none"),
        // A controller of the block is refused its decision only if it was seated last.
        Err(_) => out.put_str("upset"),
    }
}

/// Writes a line for each of the first n controllers.
pub(crate) fn write_controllers<K: Kind>(run: &Run<K>, n: u8, out: &mut Buffer)
    ensures { (m : Meaning) → Puts out.old (controller_lines (setting run.now) m (state run.now) n) out.new }
{
    for controller in 0..n {
        out.put_decimal(controller.into());
        out.put_byte(b' ');
        write_decision::<K>(run.decision(controller.into()), out);
        out.put_byte(b'\n');
    }
}

// Writes the round of a stop, if it has one.
fn write_round(round: Option<u16>, out: &mut Buffer)
    ensures words { Puts out.old (round_words round) out.new }
    ensures short { length (round_words round) ≤ 12 }
{
    if let Some(round) = round {
        out.put_str(" round ");
        out.put_decimal(round);
    }
}

/// Writes the line of a refused file.
pub(crate) fn write_refused_line(stop: &Stop, out: &mut Buffer)
    ensures words { Puts out.old (refused_line stop.now) out.new }
    ensures short { length (refused_line stop.now) ≤ 40 }
{
    out.put_str("refused ");
    out.put_decimal(u8::from(stop.refusal).into());
    write_round(stop.round, out);
    out.put_byte(b'\n');
}
