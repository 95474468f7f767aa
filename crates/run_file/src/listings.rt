ghost use Rattle.std.specs.Prelude.{◌≡◌, ◌↔◌, ◌≤◌, length, take, codes, None};
ghost use Rattle.run_file.specs.Headers.{header_of, model_of};
ghost use Rattle.run_file.specs.Listings.{cells_used, lent, with_header, listing_of, number_told, used_with, used_of};
ghost use Rattle.run_file.specs.Promises.{ListingLaw, IsAtFront, StaysPast};
ghost use Rattle.run_file.specs.InCode.{IsListedOr, Fits, Becomes, BecomesVote};
ghost use Rattle.run_file.specs.declared.headers.ValueKind.TheVariants as ValueKind;

use crate::headers::{Header, ValueKind};
use crate::reading::read_parts;
use crate::stops::Stop;
use crate::texts::{write_controllers, write_first_line, write_refused_line};
use crate::votes::perform;
use models::{LawfulModel, MOST_CONTROLLERS, Model, Stamped};
use protocol::decisions_agree;
use run::Run;
use values::{Buffer, Cell, Kind, Refusal, Setpoint, Shares, Sheet};

/// What `list` returns.
#[derive(Clone, Copy, PartialEq, Eq, Debug)]
pub struct Listing {
    /// How many bytes of text were written.
    pub len: usize,
    /// Why it refused, if it did: by the file, by a call that the file asks for, or by too little room.
    pub stop: Option<Stop>,
}

impl Listing {
    /// The number of the refusal; 0 if there is none.
    pub fn number(&self) -> u8
        ensures told { result ≡ number_told self.now.stop }
        ensures none { (result ≡ 0) ↔ (self.now.stop ≡ None) }
    {
        self.stop.map_or(0, |stop| stop.refusal.into())
    }
}

/// How many bytes of room `list` needs for its text; no listing is longer.
pub const LEAST_ROOM: usize = 512;

// Lists a file under a model: checks its values and lines, performs the run that it tells, and writes what the
// controllers hold then. If the file is refused nothing is written.
fn list_under_model<K: Kind, M: Model>(
    file: &[u8],
    header: &Header,
    model: &M,
    rows: &mut [K::Row; MOST_CONTROLLERS],
    cells: &mut [Cell<K::Row>],
    out: &mut Buffer,
) -> Result<(), Stop>
    requires narrow { K.rules.width ≤ 16 }
    ensures listed { IsListedOr K.rules (M.meaning model.now) (length cells.old) header.now file.now result out.old out.new }
    ensures used { StaysPast (cells_used K.rules (M.meaning model.now) (length cells.old) header.now file.now) cells.old cells.new }
{
    let parts = read_parts::<K>(file, header, rows)?;
    let mut run = Run::<K>::new(cells);
    perform(&mut run, model, header, &parts, rows)?;
    write_first_line(header, out);
    write_controllers(&run, header.n, out);
    Ok(())
}

// The same under the model that the header names, where the text of a value has at most 19 bytes.
fn list_under_named_model<K: Kind>(
    file: &[u8],
    header: &Header,
    rows: &mut [K::Row; MOST_CONTROLLERS],
    cells: &mut [Cell<K::Row>],
    out: &mut Buffer,
) -> Result<(), Stop>
    requires narrow { K.rules.width ≤ 16 }
    requires fits { Fits K.rules 19 }
    ensures becomes { BecomesVote K.rules (length cells.old) header.now file.now result out.old out.new }
    ensures used { StaysPast (cells_used K.rules (model_of header.now) (length cells.old) header.now file.now) cells.old cells.new }
{
    // The law of the listing rests on two theorems: agreement, and that the model is lawful. Their calls do nothing.
    decisions_agree();
    if header.stamps {
        let model = Stamped(header.model);
        model.lawful();
        list_under_model::<K, _>(file, header, &model, rows, cells, out)
    } else {
        header.model.lawful();
        list_under_model::<K, _>(file, header, &header.model, rows, cells, out)
    }
}

// The same for a file of either kind of values, whose header says which.
fn list_either_kind(
    file: &[u8],
    setpoints: &mut [Cell<u16>],
    sheets: &mut [Cell<Shares>],
    out: &mut Buffer,
) -> Result<(), Stop>
    ensures becomes { Becomes (ListingLaw file.now) (with_header (lent setpoints.old sheets.old) file.now (header_of file.now)) result out.old out.new }
    ensures setpoints { StaysPast (used_with (lent setpoints.old sheets.old) file.now ValueKind.Setpoint (header_of file.now)) setpoints.old setpoints.new }
    ensures sheets { StaysPast (used_with (lent setpoints.old sheets.old) file.now ValueKind.Sheet (header_of file.now)) sheets.old sheets.new }
{
    let header = Header::read(file)?;
    match header.kind {
        ValueKind::Setpoint => {
            let mut rows = [Setpoint::fallback().row(); MOST_CONTROLLERS];
            list_under_named_model::<Setpoint>(file, &header, &mut rows, setpoints, out)
        }
        ValueKind::Sheet => {
            let mut rows = [Sheet::fallback().row(); MOST_CONTROLLERS];
            list_under_named_model::<Sheet>(file, &header, &mut rows, sheets, out)
        }
    }
}

/// Lists a run file: performs the vote that it tells, and writes a first line and one for each controller of the block,
/// with the decision that it then holds; or a single line, with the number of the refusal, if the file is refused.
/// docs/FORMAT.md says when it is refused, and how the text looks.
///
/// A store is lent for each kind of values. The run uses the one of the file's kind, and writes only those cells of it
/// that the block needs; fewer than these are refused with `StoreSize`, and `run::MOST_CELLS` are always enough.
///
/// The text goes to the front of `text`, and the bytes past it stay. If `text` has under `LEAST_ROOM` bytes nothing is
/// written: the refusal is `TextRoom`, and the length 0.
pub fn list(
    file: &[u8],
    setpoints: &mut [Cell<u16>],
    sheets: &mut [Cell<Shares>],
    text: &mut [u8],
) -> Listing
    ensures text { IsAtFront (listing_of (length text.old) (lent setpoints.old sheets.old) file.now).text result.len text.old text.new }
    ensures stop { result.stop ≡ (listing_of (length text.old) (lent setpoints.old sheets.old) file.now).stop }
    ensures fits { result.len ≤ 512 }
    ensures law { ListingLaw file.now (take result.len text.new) }
    ensures vote { (result.stop ≡ None) ↔ (take 3 (take result.len text.new) ≡ codes "run") }
    ensures setpoints { StaysPast (used_of (length text.old) (lent setpoints.old sheets.old) file.now ValueKind.Setpoint) setpoints.old setpoints.new }
    ensures sheets { StaysPast (used_of (length text.old) (lent setpoints.old sheets.old) file.now ValueKind.Sheet) sheets.old sheets.new }
{
    if text.len() < LEAST_ROOM {
        return Listing {
            len: 0,
            stop: Some(Refusal::TextRoom.into()),
        };
    }
    let mut out = Buffer::over(text);
    let stop = match list_either_kind(file, setpoints, sheets, &mut out) {
        Ok(()) => None,
        Err(stop) => {
            write_refused_line(&stop, &mut out);
            Some(stop)
        }
    };
    Listing {
        len: out.len(),
        stop,
    }
}
