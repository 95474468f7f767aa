ghost use Rattle.std.specs.Prelude.{◌≡◌, ◌≢◌, None, length, take, IfSome};
ghost use Rattle.run_file.specs.Listings.{lent, listing_of};
ghost use Rattle.trials.specs.Listed.{Agreed};

use run_file::list;
use values::{Cell, Shares};

/// Lists a file, and returns the length of the text, or nothing if the file is refused.
pub fn list_vote(
    file: &[u8],
    setpoints: &mut [Cell<u16>],
    sheets: &mut [Cell<Shares>],
    text: &mut [u8],
) -> Option<usize>
    ensures vote { IfSome result (λ len. Agreed file.now (take len text.new)) }
    ensures refused { result ≡ None → (listing_of (length text.old) (lent setpoints.old sheets.old) file.now).stop ≢ None }
{
    let listing = list(file, setpoints, sheets, text);
    match listing.stop {
        None => Some(listing.len),
        Some(_) => None,
    }
}
