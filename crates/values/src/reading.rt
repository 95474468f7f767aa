ghost use Rattle.std.specs.Prelude.{◌≡◌, ◌*◌};
ghost use Rattle.values.specs.Rules.{numbers_in};

use std::array;

/// The `N` numbers in `2 * N` bytes, two bytes each, low byte first; `None` for fewer or more bytes.
pub fn numbers<const N: usize>(bytes: &[u8]) -> Option<[u16; N]>
    ensures { result ≡ numbers_in N bytes.now }
{
    let (pairs, odd) = bytes.as_chunks::<2>();
    if pairs.len() != N || !odd.is_empty() {
        return None;
    }
    // By index: `map` on an array requires that N elements fit in memory, which nothing shows here.
    Some(array::from_fn(|i| u16::from_le_bytes(pairs[i])))
}
