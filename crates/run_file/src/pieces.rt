ghost use Rattle.std.specs.Prelude.{◌≤◌, ◌*◌, length};

/// Pieces of one width, one after another.
#[derive(Clone, Copy)]
pub(crate) struct Pieces<'f> {
    count: usize,
    width: usize,
    bytes: &'f [u8],
    ghost roomy: { count * width ≤ length bytes.now },
}

impl<'f> Pieces<'f> {
    ghost use Rattle.std.specs.Prelude.{◌≡◌, [], MatchOption};
    ghost use Rattle.run_file.specs.Files.{pieces};
    ghost use Rattle.run_file.specs.InCode.{pieces_of, IsFirst};

    /// So many pieces, from the first byte on.
    pub(crate) fn over(count: usize, width: usize, bytes: &'f [u8]) -> Pieces<'f>
        requires { count * width ≤ length bytes.now }
        ensures pieces { pieces_of result ≡ pieces width count bytes.now }
        ensures shape { (result.width ≡ width) × (result.count ≡ count) }
    {
        Pieces {
            count,
            width,
            bytes,
        }
    }

    /// The first piece and those after it, if there is one.
    pub(crate) fn split_first(self) -> Option<(&'f [u8], Pieces<'f>)>
        ensures { MatchOption result ((pieces_of self.entry ≡ []) × (self.entry.count ≡ 0)) (λ r. IsFirst self.entry r.0.now r.1) }
    {
        if self.count == 0 {
            return None;
        }
        let (piece, rest) = self.bytes.split_at(self.width);
        Some((
            piece,
            Pieces {
                count: self.count - 1,
                width: self.width,
                bytes: rest,
            },
        ))
    }
}
