use crate::numbers::number_at;
use models::Standard;
use values::Refusal;

/// The kind of the values in a run file.
#[derive(Clone, Copy)]
pub enum ValueKind {
    /// Setpoints, of two bytes each: code 0.
    Setpoint,
    /// Sheets, of eight bytes each: code 1.
    Sheet,
}

/// The header of a run file.
#[derive(Clone, Copy)]
pub struct Header {
    /// The kind of the values, by its code in byte 0.
    pub kind: ValueKind,
    /// The model of faults, by its code in byte 1.
    pub model: Standard,
    /// Whether there are stamps: byte 2.
    pub stamps: bool,
    /// How many controllers the block has: byte 3.
    pub n: u8,
    /// How many of them are seated at one time at most: byte 4.
    pub t: u8,
    /// How many rounds there are: bytes 6 and 7.
    pub rounds: u16,
    /// How many forgery lines there are: bytes 8 and 9.
    pub forgeries: u16,
    /// The byte of the file at which the proposals start: bytes 10 and 11.
    pub proposals_at: u16,
    /// The byte at which the sets start: bytes 12 and 13.
    pub sets_at: u16,
    /// The byte at which the forgery lines start: bytes 14 and 15.
    pub forgeries_at: u16,
}

// How many bytes a run file has at least.
const LEAST_BYTES: usize = 16;

/// How many bytes a run file has at most; `list` refuses a longer one with `FileSize`.
pub const MOST_BYTES: usize = 65535;

impl ValueKind {
    ghost use Rattle.std.specs.Prelude.{◌≡◌};
    ghost use Rattle.run_file.specs.Headers.{kind_with};

    /// The kind with a code; other codes have none.
    pub(crate) fn with_code(code: u8) -> Option<ValueKind>
        ensures { result ≡ kind_with code }
    {
        match code {
            0 => Some(ValueKind::Setpoint),
            1 => Some(ValueKind::Sheet),
            _ => None,
        }
    }
}

impl Header {
    ghost use Rattle.std.specs.Prelude.{◌≡◌, ◌≤◌, length};
    ghost use Rattle.run_file.specs.Headers.{header_of, coded, stamps_with};

    /// The header of a run file, or why it has none.
    pub(crate) fn read(file: &[u8]) -> Result<Header, Refusal>
        ensures { result ≡ header_of file.now }
    {
        if file.len() < LEAST_BYTES || file.len() > MOST_BYTES {
            return Err(Refusal::FileSize);
        }
        Header::coded(file).ok_or(Refusal::HeaderCode)
    }

    // The header, if each code has a meaning and byte 5 is 0.
    fn coded(file: &[u8]) -> Option<Header>
        requires { 16 ≤ length file.now }
        ensures { result ≡ coded file.now }
    {
        let kind = ValueKind::with_code(file[0])?;
        let model = Standard::try_from(file[1]).ok()?;
        let stamps = Header::with_stamps(file[2])?;
        if file[5] != 0 {
            return None;
        }
        Some(Header {
            kind,
            model,
            stamps,
            n: file[3],
            t: file[4],
            rounds: number_at(file, 6),
            forgeries: number_at(file, 8),
            proposals_at: number_at(file, 10),
            sets_at: number_at(file, 12),
            forgeries_at: number_at(file, 14),
        })
    }

    // Whether a code is with stamps or without; other codes are neither.
    fn with_stamps(code: u8) -> Option<bool>
        ensures { result ≡ stamps_with code }
    {
        match code {
            0 => Some(false),
            1 => Some(true),
            _ => None,
        }
    }
}
