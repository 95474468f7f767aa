ghost use Rattle.std.specs.Prelude.{◌≤◌, length};

/// A text in room that is lent for it: the first `len` bytes of `room`. What no longer fits is cut off.
// Lent, since a listing is written without allocating.
#[derive(Drop)]
pub struct Buffer<'a> {
    room: &'a mut [u8],
    len: usize,
    ghost within: { len ≤ length room.now },
}

impl<'a> Buffer<'a> {
    ghost use Rattle.std.specs.Prelude.{◌≡◌, [], ◌∷◌, decimal};
    ghost use Rattle.values.specs.Added.{Puts};
    ghost use Rattle.values.specs.Rules.{text};

    /// An empty text over `room`, whose bytes stay as they are until text is added.
    pub fn over(room: &'a mut [u8]) -> Buffer<'a>
        ensures named { result.room.ghost_name ≡ room.entry.ghost_name }
        ensures value { (result.room.now ≡ room.old) × (result.len ≡ 0) }
    {
        Buffer { room, len: 0 }
    }

    /// The length of the text in bytes.
    pub fn len(&self) -> usize
        ensures { result ≡ self.now.len }
    {
        self.len
    }

    /// Adds one byte, or nothing where the room is full.
    pub fn put_byte(&mut self, byte: u8)
        ensures { Puts self.old (byte ∷ []) self.new }
    {
        let at = self.len;
        if at < self.room.len() {
            self.room[at] = byte;
            self.len = at + 1;
        }
    }

    /// Adds a string, as far as the room goes.
    pub fn put_str(&mut self, words: &str)
        ensures { Puts self.old words.now self.new }
    {
        for byte in words.as_bytes() {
            self.put_byte(*byte);
        }
    }

    /// Adds a number in decimal, as far as the room goes: 305 adds `305`.
    // By hand: std writes digits through a `fmt::Write`, whose contract does not tell the text if the write fails.
    pub fn put_decimal(&mut self, number: u16)
        ensures { Puts self.old (decimal number) self.new }
    {
        if number >= 10 {
            self.put_decimal(number / 10);
        }
        self.put_byte(b'0' + (number % 10) as u8);
    }

    /// Adds numbers in decimal, separated by one blank, as far as the room goes: 400 and 300 add `400 300`.
    pub fn put_numbers(&mut self, numbers: &[u16])
        ensures { Puts self.old (text numbers.now) self.new }
    {
        let Some((first, rest)) = numbers.split_first() else {
            return;
        };
        self.put_decimal(*first);
        for number in rest {
            self.put_byte(b' ');
            self.put_decimal(*number);
        }
    }
}
