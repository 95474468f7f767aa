ghost use Rattle.std.specs.Prelude.{◌≡◌, ℕ, ◌*◌, true, List, length, IsTrue, ◌↔◌};
ghost use Rattle.std.specs.Option.{option_map};
ghost use Rattle.values.specs.Added.{Puts};
ghost use Rattle.values.specs.Rules.{Rules, lawful, means, decodes, reads, meant, text};

use crate::buffers::Buffer;
use crate::refusals::Refusal;

/// A value kind: what its values mean, and how they lie in cells, are read and are written.
///
/// Whoever builds a kind of their own owes each clause and law below; code over any kind rests on them alone.
/// Values are never altered, and `read` is the one method that refuses.
pub trait Kind: Sized + Drop {
    /// A value's row: how a value lies in a cell, as plain numbers under no rule.
    ///
    /// A row may break the rule, and then means the fallback: as setpoints, the rows 100 and 950 both mean 400.
    /// Where rows have `==` it compares the plain numbers, so those two differ; `same_value` compares what rows mean.
    ///
    /// A controller's row is another thing: the n cells that a controller noted in a collecting round.
    type Row: Copy;

    /// The width: how many bytes a value is read from, two for each of its numbers.
    const WIDTH: usize;

    // the width, for clauses and laws
    ghost WIDTH: { ℕ };

    // the rule, the fallback and the width
    ghost rules: { Rules };

    // the whole numbers that a value means
    ghost meaning: { Self → List ℕ };

    // the plain numbers of a value's row
    ghost plain: { Self.Row → List ℕ };

    /// The fallback: the value that every row which breaks the rule stands for.
    fn fallback() -> Self
        ensures { meaning result ≡ rules.fallback };

    /// The value's row: its numbers, which mean that value again.
    fn row(&self) -> Self::Row
        ensures numbers { plain result ≡ meaning self.now }
        ensures back { means rules plain result ≡ meaning self.now };

    /// The value with a row's numbers; `None` if they break the rule.
    fn checked(row: &Self::Row) -> Option<Self>
        ensures { option_map meaning result ≡ lawful rules (plain row.now) };

    /// The value that a row means: the one with its numbers, or the fallback where they break the rule.
    fn value(row: &Self::Row) -> Self
        ensures { meaning result ≡ means rules plain row.now }
    {
        Self::checked(row).unwrap_or(Self::fallback())
    }

    /// Whether two values are the same: exactly if they mean equal numbers.
    fn same(&self, other: &Self) -> bool
        ensures { IsTrue result ↔ (meaning self.now ≡ meaning other.now) };

    /// The row in `WIDTH` bytes, by numbers of two bytes, low byte first; it may break the rule.
    ///
    /// `None` for fewer or more bytes.
    fn decode(bytes: &[u8]) -> Option<Self::Row>
        ensures { option_map plain result ≡ decodes rules bytes.now };

    /// Reads a value from `WIDTH` bytes, by numbers of two bytes, low byte first.
    ///
    /// Refused with `Refusal::Value` if the bytes are fewer or more, or their numbers break the rule.
    fn read(bytes: &[u8]) -> Result<Self, Refusal>
        ensures { meant meaning result ≡ reads rules bytes.now }
    {
        Self::decode(bytes)
            .and_then(|row| Self::checked(&row))
            .ok_or(Refusal::Value)
    }

    /// Adds the value's numbers to a text, in decimal and separated by one blank, as far as its room goes.
    fn write(&self, out: &mut Buffer)
        ensures { Puts out.old (text (meaning self.now)) out.new };

    // the constant is the width of the rules, so generic code can go by the constant
    ghost wide: { WIDTH ≡ rules.width };

    // every value keeps the rule
    ghost kept: { (v : Self) → rules.allowed (meaning v) ≡ true };

    // and so does the fallback
    ghost falls: { rules.allowed rules.fallback ≡ true };

    // a number takes two bytes
    ghost sized: { (xs : List ℕ) → rules.allowed xs ≡ true → rules.width ≡ 2 * length xs };
}
