ghost use Rattle.std.specs.Prelude.{◌≡◌, ◌^◌};
ghost use Rattle.std.specs.Option.{option_map};
ghost use Rattle.models.specs.declared.sets.TheConstants.{MOST_CONTROLLERS};
ghost use Rattle.script.specs.Numbers.{is_numeral, number_below, number_of, figure_of, set_of};
ghost use Rattle.script.specs.Figures.{numbers_of};

use crate::figures::Figure;
use crate::words::cut;
use models::{MOST_CONTROLLERS, Set};
use std::str;
use values::Shares;

// Whether a word is of digits alone.
fn is_numeral(word: &[u8]) -> bool
    ensures { result ≡ is_numeral word.now }
{
    !word.is_empty() && word.iter().all(|byte| byte.is_ascii_digit())
}

/// The number that a word writes in decimal digits, if it is one that a call takes.
pub(crate) fn number(word: &[u8]) -> Option<usize>
    ensures { result ≡ number_of word.now }
{
    // `parse` alone would take a plus.
    if !is_numeral(word) {
        return None;
    }
    let Ok(digits) = str::from_utf8(word) else {
        unreachable!()
    };
    digits.parse().ok()
}

// The number of at most 16 bits that a word writes.
fn short_number(word: &[u8]) -> Option<u16>
    ensures { result ≡ number_below (2 ^ 16) word.now }
{
    u16::try_from(number(word)?).ok()
}

// The controller that a word writes, if a set can hold it.
fn member(word: &[u8]) -> Option<usize>
    ensures { result ≡ number_below MOST_CONTROLLERS word.now }
{
    number(word).filter(|member| *member < MOST_CONTROLLERS)
}

/// The figure that a word writes: one number, or four with a slash between two.
pub(crate) fn figure(word: &[u8]) -> Option<Figure>
    ensures { option_map numbers_of result ≡ figure_of word.now }
{
    let (first, rest) = cut(word, b'/');
    let first = short_number(first)?;
    let Some(rest) = rest else {
        return Some(Figure::Setpoint(first));
    };
    let (second, rest) = cut(rest, b'/');
    let (third, rest) = cut(rest?, b'/');
    let (fourth, rest) = cut(rest?, b'/');
    if rest.is_some() {
        return None;
    }
    Some(Figure::Sheet(Shares {
        zone0: first,
        zone1: short_number(second)?,
        zone2: short_number(third)?,
        zone3: short_number(fourth)?,
    }))
}

/// The set that a word writes: its members between braces, with a comma between two.
pub(crate) fn set(word: &[u8]) -> Option<Set>
    ensures { option_map (λ s. s.0) result ≡ set_of word.now }
{
    let [b'{', inside @ .., b'}'] = word else {
        return None;
    };
    let mut members = 0;
    let mut rest = Some(inside).filter(|inside| !inside.is_empty());
    while let Some(text) = rest {
        let (first, after) = cut(text, b',');
        members |= 1u16 << member(first)?;
        rest = after;
    }
    Some(Set(members))
}
