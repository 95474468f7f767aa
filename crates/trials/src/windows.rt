ghost use Rattle.std.specs.Prelude.{◌≤◌};

use values::{Buffer, Kind, numbers};

/// A part of the day in which vents may open, in minutes after midnight: from one to another that is not before it. Its
/// kind is written outside the library.
#[derive(Clone, Copy, PartialEq, Eq, Debug)]
pub struct Window {
    from: u16,
    until: u16,
    ghost day: { (from ≤ until) × (until ≤ 1440) },
}

impl Kind for Window {
    ghost use Rattle.std.specs.Prelude.{[], ◌∷◌};
    ghost use Rattle.std.proofs.Common.{rules};
    ghost use Rattle.trials.specs.Windows.{window_rules, minutes_of};

    type Row = (u16, u16);

    const WIDTH: usize = 4;

    ghost WIDTH = { window_rules.width };

    ghost rules = { window_rules };

    ghost meaning = { minutes_of };

    ghost plain = { λ r. r.0 ∷ r.1 ∷ [] };

    ghost wide = { Prim.search rules };

    ghost kept = { Prim.search rules };

    ghost falls = { Prim.search rules };

    ghost sized = { Prim.search rules };

    fn fallback() -> Window {
        Window {
            from: 480,
            until: 1080,
        }
    }

    fn row(&self) -> (u16, u16) {
        (self.from, self.until)
    }

    fn checked(row: &(u16, u16)) -> Option<Window> {
        let (from, until) = *row;
        if from <= until && until <= 1440 {
            Some(Window { from, until })
        } else {
            None
        }
    }

    fn same(&self, other: &Window) -> bool {
        self == other
    }

    fn decode(bytes: &[u8]) -> Option<(u16, u16)> {
        let [from, until] = numbers::<2>(bytes)?;
        Some((from, until))
    }

    fn write(&self, out: &mut Buffer) {
        out.put_numbers(&[self.from, self.until]);
    }
}
