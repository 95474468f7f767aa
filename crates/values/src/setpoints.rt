ghost use Rattle.std.specs.Prelude.{◌≡◌, ◌≤◌, Some};

use crate::buffers::Buffer;
use crate::kinds::Kind;
use crate::reading::numbers;
use std::fmt;

/// What the boiler's supply water is set to: from 20.0 to 90.0 degrees Celsius, in tenths (200 to 900).
#[derive(Clone, Copy, PartialEq, Eq, Debug)]
pub struct Setpoint {
    tenths: u16,
    ghost range: { (200 ≤ tenths) × (tenths ≤ 900) },
}

impl Setpoint {
    /// The setpoint in tenths of a degree Celsius: 655 is 65.5 degrees.
    pub fn tenths(&self) -> u16
        ensures { result ≡ self.now.tenths }
    {
        self.tenths
    }
}

impl fmt::Display for Setpoint {
    ghost use Rattle.values.specs.Rules.{text};
    ghost use Rattle.values.specs.Setpoints.{tenths_of};

    ghost output = { λ setpoint. Some (text (tenths_of setpoint)) };

    fn fmt<W: fmt::Write>(&self, f: &mut fmt::Formatter<W>) -> fmt::Result {
        write!(f, "{}", self.tenths)
    }
}

impl Kind for Setpoint {
    ghost use Rattle.std.specs.Prelude.{[], ◌∷◌};
    ghost use Rattle.std.proofs.Common.{rules};
    ghost use Rattle.values.specs.Setpoints.{setpoint_rules, tenths_of};

    type Row = u16;

    const WIDTH: usize = 2;

    ghost WIDTH = { setpoint_rules.width };

    ghost rules = { setpoint_rules };

    ghost meaning = { tenths_of };

    ghost plain = { λ r. r ∷ [] };

    ghost wide = { Prim.search rules };

    ghost kept = { Prim.search rules };

    ghost falls = { Prim.search rules };

    ghost sized = { Prim.search rules };

    fn fallback() -> Setpoint {
        Setpoint { tenths: 400 }
    }

    fn row(&self) -> u16 {
        self.tenths
    }

    fn checked(row: &u16) -> Option<Setpoint> {
        let tenths = *row;
        if (200..=900).contains(&tenths) {
            Some(Setpoint { tenths })
        } else {
            None
        }
    }

    fn same(&self, other: &Setpoint) -> bool {
        self == other
    }

    fn decode(bytes: &[u8]) -> Option<u16> {
        let [tenths] = numbers::<1>(bytes)?;
        Some(tenths)
    }

    fn write(&self, out: &mut Buffer) {
        out.put_numbers(&[self.tenths]);
    }
}
