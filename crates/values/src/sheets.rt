ghost use Rattle.std.specs.Prelude.{◌+◌, ◌≤◌};

use crate::buffers::Buffer;
use crate::kinds::Kind;
use crate::reading::numbers;

/// How the warm water is shared among four zones, in thousandths. The four shares are at most 1000 together.
#[derive(Clone, Copy, PartialEq, Eq, Debug)]
pub struct Sheet {
    zone0: u16,
    zone1: u16,
    zone2: u16,
    zone3: u16,
    ghost whole: { zone0 + zone1 + zone2 + zone3 ≤ 1000 },
}

/// A sheet's row (`Kind::Row`): four shares as plain numbers, under no rule.
#[derive(Clone, Copy, PartialEq, Eq, Debug)]
pub struct Shares {
    /// The share of zone 0, in thousandths of the warm water.
    pub zone0: u16,
    /// The share of zone 1, in thousandths of the warm water.
    pub zone1: u16,
    /// The share of zone 2, in thousandths of the warm water.
    pub zone2: u16,
    /// The share of zone 3, in thousandths of the warm water.
    pub zone3: u16,
}

impl Shares {
    ghost use Rattle.std.specs.Prelude.{◌≡◌, sum};
    ghost use Rattle.values.specs.Sheets.{plain_shares};

    // In 32 bits, since four shares of 16 bits may pass 65,535 together.
    fn total(&self) -> u32
        ensures { result ≡ sum (plain_shares self.now) }
    {
        let front = u32::from(self.zone0) + u32::from(self.zone1);
        let back = u32::from(self.zone2) + u32::from(self.zone3);
        front + back
    }
}

impl Kind for Sheet {
    ghost use Rattle.std.proofs.Common.{rules};
    ghost use Rattle.values.specs.Sheets.{sheet_rules, shares_of, plain_shares};

    type Row = Shares;

    const WIDTH: usize = 8;

    ghost WIDTH = { sheet_rules.width };

    ghost rules = { sheet_rules };

    ghost meaning = { shares_of };

    ghost plain = { plain_shares };

    ghost wide = { Prim.search rules };

    ghost kept = { Prim.search rules };

    ghost falls = { Prim.search rules };

    ghost sized = { Prim.search rules };

    fn fallback() -> Sheet {
        Sheet {
            zone0: 250,
            zone1: 250,
            zone2: 250,
            zone3: 250,
        }
    }

    fn row(&self) -> Shares {
        Shares {
            zone0: self.zone0,
            zone1: self.zone1,
            zone2: self.zone2,
            zone3: self.zone3,
        }
    }

    fn checked(row: &Shares) -> Option<Sheet> {
        if row.total() > 1000 {
            return None;
        }
        Some(Sheet {
            zone0: row.zone0,
            zone1: row.zone1,
            zone2: row.zone2,
            zone3: row.zone3,
        })
    }

    fn same(&self, other: &Sheet) -> bool {
        self == other
    }

    fn decode(bytes: &[u8]) -> Option<Shares> {
        let [zone0, zone1, zone2, zone3] = numbers::<4>(bytes)?;
        Some(Shares {
            zone0,
            zone1,
            zone2,
            zone3,
        })
    }

    fn write(&self, out: &mut Buffer) {
        out.put_numbers(&[self.zone0, self.zone1, self.zone2, self.zone3]);
    }
}
