ghost use Rattle.std.specs.Prelude.{◌≡◌};
ghost use Rattle.models.specs.Sets.{has, members};

/// How many controllers a block has at most: a set has a bit for each.
pub const MOST_CONTROLLERS: usize = 16;

/// A set of controllers, by the number that a run file has for it: bit i stands for controller i, so 6 is the set of
/// controllers 1 and 2.
#[derive(Clone, Copy, PartialEq, Eq, Debug)]
pub struct Set(pub u16);

impl Set {
    /// Whether the set holds a controller. A number of 16 or more is in no set.
    pub fn holds(self, controller: usize) -> bool
        ensures { result ≡ has self.0 controller }
    {
        let bits = self.0;
        controller < MOST_CONTROLLERS && (bits >> controller) & 1 == 1
    }

    /// How many controllers the set holds.
    pub fn size(self) -> usize
        ensures { result ≡ members self.0 }
    {
        self.0.count_ones() as usize
    }
}
