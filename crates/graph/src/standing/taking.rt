ghost use Rattle.std.specs.Prelude.{◌≡◌, ◌≤◌, length};
ghost use Rattle.graph.specs.Lots.{lots as all_lots, has, without};
ghost use Rattle.graph.specs.Standings.{flags_in, standing_lots};

use crate::pair::MAX_LOTS;
use crate::standing::Standing;

impl Standing {
    /// All of so many lots.
    pub fn all(lots: usize) -> Self
        requires { lots ≤ 24 }
        ensures value { standing_lots result ≡ all_lots lots }
        ensures count { length (flags_in result) ≡ lots }
    {
        Standing {
            flags: [true; MAX_LOTS],
            lots,
        }
    }

    /// A flag for each lot, lot 1 first.
    pub fn flags(&self) -> &[bool]
        ensures value { result.now ≡ flags_in self.now }
        ensures within { length result.now ≤ 24 }
    {
        &self.flags[0..self.lots]
    }

    /// Whether a lot stands.
    pub fn stands(&self, lot: usize) -> bool
        ensures { result ≡ has lot (standing_lots self.now) }
    {
        (1..=self.lots).contains(&lot) && self.flags[lot - 1]
    }

    /// Takes a lot out; one that does not stand changes nothing.
    pub fn take_out(&mut self, lot: usize)
        ensures after { standing_lots self.new ≡ without lot (standing_lots self.old) }
        ensures count { length (flags_in self.new) ≡ length (flags_in self.old) }
    {
        if self.stands(lot) {
            self.flags[lot - 1] = false;
        }
    }
}
