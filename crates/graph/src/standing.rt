ghost use Rattle.std.specs.Prelude.{ℕ, ◌≤◌};

use crate::pair::MAX_LOTS;

pub mod taking;

/// The lots that stand: all at first, and then those that were not taken out.
#[derive(Clone, Copy)]
pub struct Standing {
    // No bounded list: that begins empty, so all flags would have to be pushed one by one first.
    flags: [bool; MAX_LOTS],
    lots: usize,
    ghost few: { lots ≤ 24 },
}
