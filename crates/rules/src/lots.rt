ghost use Rattle.std.specs.Prelude.{◌≡◌, true};
ghost use Rattle.formula.specs.Held.{held};
ghost use Rattle.rules.specs.Numbers.{apart};

use crate::tables::MAX_LOTS;
use formula::bounded::Bounded;
use grammar::name::Name;

pub mod naming;

/// The names of the lots, each once, in the order in which they first stood. A lot's number is its
/// place here, from 1.
#[derive(Clone, Copy)]
pub struct Lots {
    names: Bounded<Name, MAX_LOTS>,
    ghost once: { apart (held names) ≡ true },
}
