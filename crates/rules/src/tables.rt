ghost use Rattle.std.specs.Prelude.{◌≡◌, true, length};
ghost use Rattle.rules.specs.Entered.{entries_in};
ghost use Rattle.rules.specs.Entries.{all_among};
ghost use Rattle.rules.specs.LotNames.{lots_in};

use crate::lots::Lots;
use crate::rule::Rule;
use formula::bounded::Bounded;

pub mod asking;
pub mod striking;
pub mod taking;

/// There are at most so many lots.
pub const MAX_LOTS: usize = 24;

/// At most so many rules are ever given.
pub const MAX_RULES: usize = 32;

/// The lots and the rules over them. Every number in a rule's formula is the number of a lot.
#[derive(Drop)]
pub struct Tables {
    lots: Lots,
    rules: Bounded<Rule, MAX_RULES>,
    ghost over: { all_among (length (lots_in lots)) (entries_in rules) ≡ true },
}
