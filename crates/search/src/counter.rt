ghost use Rattle.std.specs.Prelude.{◌≡◌, length};

use crate::held::Held;

pub mod counting;

// Counts through the assignments in binary, and holds the present one: the values of all the variables.
#[derive(Drop)]
pub struct Counter {
    held: Held,
    ghost whole: { length held.values ≡ held.variables },
}
