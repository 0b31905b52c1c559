use crate::held::Held;

pub mod prefix;
pub mod walking;

// Walks the tree of assignments, false before true, and holds the values of the first variables.
#[derive(Drop)]
pub struct Walker {
    held: Held,
}
