use crate::name::Named;

/// A token of a line; a word has the place where it stands.
#[derive(Clone, Copy)]
pub enum Token {
    Open,
    Close,
    Name(Named),
    With(usize),
    Not(usize),
    And(usize),
    Or(usize),
    Then(usize),
}
