ghost use Rattle.std.specs.Prelude.{◌≡◌, ℕ, ◌^◌, ◌<◌};
ghost use Rattle.grammar.specs.Automaton.{step, ended, depth};

use crate::token::Token;

/// What may come next in a rule, with the number of open parentheses.
#[derive(Clone, Copy)]
pub enum State {
    WantPart(usize),
    HaveName(usize),
    WantName(usize),
    HavePart(usize),
}

impl State {
    /// The state after one more token, where a rule has that token there.
    pub fn after(self, token: Token) -> Option<State>
        requires shallow { depth self < 2 ^ 32 }
        ensures { result ≡ step self token }
    {
        match (self, token) {
            (State::WantPart(d), Token::Open) => Some(State::WantPart(d + 1)),
            (State::WantPart(d), Token::Not(_)) => Some(State::WantPart(d)),
            (State::WantPart(d), Token::Name(_)) => Some(State::HaveName(d)),
            (State::HaveName(d), Token::With(_)) => Some(State::WantName(d)),
            (State::WantName(d), Token::Name(_)) => Some(State::HavePart(d)),
            (State::HavePart(d), Token::And(_) | Token::Or(_) | Token::Then(_)) => {
                Some(State::WantPart(d))
            }
            (State::HavePart(d), Token::Close) if d > 0 => Some(State::HavePart(d - 1)),
            _ => None,
        }
    }

    /// Whether a rule may end here.
    pub fn may_end(self) -> bool
        ensures { result ≡ ended self }
    {
        matches!(self, State::HavePart(0))
    }
}
