ghost use Rattle.std.specs.Prelude.{◌≡◌, ℕ, ◌<◌, ◌≤◌, length, IfOk};
ghost use Rattle.reading.specs.Bytes.{tight};
ghost use Rattle.reading.specs.Scan.{scanned};
ghost use Rattle.reading.specs.Lexing.{edge_first, checked_at, held_tokens};

use crate::fault::{RuleFault, TextFault};
use crate::lexer;
use crate::reader::LINE_BYTES;
use formula::bounded::Bounded;
use grammar::state::State;
use grammar::token::Token;

/// Whether a space or a parenthesis comes first.
fn edge_next(rest: &[u8]) -> bool
    ensures { result ≡ edge_first rest.now }
{
    matches!(rest, [b' ' | b'(' | b')', ..])
}

/// The token that comes first; right behind a word or a name only a space or a parenthesis may come.
fn checked(rest: &[u8], at: usize, joined: bool) -> Result<(Token, usize), TextFault>
    ensures value { result ≡ checked_at joined at rest.now }
    ensures size { IfOk result (λ p. (0 < p.1) × (p.1 ≤ length rest.now)) }
{
    if joined && !edge_next(rest) {
        return Err(TextFault::WrongByte(at));
    }
    lexer::token(rest, at)
}

/// Whether the token is a word or a name.
fn is_tight(token: Token) -> bool
    ensures { result ≡ tight token }
{
    !matches!(token, Token::Open | Token::Close)
}

/// The tokens of a line that is a rule, or its leftmost fault.
///
/// A token is given to the grammar before the byte after it is looked at, since it stands further left.
/// A place is counted along: tokens have more than one byte, and carry the place where they stand.
pub(crate) fn scan(line: &[u8]) -> Result<Bounded<Token, LINE_BYTES>, RuleFault>
    requires short { length line.now ≤ 512 }
    ensures { held_tokens result ≡ scanned line.now }
{
    let mut tokens = Bounded::new(Token::Open);
    let mut state = State::WantPart(0);
    let mut joined = false;
    let mut at = 0;
    while at < line.len() {
        if line[at] == b' ' {
            joined = false;
            at += 1;
        } else {
            let (token, size) = checked(&line[at..], at, joined)?;
            state = state.after(token).ok_or(RuleFault::OutOfGrammar(at))?;
            tokens.push(token);
            joined = is_tight(token);
            at += size;
        }
    }
    if !state.may_end() {
        return Err(RuleFault::OutOfGrammar(at));
    }
    Ok(tokens)
}
