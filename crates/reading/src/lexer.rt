ghost use Rattle.std.specs.Prelude.{◌≡◌, ℕ, List, length, Some, None, MatchOption, IfSome, IfOk, ◌<◌, ◌≤◌, ◌==◌, ◌||◌};
ghost use Rattle.reading.specs.Bytes.{plain};
ghost use Rattle.reading.specs.Decoding.{spellings};
ghost use Rattle.reading.specs.Scan.{run_of, word_of, decoded};
ghost use Rattle.reading.specs.Lexing.{word_at, letter_of, name_of, seen_at};

use crate::fault::TextFault;
use grammar::name::{NAME_BYTES, Name, Named};
use grammar::token::Token;

/// Whether a name runs on over a byte.
fn in_name(b: u8) -> bool
    ensures { result ≡ (b == 38 || plain b) }
{
    matches!(b, b'A'..=b'Z' | b'0'..=b'9' | b'-' | b'&')
}

/// How many letters a to z come first.
fn run(rest: &[u8]) -> usize
    ensures value { result ≡ length (run_of rest.now) }
    ensures within { result ≤ length rest.now }
{
    rest.iter().take_while(|b| b.is_ascii_lowercase()).count()
}

/// The word that the letters are, at its place.
fn word(letters: &[u8], at: usize) -> Option<Token>
    ensures { result ≡ word_at at (word_of letters.now) }
{
    match letters {
        b"with" => Some(Token::With(at)),
        b"not" => Some(Token::Not(at)),
        b"and" => Some(Token::And(at)),
        b"or" => Some(Token::Or(at)),
        b"then" => Some(Token::Then(at)),
        _ => None,
    }
}

/// Inside a name: its next byte, and what stands behind it. The five bytes `&amp;` are one ampersand.
fn letter(rest: &[u8]) -> Option<(u8, &[u8])>
    ensures { MatchOption result (letter_of rest.now ≡ None) (λ p. letter_of rest.now ≡ Some (p.0, p.1.now)) }
{
    match rest {
        [b'&', b'a', b'm', b'p', b';', tail @ ..] => Some((b'&', tail)),
        [b, tail @ ..] if in_name(*b) => Some((*b, tail)),
        _ => None,
    }
}

/// The name with this first letter that runs on over a text, and how many bytes it has there. None where it has
/// more than twelve decoded bytes.
fn name(first: u8, text: &[u8]) -> Option<(Name, usize)>
    ensures value { result ≡ name_of first (decoded spellings 0 text.now) }
    ensures within { IfSome result (λ p. p.1 ≤ length text.now) }
{
    // A name is stored in an array of twelve, which is filled in place.
    let mut bytes = [0u8; NAME_BYTES];
    bytes[0] = first;
    let mut decoded = 1;
    let mut rest = text;
    while let Some((b, tail)) = letter(rest) {
        if decoded >= NAME_BYTES {
            return None;
        }
        bytes[decoded] = b;
        decoded += 1;
        rest = tail;
    }
    Some((Name::new(bytes), text.len() - rest.len()))
}

/// The token that comes first at a place, and how many bytes it has.
///
/// The text and its place stay two parameters: each arm looks at the one and answers with the other.
pub(crate) fn token(rest: &[u8], at: usize) -> Result<(Token, usize), TextFault>
    ensures value { result ≡ seen_at at rest.now }
    ensures size { IfOk result (λ p. (0 < p.1) × (p.1 ≤ length rest.now)) }
{
    match rest {
        [b'(', ..] => Ok((Token::Open, 1)),
        [b')', ..] => Ok((Token::Close, 1)),
        [b'a'..=b'z', tail @ ..] => {
            let size = run(tail) + 1;
            match word(&rest[..size], at) {
                Some(token) => Ok((token, size)),
                None => Err(TextFault::WrongByte(at)),
            }
        }
        [first @ b'A'..=b'Z', tail @ ..] => {
            let (name, others) = name(*first, tail).ok_or(TextFault::NameTooLong(at))?;
            Ok((Token::Name(Named { place: at, name }), others + 1))
        }
        _ => Err(TextFault::WrongByte(at)),
    }
}
