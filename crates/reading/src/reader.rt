ghost use Rattle.std.specs.Prelude.{◌≡◌, ℕ, IfOk};
ghost use Rattle.grammar.specs.Words.{is_word, words};
ghost use Rattle.reading.specs.Answers.{Answer, Answers};
ghost use Rattle.reading.specs.Reading.{reading, shown};
ghost use Rattle.reading.specs.Lengths.{fitting};
ghost use Rattle.reading.specs.Laws.{DecodedExactly, StoredExactly};
ghost use Rattle.reading.specs.Lines.{WellRead};

use crate::fault::{RuleFault, TextFault};
use crate::scanner::scan;
use formula::node;
use grammar::build::build;
use grammar::line::Line;
use grammar::token::Token;

/// A line has at most so many bytes.
pub const LINE_BYTES: usize = 512;

/// A rule has at most so many nodes, one for each word.
pub const MAX_NODES: usize = node::MAX_NODES;

/// Whether a line is short enough.
fn measure(line: &[u8]) -> Result<(), TextFault>
    ensures { result ≡ fitting line.now }
{
    if line.len() > LINE_BYTES {
        return Err(TextFault::LineTooLong);
    }
    Ok(())
}

/// Whether a token is a word: parentheses and names are none.
fn is_word(token: Token) -> bool
    ensures { result ≡ is_word token }
{
    !matches!(token, Token::Open | Token::Close | Token::Name(_))
}

/// How many of the tokens are words.
#[tactic(auto, using(crate::proofs::Counted::words_are))]
fn count_words(tokens: &[Token]) -> usize
    ensures { result ≡ words tokens.now }
{
    tokens.iter().filter(|token| is_word(**token)).count()
}

/// What a line of a catalogue says, or why it is refused.
///
/// Any bytes may come, and any number of them. The line is taken exactly when it spells a rule of the
/// grammar within the bounds; otherwise its leftmost fault is the answer. Names are decoded by the rule, which is
/// computed rightly for any list of spellings.
pub fn read(line: &[u8]) -> Result<Line, RuleFault>
    ensures exact { shown result ≡ reading line.now }
    ensures meaning { Answers line.now (shown result) }
    ensures well_read { IfOk result (λ l. WellRead line.now l) }
    ensures only { (x : Answer) → Answers line.now x → x ≡ shown result }
    ensures spelling { DecodedExactly }
    ensures names { StoredExactly }
{
    measure(line)?;
    let tokens = scan(line)?;
    let words = count_words(tokens.items());
    if words > MAX_NODES {
        return Err(RuleFault::TooManyNodes(words));
    }
    Ok(build(tokens.items()))
}
