ghost use Rattle.std.specs.Prelude.{◌≡◌, ℕ, ◌+◌, ◌≤◌, length, drop, Some, None, MatchOption};
ghost use Rattle.grammar.specs.Climbing.{connective_of, right_level, join_node, closer, linked, Hopeless, Climbed};
ghost use Rattle.grammar.specs.Drafts.{nodes_in};
ghost use Rattle.grammar.specs.Words.{words};

use crate::draft::Draft;
use crate::level::Level;
use crate::name::Named;
use crate::token::Token;
use formula::node::{Node, Pair};

/// A word between two phrases, at its place.
#[derive(Clone, Copy)]
enum Connective {
    And(usize),
    Or(usize),
    Then(usize),
}

impl Connective {
    /// The level of what stands to the right of the word: only `then` takes a whole rule.
    fn right(self) -> Level
        ensures { result ≡ right_level self }
    {
        match self {
            Connective::And(_) => Level::Part,
            Connective::Or(_) => Level::Conjunction,
            Connective::Then(_) => Level::Rule,
        }
    }

    /// The node of the word over two others.
    fn node(self, left: usize, right: usize) -> Node<Pair<usize>>
        ensures { result ≡ join_node self left right }
    {
        match self {
            Connective::And(place) => Node::And { place, left, right },
            Connective::Or(place) => Node::Or { place, left, right },
            Connective::Then(place) => Node::Then { place, left, right },
        }
    }
}

/// The word that comes first, where a phrase of the level goes on over it, and what stands behind it.
fn word(rest: &[Token], least: Level) -> Option<(Connective, &[Token])>
    ensures { MatchOption result (connective_of rest.now least ≡ None) (λ p. (connective_of rest.now least ≡ Some p.0) × (p.1.now ≡ drop 1 rest.now)) }
{
    match rest {
        [Token::And(place), after @ ..] if least <= Level::Conjunction => {
            Some((Connective::And(*place), after))
        }
        [Token::Or(place), after @ ..] if least <= Level::Disjunction => {
            Some((Connective::Or(*place), after))
        }
        [Token::Then(place), after @ ..] if least <= Level::Rule => {
            Some((Connective::Then(*place), after))
        }
        _ => None,
    }
}

/// What stands behind a closing parenthesis that comes first.
fn closed(rest: &[Token]) -> Option<&[Token]>
    ensures { MatchOption result (closer rest.now ≡ None) (λ after. closer rest.now ≡ Some after.now) }
{
    match rest {
        [Token::Close, after @ ..] => Some(after),
        _ => None,
    }
}

/// The place of `with`, the second name and what stands behind it, where these come first.
fn link(rest: &[Token]) -> Option<(usize, Named, &[Token])>
    ensures { MatchOption result (linked rest.now ≡ None) (λ p. linked rest.now ≡ Some (p.0, p.1, p.2.now)) }
{
    match rest {
        [Token::With(place), Token::Name(b), after @ ..] => Some((*place, *b, after)),
        _ => None,
    }
}

/// A phrase of the level that comes first, added to the draft: what stands behind it, and its node.
///
/// Precedence climbing: a part, then each word that binds at least as tightly as the level asks.
pub(crate) fn climb<'a>(
    tokens: &'a [Token],
    least: Level,
    out: &mut Draft,
) -> Option<(&'a [Token], usize)>
    requires room { length (nodes_in out.old) + words tokens.now ≤ 32 }
    ensures { MatchOption result (Hopeless tokens.now) (λ p. Climbed least tokens.now p.0.now p.1 out.old out.new) }
{
    let (first, after) = tokens.split_first()?;
    let (mut rest, mut node) = match *first {
        Token::Name(a) => {
            let (place, b, end) = link(after)?;
            (end, out.pair(place, a, b))
        }
        Token::Not(place) => {
            let (end, part) = climb(after, Level::Part, out)?;
            (end, out.push(Node::Not { place, part }))
        }
        Token::Open => {
            let (inner, part) = climb(after, Level::Rule, out)?;
            (closed(inner)?, part)
        }
        _ => return None,
    };
    while let Some((op, after)) = word(rest, least) {
        let (end, right) = climb(after, op.right(), out)?;
        node = out.push(op.node(node, right));
        rest = end;
    }
    Some((rest, node))
}
