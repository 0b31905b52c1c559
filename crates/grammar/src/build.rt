ghost use Rattle.std.specs.Prelude.{◌≡◌, ℕ, ◌≤◌, true, IsSomeAnd, Some};
ghost use Rattle.grammar.specs.Automaton.{accepted};
ghost use Rattle.grammar.specs.Laws.{OneTree, AcceptedExactly, ViablePrefix, ParsedExactly};
ghost use Rattle.grammar.specs.Parser.{parse};
ghost use Rattle.grammar.specs.Readings.{said, reading_of};
ghost use Rattle.grammar.specs.Words.{words, Rising};

use crate::climb::climb;
use crate::draft::Draft;
use crate::level::Level;
use crate::line::Line;
use crate::token::Token;
use formula::formula::Formula;

/// What the tokens of a rule say. That is the tree of the grammar, and no token list has two; the recogniser
/// accepts just the rules, and refuses a token where no rule goes on with it.
pub fn build(tokens: &[Token]) -> Line
    requires rule { accepted tokens.now ≡ true }
    requires few { words tokens.now ≤ 32 }
    requires placed { Rising 0 512 tokens.now }
    ensures says { IsSomeAnd (parse tokens.now) (λ t. said result ≡ reading_of t) }
    ensures tree { ParsedExactly }
    ensures only { OneTree }
    ensures rules { AcceptedExactly }
    ensures prefix { ViablePrefix }
{
    let mut draft = Draft::new();
    let _ = climb(tokens, Level::Rule, &mut draft);
    let Draft { nodes, names } = draft;
    Line {
        formula: Formula::new(nodes),
        names,
    }
}
