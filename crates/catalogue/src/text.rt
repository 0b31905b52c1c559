ghost use Rattle.std.specs.Prelude.{◌≡◌, ℕ, ◌<◌, ◌-◌, true, List, IfOk, length, map, string_bytes, slice_index_or};
ghost use Rattle.catalogue.specs.Texts.{shown_bytes, shown_name, text_at, between, last_text, shown_pair, shown_literal, shown_node, shown_tree};
ghost use Rattle.formula.specs.Table.{trees};
ghost use Rattle.formula.specs.Tree.{Tree};
ghost use Rattle.grammar.specs.Readings.{said};

use formula::literal::Literal;
use formula::node::{Node, Pair};
use formula::table::Table;
use grammar::line::Line;
use grammar::name::Named;
use std::alloc::{AllocError, Global};

/// Bytes as text, one character for each: a byte that cannot be shown is a dot, so that places stay in line.
pub(crate) fn readable(heap: Global, bytes: &[u8]) -> Result<String, AllocError>
    ensures { IfOk result (λ s. string_bytes s ≡ shown_bytes bytes.now) }
{
    let mut shown = String::new(heap);
    for b in bytes {
        let c = if matches!(*b, 32..=126) {
            char::from(*b)
        } else {
            '.'
        };
        shown.push(c)?;
    }
    Ok(shown)
}

/// A name, decoded; the zeros behind it are left out.
fn name_text(heap: Global, named: &Named) -> Result<String, AllocError>
    ensures { IfOk result (λ s. string_bytes s ≡ shown_name named.now) }
{
    let mut shown = String::new(heap);
    for b in named.name.bytes() {
        if *b != 0 {
            shown.push(char::from(*b))?;
        }
    }
    Ok(shown)
}

/// The names of a line, in their order.
pub(crate) fn names_text(heap: Global, line: &Line) -> Result<Vec<String>, AllocError>
    ensures { IfOk result (λ v. map string_bytes v.items ≡ map shown_name (said line.now).names) }
{
    let mut names = Vec::new(heap);
    for named in line.names() {
        names.push(name_text(heap, named)?)?;
    }
    Ok(names)
}

/// A text that was written before.
fn written(texts: &[String], at: usize) -> &str
    ensures { result.now ≡ text_at (map string_bytes texts.now) at }
{
    texts.get(at).map_or("", |text| text.as_str())
}

/// Two texts with a word between them.
fn joined(
    heap: Global,
    texts: &[String],
    left: usize,
    word: &str,
    right: usize,
) -> Result<String, AllocError>
    ensures { IfOk result (λ s. string_bytes s ≡ between word.now (text_at (map string_bytes texts.now) left) (text_at (map string_bytes texts.now) right)) }
{
    let first = written(texts, left);
    let second = written(texts, right);
    format!(in heap; "({first} {word} {second})")
}

/// The last text, which is the whole.
fn whole(heap: Global, mut texts: Vec<String>) -> String
    ensures { string_bytes result ≡ last_text (map string_bytes texts.items) }
{
    texts.pop().unwrap_or_else(|| String::new(heap))
}

/// What a rule is written with: the heap, and the texts of the names of its line.
#[derive(Clone, Copy)]
pub(crate) struct Writer<'a> {
    pub(crate) heap: Global,
    pub(crate) names: &'a [String],
}

/// A leaf of a formula, which is written by the names of its line.
pub(crate) trait Leaf: Copy {
    ghost shown: { List (List ℕ) → Self → List ℕ };

    fn text(self, writer: &Writer) -> Result<String, AllocError>
        ensures { IfOk result (λ s. string_bytes s ≡ shown (map string_bytes writer.now.names.now) self) };
}

impl Leaf for Pair<usize> {
    ghost shown = { shown_pair };

    fn text(self, writer: &Writer) -> Result<String, AllocError> {
        joined(writer.heap, writer.names, self.first, "with", self.second)
    }
}

impl Leaf for Literal {
    ghost shown = { shown_literal };

    fn text(self, writer: &Writer) -> Result<String, AllocError> {
        let pair = self.pair.text(writer)?;
        let sign = if self.positive { "" } else { "not " };
        format!(in writer.heap; "{sign}{pair}")
    }
}

impl Writer<'_> {
    /// A node over parts that were written before.
    fn node<L: Leaf>(&self, node: Node<L>, texts: &[String]) -> Result<String, AllocError>
        ensures { IfOk result (λ s. string_bytes s ≡ shown_node (L.shown (map string_bytes self.now.names.now)) (map string_bytes texts.now) node) }
    {
        match node {
            Node::Leaf(leaf) => leaf.text(self),
            Node::Not { part, .. } => {
                let inner = written(texts, part);
                format!(in self.heap; "not {inner}")
            }
            Node::And { left, right, .. } => joined(self.heap, texts, left, "and", right),
            Node::Or { left, right, .. } => joined(self.heap, texts, left, "or", right),
            Node::Then { left, right, .. } => joined(self.heap, texts, left, "then", right),
        }
    }

    /// The formula of a table, with all its parentheses.
    pub(crate) fn tree<L: Leaf>(&self, table: &Table<L>) -> Result<String, AllocError>
        requires some { 0 < length table.now.nodes.now }
        ensures { IfOk result (λ s. (d : Tree L) → string_bytes s ≡ shown_tree (L.shown (map string_bytes self.now.names.now)) (slice_index_or (trees d table.now.nodes.now) (length table.now.nodes.now - 1) d)) }
    {
        let nodes = table.nodes;
        let mut texts = Vec::new(self.heap);
        for node in nodes {
            let text = self.node(*node, &texts)?;
            texts.push(text)?;
        }
        Ok(whole(self.heap, texts))
    }
}
