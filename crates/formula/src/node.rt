/// A formula has at most so many nodes.
pub const MAX_NODES: usize = 32;

/// Two atoms that shall fire together. An atom is a name of a line, or a lot of a book.
#[derive(Clone, Copy)]
pub struct Pair<A> {
    /// Where the word `with` stands in the line.
    pub place: usize,
    pub first: A,
    pub second: A,
}

/// A node of a table: a leaf, or a word with its place in the line, over nodes that stand before it.
#[derive(Clone, Copy)]
pub enum Node<L> {
    Leaf(L),
    Not {
        place: usize,
        part: usize,
    },
    And {
        place: usize,
        left: usize,
        right: usize,
    },
    Or {
        place: usize,
        left: usize,
        right: usize,
    },
    Then {
        place: usize,
        left: usize,
        right: usize,
    },
}
