/// What is known of a pair of lots; the records of a table stand by the pairs' places.
#[derive(Clone, Copy)]
pub struct Link {
    /// A literal of the pair, as `with`, is live.
    pub dashed: bool,
    /// A literal of the pair, as `not with`, is live.
    pub solid: bool,
    pub idle_positive: bool,
    pub idle_negative: bool,
    pub linked: bool,
    /// From 1; 0 if the pair is not linked. A number, since that is the form of a record.
    pub variable: u16,
}
