/// Why a line is not taken.
#[derive(Clone, Copy, Debug)]
pub enum TakeFault {
    /// There are as many rules as there may ever be.
    RulesFull,
    /// The name that first stands at this place in the line would be one lot too many.
    LotsFull(usize),
}

/// Why a rule is not struck.
#[derive(Clone, Copy, Debug)]
pub enum StrikeFault {
    /// No rule has the number; this is how many there are.
    NeverGiven(usize),
    /// The rule with this number is not in force.
    StruckBefore(usize),
}
