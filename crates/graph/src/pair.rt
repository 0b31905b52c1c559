ghost use Rattle.std.specs.Prelude.{◌≡◌, ◌<◌, ◌≤◌};
ghost use Rattle.graph.specs.Pairs.{IsPair, place as place_of_pair, count_of_pairs};

/// The most lots that there are.
pub const MAX_LOTS: usize = 24;

/// The most pairs: those of so many lots.
pub const MAX_PAIRS: usize = MAX_LOTS * (MAX_LOTS - 1) / 2;

/// The place of the record of a pair of lots, numbered from 1.
pub fn place(lower: usize, higher: usize) -> usize
    requires { IsPair 24 lower higher }
    ensures value { result ≡ place_of_pair lower higher }
    ensures within { result < 276 }
{
    pair_count(higher - 1) + (lower - 1)
}

/// How many pairs so many lots have.
pub fn pair_count(lots: usize) -> usize
    requires { lots ≤ 24 }
    ensures value { result ≡ count_of_pairs lots }
    ensures within { result ≤ 276 }
{
    lots * lots.saturating_sub(1) / 2
}
