ghost use Rattle.std.specs.Prelude.{◌≡◌};
ghost use Rattle.graph.specs.Filled.{NamesStanding};
ghost use Rattle.graph.specs.Filling.{Pick};
ghost use Rattle.graph.specs.Standings.{standing_lots, linked_in};

use crate::link::Link;
use crate::standing::Standing;

/// Names the lot that is taken out next.
pub trait Picker {
    /// What it names, as a function of the standing lots and of which pairs of the lots are linked.
    ghost picks: { Self → Pick };

    /// The lot that is taken out next, where the links stand by the places of the pairs. A number,
    /// and 0 for none, since that is how the subject defines a picker.
    fn pick(&self, standing: &Standing, links: &[Link]) -> usize
        ensures { result ≡ picks self.now (standing_lots standing.now) (linked_in standing.now links.now) };

    /// Where a lot stands it names one that stands, else 0.
    ghost names: { (p : Self) → NamesStanding (picks p) };
}
