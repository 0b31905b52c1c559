ghost use Rattle.std.specs.Prelude.{◌≡◌};
ghost use Rattle.std.specs.Option.{unwrap_or};
ghost use Rattle.graph.specs.Pickers.{degree as degree_of, fewest_first};
ghost use Rattle.graph.specs.Picking.{fewest_names};
ghost use Rattle.graph.specs.Standings.{standing_lots, linked_in};

use crate::link::Link;
use crate::pair::place;
use crate::picker::Picker;
use crate::standing::Standing;

/// Names the lot with the fewest standing neighbours, and of these the lowest number.
#[derive(Clone, Copy)]
pub struct FewestFirst;

// The lots that stand, and the links among the lots.
#[derive(Clone, Copy)]
struct View<'a> {
    standing: &'a Standing,
    links: &'a [Link],
}

impl<'a> View<'a> {
    // Whether two lots are linked; false but for two different lots.
    fn are_linked(&self, one: usize, other: usize) -> bool
        ensures { result ≡ linked_in self.now.standing.now self.now.links.now one other }
    {
        let lower = one.min(other);
        let higher = one.max(other);
        if lower == 0 || lower == higher || higher > self.standing.flags().len() {
            return false;
        }
        let link = self.links.get(place(lower, higher));
        link.is_some_and(|link| link.linked)
    }

    // How many standing neighbours a lot has.
    fn degree(&self, lot: usize) -> usize
        ensures { result ≡ degree_of (linked_in self.now.standing.now self.now.links.now) lot (standing_lots self.now.standing.now) }
    {
        (1..=self.standing.flags().len())
            .filter(|other| self.standing.stands(*other))
            .filter(|other| self.are_linked(lot, *other))
            .count()
    }

    // The lot with the fewest standing neighbours: of several the lowest, which comes first.
    fn fewest(&self) -> Option<usize>
        ensures { unwrap_or result 0 ≡ fewest_first (standing_lots self.now.standing.now) (linked_in self.now.standing.now self.now.links.now) }
    {
        (1..=self.standing.flags().len())
            .filter(|lot| self.standing.stands(*lot))
            .min_by_key(|lot| self.degree(*lot))
    }
}

impl Picker for FewestFirst {
    ghost picks = { λ _. fewest_first };

    ghost names = { λ _. fewest_names };

    fn pick(&self, standing: &Standing, links: &[Link]) -> usize {
        View { standing, links }.fewest().unwrap_or(0)
    }
}
