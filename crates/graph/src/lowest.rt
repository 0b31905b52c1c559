ghost use Rattle.graph.specs.Pickers.{lowest_first};
ghost use Rattle.graph.specs.Picking.{lowest_names};

use crate::link::Link;
use crate::picker::Picker;
use crate::standing::Standing;

/// Names the lowest number.
#[derive(Clone, Copy)]
pub struct LowestFirst;

impl Picker for LowestFirst {
    ghost picks = { λ _. lowest_first };

    ghost names = { λ _. lowest_names };

    fn pick(&self, standing: &Standing, links: &[Link]) -> usize {
        let first = standing.flags().iter().position(|stands| *stands);
        first.map_or(0, |at| at + 1)
    }
}
