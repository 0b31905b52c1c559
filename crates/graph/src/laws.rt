//! What holds of the definitions in specs/, each theorem as the contract of a function.
ghost use Rattle.graph.specs.ChainLaws.{JoinedIsChained, ChainsHavePaths};
ghost use Rattle.graph.specs.Examples.{Examples};
ghost use Rattle.graph.specs.FillingLaws.{LinksAreFilled, LinksByPicks, StandingRises, PickersPick};
ghost use Rattle.graph.specs.MarkLaws.{LiveIsLive, LivePairs, MoreMarksFewerLive};
ghost use Rattle.graph.specs.NumberingLaws.{PairsAreNumbered};
ghost use Rattle.graph.specs.PairLaws.{PairsHavePlaces};
ghost use Rattle.graph.specs.RecordLaws.{FlagsAreTests, RecordsSay};
ghost use Rattle.graph.specs.RoundLaws.{ComponentsAreChains, ReasonsAreTested, RoundsShrink, MarksHaveReasons, RoundsEnd, MarkedPairs};
ghost use Rattle.graph.specs.SafetyLaws.{MarksAreSafe};
ghost use Rattle.graph.specs.StandingLaws.{FlagsStand};
ghost use Rattle.graph.specs.TriangleLaws.{InnerSeesEnds, TrianglesSuffice, AllTrianglesSuffice, LinksSuffice};

/// The places of the pairs of n lots are the numbers below n(n - 1)/2, one for each pair, and 276 at
/// most for 24 lots.
pub fn pairs_have_places()
    ensures { PairsHavePlaces }
{}

/// The test whether lots are joined says exactly whether a chain joins them: so components are the
/// chains of dashed pairs.
pub fn joined_is_chained()
    ensures any { JoinedIsChained }
    ensures dashed { ComponentsAreChains }
{}

/// A chain contains a simple one.
pub fn chains_have_paths()
    ensures { ChainsHavePaths }
{}

/// The literals found live are those of live nodes.
pub fn live_is_live()
    ensures { LiveIsLive }
{}

/// Dashed and solid are tests of the pairs of the lots.
pub fn live_pairs()
    ensures { LivePairs }
{}

/// With more marks, what is decided stays as it is, and live, dashed and solid only shrink.
pub fn more_marks_fewer_live()
    ensures { MoreMarksFewerLive }
{}

/// The test for the reason for marking says exactly that there is one, by chains.
pub fn reasons_are_tested()
    ensures { ReasonsAreTested }
{}

/// From round to round marks stay, and live, dashed and solid only shrink.
pub fn rounds_shrink()
    ensures { RoundsShrink }
{}

/// Every mark had its reason at the round that set it.
pub fn marks_have_reasons()
    ensures { MarksHaveReasons }
{}

/// The rounds end at the first that marks nothing, and the marks there stay.
pub fn rounds_end()
    ensures { RoundsEnd }
{}

/// Marks are tests of the pairs of the lots.
pub fn marked_pairs()
    ensures { MarkedPairs }
{}

/// No simple chain of idle positive and dashed pairs joins the lots of an idle negative pair, and one
/// between the lots of a solid pair has dashed pairs only.
pub fn marks_are_safe()
    ensures { MarksAreSafe }
{}

/// Whatever the picker, every lot is named once, the links are filled in that order, and each of them
/// is dashed, solid, or became linked when a lot was taken out.
pub fn links_are_filled()
    ensures { LinksAreFilled }
{}

/// The links depend on the picker's function only where it is asked.
pub fn links_by_picks()
    ensures { LinksByPicks }
{}

/// The standing lots are in rising order.
pub fn standing_rises()
    ensures { StandingRises }
{}

/// A flag for each lot holds the standing lots.
pub fn flags_stand()
    ensures { FlagsStand }
{}

/// What the two pickers name.
pub fn pickers_pick()
    ensures { PickersPick }
{}

/// In a filled graph a path whose ends are linked has an inner lot that is linked with both.
pub fn inner_sees_ends()
    ensures { InnerSeesEnds }
{}

/// In a filled graph, a linked pair whose lots a simple path of true linked pairs joins is true, if the
/// values obey the triangles that conclude it or a condition on the way.
pub fn triangles_suffice()
    ensures wanted { TrianglesSuffice }
    ensures all { AllTrianglesSuffice }
    ensures links { LinksSuffice }
{}

/// Linked pairs have the variables from 1 on, by their places.
pub fn pairs_are_numbered()
    ensures { PairsAreNumbered }
{}

/// A flag of a table of records says of each pair what the pair's record says.
pub fn flags_are_tests()
    ensures { FlagsAreTests }
{}

/// The records drawn say of each pair whether it is dashed, solid, idle and linked, and its variable.
pub fn records_say()
    ensures { RecordsSay }
{}

/// Worked examples.
pub fn examples()
    ensures { Examples }
{}
