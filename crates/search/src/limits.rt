// A search is over this many variables at most; more are taken as this many.
pub const MAX_VARIABLES: usize = 756;

// A searcher of this age takes no more steps.
pub const AGE_LIMIT: u32 = u32::MAX;
