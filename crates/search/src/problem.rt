// What a run is given: how many variables, the codes of the clauses, three to each, and a budget of steps.
#[derive(Clone, Copy)]
pub struct Problem<'a> {
    pub variables: usize,
    pub codes: &'a [u16],
    pub budget: u32,
}
