// How the values held stand with the clauses: one is false in every code; or none is, and every variable has a value; or one more may have.
#[derive(Clone, Copy)]
pub enum Prefix {
    Conflict,
    Full,
    Extendable,
}
