/// How tightly a phrase is bound: a rule is made of disjunctions, a disjunction of conjunctions, a conjunction of parts.
#[derive(Clone, Copy, PartialEq, Eq, PartialOrd, Ord)]
pub enum Level {
    Rule,
    Disjunction,
    Conjunction,
    Part,
}
