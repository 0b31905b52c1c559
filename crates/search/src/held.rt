// What the counter and the walker hold.
ghost use Rattle.std.specs.Prelude.{◌≡◌, ◌<◌, ◌≤◌, ◌&&◌, ◌==◌, false, [], ◌∷◌, ◌++◌, length, if◌then◌else◌, Some, None, is_some, IfSome, nat_le};
ghost use Rattle.clauses.specs.Meaning.{assigned};
ghost use Rattle.search.specs.Limits.{capped};
ghost use Rattle.search.specs.Searching.{is_found};
ghost use Rattle.search.specs.States.{fresh, last_false, filled, turned, counted, with_values, with_status, with_age};

use crate::limits::MAX_VARIABLES;
use crate::status::Status;
use arrayvec::ArrayVec;
use clauses::PartialAssignment;
use std::marker::Model;

// Values of the first of so many variables, the status, and the steps taken.
#[derive(Drop)]
pub(crate) struct Held {
    values: ArrayVec<bool, MAX_VARIABLES>,
    variables: usize,
    status: Status,
    age: u32,
}

impl Model for Held {
    ghost use Rattle.std.specs.Prelude.{◌≤◌, length};
    ghost use Rattle.search.specs.States.{State};

    ghost Value = { State };

    ghost view = { λ h. record { variables = h.variables; values = h.values.items; status = h.status; age = h.age } };

    ghost invariant = { λ h. (length h.values.items ≤ h.variables) × (h.variables ≤ 756) };
}

impl Held {
    // A search that has begun over no variables.
    pub(crate) fn new() -> Held
        ensures { result ≡ fresh 0 [] }
    {
        Held {
            values: ArrayVec::new(),
            variables: 0,
            status: Status::Working,
            age: 0,
        }
    }

    // Begins a search over this many variables, without values.
    pub(crate) fn begin(&mut self, variables: usize)
        ensures { self.new ≡ fresh (capped variables) [] }
    {
        self.clear();
        self.variables = variables.min(MAX_VARIABLES);
        self.status = Status::Working;
        self.age = 0;
    }

    pub(crate) fn status(&self) -> Status
        ensures { result ≡ self.now.status }
    {
        self.status
    }

    pub(crate) fn age(&self) -> u32
        ensures { result ≡ self.now.age }
    {
        self.age
    }

    pub(crate) fn values(&self) -> &[bool]
        ensures { result.now ≡ self.now.values }
    {
        &self.values
    }

    pub(crate) fn assignment(&self) -> PartialAssignment<'_>
        ensures variables { result.variables ≡ self.now.variables }
        ensures values { result.values.now ≡ self.now.values }
        ensures within { length self.now.values ≤ self.now.variables }
    {
        PartialAssignment {
            variables: self.variables,
            values: &self.values,
        }
    }

    // Whether every variable has a value.
    pub(crate) fn is_full(&self) -> bool
        ensures { result ≡ (length self.now.values == self.now.variables) }
    {
        self.values.len() == self.variables
    }

    pub(crate) fn set_status(&mut self, status: Status)
        ensures { self.new ≡ with_status self.old status }
    {
        self.status = status;
    }

    pub(crate) fn set_age(&mut self, age: u32)
        ensures { self.new ≡ with_age self.old age }
    {
        self.age = age;
    }

    pub(crate) fn clear(&mut self)
        ensures { self.new ≡ with_values self.old [] }
    {
        self.values.clear();
    }

    // Turns the last false to true and drops the values after it, where there is a false.
    pub(crate) fn turn(&mut self) -> bool
        ensures turned { self.new ≡ turned self.old (last_false self.old.values) }
        ensures was { result ≡ is_some (last_false self.old.values) }
    {
        let last = last_false(&self.values);
        if let Some(index) = last {
            self.values.truncate(index);
            self.values.push(true);
        }
        last.is_some()
    }

    // Gives one more variable the value false.
    pub(crate) fn extend(&mut self)
        requires { length self.old.values < self.old.variables }
        ensures { self.new ≡ with_values self.old (self.old.values ++ false ∷ []) }
    {
        self.values.push(false);
    }

    // Turns the last false to true and the trues after it to false, where there is a false: in place, since that is most of a counter's step.
    pub(crate) fn count_up(&mut self) -> bool
        ensures counted { self.new ≡ with_values self.old (counted self.old.values (last_false self.old.values)) }
        ensures was { result ≡ is_some (last_false self.old.values) }
    {
        count_up(&mut self.values)
    }

    // Gives each variable without a value the value false, all of them at once.
    #[tactic(auto, using(crate::proofs::Fills::filled_taken, crate::proofs::Fills::length_filled))]
    pub(crate) fn fill(&mut self)
        ensures filled { self.new ≡ with_values self.old (filled self.old.variables self.old.values) }
        ensures whole { length self.new.values ≡ self.new.variables }
    {
        let missing = self.variables - self.values.len();
        let falses = [false; MAX_VARIABLES];
        let _ = self.values.try_extend_from_slice(&falses[..missing]); // they fit
    }

    // What is shown of a variable: its value, when found and within the variables.
    pub(crate) fn value(&self, variable: usize) -> Option<bool>
        ensures { result ≡ (if is_found self.now.status && (nat_le 1 variable && nat_le variable self.now.variables) then Some (assigned self.now.values variable) else None) }
    {
        match self.status {
            Status::Found if variable >= 1 && variable <= self.variables => {
                Some(self.values.get(variable - 1).copied().unwrap_or(false))
            }
            _ => None,
        }
    }
}

// Turns the last false to true and the trues after it to false, where there is a false.
fn count_up(values: &mut [bool]) -> bool
    ensures counted { values.new ≡ counted values.old (last_false values.old) }
    ensures was { result ≡ is_some (last_false values.old) }
{
    let last = last_false(values);
    if let Some(index) = last {
        values[index] = true;
        values[index + 1..].fill(false);
    }
    last.is_some()
}

// The index of the last false.
fn last_false(values: &[bool]) -> Option<usize>
    ensures value { result ≡ last_false values.now }
    ensures within { IfSome result (λ i. i < length values.now) }
{
    values.iter().rposition(|value| !*value)
}
