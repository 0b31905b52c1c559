// Codes and clauses. Code 2v says that variable v is true, 2v + 1 that it is false; variables count from 1.
// Three codes in a row of a flat slice are a clause, and a clause cut short at the end is not read.
#![tactic(auto)]

ghost use Rattle.std.specs.Prelude.{◌≡◌, ◌≤◌, length};
ghost use Rattle.std.specs.List.{list_all};
ghost use Rattle.clauses.specs.Falsity.{false_code, first_false_row};
ghost use Rattle.clauses.specs.Statements.{Told, ToldOfAll};

// How many codes a clause has.
pub const WIDTH: usize = 3;

// Values of the first of the variables 1 to `variables`: variable v has its value at index v - 1, and those after have none.
#[derive(Clone, Copy)]
pub struct PartialAssignment<'a> {
    pub variables: usize,
    pub values: &'a [bool],
}

impl PartialAssignment<'_> {
    // Whether the code is false: it is of no variable from 1 to `variables`, or of one whose value says otherwise.
    #[tactic(auto, using(std::proofs::lemmas::Bool::Decides::nat_tests), unfolding(crate::specs::Falsity::false_code))]
    fn falsifies(self, code: u16) -> bool
        ensures { result ≡ false_code self.entry.variables self.entry.values.now code }
    {
        let variable = usize::from(code / 2);
        if variable == 0 || variable > self.variables {
            return true;
        }
        match self.values.get(variable - 1) {
            Some(value) => *value != (code % 2 == 0),
            None => false,
        }
    }

    // Whether every one of the codes is false.
    fn falsifies_all(self, codes: &[u16]) -> bool
        ensures { result ≡ list_all (false_code self.entry.variables self.entry.values.now) codes.now }
    {
        codes.iter().all(|code| self.falsifies(*code))
    }

    // The row, from 0, of the first clause that is false in every code.
    pub fn first_false(self, codes: &[u16]) -> Option<usize>
        ensures value { result ≡ first_false_row self.entry.variables self.entry.values.now codes.now }
        ensures told { Told self.entry.variables self.entry.values.now codes.now result }
        ensures told_of_all { self.entry.variables ≤ length self.entry.values.now → ToldOfAll self.entry.variables self.entry.values.now codes.now result }
    {
        codes
            .chunks_exact(WIDTH)
            .position(|clause| self.falsifies_all(clause))
    }
}
