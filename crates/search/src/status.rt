ghost use Rattle.std.specs.Prelude.{◌≡◌, Some};
ghost use Rattle.search.specs.Words.{status_word};

use std::fmt;

// How far a search has come: working, found, or none (`Refuted`).
#[derive(Clone, Copy)]
pub enum Status {
    Working,
    Found,
    Refuted,
}

impl Status {
    pub fn word(self) -> &'static str
        ensures { result.now ≡ status_word self }
    {
        match self {
            Status::Working => "working",
            Status::Found => "found",
            Status::Refuted => "none",
        }
    }
}

impl fmt::Display for Status {
    ghost output = { λ s. Some (status_word s) };

    fn fmt<W: fmt::Write>(&self, f: &mut fmt::Formatter<W>) -> fmt::Result {
        f.write_str(self.word())
    }
}
