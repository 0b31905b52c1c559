ghost use Rattle.std.specs.Prelude.{Some};
ghost use Rattle.search_demo.specs.Showing.{digits};

use std::fmt;

// Values as a row of digits, 1 for true, or a dash where there are none.
#[derive(Drop)]
pub struct Digits<'a>(pub &'a [bool]);

impl fmt::Display for Digits<'_> {
    ghost output = { λ d. Some (digits d.0.now) };

    fn fmt<W: fmt::Write>(&self, f: &mut fmt::Formatter<W>) -> fmt::Result {
        if self.0.is_empty() {
            return f.write_str("-");
        }
        for value in self.0 {
            f.write_str(if *value { "1" } else { "0" })?;
        }
        Ok(())
    }
}
