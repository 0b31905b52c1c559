ghost use Rattle.std.specs.Prelude.{◌≡◌, ℕ, false, Err, OnOk};
ghost use Rattle.rules.specs.Outcomes.{done, settled};
ghost use Rattle.rules.specs.Striking.{struck, mark_set};
ghost use Rattle.rules.specs.StrikingLaws.{Marked, MarkedFields, PutBack};
ghost use Rattle.rules.specs.Views.{entered};

use crate::fault::StrikeFault;
use crate::tables::Tables;

impl Tables {
    /// Sets the mark of the rule with this number, and changes nothing else; a number that was never
    /// given changes nothing.
    pub fn set_mark(&mut self, number: usize, mark: bool)
        ensures after { entered self.new ≡ mark_set number mark (entered self.old) }
        ensures only { Marked number mark (entered self.old) (entered self.new) }
        ensures back { PutBack }
        ensures fields { MarkedFields number mark self.old self.new }
    {
        if self.rule(number).is_some() {
            self.rules.change(number - 1, |rule| rule.set_mark(mark));
        }
    }

    /// Takes the rule with this number out of force. A refused strike leaves everything as it was.
    pub fn strike(&mut self, number: usize) -> Result<(), StrikeFault>
        ensures answer { result ≡ done (struck (entered self.old) number) }
        ensures after { entered self.new ≡ settled (entered self.old) (struck (entered self.old) number) }
        ensures only { OnOk result (Marked number false (entered self.old) (entered self.new)) }
        ensures fields { OnOk result (MarkedFields number false self.old self.new) }
        ensures refused { (f : StrikeFault) → result ≡ Err f → self.new ≡ self.old }
    {
        match self.in_force(number) {
            None => Err(StrikeFault::NeverGiven(self.rules())),
            Some(false) => Err(StrikeFault::StruckBefore(number)),
            Some(true) => {
                self.set_mark(number, false);
                Ok(())
            }
        }
    }
}
