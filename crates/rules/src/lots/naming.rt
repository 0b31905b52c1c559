ghost use Rattle.std.specs.Prelude.{◌≡◌, List, position};
ghost use Rattle.rules.specs.LotNames.{lots_in, lots_of};
ghost use Rattle.rules.specs.Numbers.{is_name, lot_found};
ghost use Rattle.rules.specs.Adding.{lot_added, lots_added};
ghost use Rattle.rules.specs.Outcomes.{done, settled};

use crate::fault::TakeFault;
use crate::lots::Lots;
use crate::tables::MAX_LOTS;
use formula::bounded::Bounded;
use grammar::name::{NAME_BYTES, Name, Named};

impl Lots {
    /// No lots.
    pub fn new() -> Self
        ensures { lots_in result ≡ List.[] }
    {
        let names = Bounded::new(Name::new([0; NAME_BYTES]));
        Lots { names }
    }

    /// The names, lot 1 first.
    pub fn names(&self) -> &[Name]
        ensures { result.now ≡ lots_in self.now }
    {
        self.names.items()
    }

    // The index of the lot with this name, if there is one.
    fn index_of(&self, name: &Name) -> Option<usize>
        ensures { result ≡ position (λ m. is_name m name.now) (lots_in self.now) }
    {
        self.names().iter().position(|lot| lot.is(name))
    }

    /// The number of the lot with this name, if there is one.
    pub fn number_of(&self, name: &Name) -> Option<usize>
        ensures { result ≡ lot_found name.now (lots_in self.now) }
    {
        let at = self.index_of(name)?;
        Some(at + 1)
    }

    /// Makes the name a lot where it is none.
    fn add(&mut self, named: Named) -> Result<(), TakeFault>
        ensures answer { result ≡ done (lot_added (lots_in self.old) named) }
        ensures after { lots_in self.new ≡ settled (lots_in self.old) (lot_added (lots_in self.old) named) }
    {
        if self.number_of(&named.name).is_some() {
            return Ok(());
        }
        if self.names.len() >= MAX_LOTS {
            return Err(TakeFault::LotsFull(named.place));
        }
        self.names.push(named.name);
        Ok(())
    }

    /// These lots and those that a line's names add. These stay as they are, so that a line can be
    /// refused at any of its names.
    pub fn with(&self, names: &[Named]) -> Result<Lots, TakeFault>
        ensures { lots_of result ≡ lots_added (lots_in self.now) names.now }
    {
        let mut lots = *self;
        for named in names {
            lots.add(*named)?;
        }
        Ok(lots)
    }
}
