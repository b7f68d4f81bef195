//! Variables in a list, each once.
ghost use Rattle.std.specs.Prelude.{◌≡◌, ℕ, [], ◌∷◌, OnOk};
ghost use Rattle.std.specs.Option.{option_or};
ghost use Rattle.merc_scopes.specs.Scopes.{at_of, occurrence};
ghost use Rattle.merc_scopes.specs.FirstPlaces.{place_in, Holds, IsInStep};

use crate::Occurrence;
use crate::first_places::FirstPlaces;
use merc_base::{Name, NoMemory};
use std::alloc::Global;

/// Variables in order, each once and where it first occurs, together with their places by name.
#[derive(Drop)]
pub(crate) struct Listing {
    pub(crate) places: FirstPlaces,
    pub(crate) list: Vec<Occurrence>,
}

impl Listing {
    /// No variable. It takes no memory before one is added.
    pub(crate) fn new(alloc: Global) -> Listing
        ensures step { IsInStep result }
        ensures none { Holds result.places [] }
    {
        Listing {
            places: FirstPlaces::new(alloc),
            list: Vec::new(alloc),
        }
    }

    /// Adds an occurrence behind the others, where it is the first of its name. Where memory is refused the listing is of
    /// no use any more.
    pub(crate) fn add(&mut self, name: Name, at: usize) -> Result<(), NoMemory>
        requires { IsInStep self.old }
        ensures step { OnOk result (IsInStep self.new) }
        ensures places { OnOk result ((other : ℕ) → place_in self.new.places other ≡ option_or (place_in self.old.places other) (at_of other (occurrence name at ∷ []))) }
    {
        if self.places.add(name, at)? {
            self.list.push(Occurrence { name, at })?;
        }
        Ok(())
    }
}
