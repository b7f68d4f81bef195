//! Where variables first occur.
ghost use Rattle.std.specs.Prelude.{◌≡◌, ◌==◌, ℕ, [], ◌∷◌, None, IfOk, OnOk, if◌then◌else◌};
ghost use Rattle.std.specs.Option.{is_none, option_or, option_and};
ghost use Rattle.merc_scopes.specs.Scopes.{at_of, occurrence};
ghost use Rattle.merc_scopes.specs.FirstPlaces.{place_in, Holds, IsInStep};

use crate::listing::Listing;
use merc_base::{Name, NoMemory};
use std::alloc::Global;
use std::collections::BTreeMap;

/// Where each variable of some goals first occurs, by its name.
#[derive(Drop)]
pub(crate) struct FirstPlaces {
    by_name: BTreeMap<Name, usize>,
}

impl FirstPlaces {
    /// No variable. It takes no memory before one is added.
    pub(crate) fn new(alloc: Global) -> FirstPlaces
        ensures { Holds result [] }
    {
        FirstPlaces {
            by_name: BTreeMap::new(alloc),
        }
    }

    /// Adds an occurrence that is behind the others, and says whether it is the first of its name.
    pub(crate) fn add(&mut self, name: Name, at: usize) -> Result<bool, NoMemory>
        ensures places { OnOk result ((other : ℕ) → place_in self.new other ≡ option_or (place_in self.old other) (at_of other (occurrence name at ∷ []))) }
        ensures first { IfOk result (λ first. first ≡ is_none (place_in self.old name)) }
    {
        if self.by_name.contains_key(&name) {
            return Ok(false);
        }
        self.by_name.insert(name, at)?;
        Ok(true)
    }

    /// Takes a variable away, and says where it first occurred.
    pub(crate) fn take(&mut self, name: Name) -> Option<usize>
        ensures taken { result ≡ place_in self.old name }
        ensures places { (other : ℕ) → place_in self.new other ≡ (if other == name then None else place_in self.old other) }
    {
        self.by_name.remove(&name)
    }

    /// The places of these goals and of those behind them. A variable of both is added to `shared`.
    ///
    /// It goes over the smaller side alone, so that all joins of n variables together take time of the order of n (log n)².
    pub(crate) fn join(
        self,
        behind: FirstPlaces,
        shared: &mut Listing,
    ) -> Result<FirstPlaces, NoMemory>
        requires { IsInStep shared.old }
        ensures places { IfOk result (λ all. (name : ℕ) → place_in all name ≡ option_or (place_in self name) (place_in behind name)) }
        ensures step { OnOk result (IsInStep shared.new) }
        ensures shared { OnOk result ((name : ℕ) → place_in shared.new.places name ≡ option_or (place_in shared.old.places name) (option_and (place_in behind name) (place_in self name))) }
    {
        if self.by_name.len() < behind.by_name.len() {
            put_before(self, behind, shared)
        } else {
            put_behind(self, behind, shared)
        }
    }
}

// Puts the places of the goals before over those behind them.
fn put_before(
    mut before: FirstPlaces,
    mut all: FirstPlaces,
    shared: &mut Listing,
) -> Result<FirstPlaces, NoMemory>
    requires { IsInStep shared.old }
    ensures places { IfOk result (λ joined. (name : ℕ) → place_in joined name ≡ option_or (place_in before name) (place_in all name)) }
    ensures step { OnOk result (IsInStep shared.new) }
    ensures shared { OnOk result ((name : ℕ) → place_in shared.new.places name ≡ option_or (place_in shared.old.places name) (option_and (place_in all name) (place_in before name))) }
{
    while let Some((name, at)) = before.by_name.pop_first() {
        if all.by_name.insert(name, at)?.is_some() {
            shared.add(name, at)?;
        }
    }
    Ok(all)
}

// Puts the places of the goals behind under those before them.
fn put_behind(
    mut all: FirstPlaces,
    mut behind: FirstPlaces,
    shared: &mut Listing,
) -> Result<FirstPlaces, NoMemory>
    requires { IsInStep shared.old }
    ensures places { IfOk result (λ joined. (name : ℕ) → place_in joined name ≡ option_or (place_in all name) (place_in behind name)) }
    ensures step { OnOk result (IsInStep shared.new) }
    ensures shared { OnOk result ((name : ℕ) → place_in shared.new.places name ≡ option_or (place_in shared.old.places name) (option_and (place_in behind name) (place_in all name))) }
{
    while let Some((name, at)) = behind.by_name.pop_first() {
        match all.by_name.get(&name) {
            Some(first) => shared.add(name, *first)?,
            None => {
                all.by_name.insert(name, at)?;
            }
        }
    }
    Ok(all)
}
