//! Names, each once.
ghost use Rattle.std.specs.Prelude.{◌≡◌, [], ◌∷◌, ◌++◌, not, IfOk, OnOk, if◌then◌else◌};
ghost use Rattle.merc_item_forms.specs.Forms.{is_in};

use merc_base::{Name, NoMemory};
use std::alloc::Global;
use std::collections::BTreeSet;
use std::marker::Model;

/// Names, each once, in the order in which they came. Contracts see the list of them.
#[derive(Drop)]
pub struct DistinctNames {
    names: Vec<Name>,
    // the same names
    known: BTreeSet<Name>,
}

impl Model for DistinctNames {
    ghost use Rattle.std.specs.Prelude.{◌≡◌, ℕ, List};
    ghost use Rattle.std.specs.Ordering.{nat_cmp};
    ghost use Rattle.std.specs.BTreeSet.{contains};
    ghost use Rattle.merc_item_forms.specs.Forms.{is_in};

    ghost Value = { List ℕ };

    ghost view = { λ d. d.names.items };

    ghost invariant = { λ d. (name : ℕ) → contains nat_cmp d.known name ≡ is_in name d.names.items };
}

impl DistinctNames {
    /// No names.
    pub fn new(alloc: Global) -> DistinctNames
        ensures { result ≡ [] }
    {
        DistinctNames {
            names: Vec::new(alloc),
            known: BTreeSet::new(alloc),
        }
    }

    /// Puts a name behind the others if it is new, and says whether it is.
    ///
    /// # Errors
    ///
    /// `NoMemory` where memory was refused.
    pub fn insert(&mut self, name: Name) -> Result<bool, NoMemory>
        ensures new { IfOk result (λ new. new ≡ not (is_in name self.old)) }
        ensures names { OnOk result (self.new ≡ (if is_in name self.old then self.old else self.old ++ name ∷ [])) }
    {
        self.names.reserve(1)?;
        let new = self.known.insert(name)?;
        if new {
            self.names.push(name).unwrap();
        }
        Ok(new)
    }

    /// The names, in order.
    pub fn into_vec(self) -> Vec<Name>
        ensures { result.items ≡ self }
    {
        self.names
    }
}
