//! Places of a heap's cells.
ghost use Rattle.std.specs.Prelude.{◌≡◌, ◌∷◌, ◌++◌, ◌<◌, ℕ, [], IsTrue, OnOk, IfSome, IfNone, MatchOption};
ghost use Rattle.merc_segments.specs.Places.{has, Adds};

use merc_base::NoMemory;
use merc_value::Word;
use std::alloc::Global;
use std::collections::BTreeSet;
use std::marker::Model;

/// Places from the lowest to the highest, each once.
#[derive(Drop)]
pub(crate) struct Places {
    places: BTreeSet<usize>,
}

impl Model for Places {
    ghost use Rattle.std.specs.Prelude.{ℕ, List};

    ghost Value = { List ℕ };

    ghost view = { λ p. p.places.keys };
}

impl Places {
    /// No places. It takes no memory.
    pub(crate) fn new(alloc: Global) -> Places
        ensures { result ≡ [] }
    {
        Places {
            places: BTreeSet::new(alloc),
        }
    }

    /// Adds the place of the cell that a word leads to, unless it is one of them.
    ///
    /// # Errors
    ///
    /// `NoMemory` where memory was refused.
    pub(crate) fn add(&mut self, word: Word) -> Result<(), NoMemory>
        ensures { OnOk result (Adds (word ∷ []) self.old self.new) }
    {
        if let Word::Cell(place) = word {
            self.places.insert(place)?;
        }
        Ok(())
    }

    /// Takes out the highest.
    pub(crate) fn pop_highest(&mut self) -> Option<usize>
        ensures taken { MatchOption result (self.old ≡ []) (λ place. self.old ≡ self.new ++ place ∷ []) }
        ensures none { IfNone result (self.new ≡ []) }
        ensures highest { IfSome result (λ place. (other : ℕ) → IsTrue (has self.new other) → other < place) }
    {
        self.places.pop_last()
    }
}
