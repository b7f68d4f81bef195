//! Variables by their numbers.
ghost use Rattle.std.specs.Prelude.{◌≡◌, ◌<◌, ℕ, ◌==◌, ◌||◌, true, [], ◌∷◌, OnOk, IfSome, IfNone, MatchOption};
ghost use Rattle.merc_order.specs.Bound.{among};

use merc_base::NoMemory;
use merc_goal_tree::Var;
use std::alloc::Global;
use std::collections::BTreeSet;
use std::marker::Model;

/// Variables by ascending numbers, each once.
#[derive(Drop)]
pub(crate) struct OrderedVars {
    numbers: BTreeSet<usize>,
}

impl Model for OrderedVars {
    ghost use Rattle.std.specs.Prelude.{ℕ, List};

    ghost Value = { List ℕ };

    ghost view = { λ s. s.numbers.keys };
}

impl OrderedVars {
    /// No variables. It takes no memory.
    pub(crate) fn new(alloc: Global) -> OrderedVars
        ensures { result ≡ [] }
    {
        OrderedVars {
            numbers: BTreeSet::new(alloc),
        }
    }

    /// Adds the variable, unless it is one of them.
    ///
    /// # Errors
    ///
    /// `NoMemory` where memory was refused.
    pub(crate) fn add(&mut self, variable: Var) -> Result<(), NoMemory>
        ensures { OnOk result ((other : ℕ) → among self.new other ≡ ((other == variable) || among self.old other)) }
    {
        self.numbers.insert(variable.number())?;
        Ok(())
    }

    /// Takes out the one of the least number.
    pub(crate) fn pop_least(&mut self) -> Option<Var>
        ensures taken { MatchOption result (self.old ≡ []) (λ variable. self.old ≡ variable ∷ self.new) }
        ensures none { IfNone result (self.new ≡ []) }
        ensures least { IfSome result (λ variable. (other : ℕ) → among self.new other ≡ true → variable < other) }
    {
        let Some(number) = self.numbers.pop_first() else {
            return None;
        };
        Some(Var::new(number))
    }
}
