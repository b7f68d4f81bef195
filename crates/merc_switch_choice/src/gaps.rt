//! Constructors by which none of several disjuncts splits a variable.
ghost use Rattle.std.specs.Prelude.{◌≡◌, ℕ, List, true, None, map};
ghost use Rattle.std.specs.List.{AllByRecursion};
ghost use Rattle.merc_graded_tree.specs.Nodes.{Node};
ghost use Rattle.merc_grading.specs.Known.{has_symbol, symbol_of};
ghost use Rattle.merc_switch_choice.specs.Gaps.{symbol_of_gap, Avoids, gap_of, AreGaps};

use indexmap::IndexMap;
use merc_base::{Name, NoMemory};
use merc_goal_tree::{Symbol, Var};
use merc_tree::Constructor;
use std::alloc::Global;

/// A constructor of a type by which none of several disjuncts splits a variable.
#[derive(Clone, Copy)]
pub(crate) struct Gap {
    name: Name,
    arity: usize,
    // its place among the constructors of its type
    place: usize,
}

impl Gap {
    /// The constructor that stands at this place among those of its type.
    pub(crate) fn of(constructor: &Constructor, place: usize) -> Gap
        ensures { symbol_of_gap result ≡ symbol_of constructor.now }
    {
        Gap {
            name: constructor.name,
            arity: constructor.args.len(),
            place,
        }
    }

    /// The symbol that it is.
    pub(crate) fn symbol(&self) -> Symbol
        ensures { result ≡ symbol_of_gap self.now }
    {
        Symbol::Constructor(self.name, self.arity)
    }

    /// Whether it is the one of these constructors that stands at its place.
    pub(crate) fn is_in(&self, constructors: &[Constructor]) -> bool
        ensures { result ≡ true → has_symbol (map symbol_of constructors.now) (symbol_of_gap self.now) ≡ true }
    {
        match constructors.get(self.place) {
            Some(constructor) => {
                constructor.name == self.name && constructor.args.len() == self.arity
            }
            None => false,
        }
    }
}

/// A gap of each variable of which one is known. It stays one of fewer disjuncts.
#[derive(Drop)]
pub(crate) struct Gaps {
    // by the variable's number
    by_number: IndexMap<usize, Gap>,
}

impl Gaps {
    /// No gaps. It takes no memory.
    pub(crate) fn new(alloc: Global) -> Gaps
        ensures { (variable : ℕ) → gap_of result variable ≡ None }
    {
        Gaps {
            by_number: IndexMap::new(alloc),
        }
    }

    /// The one that is kept of a variable.
    pub(crate) fn of(&self, variable: Var) -> Option<Gap>
        ensures { result ≡ gap_of self.now variable }
    {
        let number = variable.number();
        self.by_number.get(&number).copied()
    }

    /// Keeps the gap of a variable in place of the one that was kept.
    ///
    /// # Errors
    ///
    /// `NoMemory` where memory was refused.
    pub(crate) fn put(&mut self, variable: Var, gap: Gap) -> Result<(), NoMemory>
        ensures { (disjuncts : List Node) → AreGaps self.old disjuncts → AllByRecursion (Avoids variable (symbol_of_gap gap)) disjuncts → AreGaps self.new disjuncts }
    {
        self.by_number.insert(variable.number(), gap)?;
        Ok(())
    }
}
