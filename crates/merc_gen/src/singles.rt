//! Which procedures leave no choice point behind.
ghost use Rattle.std.specs.Prelude.{◌≡◌, [], ◌∷◌, ◌++◌, false, OnOk};
ghost use Rattle.std.specs.List.{slice_index_or};
ghost use Rattle.merc_gen.specs.Singles.{contained};

use merc_base::{NoMemory, Sequence};
use merc_graded_tree::Procedure;
use std::alloc::Global;
use std::marker::Model;

/// The procedures that leave no choice point behind. Contracts see for each predicate, by its number, which of its modes
/// are among them.
#[derive(Drop)]
pub struct Singles {
    predicates: Vec<Sequence<bool>>,
}

impl Model for Singles {
    ghost use Rattle.std.specs.Prelude.{List, Bool};

    ghost Value = { List (List Bool) };

    ghost view = { λ s. s.predicates.items };
}

impl Singles {
    /// No procedure. It takes no memory before something is pushed.
    pub fn new(alloc: Global) -> Singles
        ensures { result ≡ [] }
    {
        Singles {
            predicates: Vec::new(alloc),
        }
    }

    /// Tells of the next predicate, for each of its modes in order, whether that procedure is among them.
    ///
    /// # Errors
    ///
    /// `NoMemory` where memory was refused.
    pub fn push(&mut self, modes: Sequence<bool>) -> Result<(), NoMemory>
        ensures { OnOk result (self.new ≡ self.old ++ modes ∷ []) }
    {
        self.predicates.push(modes)?;
        Ok(())
    }

    /// Whether the procedure is among them. One of which nothing was told is not.
    pub fn contains(&self, procedure: Procedure) -> bool
        ensures { result ≡ contained self.now procedure }
    {
        match self.predicates.get(procedure.predicate.number()) {
            Some(modes) => flag_at(modes.as_slice(), procedure.mode),
            None => false,
        }
    }
}

fn flag_at(flags: &[bool], index: usize) -> bool
    ensures { result ≡ slice_index_or flags.now index false }
{
    match flags.get(index) {
        Some(flag) => *flag,
        None => false,
    }
}
