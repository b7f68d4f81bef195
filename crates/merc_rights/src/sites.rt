//! What stands at the sites of parallel conjunctions.
ghost use Rattle.std.specs.Prelude.{◌≡◌, IfOk};

use merc_base::{NoMemory, Sequence};
use merc_goal_tree::Var;
use std::alloc::Global;

/// A cell of an `&`: the variable whose value comes through it, the conjunct that binds the variable and signals it, and
/// the conjunct that waits for it, 0 for the goals behind the `&`. Conjuncts are numbered from 1.
#[derive(Clone, Copy)]
pub struct CellInfo {
    pub variable: Var,
    pub producer: usize,
    pub consumer: usize,
}

/// A right of the enclosing conjunct for a variable that moves into a conjunct of an `&`: to signal it, all its cells, or
/// else to wait for it.
#[derive(Clone, Copy)]
pub struct Moved {
    pub variable: Var,
    /// The conjunct, numbered from 1.
    pub child: usize,
    pub signal: bool,
}

/// What stands at a site.
#[derive(Drop)]
pub struct SiteInfo {
    /// The number of conjuncts.
    pub children: usize,
    /// By producer, then in the order in which the variables occur first in the `&`, then by consumer, 0 last.
    pub cells: Sequence<CellInfo>,
    /// Those to signal first.
    pub moves: Sequence<Moved>,
}

impl SiteInfo {
    /// A copy. `NoMemory` where memory was refused.
    pub fn try_clone(&self, alloc: Global) -> Result<SiteInfo, NoMemory>
        ensures { IfOk result (λ copy. copy ≡ self.now) }
    {
        Ok(SiteInfo {
            children: self.children,
            cells: self.cells.try_clone(alloc)?,
            moves: self.moves.try_clone(alloc)?,
        })
    }
}
