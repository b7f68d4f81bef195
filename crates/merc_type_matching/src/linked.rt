//! Names that are linked, directly or through others.
ghost use Rattle.std.specs.Prelude.{◌≡◌, ℕ, None, Some, IfOk, OnOk};
ghost use Rattle.std.specs.Ordering.{nat_cmp};
ghost use Rattle.std.specs.BTreeMap.{get};
ghost use Rattle.merc_tree.specs.Types.{TypeExpr};
ghost use Rattle.merc_type_matching.specs.Linked.{Agree, IsFalling, Joins, LeadsTo, Links, SameLinks};

use merc_base::{Name, NoMemory};
use std::alloc::Global;
use std::collections::BTreeMap;

/// Names of two sides in classes: names are of one class where they were linked, directly or through others.
#[derive(Drop)]
pub(crate) struct LinkedNames {
    // Names of the first side, each with a lesser one of its class. The least name of a class has none.
    lesser: BTreeMap<Name, Name>,
    // Names of the second side, each with one of the first side, of its class.
    beside: BTreeMap<Name, Name>,
}

impl LinkedNames {
    /// No names are linked. It takes no memory.
    pub(crate) fn new(alloc: Global) -> LinkedNames
        ensures falling { IsFalling (get nat_cmp result.lesser) }
        ensures free { (one other : ℕ → TypeExpr) → Agree result one other }
    {
        LinkedNames {
            lesser: BTreeMap::new(alloc),
            beside: BTreeMap::new(alloc),
        }
    }

    /// Links a name of the first side and one of the second. False where they were of one class. Of n links each takes time of
    /// the order of the square of log n in the mean.
    ///
    /// # Errors
    ///
    /// `NoMemory` where memory was refused.
    pub(crate) fn link(&mut self, one: Name, other: Name) -> Result<bool, NoMemory>
        requires { IsFalling (get nat_cmp self.old.lesser) }
        ensures { IfOk result (λ is_new. Links is_new self.old self.new one other) }
    {
        match self.beside.get(&other).copied() {
            Some(first) => self.join(first, one),
            None => {
                self.beside.insert(other, one)?;
                Ok(true)
            }
        }
    }

    // Puts two names of the first side into one class. False where they were.
    fn join(&mut self, one: Name, other: Name) -> Result<bool, NoMemory>
        requires { IsFalling (get nat_cmp self.old.lesser) }
        ensures { IfOk result (λ is_new. Joins is_new self.old self.new one other) }
    {
        let least = self.least(one)?;
        let other_least = self.least(other)?;
        if least == other_least {
            return Ok(false);
        }
        if least < other_least {
            self.lesser.insert(other_least, least)?;
        } else {
            self.lesser.insert(least, other_least)?;
        }
        Ok(true)
    }

    // The least name of a class. Each name on the way to it is put beside the next but one.
    fn least(&mut self, name: Name) -> Result<Name, NoMemory>
        requires { IsFalling (get nat_cmp self.old.lesser) }
        ensures { IfOk result (λ least. LeadsTo self.old self.new name least) }
    {
        let mut at = name;
        while let Some(next) = self.lesser.get(&at).copied() {
            self.shorten(at, next)?;
            at = next;
        }
        Ok(at)
    }

    // Gives a name the lesser one of its own lesser one, if that has one.
    fn shorten(&mut self, name: Name, next: Name) -> Result<(), NoMemory>
        requires falling { IsFalling (get nat_cmp self.old.lesser) }
        requires next { get nat_cmp self.old.lesser name ≡ Some next }
        ensures { OnOk result (SameLinks self.old self.new) }
    {
        match self.lesser.get(&next).copied() {
            Some(last) => {
                self.lesser.insert(name, last)?;
                Ok(())
            }
            None => Ok(()),
        }
    }
}
