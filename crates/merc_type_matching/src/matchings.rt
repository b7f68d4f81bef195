//! What was found where declared types were matched.
ghost use Rattle.std.specs.Prelude.{◌≡◌, ◌<◌, List, length, IfOk, OnOk};
ghost use Rattle.std.specs.Option.{IfSome};
ghost use Rattle.merc_tree.specs.Types.{TypeExpr};
ghost use Rattle.merc_type_table.specs.Table.{type_at};
ghost use Rattle.merc_type_matching.specs.Kept.{AreKept};
ghost use Rattle.merc_type_matching.specs.Matched.{AreMatched};

use crate::matching::{NamePair, NumberPair, pairs_between};
use merc_base::{NoMemory, Sequence};
use merc_type_table::TypeTable;
use std::alloc::Global;
use std::collections::{BTreeMap, BTreeSet};

// The most pairs that are kept in all, which take 64 MB. More would help only a module that matches the same many types with
// many type variables again and again.
const MOST_KEPT: usize = 4_000_000;

/// What was found where two declared types of a module were matched. It is kept from one goal of the module to the next, so
/// that types are not matched anew for each.
#[derive(Drop)]
pub struct Matchings {
    // Of types that differ in type variables alone, the pairs of these.
    pairs: BTreeMap<NumberPair, Sequence<NamePair>>,
    // At most so many pairs are kept in all.
    count: usize,
    // Types that differ in more than type variables.
    apart: BTreeSet<NumberPair>,
}

impl Matchings {
    /// No types were matched. It takes no memory.
    pub fn new(alloc: Global) -> Matchings
        ensures { (table : List TypeExpr) → AreKept table result }
    {
        Matchings {
            pairs: BTreeMap::new(alloc),
            count: 0,
            apart: BTreeSet::new(alloc),
        }
    }

    /// Pairs of type variables that stand at one place in the two types, but for pairs that follow from others. None where
    /// the types differ in more than type variables. The pairs are to be given back by `keep`: then they are at hand the
    /// next time.
    ///
    /// # Errors
    ///
    /// `NoMemory` where memory was refused.
    pub fn take(
        &mut self,
        alloc: Global,
        table: &TypeTable,
        types: NumberPair,
    ) -> Result<Option<Sequence<NamePair>>, NoMemory>
        requires one { types.one < length table.now }
        requires other { types.other < length table.now }
        requires kept { AreKept table.now self.old }
        ensures kept { AreKept table.now self.new }
        ensures matched { IfOk result (λ found. IfSome found (λ pairs. AreMatched pairs (type_at table.now types.one) (type_at table.now types.other))) }
    {
        match self.pairs.remove(&types) {
            Some(pairs) => {
                self.count = self.count.saturating_sub(pairs.as_slice().len());
                Ok(Some(pairs))
            }
            None => self.find(alloc, table, types),
        }
    }

    // The pairs of types that none are kept of.
    fn find(
        &mut self,
        alloc: Global,
        table: &TypeTable,
        types: NumberPair,
    ) -> Result<Option<Sequence<NamePair>>, NoMemory>
        requires one { types.one < length table.now }
        requires other { types.other < length table.now }
        ensures same { self.new.pairs ≡ self.old.pairs }
        ensures matched { IfOk result (λ found. IfSome found (λ pairs. AreMatched pairs (type_at table.now types.one) (type_at table.now types.other))) }
    {
        if self.apart.contains(&types) {
            return Ok(None);
        }
        let found = pairs_between(alloc, table, types)?;
        if found.is_none() {
            self.apart.insert(types)?;
        }
        Ok(found)
    }

    /// Keeps the pairs of type variables of two types. Where they would be too many, those that were kept before are forgotten.
    ///
    /// # Errors
    ///
    /// `NoMemory` where memory was refused.
    pub fn keep(&mut self, types: NumberPair, pairs: Sequence<NamePair>) -> Result<(), NoMemory>
        ensures { OnOk result ((table : List TypeExpr) → AreKept table self.old → AreMatched pairs (type_at table types.one) (type_at table types.other) → AreKept table self.new) }
    {
        self.count_more(pairs.as_slice().len());
        self.pairs.insert(types, pairs)?;
        Ok(())
    }

    // Makes room for so many pairs.
    fn count_more(&mut self, count: usize)
        ensures { (table : List TypeExpr) → AreKept table self.old → AreKept table self.new }
    {
        let counted = self.count.saturating_add(count);
        if counted <= MOST_KEPT {
            self.count = counted;
        } else {
            self.pairs.clear();
            self.count = count;
        }
    }
}
