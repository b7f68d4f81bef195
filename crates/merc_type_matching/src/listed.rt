//! Declared types with lists of their type variables.
ghost use Rattle.std.specs.Prelude.{◌≡◌, ◌<◌, length, OnOk};
ghost use Rattle.std.specs.Option.{IfSome};
ghost use Rattle.merc_type_table.specs.Table.{type_at};
ghost use Rattle.merc_type_matching.specs.Matched.{AreMatched};
ghost use Rattle.merc_type_matching.specs.Listed.{AreWithin};

use crate::matching::{NamePair, NumberPair, pairs_between};
use merc_base::{NoMemory, Sequence};
use merc_type_table::{TypeNumber, TypeTable};
use std::alloc::Global;
use std::collections::BTreeMap;
use std::marker::Model;

/// Types by numbers, with the type variables of some of them. Contracts see the types.
#[derive(Drop)]
pub struct ListedTypes {
    table: TypeTable,
    // Each type variable beside itself.
    variables: BTreeMap<TypeNumber, Sequence<NamePair>>,
}

impl Model for ListedTypes {
    ghost use Rattle.std.specs.Prelude.{List};
    ghost use Rattle.merc_tree.specs.Types.{TypeExpr};

    ghost Value = { List TypeExpr };

    ghost use Rattle.merc_tree.specs.TypeTerms.{types_code};

    ghost coded = { types_code };

    ghost use Rattle.merc_type_matching.specs.Listed.{AreListed};

    ghost view = { λ t. t.table };

    ghost invariant = { λ t. AreListed t.table t.variables };
}

impl ListedTypes {
    /// Types with no lists. It takes no memory.
    pub fn new(alloc: Global, table: TypeTable) -> ListedTypes
        ensures { result ≡ table }
    {
        ListedTypes {
            table,
            variables: BTreeMap::new(alloc),
        }
    }

    /// The types by numbers.
    pub fn types(&self) -> &TypeTable
        ensures { result.now ≡ self.now }
    {
        &self.table
    }

    /// The type variables of the type at a number, each once and beside itself, None where they were not listed.
    pub fn variables_of(&self, number: TypeNumber) -> Option<&[NamePair]>
        ensures { IfSome result (λ pairs. AreMatched pairs.now (type_at self.now number) (type_at self.now number)) }
    {
        match self.variables.get(&number) {
            Some(pairs) => Some(pairs.as_slice()),
            None => None,
        }
    }

    /// Lists the type variables of the types at these numbers. Each takes time of the order of n log n, with n parts of the
    /// type, the first time.
    ///
    /// # Errors
    ///
    /// `NoMemory` where memory was refused.
    pub fn list_all(&mut self, alloc: Global, numbers: &[TypeNumber]) -> Result<(), NoMemory>
        requires { AreWithin self.old numbers.now }
        ensures { OnOk result (self.new ≡ self.old) }
    {
        for number in numbers {
            self.list(alloc, *number)?;
        }
        Ok(())
    }

    // Lists the type variables of the type at a number.
    fn list(&mut self, alloc: Global, number: TypeNumber) -> Result<(), NoMemory>
        requires { number < length self.old }
        ensures { OnOk result (self.new ≡ self.old) }
    {
        if self.table.is_closed(number) || self.variables.contains_key(&number) {
            return Ok(());
        }
        let found = pairs_between(
            alloc,
            &self.table,
            NumberPair {
                one: number,
                other: number,
            },
        )?;
        if let Some(pairs) = found {
            self.variables.insert(number, pairs)?;
        }
        Ok(())
    }
}
