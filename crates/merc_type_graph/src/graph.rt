//! Graphs of types.
ghost use Rattle.std.specs.Prelude.{◌≡◌, ◌+◌, ◌<◌, ◌++◌, ◌∷◌, [], length, IfOk, OnOk, OnErr};
ghost use Rattle.merc_type_table.specs.Table.{type_at};
ghost use Rattle.merc_type_graph.specs.Cells.{entries_of, entry_of, needs_of, root_mark, IsSound, IsStored};
ghost use Rattle.merc_type_graph.specs.Changes.{AllWithin, Adds, Decides, MakesEqual, MakesWhole};
ghost use Rattle.merc_type_graph.specs.Solutions.{Unknown, WholeEntry, Applied};

use crate::Place;
use crate::cell::{Cell, Known};
use crate::fixing::fix;
use crate::joining::equate;
use crate::store::Store;
use crate::visiting::decide;
use merc_base::{Name, NoMemory};
use merc_type_table::{TypeNumber, TypeTable};
use std::alloc::Global;
use std::marker::Model;

/// Types that are not known yet, by places, and equations between them. A graph is seen as a list of entries, with the
/// table of declared types.
///
/// With n places and arguments in all, adding them and making them equal takes time of the order of n log n, and the
/// question whether there is a solution takes time of the order of n.
#[derive(Drop)]
pub struct TypeGraph<'a> {
    alloc: Global,
    store: Store<'a>,
    cells: Vec<Cell>,
}

impl<'a> Model for TypeGraph<'a> {
    ghost use Rattle.merc_type_graph.specs.Solutions.{Graph};

    ghost Value = { Graph };

    ghost use Rattle.std.specs.Coded.{codes};
    ghost use Rattle.merc_tree.specs.TypeTerms.{type_code};

    ghost coded = { Prim.hlevel (codes, type_code) };

    ghost use Rattle.merc_type_graph.specs.Cells.{entries_of, IsSound};

    ghost view = { λ g. record { table = g.store.table.now; entries = entries_of g.store g.cells.items } };

    ghost invariant = { λ g. IsSound g.store g.cells.items };
}

impl<'a> TypeGraph<'a> {
    /// A graph with no places over a table of declared types. It takes no memory before one is added.
    pub fn new(alloc: Global, table: &'a TypeTable) -> TypeGraph<'a>
        ensures table { result.table ≡ table.now }
        ensures none { result.entries ≡ [] }
    {
        TypeGraph {
            alloc,
            store: Store {
                table,
                arguments: Vec::new(alloc),
            },
            cells: Vec::new(alloc),
        }
    }

    /// The number of places.
    pub fn len(&self) -> usize
        ensures { result ≡ length self.now.entries }
    {
        self.cells.len()
    }

    /// Adds a place of which nothing is known. Where memory is refused nothing changes, here and in the calls of this
    /// form below.
    pub fn add_unknown(&mut self) -> Result<Place, NoMemory>
        ensures place { IfOk result (λ place. place ≡ length self.old.entries) }
        ensures count { OnOk result (length self.new.entries ≡ length self.old.entries + 1) }
        ensures solutions { OnOk result (Adds self.old.entries self.new.entries Unknown) }
        ensures table { self.new.table ≡ self.old.table }
        ensures kept { OnErr result (self.new ≡ self.old) }
    {
        add(&self.store, &mut self.cells, Known::Nothing)
    }

    /// Adds a place of a declared type, in which type variables stand for themselves.
    pub fn add_whole(&mut self, whole: TypeNumber) -> Result<Place, NoMemory>
        requires { whole < length self.old.table }
        ensures place { IfOk result (λ place. place ≡ length self.old.entries) }
        ensures count { OnOk result (length self.new.entries ≡ length self.old.entries + 1) }
        ensures solutions { OnOk result (Adds self.old.entries self.new.entries (WholeEntry (type_at self.old.table whole))) }
        ensures table { self.new.table ≡ self.old.table }
        ensures kept { OnErr result (self.new ≡ self.old) }
    {
        add(&self.store, &mut self.cells, Known::Whole(whole))
    }

    /// Adds a place of a type's name over the types at these places.
    pub fn add_applied(&mut self, name: Name, arguments: &[Place]) -> Result<Place, NoMemory>
        requires { AllWithin (length self.old.entries) arguments.now }
        ensures place { IfOk result (λ place. place ≡ length self.old.entries) }
        ensures count { OnOk result (length self.new.entries ≡ length self.old.entries + 1) }
        ensures solutions { OnOk result (Adds self.old.entries self.new.entries (Applied name arguments.now)) }
        ensures table { self.new.table ≡ self.old.table }
        ensures kept { OnErr result (self.new ≡ self.old) }
    {
        add_application(&mut self.store, &mut self.cells, name, arguments)
    }

    /// Makes the types at two places equal, and with them those of their arguments, and so on. False where no types that
    /// solve the equations are equal there: the graph is of no use then. Whether a type is a part of itself is not
    /// looked at here. Where memory is refused the graph is of no use either.
    pub fn make_equal(&mut self, one: Place, other: Place) -> Result<bool, NoMemory>
        requires one { one < length self.old.entries }
        requires other { other < length self.old.entries }
        ensures made { IfOk result (λ done. MakesEqual done self.old.entries self.new.entries one other) }
        ensures table { self.new.table ≡ self.old.table }
    {
        equate(self.alloc, &self.store, &mut self.cells, one, other)
    }

    /// Makes the type at a place a declared type, in which type variables stand for themselves. It takes no more time than
    /// what is known of the parts of the type at the place: where that is nothing, or a declared type as well, none that
    /// hangs on the types. False where no types that solve the equations have this type there: the graph is of no use then.
    /// Where memory is refused the graph is of no use either.
    pub fn make_whole(&mut self, place: Place, whole: TypeNumber) -> Result<bool, NoMemory>
        requires there { place < length self.old.entries }
        requires declared { whole < length self.old.table }
        ensures made { IfOk result (λ done. MakesWhole done self.old.entries self.new.entries place (type_at self.old.table whole)) }
        ensures table { self.new.table ≡ self.old.table }
    {
        fix(self.alloc, &self.store, &mut self.cells, place, whole)
    }

    /// Whether there are types that solve the equations.
    ///
    /// # Errors
    ///
    /// `NoMemory` where memory was refused.
    pub fn is_solvable(&self, alloc: Global) -> Result<bool, NoMemory>
        ensures { IfOk result (λ solvable. Decides solvable self.now.entries) }
    {
        decide(alloc, &self.store, &self.cells)
    }
}

// Adds a place of which this is known.
fn add(store: &Store<'_>, cells: &mut Vec<Cell>, known: Known) -> Result<Place, NoMemory>
    requires sound { IsSound store.now cells.old.items }
    requires stored { IsStored store.now known }
    requires root { root_mark known ≡ 1 }
    requires within { AllWithin (length cells.old.items) (needs_of (entry_of store.now known)) }
    ensures sound { IsSound store.now cells.new.items }
    ensures place { IfOk result (λ place. place ≡ length cells.old.items) }
    ensures added { OnOk result (entries_of store.now cells.new.items ≡ entries_of store.now cells.old.items ++ entry_of store.now known ∷ []) }
    ensures kept { OnErr result (cells.new.items ≡ cells.old.items) }
{
    let place = Place::at(cells.len());
    cells.push(Cell { known, rank: 0 })?;
    Ok(place)
}

// Adds a place of a type's name over the types at these places.
fn add_application(
    store: &mut Store<'_>,
    cells: &mut Vec<Cell>,
    name: Name,
    added: &[Place],
) -> Result<Place, NoMemory>
    requires sound { IsSound store.old cells.old.items }
    requires within { AllWithin (length cells.old.items) added.now }
    ensures sound { IsSound store.new cells.new.items }
    ensures table { store.new.table.now ≡ store.old.table.now }
    ensures place { IfOk result (λ place. place ≡ length cells.old.items) }
    ensures added { OnOk result (entries_of store.new cells.new.items ≡ entries_of store.old cells.old.items ++ Applied name added.now ∷ []) }
    ensures kept { OnErr result (entries_of store.new cells.new.items ≡ entries_of store.old cells.old.items) }
{
    let first = store.arguments.len();
    store.arguments.extend_from_slice(added)?;
    add(
        store,
        cells,
        Known::Named {
            name,
            first,
            count: added.len(),
        },
    )
}
