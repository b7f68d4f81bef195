//! Places that are given a whole type.
ghost use Rattle.std.specs.Prelude.{◌≡◌, ◌<◌, ◌∷◌, [], ◌↔◌, length, IfOk, IsTrue};
ghost use Rattle.merc_tree.specs.Types.{TypeApplication, no_types};
ghost use Rattle.merc_type_table.specs.Table.{type_at};
ghost use Rattle.merc_type_graph.specs.Cells.{entry_of, known_at, root_mark, IsSound, IsStored};
ghost use Rattle.merc_type_graph.specs.Fixing.{AllThere, FitsOrDiffers, FixesOrDiffers, StepsOrDiffers, WholeAt};
ghost use Rattle.merc_type_graph.specs.Solutions.{Applied};

use crate::Place;
use crate::cell::{Cell, Known, root_of};
use crate::store::Store;
use merc_base::{Name, NoMemory};
use merc_type_table::{TypeNode, TypeNumber, TypeTable};
use std::alloc::Global;

/// A place that is to have a whole type.
#[derive(Clone, Copy)]
pub(crate) struct Fixing {
    pub(crate) place: Place,
    pub(crate) whole: TypeNumber,
}

/// Makes the type at a place a whole type. False where it has to be another.
pub(crate) fn fix(
    alloc: Global,
    store: &Store<'_>,
    cells: &mut [Cell],
    place: Place,
    whole: TypeNumber,
) -> Result<bool, NoMemory>
    requires sound { IsSound store.now cells.old }
    requires there { place < length cells.old }
    requires declared { whole < length store.now.table.now }
    ensures sound { IsSound store.now cells.new }
    ensures made { IfOk result (λ done. FixesOrDiffers done store.now cells.old cells.new place (type_at store.now.table.now whole)) }
{
    // The list takes no memory where nothing or a whole type is known at the place.
    let mut fixings = Vec::new(alloc);
    let first = Fixing { place, whole };
    if !fix_one(store, cells, first, &mut fixings)? {
        return Ok(false);
    }
    while let Some(fixing) = fixings.pop() {
        if !fix_one(store, cells, fixing, &mut fixings)? {
            return Ok(false);
        }
    }
    Ok(true)
}

// Makes the type at one place a whole type, and puts its arguments on the list. False where it has to be another.
fn fix_one(
    store: &Store<'_>,
    cells: &mut [Cell],
    fixing: Fixing,
    fixings: &mut Vec<Fixing>,
) -> Result<bool, NoMemory>
    requires sound { IsSound store.now cells.old }
    requires there { AllThere store.now.table.now (length cells.old) (fixing ∷ []) }
    requires fixings { AllThere store.now.table.now (length cells.old) fixings.old.items }
    ensures sound { IsSound store.now cells.new }
    ensures made { IfOk result (λ done. StepsOrDiffers done store.now cells.old cells.new fixings.old.items fixings.new.items fixing) }
{
    let root = root_of(cells, fixing.place.index());
    if !fit(store, cells[root].known, fixing.whole, fixings)? {
        return Ok(false);
    }
    cells[root].known = Known::Whole(fixing.whole);
    Ok(true)
}

// Puts on the list what makes a whole type fit what is known of a type. False where no type is both.
fn fit(
    store: &Store<'_>,
    known: Known,
    whole: TypeNumber,
    fixings: &mut Vec<Fixing>,
) -> Result<bool, NoMemory>
    requires stored { IsStored store.now known }
    requires root { root_mark known ≡ 1 }
    requires there { whole < length store.now.table.now }
    ensures { IfOk result (λ fits. FitsOrDiffers store.now.table.now fits fixings.old.items fixings.new.items (entry_of store.now known) (type_at store.now.table.now whole)) }
{
    match known {
        Known::Nothing => Ok(true),
        Known::Whole(other) => Ok(store.table.is_same(other, whole)),
        Known::Named { name, first, count } => {
            let places = &store.arguments[first..first + count];
            fit_arguments(store.table, name, places, whole, fixings)
        }
        Known::SameAs(_) => Ok(false),
    }
}

// Puts on the list what makes a whole type fit a type's name over the types at these places. False where no type is both.
fn fit_arguments(
    table: &TypeTable,
    name: Name,
    places: &[Place],
    whole: TypeNumber,
    fixings: &mut Vec<Fixing>,
) -> Result<bool, NoMemory>
    requires { whole < length table.now }
    ensures { IfOk result (λ fits. FitsOrDiffers table.now fits fixings.old.items fixings.new.items (Applied name places.now) (type_at table.now whole)) }
{
    let mut rest = whole;
    for place in places {
        match table.node(rest) {
            TypeNode::With {
                first,
                rest: others,
            } => {
                fixings.push(Fixing {
                    place: *place,
                    whole: first,
                })?;
                rest = others;
            }
            _ => return Ok(false),
        }
    }
    Ok(is_name(table, rest, name))
}

// Whether a type is this name without arguments.
fn is_name(table: &TypeTable, number: TypeNumber, name: Name) -> bool
    requires { number < length table.now }
    ensures { IsTrue result ↔ (type_at table.now number ≡ TypeApplication name no_types) }
{
    match table.node(number) {
        TypeNode::Name(other) => other == name,
        _ => false,
    }
}

/// The whole type that is known at a place, None where it is not known as a whole.
pub(crate) fn whole_at(cells: &[Cell], place: usize) -> Option<TypeNumber>
    requires { place < length cells.now }
    ensures { WholeAt (known_at cells.now place) result }
{
    match cells[place].known {
        Known::Whole(whole) => Some(whole),
        _ => None,
    }
}
