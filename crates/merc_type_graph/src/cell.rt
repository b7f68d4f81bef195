//! What is kept for each place of a graph.
ghost use Rattle.std.specs.Prelude.{◌≡◌, ◌<◌, length, slice_get};
ghost use Rattle.merc_type_graph.specs.Cells.{entry_of, needs_of, IsForest, IsStored, LeadsTo};

use crate::Place;
use crate::store::Store;
use merc_base::Name;
use merc_type_table::TypeNumber;

/// What is known of the type at a place.
#[derive(Clone, Copy)]
pub(crate) enum Known {
    Nothing,
    /// A declared type, in which type variables stand for themselves.
    Whole(TypeNumber),
    /// A type's name over `count` arguments, from `first` on.
    Named {
        name: Name,
        first: usize,
        count: usize,
    },
    /// It is the type at another place.
    SameAs(usize),
}

/// What is known at a place, and its rank, which is below that of a place that it is the same as.
#[derive(Clone, Copy)]
pub(crate) struct Cell {
    pub(crate) known: Known,
    pub(crate) rank: usize,
}

/// The place at this number among those that a type is known by.
pub(crate) fn need_at(known: &Known, store: &Store<'_>, number: usize) -> Option<usize>
    requires { IsStored store.now known.now }
    ensures { result ≡ slice_get (needs_of (entry_of store.now known.now)) number }
{
    match known {
        Known::SameAs(place) => { if number == 0 { Some(*place) } else { None } }
        Known::Named { first, count, .. } => {
            if number < *count {
                Some(store.arguments[*first + number].index())
            } else {
                None
            }
        }
        Known::Nothing | Known::Whole(_) => None,
    }
}

/// The root that a place leads to. Each link leads to a higher rank, so there are few.
pub(crate) fn root_of(cells: &[Cell], place: usize) -> usize
    requires forest { IsForest cells.now }
    requires there { place < length cells.now }
    ensures { LeadsTo cells.now place result }
{
    let mut at = place;
    while let Known::SameAs(next) = cells[at].known {
        at = next;
    }
    at
}
