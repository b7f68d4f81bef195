//! What the types at places are made of.
use crate::Place;
use merc_type_table::TypeTable;

/// The declared types, and the arguments of all types in one list.
#[derive(Drop)]
pub(crate) struct Store<'a> {
    pub(crate) table: &'a TypeTable,
    pub(crate) arguments: Vec<Place>,
}
