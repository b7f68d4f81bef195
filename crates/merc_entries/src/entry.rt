//! The items of a module with those of the units that it imports, each in its place.

use merc_base::{Name, Place, Span};
use merc_item_forms::Item;

/// An item in its place.
#[derive(Drop)]
pub struct Entry<'a> {
    /// What the item is.
    pub item: Item<'a>,
    /// The item's span in its own text.
    pub span: Span,
    /// The place of the file's item at which it stands: its own, or that of the import.
    pub place: Place,
    /// The unit that it comes from, none for the file's own.
    pub unit: Option<Name>,
}
