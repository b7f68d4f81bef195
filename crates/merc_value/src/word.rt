//! Words: what a field of a cell and a root of a block hold.

use merc_base::Name;

/// A word of a block, which stands for one value.
#[derive(Clone, Copy, PartialEq, Eq)]
pub enum Word {
    /// An integer.
    Int(i64),
    /// The text that this name has.
    Text(Name),
    /// A constructor without arguments.
    Atom(Name),
    /// The cell at this place of the block, from 0.
    Cell(usize),
}
