//! Variables where they stand in a text.

use merc_base::Name;

/// A variable where it stands in the text of a clause or a goal.
#[derive(Clone, Copy)]
pub struct Occurrence {
    /// The variable's name.
    pub name: Name,
    /// The number of the variable's term among the parts of the text.
    pub at: usize,
}
