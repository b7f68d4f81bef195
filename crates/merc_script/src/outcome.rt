//! How a script ends.

use merc_base::Name;

/// How a script ends. The numbers count the steps that were made, those of children among them.
#[derive(Clone, Copy, PartialEq, Eq)]
pub enum Outcome {
    /// It came to its end, after so many steps.
    Ok(u64),
    /// An exception with this text was raised, after so many steps.
    Raise(Name, u64),
    /// One step more than the limit would have been made.
    Limit,
    /// It waited for a value that does not come.
    Starved,
    /// Memory was refused.
    NoMemory,
}
