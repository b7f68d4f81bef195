//! What a worker has in hand.

use merc_board::Branch;
use merc_machine::Stop;
use merc_script::Outcome;
use merc_value::Block;

/// What a worker has in hand between two of its turns.
#[derive(Drop)]
pub enum Hand<L: Drop, H: Drop> {
    /// Nothing: it looks for a branch.
    Empty,
    /// A branch, to run it on.
    Runs(Box<Branch<L, H>>),
    /// A branch that waits, and its value.
    Given(Box<Branch<L, H>>, Block),
    /// A branch that ends so.
    Ends(Box<Branch<L, H>>, Outcome),
    /// The root, which has come to this stop.
    Came(Box<Branch<L, H>>, Stop),
}
