//! Rights of parallel conjuncts to wait for values and to signal them, and which of the goals that a goal joins they go to.
#![tactic(auto)]

pub mod arms;
pub mod conjuncts;
pub mod groups;
pub mod members;
pub mod occurrences;
pub mod parting;
pub mod rights;
pub mod rows;
pub mod signals;
pub mod sites;
pub mod sums;
pub mod turns;

pub use arms::{bound_shares, passed, put_shares};
pub use conjuncts::{Found, found_at, put_moved};
pub use groups::{Group, NumberedGroup};
pub use members::{Members, listed, start_of};
pub use occurrences::Occurrences;
pub use parting::{Parted, part_by_moves, part_by_use, part_by_variable};
pub use rights::{Awaited, Right};
pub use rows::Rows;
pub use signals::{Signals, by_number, take_row};
pub use sites::{CellInfo, Moved, SiteInfo};
pub use sums::sum;
pub use turns::{signals_in_turn, waits_in_turn};
