//! Berths.

use crate::spot::Label;
use atomic_table::Badge;

/// The right to use one slot of a yard. It names no type of what lies there, so what lies there may hold berths.
#[derive(Drop)]
pub struct Berth {
    pub(crate) slot: usize,
    pub(crate) badge: Badge<Label>,
}
