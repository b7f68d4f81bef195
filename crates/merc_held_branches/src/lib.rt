//! What a board holds of branches: their rights to wait for values and to signal them, and how a fork hands these out. Where a
//! branch stands that lies in a berth, and what may lie there.
#![tactic(auto)]

pub mod branch;
pub mod cells;
pub mod moving;
pub mod rights;
pub mod room;
pub mod sharing;
pub mod types;

pub use branch::{Held, HeldSignal, HeldWait, Hold, Lot, Moored, Ways};
pub use cells::share_cells;
pub use moving::hand_out;
pub use rights::{take_signal, take_wait};
pub use room::Room;
pub use types::{Bed, Given};
