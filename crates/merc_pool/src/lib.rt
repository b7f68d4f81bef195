//! Sessions: the answers of what is asked, one after the other, by workers over a board.
#![tactic(auto)]

pub mod desk;
pub mod ending;
pub mod engine;
pub mod forking;
pub mod hand;
pub mod load;
pub mod meeting;
pub mod next;
pub mod running;
pub mod session;
pub mod shared;
pub mod shares;
pub mod spent;
pub mod telling;
pub mod turn;
pub mod work;

pub use engine::Engine;
pub use load::{Asked, Carried};
pub use merc_machine::Ticks;
pub use next::Next;
pub use session::Session;
