//! The check of types: whether the variables of a goal have types that agree with what is declared, and which.
#![tactic(auto)]

mod building;
mod checker;
mod checking;
pub mod declared;
mod goals;
mod repeats;
pub mod typings;

pub use checking::{is_typed, typing};
pub use declared::DeclaredTypes;
pub use typings::Typing;
