//! What is known of procedures before their code is linked: how great their frames are, where their code begins, and whether it
//! starts clean.
#![tactic(auto)]

pub mod clean;
pub mod conjuncts;
pub mod entries;
pub mod sizes;

pub use clean::all_clean;
pub use conjuncts::{Conjuncts, KnownConjunct, place_conjuncts};
pub use entries::{Entry, Frame, Known, Piece, Pieces, Table, find, goal_piece, place_all};
pub use sizes::{Size, lent_at_sites};
