//! The tokens of Mercury text: the first phase of reading it, exact for every text.
#![tactic(auto)]

mod bytes;
mod integers;
mod pieces;
mod quoting;
mod reading;
mod token;

pub use reading::tokens;
pub use token::{Token, TokenKind, Tokens};
