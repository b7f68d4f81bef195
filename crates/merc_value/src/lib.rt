//! Values as they lie in memory, and their text.
#![tactic(auto)]

pub mod block;
mod quoting;
mod shape;
pub mod sharing;
pub mod word;
pub mod writing;

pub use block::{Block, Cell};
pub use quoting::{is_blank, is_plain, quoted, text_of};
pub use sharing::{equal, moved_all};
pub use word::Word;
pub use writing::write_text;
