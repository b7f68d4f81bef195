//! What the words of a command ask for. The words behind the command are parted by `clap`; all else is read here.
#![tactic(auto)]

mod parts;
mod settings;
mod words;

pub use settings::{Setting, Settings};
pub use words::{Request, WordsFault, read_words};
