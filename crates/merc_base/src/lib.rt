//! What every crate of merc stands on: texts, names, places in a text, refusals, and the traits of the
//! outside world.
#![tactic(auto)]

pub mod buffer;
pub mod category;
pub mod groups;
pub mod memory;
pub mod names;
pub mod outside;
pub mod place;
pub mod refusal;
pub mod sequence;
pub mod text;
pub mod text_table;

pub use buffer::Buffer;
pub use category::{Category, Most};
pub use groups::{Groups, Key};
pub use memory::NoMemory;
pub use names::{Name, Names};
pub use outside::{Fetched, Gate, Shelf, Sink, Tap, TapAnswer, TapEvent, Wrote};
pub use place::{Place, Span};
pub use refusal::{Construct, Detail, Fault, LimitName, Refusal, Rule};
pub use sequence::Sequence;
pub use text::Text;
pub use text_table::TextTable;
