//! The outside world: shelves over files that are opened, sinks and taps over writers, those of the system among them, and
//! shelves, sinks and taps in memory that stand in for them and fail as told.
#![tactic(auto)]

pub mod failing_shelf;
pub mod failing_sink;
pub mod file_shelf;
pub mod list_tap;
pub mod mem_shelf;
pub mod mem_sink;
pub mod open_gate;
pub mod opening;
pub mod out_sink;
pub mod piece_sink;
pub mod tally_tap;

pub use failing_shelf::FailingShelf;
pub use failing_sink::FailingSink;
pub use file_shelf::FileShelf;
pub use list_tap::{LastEvent, ListTap};
pub use mem_shelf::MemShelf;
pub use mem_sink::MemSink;
pub use open_gate::OpenGate;
pub use opening::{Opener, ReadFault, SystemFiles};
pub use out_sink::{OutSink, SystemOutput};
pub use piece_sink::PieceSink;
pub use tally_tap::TallyTap;
