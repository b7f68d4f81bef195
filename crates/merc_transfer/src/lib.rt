//! What goes in and out whole: the file that is read, the lines that are written, and the status that tells how that went.
#![tactic(auto)]

mod due;
mod loading;
pub mod statuses;
mod writing;

pub use due::{Due, put_due, status_told};
pub use loading::{LoadFault, load};
pub use writing::{Cut, put_line};
