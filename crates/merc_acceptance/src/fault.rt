//! What can be wrong with a table.
use merc_base::NoMemory;
use std::alloc::{AllocError, AllocFailed};

/// Why a line of a table has no meaning.
#[derive(Clone, Copy)]
pub enum TableFault {
    Unread,
    UnknownLine,
    NothingToContinue,
    WrongNumber,
    WrongEscape,
    NothingDue,
    UnusedText,
    WrongLine,
    NoMemory,
}

impl TableFault {
    /// The fault in words.
    pub(crate) fn text(self) -> &'static str {
        match self {
            TableFault::Unread => "the table cannot be read",
            TableFault::UnknownLine => "neither a comment, a heading, a setting nor a case",
            TableFault::NothingToContinue => "goes on from no line",
            TableFault::WrongNumber => "a number is missing or out of its range",
            TableFault::WrongEscape => "no such escape",
            TableFault::NothingDue => "nothing is said to be due",
            TableFault::UnusedText => "the text of the case is used nowhere",
            TableFault::WrongLine =>
                "a line is said and nothing due names it, or the other way round",
            TableFault::NoMemory => "out of memory",
        }
    }
}

impl From<NoMemory> for TableFault {
    fn from(_: NoMemory) -> Self {
        TableFault::NoMemory
    }
}

impl From<AllocError> for TableFault {
    fn from(_: AllocError) -> Self {
        TableFault::NoMemory
    }
}

impl<T: Drop> From<AllocFailed<T>> for TableFault {
    fn from(_: AllocFailed<T>) -> Self {
        TableFault::NoMemory
    }
}
