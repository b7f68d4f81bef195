//! Lines that are due with a status.
ghost use Rattle.std.specs.Prelude.{◌≡◌, ◌<◌, IfOk};
ghost use Rattle.merc_transfer.specs.Statuses.{status_told};
ghost use Rattle.merc_transfer.specs.Writing.{Writes};

use crate::statuses;
use crate::writing::{Cut, WriteFault, put_lines};
use merc_base::{Sequence, Sink, Text};

/// What is to be written, line by line, and the status to end with then.
#[derive(Drop)]
pub struct Due {
    pub status: u8,
    pub lines: Sequence<Text>,
}

/// Writes lines that are due, and answers their status. The count of faults of the sink can still rise.
///
/// # Errors
///
/// `Unwritten` where a write failed. A front of the lines was written.
pub fn put_due<K: Sink>(sink: &mut K, due: &Due) -> Result<u8, Cut>
    requires { (K.sink_state sink.old).faults < 18446744073709551615 }
    ensures writes { Writes due.now.lines (K.sink_state sink.old) (K.sink_state sink.new) result }
    ensures status { IfOk result (λ status. status ≡ due.now.status) }
{
    match put_lines(sink, due.lines.as_slice()) {
        Ok(()) => Ok(due.status),
        Err(WriteFault) => Err(Cut::Unwritten),
    }
}

/// The status to end with, where lines were written so.
pub fn status_told(written: Result<u8, Cut>) -> u8
    ensures { result ≡ status_told written }
{
    match written {
        Ok(status) => status,
        Err(Cut::Unwritten) => statuses::UNWRITTEN,
        Err(Cut::NoMemory) => statuses::NO_MEMORY,
    }
}
