//! A sink over a writer, standard output or another.
ghost use Rattle.std.specs.Prelude.{◌≡◌, ◌+◌, ◌<◌, ◌≤◌, None, length, take, true, IfSome, IfNone, is_some};
ghost use Rattle.std.specs.Io.KnownBytes.{Appends, Keeps};
ghost use Rattle.merc_base.specs.Outside.{AnswersWrite};
ghost use Rattle.merc_io.specs.Sinks.{writer_told};

use merc_base::{Sink, Wrote};
use std::io;
use std::io::Write;
use std::marker::Model;

/// A writer, with no buffer: what a write took is with the writer.
#[derive(Drop)]
pub struct OutSink<W: Write + Drop> {
    writer: W,
    // Whether the writer tells its bytes, from the first on. Clauses alone speak of it.
    is_told: bool,
    faults: u64,
}

impl<W: Write + Drop> Model for OutSink<W> {
    ghost use Rattle.std.specs.Prelude.{◌≡◌, true, is_some};
    ghost use Rattle.merc_io.specs.Sinks.{OutSinkState, told_if};

    ghost Value = { OutSinkState };

    ghost view = { λ s. record { written = told_if s.is_told (W.contents s.writer); faults = s.faults } };

    ghost invariant = { λ s. s.is_told ≡ true → is_some (W.contents s.writer) ≡ true };
}

impl<R: Print + Drop> OutSink<SystemOutput<R>> {
    /// The standard output of this runtime. What the system does with the bytes is trusted.
    pub fn new(rt: R) -> OutSink<SystemOutput<R>>
        ensures { result ≡ record { written = None; faults = 0 } }
    {
        OutSink {
            writer: SystemOutput { rt },
            is_told: false,
            faults: 0,
        }
    }
}

impl<W: Write + Drop> OutSink<W> {
    /// A writer that tells its bytes.
    pub fn over(writer: W) -> OutSink<W>
        requires { is_some (W.contents writer) ≡ true }
        ensures { result ≡ record { written = W.contents writer; faults = 0 } }
    {
        OutSink {
            writer,
            is_told: true,
            faults: 0,
        }
    }
}

impl<W: Write + Drop> Sink for OutSink<W> {
    ghost sink_state = { writer_told };

    /// One write. The count of faults rises by one where it fails, and where it takes nothing of a piece that
    /// is not empty.
    fn write(&mut self, bytes: &[u8]) -> Wrote
        requires { self.old.faults < 18446744073709551615 }
        ensures answer { AnswersWrite bytes.now (writer_told self.old) (writer_told self.new) result }
        ensures by_one { self.new.faults ≤ self.old.faults + 1 }
    {
        match write_once(&mut self.writer, bytes) {
            Some(count) => Wrote::Took(count),
            None => {
                self.faults += 1;
                Wrote::Failed
            }
        }
    }
}

// One write. `None` is one that fails, or that takes nothing of a piece that is not empty.
fn write_once<W: Write>(writer: &mut W, bytes: &[u8]) -> Option<usize>
    ensures bound { IfSome result (λ count. count ≤ length bytes.now) }
    ensures some { 0 < length bytes.now → IfSome result (λ count. 1 ≤ count) }
    ensures taken { IfSome result (λ count.
        Appends (W.contents writer.old) (W.contents writer.new) (take count bytes.now)) }
    ensures none { IfNone result (Keeps (W.contents writer.old) (W.contents writer.new)) }
{
    match writer.write(bytes) {
        Ok(count) if count > 0 || bytes.is_empty() => Some(count),
        _ => None,
    }
}

/// The standard output of a runtime, as a writer that tells nothing.
#[derive(Drop)]
pub struct SystemOutput<R: Print + Drop> {
    rt: R,
}

impl<R: Print + Drop> Write for SystemOutput<R> {
    fn write(&mut self, bytes: &[u8]) -> io::Result<usize> {
        io::writer(&self.rt).write(bytes)
    }

    fn flush(&mut self) -> io::Result<()> {
        Ok(())
    }
}
