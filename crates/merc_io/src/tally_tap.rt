//! A tap that says how many answers a run had.
ghost use Rattle.std.specs.Prelude.{◌≡◌, ◌≢◌, ◌+◌, ◌<◌, false, None, Some, OnOk};
ghost use Rattle.std.specs.Io.KnownBytes.{Appends, Keeps};
ghost use Rattle.merc_base.specs.Outside.{AnswersTake};
ghost use Rattle.merc_io.specs.Taps.{tally_text};

use merc_base::{Tap, TapAnswer, TapEvent};
use std::io;
use std::io::Write;
use std::marker::Model;

/// A tap that writes `answers N` at the end of a run, as a line.
#[derive(Drop)]
pub struct TallyTap<W: Write + Drop> {
    writer: W,
    count: u64,
    is_over: bool,
    faults: u64,
}

impl<W: Write + Drop> Model for TallyTap<W> {
    ghost use Rattle.merc_io.specs.Taps.{TallyTapState};

    ghost Value = { TallyTapState };

    ghost view = { λ s. record { contents = W.contents s.writer; count = s.count; is_over = s.is_over; faults = s.faults } };
}

impl<W: Write + Drop> TallyTap<W> {
    /// A tap that has seen nothing and writes to this writer, standard error or another.
    pub fn new(writer: W) -> TallyTap<W>
        ensures { result ≡ record { contents = W.contents writer; count = 0; is_over = false; faults = 0 } }
    {
        TallyTap {
            writer,
            count: 0,
            is_over: false,
            faults: 0,
        }
    }
}

impl<W: Write + Drop> Tap for TallyTap<W> {
    ghost seen = { λ _. None };

    ghost seen_count = { λ s. Some s.count };

    ghost is_over = { λ s. s.is_over };

    ghost tap_faults = { λ s. s.faults };

    /// Counts the event, and writes at the end of the run. It fails where the write does, and where there are more events than
    /// it can count it has no memory for the next.
    fn take(&mut self, event: &TapEvent) -> TapAnswer
        requires listens { self.old.is_over ≡ false }
        requires room { self.old.faults < 18446744073709551615 }
        ensures answer { AnswersTake event.now None None (Some self.old.count) (Some self.new.count) self.new.is_over self.old.faults self.new.faults result }
        ensures goes_on { result ≢ TapAnswer.Done }
        ensures said { result ≡ TapAnswer.Keep → Appends self.old.contents self.new.contents (tally_text event.now) }
    {
        let Some(count) = self.count.checked_add(1) else {
            self.is_over = true;
            return TapAnswer::NoMemory;
        };
        self.count = count;
        match say(&mut self.writer, event) {
            Ok(()) => TapAnswer::Keep,
            Err(_) => {
                self.is_over = true;
                self.faults += 1;
                TapAnswer::Failed
            }
        }
    }

    fn over(&self) -> bool
        ensures { result ≡ self.now.is_over }
    {
        self.is_over
    }
}

// Writes what is due at an event.
fn say<W: Write>(writer: &mut W, event: &TapEvent) -> io::Result<()>
    ensures { OnOk result (Appends (W.contents writer.old) (W.contents writer.new) (tally_text event.now)) }
{
    match event {
        TapEvent::Answer { .. } => Ok(()),
        TapEvent::Finish { answers, .. } => write!(writer, "answers {answers}\n"),
    }
}
