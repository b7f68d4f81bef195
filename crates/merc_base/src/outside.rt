//! The outside world, as traits: a shelf of files to read, a sink to write to, a gate that conjuncts enter,
//! and taps that hear of solutions. Each but the gate counts its faults, and the count never falls.
ghost use Rattle.std.specs.Prelude.{◌≡◌, ◌<◌, ℕ, Bool, List, Option, false};
ghost use Rattle.merc_base.specs.Outside.{Files, SinkState, AnswersFetch, AnswersWrite, AnswersTake};

use crate::{Buffer, Text};

/// What a shelf answers to a fetch.
#[derive(Clone, Copy, PartialEq, Eq)]
pub enum Fetched {
    /// This many bytes, 1 to 65,536, stand in the buffer.
    Got(usize),
    /// The file is there, and has nothing at that place or behind it.
    End,
    /// No file of that name is there.
    Absent,
    /// The read failed, and the shelf's count of faults rose.
    Failed,
    /// Memory was refused.
    NoMemory,
}

/// Files to read, by name.
pub trait Shelf {
    /// The files, if the shelf tells them. No call changes them.
    ghost files: { Self → Option Files };

    /// How often reading has failed.
    ghost read_faults: { Self → ℕ };

    /// Puts bytes of the file, from place `at` on, in place of what the buffer holds.
    fn fetch(&mut self, name: &Text, at: u64, into: &mut Buffer) -> Fetched
        requires { read_faults self.old < 18446744073709551615 }
        ensures same { files self.new ≡ files self.old }
        ensures answer { AnswersFetch (files self.old) name.now at (read_faults self.old) (read_faults self.new) result into.new };
}

/// What a sink answers to a write.
#[derive(Clone, Copy, PartialEq, Eq)]
pub enum Wrote {
    /// It took this many bytes from the front, at least one of a piece that is not empty.
    Took(usize),
    /// It took nothing, and its count of faults rose.
    Failed,
}

/// A place that bytes are written to.
pub trait Sink {
    /// What the sink took so far, as far as it tells that, and how often writing has failed.
    ghost sink_state: { Self → SinkState };

    /// Writes bytes from the front of a piece.
    fn write(&mut self, piece: &[u8]) -> Wrote
        requires { (sink_state self.old).faults < 18446744073709551615 }
        ensures { AnswersWrite piece.now (sink_state self.old) (sink_state self.new) result };
}

/// What each conjunct that a worker starts passes once. It carries no clause.
pub trait Gate {
    /// Enters for the conjunct of this number, counted from 1.
    fn enter(&self, child: u32);
}

/// What a tap hears.
#[derive(Drop)]
pub enum TapEvent {
    /// A solution's line was wholly written: its number from 1, and the line without its line end.
    Answer { number: u64, line: Text },
    /// The end line was wholly written.
    Finish { status: u8, answers: u64 },
}

/// What a tap answers to an event. At any answer but `Keep` it is over.
#[derive(Clone, Copy)]
pub enum TapAnswer {
    Keep,
    Done,
    /// Its count of faults rose.
    Failed,
    /// The event was not kept.
    NoMemory,
}

/// A listener to a run. It never changes the text or the status.
pub trait Tap: Drop {
    ghost use Rattle.merc_base.specs.declared.outside.TapEvent.{TapEvent};

    /// The events seen, if the tap tells them.
    ghost seen: { Self → Option (List TapEvent) };

    /// How many events it has seen, if it tells that.
    ghost seen_count: { Self → Option ℕ };

    /// Whether the tap wants no further event.
    ghost is_over: { Self → Bool };

    /// How often it has failed.
    ghost tap_faults: { Self → ℕ };

    /// Takes the next event.
    fn take(&mut self, event: &TapEvent) -> TapAnswer
        requires open { is_over self.old ≡ false }
        requires room { tap_faults self.old < 18446744073709551615 }
        ensures { AnswersTake event.now (seen self.old) (seen self.new) (seen_count self.old) (seen_count self.new) (is_over self.new) (tap_faults self.old) (tap_faults self.new) result };

    /// Whether the tap is over.
    fn over(&self) -> bool
        ensures { result ≡ is_over self.now };
}
