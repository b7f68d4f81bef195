//! A sink in memory that fails as told.
ghost use Rattle.std.specs.Prelude.{◌≡◌, ◌≢◌, ◌↔◌, ◌⊎◌, ◌<◌, ◌≤◌, length, Some, None, IfOk, Contains};
ghost use Rattle.merc_base.specs.Outside.{AnswersWrite};
ghost use Rattle.merc_io.specs.Numbers.{number_after};
ghost use Rattle.merc_io.specs.Sinks.{empty_sink, room_left, sink_after, front_of, memory_told};

use crate::MemSink;
use merc_base::{NoMemory, Sink, Wrote};
use std::alloc::Global;
use std::marker::Model;

/// Bytes in memory, where the writes with given numbers fail, and those for which there is no room.
#[derive(Drop)]
pub struct FailingSink {
    sink: MemSink,
    fail: Vec<u64>,
    most: Option<usize>,
    next_write: u64,
}

impl Model for FailingSink {
    ghost use Rattle.std.specs.Prelude.{◌≤◌};
    ghost use Rattle.std.specs.Option.{ForSome};
    ghost use Rattle.merc_io.specs.Sinks.{FailingSinkState};

    ghost Value = { FailingSinkState };

    ghost view = { λ s. record { sink = s.sink; fail = s.fail.items; most = s.most; next_write = s.next_write } };

    ghost invariant = { λ s. ForSome s.most (λ most. 1 ≤ most) };
}

impl FailingSink {
    /// An empty sink with room for so many bytes in all. The writes with the numbers in `fail` fail, counted
    /// from 1, and any other takes its piece whole, or fails if there is no room for it.
    ///
    /// # Errors
    ///
    /// `NoMemory` where memory was refused.
    pub fn with_room(alloc: Global, room: usize, fail: Vec<u64>) -> Result<FailingSink, NoMemory>
        ensures { IfOk result (λ sink. sink ≡
            record { sink = empty_sink room; fail = fail.items; most = None; next_write = 1 }) }
    {
        Ok(FailingSink {
            sink: MemSink::with_room(alloc, room)?,
            fail,
            most: None,
            next_write: 1,
        })
    }

    /// As `with_room`, but of each piece only the first `piece` bytes count, at least 1: a write takes those,
    /// or fails if there is no room for them.
    ///
    /// # Errors
    ///
    /// `NoMemory` where memory was refused.
    pub fn taking(
        alloc: Global,
        room: usize,
        fail: Vec<u64>,
        piece: usize,
    ) -> Result<FailingSink, NoMemory>
        requires { 1 ≤ piece }
        ensures { IfOk result (λ sink. sink ≡
            record { sink = empty_sink room; fail = fail.items; most = Some piece; next_write = 1 }) }
    {
        Ok(FailingSink {
            sink: MemSink::with_room(alloc, room)?,
            fail,
            most: Some(piece),
            next_write: 1,
        })
    }

    /// The bytes written so far.
    pub fn bytes(&self) -> &[u8]
        ensures { result.now ≡ self.now.sink.bytes }
    {
        self.sink.bytes()
    }
}

impl Sink for FailingSink {
    ghost sink_state = { λ s. memory_told s.sink };

    /// A write whose number is listed fails, and so does one for which there is no room. It takes no memory.
    fn write(&mut self, bytes: &[u8]) -> Wrote
        requires { self.old.sink.faults < 18446744073709551615 }
        ensures answer { AnswersWrite bytes.now (memory_told self.old.sink) (memory_told self.new.sink) result }
        ensures failed { (result ≡ Wrote.Failed) ↔ (Contains self.old.fail self.old.next_write
            ⊎ (room_left self.old.sink < length (front_of self.old.most bytes.now))) }
        ensures took { result ≢ Wrote.Failed → result ≡ Wrote.Took (length (front_of self.old.most bytes.now)) }
        ensures state { self.new ≡ record self.old {
          sink = sink_after bytes.now result self.old.sink;
          next_write = number_after self.old.next_write;
        } }
    {
        let is_listed = self.fail.contains(&self.next_write);
        self.next_write = self.next_write.saturating_add(1);
        if is_listed {
            return self.sink.refuse();
        }
        let front = match self.most {
            Some(most) => &bytes[..bytes.len().min(most)],
            None => bytes,
        };
        self.sink.write(front)
    }
}
