//! A sink in memory.
ghost use Rattle.std.specs.Prelude.{◌≡◌, ◌↔◌, ◌+◌, ◌<◌, ◌≤◌, length, IfOk};
ghost use Rattle.merc_base.specs.Outside.{AnswersWrite};
ghost use Rattle.merc_io.specs.Sinks.{empty_sink, room_left, sink_after, memory_told};

use merc_base::{NoMemory, Sink, Wrote};
use std::alloc::Global;
use std::marker::Model;

/// Bytes in memory, with room for so many, which is taken when it is made.
#[derive(Drop)]
pub struct MemSink {
    bytes: Vec<u8>,
    room: usize,
    faults: u64,
}

impl Model for MemSink {
    ghost use Rattle.std.specs.Prelude.{◌≤◌, length};
    ghost use Rattle.std.specs.Vec.{vec_capacity};
    ghost use Rattle.merc_io.specs.Sinks.{MemSinkState};

    ghost Value = { MemSinkState };

    ghost view = { λ s. record { bytes = s.bytes.items; room = s.room; faults = s.faults } };

    ghost invariant = { λ s. (s.room ≤ vec_capacity s.bytes) × (length s.bytes.items ≤ s.room) };
}

impl MemSink {
    /// An empty sink, with room for so many bytes in all.
    ///
    /// # Errors
    ///
    /// `NoMemory` where memory was refused.
    pub fn with_room(alloc: Global, room: usize) -> Result<MemSink, NoMemory>
        ensures { IfOk result (λ sink. sink ≡ empty_sink room) }
    {
        Ok(MemSink {
            bytes: Vec::with_capacity(alloc, room)?,
            room,
            faults: 0,
        })
    }

    /// The bytes written so far.
    pub fn bytes(&self) -> &[u8]
        ensures { result.now ≡ self.now.bytes }
    {
        &self.bytes
    }

    /// A write that fails.
    pub(crate) fn refuse(&mut self) -> Wrote
        requires { self.old.faults < 18446744073709551615 }
        ensures failed { result ≡ Wrote.Failed }
        ensures state { self.new ≡ record self.old { faults = self.old.faults + 1 } }
    {
        self.faults += 1;
        Wrote::Failed
    }
}

impl Sink for MemSink {
    ghost sink_state = { memory_told };

    /// A piece that is longer than the room left fails, and any other is taken whole. It takes no memory.
    fn write(&mut self, bytes: &[u8]) -> Wrote
        requires { self.old.faults < 18446744073709551615 }
        ensures answer { AnswersWrite bytes.now (memory_told self.old) (memory_told self.new) result }
        ensures failed { (result ≡ Wrote.Failed) ↔ (room_left self.old < length bytes.now) }
        ensures took { length bytes.now ≤ room_left self.old → result ≡ Wrote.Took (length bytes.now) }
        ensures state { self.new ≡ sink_after bytes.now result self.old }
    {
        if bytes.len() > self.room - self.bytes.len() {
            return self.refuse();
        }
        self.bytes.extend_from_slice(bytes).unwrap();
        Wrote::Took(bytes.len())
    }
}
