//! The buffer that a shelf fills with one piece of a file.
ghost use Rattle.std.specs.Prelude.{◌≡◌, ◌≤◌, [], take, min, length, IfOk, OnOk, OnErr};
ghost use Rattle.std.specs.Io.KnownBytes.{Consumes, IsAtEnd, Keeps};
ghost use Rattle.merc_base.specs.Outside.{piece_limit};

use crate::NoMemory;
use std::alloc::Global;
use std::io;
use std::io::Read;
use std::marker::Model;

/// The most bytes that one piece of a file has.
pub const PIECE_LIMIT: usize = 65536;

/// Room for one piece of a file, taken when it is made. It is seen as the bytes that it holds.
#[derive(Drop)]
pub struct Buffer {
    room: Vec<u8>,
    count: usize,
}

impl Model for Buffer {
    ghost use Rattle.std.specs.Prelude.{◌≡◌, ◌≤◌, List, ℕ, length, take};

    ghost Value = { List ℕ };

    ghost view = { λ b. take b.count b.room.items };

    ghost invariant = { λ b. (length b.room.items ≡ 65536) × (b.count ≤ 65536) };
}

impl Buffer {
    /// An empty buffer, with its room.
    ///
    /// # Errors
    ///
    /// `NoMemory` where memory was refused.
    pub fn new(alloc: Global) -> Result<Buffer, NoMemory>
        ensures { IfOk result (λ buffer. buffer ≡ []) }
    {
        let room = vec![in alloc; 0u8; PIECE_LIMIT]?;
        Ok(Buffer { room, count: 0 })
    }

    /// Puts the first 65,536 of these bytes in place of what the buffer holds, and says how many they are.
    /// It takes no memory.
    #[tactic(auto, unfolding(crate::specs::Outside::piece_limit))]
    pub fn fill(&mut self, bytes: &[u8]) -> usize
        ensures kept { self.new ≡ take piece_limit bytes.now }
        ensures count { result ≡ min piece_limit (length bytes.now) }
    {
        let count = bytes.len().min(PIECE_LIMIT);
        put_front(&mut self.room, &bytes[..count]);
        self.count = count;
        count
    }

    /// Reads once, and puts the bytes that came in place of what the buffer holds, at most 65,536. Where the read
    /// fails the buffer is empty. It takes no memory.
    #[tactic(auto, unfolding(crate::specs::Outside::piece_limit))]
    pub fn read_from<R: Read>(&mut self, reader: &mut R) -> io::Result<usize>
        ensures count { IfOk result (λ count. (length self.new ≡ count) × (count ≤ piece_limit)) }
        ensures bytes { OnOk result (Consumes (R.remaining reader.old) (R.remaining reader.new) self.new) }
        ensures end { IfOk result (λ count. count ≡ 0 → IsAtEnd (R.remaining reader.new)) }
        ensures lost { OnErr result (Keeps (R.remaining reader.old) (R.remaining reader.new)) }
        ensures empty { OnErr result (self.new ≡ []) }
    {
        self.count = 0;
        let count = reader.read(&mut self.room)?;
        self.count = count;
        Ok(count)
    }

    /// What the buffer holds, at most 65,536 bytes.
    #[tactic(auto, unfolding(crate::specs::Outside::piece_limit))]
    pub fn bytes(&self) -> &[u8]
        ensures value { result.now ≡ self.now }
        ensures bound { length self.now ≤ piece_limit }
    {
        &self.room[..self.count]
    }
}

// Puts these bytes in place of the first ones of a room.
fn put_front(room: &mut [u8], bytes: &[u8])
    requires { length bytes.now ≤ length room.old }
    ensures front { take (length bytes.now) room.new ≡ bytes.now }
    ensures room { length room.new ≡ length room.old }
{
    room[..bytes.len()].copy_from_slice(bytes);
}
