//! A shelf of files in memory that fails as told.
ghost use Rattle.std.specs.Prelude.{◌≡◌, ◌≢◌, ◌↔◌, ◌+◌, ◌<◌, ◌≤◌, Some, Contains};
ghost use Rattle.merc_base.specs.Outside.{AnswersFetch, file_named};
ghost use Rattle.merc_io.specs.Numbers.{number_after};
ghost use Rattle.merc_io.specs.Shelves.{next_piece, KeepsUnlessGot, failures};

use crate::MemShelf;
use merc_base::buffer::PIECE_LIMIT;
use merc_base::{Buffer, Fetched, Shelf, Text};
use std::marker::Model;

/// Files in memory, of which the calls with given numbers fail, and no others.
#[derive(Drop)]
pub struct FailingShelf {
    shelf: MemShelf,
    fail: Vec<u64>,
    most: usize,
    next_call: u64,
    faults: u64,
}

impl Model for FailingShelf {
    ghost use Rattle.std.specs.Prelude.{◌≤◌};
    ghost use Rattle.merc_io.specs.Shelves.{FailingShelfState};

    ghost Value = { FailingShelfState };

    ghost view = { λ s. record {
      files = s.shelf;
      fail = s.fail.items;
      most = s.most;
      next_call = s.next_call;
      faults = s.faults;
    } };

    ghost invariant = { λ s. (1 ≤ s.most) × (s.most ≤ 65536) };
}

impl FailingShelf {
    /// A shelf of these files, each a name and a content. The calls with the numbers in `fail` fail, counted
    /// from 1, and a piece has at most `piece` bytes, 1 to 65,536.
    pub fn new(files: Vec<(Text, Text)>, fail: Vec<u64>, piece: usize) -> FailingShelf
        requires some { 1 ≤ piece }
        requires bound { piece ≤ PIECE_LIMIT }
        ensures { result ≡ record {
          files = files.items;
          fail = fail.items;
          most = piece;
          next_call = 1;
          faults = 0;
        } }
    {
        FailingShelf {
            shelf: MemShelf::new(files),
            fail,
            most: piece,
            next_call: 1,
            faults: 0,
        }
    }
}

impl Shelf for FailingShelf {
    ghost files = { λ s. Some s.files };

    ghost read_faults = { λ s. s.faults };

    /// A call whose number is listed fails. Any other answers the next piece, and takes no memory.
    fn fetch(&mut self, name: &Text, at: u64, into: &mut Buffer) -> Fetched
        requires { self.old.faults < 18446744073709551615 }
        ensures same { self.new.files ≡ self.old.files }
        ensures answer { AnswersFetch (Some self.old.files) name.now at
            self.old.faults self.new.faults result into.new }
        ensures failed { (result ≡ Fetched.Failed) ↔ Contains self.old.fail self.old.next_call }
        ensures piece { result ≢ Fetched.Failed →
            result ≡ next_piece self.old.most (file_named name.now self.old.files) at }
        ensures takes_no_memory { result ≢ Fetched.NoMemory }
        ensures kept { KeepsUnlessGot result into.old into.new }

        // The call is counted, and so is its failure. Nothing else changes.
        ensures counted { self.new ≡ record self.old {
          next_call = number_after self.old.next_call;
          faults = self.old.faults + failures result;
        } }
    {
        let is_listed = self.fail.contains(&self.next_call);
        self.next_call = self.next_call.saturating_add(1);
        if is_listed {
            self.faults += 1;
            return Fetched::Failed;
        }
        self.shelf.read_piece(name, at, self.most, into)
    }
}
