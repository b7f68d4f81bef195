//! A shelf of files in memory.
ghost use Rattle.std.specs.Prelude.{◌≡◌, ◌≢◌, ℕ, ◌≤◌, Some, None, MatchOption};
ghost use Rattle.merc_base.specs.Outside.{AnswersFetch, file_named};
ghost use Rattle.merc_io.specs.Shelves.{next_piece, KeepsUnlessGot};

use merc_base::buffer::PIECE_LIMIT;
use merc_base::{Buffer, Fetched, Shelf, Text};
use std::marker::Model;

/// Files in memory, seen as the list of their names and contents.
#[derive(Drop)]
pub struct MemShelf {
    files: Vec<(Text, Text)>,
}

impl Model for MemShelf {
    ghost use Rattle.merc_base.specs.Outside.{Files};

    ghost Value = { Files };

    ghost view = { λ s. s.files.items };
}

impl MemShelf {
    /// A shelf of these files, each a name and a content. Of one name twice the first counts.
    pub fn new(files: Vec<(Text, Text)>) -> MemShelf
        ensures { result ≡ files.items }
    {
        MemShelf { files }
    }

    /// Puts the next piece of a file, of at most `most` bytes, in the buffer.
    pub(crate) fn read_piece(&self, name: &Text, at: u64, most: usize, into: &mut Buffer) -> Fetched
        requires some { 1 ≤ most }
        requires bound { most ≤ PIECE_LIMIT }
        ensures piece { result ≡ next_piece most (file_named name.now self.now) at }
        ensures answer { (faults : ℕ) → AnswersFetch (Some self.now) name.now at faults faults result into.new }
        ensures kept { KeepsUnlessGot result into.old into.new }
    {
        let Some(file) = find_file(&self.files, name.bytes()) else {
            return Fetched::Absent;
        };
        if file.len() as u64 <= at {
            return Fetched::End;
        }
        let rest = &file[at as usize..];
        let count = rest.len().min(most);
        Fetched::Got(into.fill(&rest[..count]))
    }
}

// The content of the file of this name.
fn find_file<'a>(files: &'a [(Text, Text)], name: &[u8]) -> Option<&'a [u8]>
    ensures { MatchOption result
        (file_named name.now files.now ≡ None)
        (λ file. file_named name.now files.now ≡ Some file.now) }
{
    for (file_name, content) in files {
        if name == file_name.bytes() {
            return Some(content.bytes());
        }
    }
    None
}

impl Shelf for MemShelf {
    ghost files = { λ s. Some s };

    ghost read_faults = { λ _. 0 };

    /// The next piece: 65,536 bytes or what is left. It never fails and takes no memory.
    fn fetch(&mut self, name: &Text, at: u64, into: &mut Buffer) -> Fetched
        ensures same { self.new ≡ self.old }
        ensures answer { AnswersFetch (Some self.old) name.now at 0 0 result into.new }
        ensures piece { result ≡ next_piece PIECE_LIMIT (file_named name.now self.old) at }
        ensures kept { KeepsUnlessGot result into.old into.new }
        ensures never_fails { result ≢ Fetched.Failed }
        ensures takes_no_memory { result ≢ Fetched.NoMemory }
    {
        self.read_piece(name, at, PIECE_LIMIT, into)
    }
}
