//! A shelf over files that are opened by name, those of the system or others.
ghost use Rattle.std.specs.Prelude.{◌≡◌, ◌+◌, ◌<◌, ◌≤◌, [], Some, None, Err, length, IfOk, IfErr, IfSome, OnOk, OnErr};
ghost use Rattle.std.specs.Option.{ForSome, option_map};
ghost use Rattle.std.specs.Io.KnownBytes.{Consumes, IsAtEnd, Keeps};
ghost use Rattle.merc_base.specs.Outside.{AnswersFetch, file_named, piece_limit};
ghost use Rattle.merc_io.specs.Shelves.{BringsPiece, HasLeft, place_behind, stands_after};

use crate::opening::{Opener, ReadFault, SystemFiles};
use merc_base::{Buffer, Fetched, Shelf, Text};
use std::alloc::Global;
use std::io::{ErrorKind, Read};
use std::marker::Model;
use std::rt::Files;

// How often a read is tried that a signal interrupts.
const READ_TRIES: u32 = 16;

/// Files that are opened by name. The one that was read last stays open, and is read on where a fetch begins at the
/// place that it was read to: so what cannot seek, as a pipe, can be read too.
#[derive(Drop)]
pub struct FileShelf<O: Opener + Drop> {
    opener: O,
    alloc: Global,
    faults: u64,
    last: Option<OpenFile<O::Reader>>,
}

// A file that was read from, with its name and the place that the next read begins at.
#[derive(Drop)]
struct OpenFile<F: Drop> {
    handle: F,
    name: Text,
    at: u64,
}

impl<O: Opener + Drop> Model for FileShelf<O> {
    ghost use Rattle.std.specs.Prelude.{IfSome};
    ghost use Rattle.std.specs.Option.{option_map, ForSome};
    ghost use Rattle.merc_base.specs.Outside.{file_named};
    ghost use Rattle.merc_io.specs.Shelves.{FileShelfState, HasLeft};

    ghost Value = { FileShelfState };

    ghost view = { λ s. record {
      files = O.files s.opener;
      faults = s.faults;
      stands = option_map (λ file. (file.name, file.at)) s.last;
    } };

    ghost invariant = { λ s. IfSome (O.files s.opener) (λ files. ForSome s.last
        (λ file. HasLeft (file_named file.name files) file.at (O.Reader.remaining file.handle))) };
}

impl<R: Files + AllocGlobal + Drop> FileShelf<SystemFiles<R>> {
    /// The files that this runtime opens.
    pub fn new(rt: R) -> FileShelf<SystemFiles<R>>
        ensures { result ≡ record { files = None; faults = 0; stands = None } }
    {
        let alloc = rt.alloc();
        FileShelf::over(alloc, SystemFiles::new(rt))
    }
}

impl<O: Opener + Drop> FileShelf<O> {
    /// The files that this opens. The names of those that stand open take memory.
    pub fn over(alloc: Global, opener: O) -> FileShelf<O>
        ensures { result ≡ record { files = O.files opener; faults = 0; stands = None } }
    {
        FileShelf {
            opener,
            alloc,
            faults: 0,
            last: None,
        }
    }
}

// Reads a piece of a file from a place on: of the file that was read last where it stands there, so that what cannot
// seek is read too, else of one that is opened. A file that cannot be read is closed.
fn read_at<O: Opener>(
    opener: &O,
    alloc: Global,
    last: &mut Option<OpenFile<O::Reader>>,
    name: &Text,
    at: u64,
    into: &mut Buffer,
) -> Result<usize, ReadFault>
    requires { IfSome (O.files opener.now) (λ files. ForSome last.old
        (λ file. HasLeft (file_named file.name files) file.at (O.Reader.remaining file.handle))) }
    ensures count { IfOk result (λ count. (length into.new ≡ count) × (count ≤ piece_limit)) }
    ensures content { IfOk result (λ count. IfSome (O.files opener.now)
        (λ files. BringsPiece (file_named name.now files) at into.new)) }
    ensures absent { result ≡ Err ReadFault.Absent → IfSome (O.files opener.now) (λ files. file_named name.now files ≡ None) }
    ensures stands { IfOk result (λ count. option_map (λ file. (file.name, file.at)) last.new ≡ place_behind name.now at count) }
    ensures closed { OnErr result (last.new ≡ None) }
    ensures left { IfSome (O.files opener.now) (λ files. ForSome last.new
        (λ file. HasLeft (file_named file.name files) file.at (O.Reader.remaining file.handle))) }
{
    let mut file = match file_at(opener, alloc, last, name, at) {
        Ok(file) => file,
        Err(fault) => return Err(fault),
    };
    match read_piece(&mut file.handle, into) {
        Ok(count) => {
            *last = moved(file, count);
            Ok(count)
        }
        Err(fault) => Err(fault),
    }
}

// The file of this name, at this place, which no longer counts as the last.
fn file_at<O: Opener>(
    opener: &O,
    alloc: Global,
    last: &mut Option<OpenFile<O::Reader>>,
    name: &Text,
    at: u64,
) -> Result<OpenFile<O::Reader>, ReadFault>
    requires { IfSome (O.files opener.now) (λ files. ForSome last.old
        (λ file. HasLeft (file_named file.name files) file.at (O.Reader.remaining file.handle))) }
    ensures fits { IfOk result (λ file. (file.name ≡ name.now) × (file.at ≡ at)) }
    ensures left { IfOk result (λ file. IfSome (O.files opener.now)
        (λ files. HasLeft (file_named name.now files) at (O.Reader.remaining file.handle))) }
    ensures absent { result ≡ Err ReadFault.Absent → IfSome (O.files opener.now) (λ files. file_named name.now files ≡ None) }
    ensures closed { last.new ≡ None }
{
    match take_at(last, name, at) {
        Some(file) => Ok(file),
        None => open_anew(opener, alloc, name, at),
    }
}

// Takes out the open file if it is of this name and stands at this place, and closes any other.
fn take_at<F: Drop>(last: &mut Option<OpenFile<F>>, name: &Text, at: u64) -> Option<OpenFile<F>>
    ensures fits { IfSome result (λ file. (file.name ≡ name.now) × (file.at ≡ at)) }
    ensures same { IfSome result (λ file. last.old ≡ Some file) }
    ensures taken { IfSome last.old (λ file. file.name ≡ name.now → file.at ≡ at → result ≡ Some file) }
    ensures closed { last.new ≡ None }
{
    let file = last.take()?;
    if file.at == at && file.name.bytes() == name.bytes() {
        Some(file)
    } else {
        None
    }
}

// Opens the file of this name, at this place.
fn open_anew<O: Opener>(
    opener: &O,
    alloc: Global,
    name: &Text,
    at: u64,
) -> Result<OpenFile<O::Reader>, ReadFault>
    ensures fits { IfOk result (λ file. (file.name ≡ name.now) × (file.at ≡ at)) }
    ensures left { IfOk result (λ file. IfSome (O.files opener.now)
        (λ files. HasLeft (file_named name.now files) at (O.Reader.remaining file.handle))) }
    ensures absent { result ≡ Err ReadFault.Absent → IfSome (O.files opener.now) (λ files. file_named name.now files ≡ None) }
{
    let handle = match opener.open_at(name, at) {
        Ok(handle) => handle,
        Err(fault) => return Err(fault),
    };
    match Text::of(alloc, name.bytes()) {
        Ok(name) => Ok(OpenFile { handle, name, at }),
        Err(_) => Err(ReadFault::NoMemory),
    }
}

// One read, tried again while a signal interrupts it. Nothing read is the end of the file.
fn read_piece<F: Read>(handle: &mut F, into: &mut Buffer) -> Result<usize, ReadFault>
    ensures count { IfOk result (λ count. (length into.new ≡ count) × (count ≤ piece_limit)) }
    ensures bytes { OnOk result (Consumes (F.remaining handle.old) (F.remaining handle.new) into.new) }
    ensures end { IfOk result (λ count. count ≡ 0 → IsAtEnd (F.remaining handle.new)) }
    ensures lost { OnErr result (Keeps (F.remaining handle.old) (F.remaining handle.new)) }
    ensures failed { IfErr result (λ fault. fault ≡ ReadFault.Failed) }
{
    for _ in 0..READ_TRIES {
        match into.read_from(handle) {
            Ok(count) => return Ok(count),
            Err(error) if error.kind() == ErrorKind::Interrupted => {}
            Err(_) => return Err(ReadFault::Failed),
        }
    }
    Err(ReadFault::Failed)
}

// A file that so many bytes more were read of. Where the place behind them has no number it is closed, and opened
// anew by the next read.
fn moved<F: Drop>(mut file: OpenFile<F>, count: usize) -> Option<OpenFile<F>>
    ensures place { option_map (λ moved. (moved.name, moved.at)) result ≡ place_behind file.name file.at count }
    ensures same { IfSome result (λ moved. moved.handle ≡ file.handle) }
{
    match file.at.checked_add(count as u64) {
        Some(at) => {
            file.at = at;
            Some(file)
        }
        None => None,
    }
}

impl<O: Opener + Drop> Shelf for FileShelf<O> {
    ghost files = { λ s. s.files };

    ghost read_faults = { λ s. s.faults };

    /// The bytes of one read. The count of faults rises by one where the file cannot be opened or read, and where
    /// there is no such file among files that are not told. At the end of the file the buffer is empty.
    #[tactic(auto, unfolding(merc_base::specs::Outside::piece_limit))]
    fn fetch(&mut self, name: &Text, at: u64, into: &mut Buffer) -> Fetched
        requires { self.old.faults < 18446744073709551615 }
        ensures same { self.new.files ≡ self.old.files }
        ensures answer { AnswersFetch self.old.files name.now at self.old.faults self.new.faults result into.new }
        ensures by_one { self.new.faults ≤ self.old.faults + 1 }
        ensures end { result ≡ Fetched.End → into.new ≡ [] }
        ensures stands { self.new.stands ≡ stands_after result name.now at }
    {
        match read_at(&self.opener, self.alloc, &mut self.last, name, at, into) {
            Ok(0) => Fetched::End,
            Ok(count) => Fetched::Got(count),
            Err(ReadFault::NoMemory) => Fetched::NoMemory,
            Err(ReadFault::Absent) => {
                if !self.opener.tells() {
                    self.faults += 1;
                }
                Fetched::Absent
            }
            Err(ReadFault::Failed) => {
                self.faults += 1;
                Fetched::Failed
            }
        }
    }
}
