//! What no clause can say: what the files of the system hold, and that a reader may give and a writer take less.
ghost use Rattle.std.specs.Prelude.{◌≡◌, ◌+◌, ◌<◌, ◌≤◌, None, Some};

use merc_base::{Buffer, Fetched, Gate, NoMemory, Shelf, Sink, Text, Wrote};
use merc_io::{FileShelf, OpenGate, Opener, OutSink, ReadFault};
use std::alloc::Global;
use std::io::{ErrorKind, Read, Write};
use std::os::fd::AsRawFd;
use std::rt::Files;
use std::test::Fail;
use std::{fs, io, process};

// A reader that gives two bytes at a time, and fails after four.
#[derive(Drop)]
struct Short {
    given: usize,
}

impl Read for Short {
    fn read(&mut self, room: &mut [u8]) -> io::Result<usize> {
        if self.given >= 4 || room.len() < 2 {
            return Err(io::Error::from(ErrorKind::Other));
        }
        self.given += 2;
        room[0] = b'a';
        room[1] = b'b';
        Ok(2)
    }
}

#[derive(Drop)]
struct ShortFiles;

impl Opener for ShortFiles {
    type Reader = Short;

    ghost files = { λ _. None };

    fn open_at(&self, _name: &Text, _at: u64) -> Result<Short, ReadFault> {
        Ok(Short { given: 0 })
    }

    fn tells(&self) -> bool {
        false
    }
}

// A writer that takes two bytes at a time, and fails when it has four.
#[derive(Drop)]
struct Narrow {
    bytes: Vec<u8>,
}

impl Write for Narrow {
    ghost contents = { λ w. Some w.bytes.items };

    fn write(&mut self, bytes: &[u8]) -> io::Result<usize> {
        if self.bytes.len() >= 4 {
            return Err(io::Error::from(ErrorKind::WriteZero));
        }
        let count = bytes.len().min(2);
        match self.bytes.extend_from_slice(&bytes[..count]) {
            Ok(()) => Ok(count),
            Err(_) => Err(io::Error::from(ErrorKind::OutOfMemory)),
        }
    }

    fn flush(&mut self) -> io::Result<()> {
        Ok(())
    }
}

// Whether a fetch brings these bytes.
fn brings<O: Opener + Drop>(
    shelf: &mut FileShelf<O>,
    name: &Text,
    at: u64,
    bytes: &[u8],
    into: &mut Buffer,
) -> bool
    requires { shelf.old.faults < 18446744073709551615 }
    ensures { shelf.new.faults ≤ shelf.old.faults + 1 }
{
    let answer = shelf.fetch(name, at, into);
    answer == Fetched::Got(bytes.len()) && into.bytes() == bytes
}

// Whether files that are read by two bytes give these, and are opened anew behind a failure.
fn gives_less(shelf: &mut FileShelf<ShortFiles>, name: &Text, into: &mut Buffer) -> bool
    requires { shelf.old.faults ≡ 0 }
{
    let is_given = brings(shelf, name, 0, b"ab", into);
    let later = [
        shelf.fetch(name, 2, into),
        shelf.fetch(name, 4, into),
        shelf.fetch(name, 4, into),
    ];
    is_given && later == [Fetched::Got(2), Fetched::Failed, Fetched::Got(2)]
}

#[test]
fn a_reader_gives_less(rt: HostRuntime) -> Result<(), Fail> {
    let alloc = rt.alloc();
    let name = Text::of(alloc, b"a")?;
    let mut buffer = Buffer::new(alloc)?;
    let mut shelf = FileShelf::over(alloc, ShortFiles);
    let is_right = gives_less(&mut shelf, &name, &mut buffer);
    // (calls, here and below, since it costs much to prove what is dropped)
    drop(shelf);
    drop(buffer);
    drop(name);
    assert!(rt; is_right);
    Ok(())
}

#[test]
fn a_writer_takes_less(rt: HostRuntime) {
    let mut sink = OutSink::over(Narrow {
        bytes: Vec::new(rt.alloc()),
    });
    let answers = [
        sink.write(b"abc"),
        sink.write(b"c"),
        sink.write(b""),
        sink.write(b"de"),
        sink.write(b"f"),
    ];
    drop(sink);
    let expected = [
        Wrote::Took(2),
        Wrote::Took(1),
        Wrote::Took(0),
        Wrote::Took(2),
        Wrote::Failed,
    ];
    assert!(rt; answers == expected);
}

// Whether a file that holds `hello` is read as it should be, up to its end, until it is removed.
fn is_read<R: Files, O: Opener + Drop>(
    rt: &R,
    path: &str,
    shelf: &mut FileShelf<O>,
    name: &Text,
    into: &mut Buffer,
) -> bool
    requires { shelf.old.faults ≡ 0 }
    ensures { shelf.new.faults ≤ 3 }
{
    let is_given = brings(shelf, name, 1, b"ello", into);
    let end = shelf.fetch(name, 5, into);
    let is_removed = fs::remove_file(rt, path).is_ok();
    let removed = shelf.fetch(name, 0, into);
    is_given && is_removed && [end, removed] == [Fetched::End, Fetched::Absent]
}

// Whether a folder is not read.
fn is_folder_refused<O: Opener + Drop>(
    alloc: Global,
    shelf: &mut FileShelf<O>,
    into: &mut Buffer,
) -> Result<bool, NoMemory>
    requires { shelf.old.faults < 18446744073709551615 }
{
    let folder = Text::of(alloc, b"/")?;
    let answer = shelf.fetch(&folder, 0, into);
    drop(folder);
    Ok(answer == Fetched::Failed)
}

// Whether a file of this path, which it writes, and a folder are read as they should be.
fn reads_files<R: Files + AllocGlobal>(rt: &R, path: &str) -> Result<bool, Fail> {
    let alloc = rt.alloc();
    fs::write(rt, path, "hello")?;
    let name = Text::of(alloc, path.as_bytes())?;
    let mut buffer = Buffer::new(alloc)?;
    let mut shelf = FileShelf::new(rt);
    let is_right = is_read(rt, path, &mut shelf, &name, &mut buffer);
    let is_refused = is_folder_refused(alloc, &mut shelf, &mut buffer);
    drop(shelf);
    drop(buffer);
    drop(name);
    Ok(is_right && is_refused?)
}

#[test]
fn the_system_is_read(rt: HostRuntime) -> Result<(), Fail> {
    let path = format!(in rt.alloc(); "/tmp/merc_io-{}.txt", process::id(rt.process()))?;
    let is_right = reads_files(&rt, path.as_str());
    drop(path);
    assert!(rt; is_right?);
    Ok(())
}

// The name under which this process finds a file that it has open.
fn name_of<F: AsRawFd>(alloc: Global, file: &F) -> Result<Text, Fail> {
    let path = format!(in alloc; "/proc/self/fd/{}", file.as_raw_fd())?;
    let name = Text::of(alloc, path.as_bytes());
    drop(path);
    Ok(name?)
}

// Whether bytes are written and then fetched.
fn passes<W: Write, O: Opener + Drop>(
    writer: &mut W,
    bytes: &[u8],
    shelf: &mut FileShelf<O>,
    name: &Text,
    at: u64,
    into: &mut Buffer,
) -> bool
    requires { shelf.old.faults < 18446744073709551615 }
    ensures { shelf.new.faults ≤ shelf.old.faults + 1 }
{
    let is_written = writer.write_all(bytes).is_ok();
    is_written && brings(shelf, name, at, bytes, into)
}

// Whether what is written to a pipe is read on at its other end, and not from another place.
fn is_read_on<W: Write, O: Opener + Drop>(
    writer: &mut W,
    shelf: &mut FileShelf<O>,
    name: &Text,
    into: &mut Buffer,
) -> bool
    requires { shelf.old.faults ≡ 0 }
{
    let is_begun = passes(writer, b"hello", shelf, name, 0, into);
    let goes_on = passes(writer, b"abc", shelf, name, 5, into);
    let is_written = writer.write_all(b"abc").is_ok();
    let elsewhere = shelf.fetch(name, 9, into);
    is_begun && goes_on && is_written && elsewhere == Fetched::Failed
}

#[test]
fn a_pipe_is_read_on(rt: HostRuntime) -> Result<(), Fail> {
    let alloc = rt.alloc();
    let mut buffer = Buffer::new(alloc)?;
    let (reader, mut writer) = std::io::pipe(&rt)?;
    let name = name_of(alloc, &reader)?;
    let mut shelf = FileShelf::new(&rt);
    let is_right = is_read_on(&mut writer, &mut shelf, &name, &mut buffer);
    drop(shelf);
    drop(name);
    drop(writer);
    drop(reader);
    drop(buffer);
    assert!(rt; is_right);
    Ok(())
}

#[test]
fn the_system_is_written(rt: HostRuntime) {
    let mut sink = OutSink::new(&rt);
    let answer = sink.write(b"written\n");
    assert!(rt; answer == Wrote::Took(8));
    OpenGate.enter(1);
}
