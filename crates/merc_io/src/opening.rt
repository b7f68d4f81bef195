//! Opens files by name, to be read from a place on.
ghost use Rattle.std.specs.Prelude.{◌≡◌, ◌↔◌, Option, Some, None, Err, false, IfOk, IfErr, IfSome, IsErrOf, is_some};
ghost use Rattle.std.specs.Str.{IsUtf8};
ghost use Rattle.std.specs.IoError.{error_kind};
ghost use Rattle.merc_base.specs.Outside.{Files, file_named};
ghost use Rattle.merc_io.specs.Shelves.{HasLeft};

use merc_base::{NoMemory, Text};
use std::io::{ErrorKind, Read, Seek, SeekFrom};
use std::rt::Files;
use std::{fs, io};

/// Why a file was not opened or not read.
#[derive(Clone, Copy)]
pub enum ReadFault {
    /// No such file is there.
    Absent,
    /// It cannot be opened or read.
    Failed,
    /// Memory was refused.
    NoMemory,
}

impl From<NoMemory> for ReadFault {
    ghost use Rattle.std.specs.Prelude.{◌≡◌};
    ghost use Rattle.merc_io.specs.declared.opening.ReadFault.TheVariants.{NoMemory};

    ghost from_gives = { λ _ fault. fault ≡ NoMemory };

    fn from(_: NoMemory) -> Self {
        ReadFault::NoMemory
    }
}

/// Opens files by name.
pub trait Opener {
    type Reader: Read + Drop;

    /// The files, if they are told.
    ghost files: { Self → Option Files };

    /// Opens the file of this name, to be read from a place on.
    fn open_at(&self, name: &Text, at: u64) -> Result<Self::Reader, ReadFault>
        ensures opened { IfOk result (λ reader. IfSome (files self.now)
            (λ files. HasLeft (file_named name.now files) at (Self.Reader.remaining reader))) }
        ensures absent { result ≡ Err ReadFault.Absent → IfSome (files self.now) (λ files. file_named name.now files ≡ None) };

    /// Whether the files are told.
    fn tells(&self) -> bool
        ensures { result ≡ is_some (files self.now) };
}

/// The files of the system, each by its path. What they hold is not told.
#[derive(Drop)]
pub struct SystemFiles<R: Files + Drop> {
    rt: R,
}

impl<R: Files + Drop> SystemFiles<R> {
    /// The files that this runtime opens.
    pub(crate) fn new(rt: R) -> SystemFiles<R> {
        SystemFiles { rt }
    }
}

impl<R: Files + Drop> Opener for SystemFiles<R> {
    type Reader = R::File;

    ghost files = { λ _. None };

    /// It fails for a name that is not UTF-8, for a folder, and where there is no permission. What cannot seek is
    /// opened at its beginning alone.
    fn open_at(&self, name: &Text, at: u64) -> Result<R::File, ReadFault>
        ensures not_text { ¬ (IsUtf8 name.now) → IsErrOf result ReadFault.Failed }
    {
        let Ok(path) = str::from_utf8(name.bytes()) else {
            return Err(ReadFault::Failed);
        };
        let handle = fs::open(&self.rt, path).map_err(open_fault)?;
        placed(handle, at)
    }

    fn tells(&self) -> bool
        ensures { result ≡ false }
    {
        false
    }
}

fn open_fault(error: io::Error) -> ReadFault
    ensures absent { (result ≡ ReadFault.Absent) ↔ (error_kind error ≡ ErrorKind.NotFound) }
    ensures memory { (result ≡ ReadFault.NoMemory) ↔ (error_kind error ≡ ErrorKind.OutOfMemory) }
{
    match error.kind() {
        ErrorKind::NotFound => ReadFault::Absent,
        ErrorKind::OutOfMemory => ReadFault::NoMemory,
        _ => ReadFault::Failed,
    }
}

// Brings a file that was just opened to a place. What cannot seek stands at its beginning.
fn placed<F: Seek + Drop>(mut handle: F, at: u64) -> Result<F, ReadFault>
    ensures place { F.stream_position handle ≡ Some 0 →
        IfOk result (λ placed. F.stream_position placed ≡ Some at) }
    ensures failed { IfErr result (λ fault. fault ≡ ReadFault.Failed) }
{
    if at > 0 && handle.seek(SeekFrom::Start(at)).is_err() {
        return Err(ReadFault::Failed);
    }
    Ok(handle)
}
