//! Reads a whole file from a shelf, piece by piece.
ghost use Rattle.std.specs.Prelude.{◌≡◌, ◌<◌};
ghost use Rattle.merc_transfer.specs.Loading.{Loads};

use merc_base::{Buffer, Fetched, NoMemory, Shelf, Text};
use std::alloc::{AllocError, Global};

/// The most bytes that a file may have.
pub const FILE_LIMIT: usize = 1_048_576;

/// Why a file was not read.
#[derive(Clone, Copy)]
pub enum LoadFault {
    /// It has more bytes than the limit.
    TooLong,
    /// A read failed, or no such file is there.
    Unread,
    /// Memory was refused.
    NoMemory,
}

impl From<NoMemory> for LoadFault {
    ghost use Rattle.std.specs.Prelude.{◌≡◌};
    ghost use Rattle.merc_transfer.specs.declared.loading.LoadFault.TheVariants.{NoMemory};

    ghost from_gives = { λ _ e. e ≡ NoMemory };

    fn from(_: NoMemory) -> Self {
        LoadFault::NoMemory
    }
}

/// The text of the file of this name. It is fetched from place 0 on, each piece behind the one before, until the
/// shelf answers that nothing follows or until more bytes than the limit have come. The count of faults of the shelf can still
/// rise.
///
/// # Errors
///
/// `TooLong` where the file has more than 1,048,576 bytes; `Unread` where a read failed or no such file is there; `NoMemory`
/// where memory was refused.
pub fn load<S: Shelf>(alloc: Global, shelf: &mut S, name: &Text) -> Result<Text, LoadFault>
    requires { S.read_faults shelf.old < 18446744073709551615 }
    ensures same { S.files shelf.new ≡ S.files shelf.old }
    ensures loads { Loads (S.files shelf.old) name.now (S.read_faults shelf.old) (S.read_faults shelf.new) result }
{
    let mut text = Text::new(alloc);
    let mut buffer = Buffer::new(alloc)?;
    while text.bytes().len() <= FILE_LIMIT {
        match shelf.fetch(name, text.bytes().len() as u64, &mut buffer) {
            Fetched::Got(_) => text.push(buffer.bytes())?,
            Fetched::End => return Ok(text),
            Fetched::Absent | Fetched::Failed => return Err(LoadFault::Unread),
            Fetched::NoMemory => return Err(LoadFault::NoMemory),
        }
    }
    Err(LoadFault::TooLong)
}
