//! Writes whole texts to a sink that may take less than it is given.
ghost use Rattle.std.specs.Prelude.{◌<◌, [], ◌∷◌};
ghost use Rattle.merc_transfer.specs.Writing.{PutsLines, Writes};

use merc_base::{NoMemory, Sink, Text, Wrote};

/// A write failed. What was written before it stays.
#[derive(Clone, Copy)]
pub struct WriteFault;

/// Why a text was not written to its end. A front of it was.
#[derive(Clone, Copy)]
pub enum Cut {
    /// A write failed.
    Unwritten,
    /// Memory was refused.
    NoMemory,
}

impl From<NoMemory> for Cut {
    ghost use Rattle.std.specs.Prelude.{◌≡◌};
    ghost use Rattle.merc_transfer.specs.declared.writing.Cut.TheVariants.{NoMemory};

    ghost from_gives = { λ _ e. e ≡ NoMemory };

    fn from(_: NoMemory) -> Self {
        Cut::NoMemory
    }
}

/// Writes a text as one piece, and the rest of it again where less was taken. No write follows one that failed. The count of faults of the
/// sink can still rise.
///
/// # Errors
///
/// A write failed. A front of the text was written.
pub fn put<K: Sink>(sink: &mut K, bytes: &[u8]) -> Result<(), WriteFault>
    requires { (K.sink_state sink.old).faults < 18446744073709551615 }
    ensures { PutsLines (bytes.now ∷ []) (K.sink_state sink.old) (K.sink_state sink.new) result }
{
    let mut rest = bytes;
    while !rest.is_empty() {
        match sink.write(rest) {
            Wrote::Took(count) => rest = &rest[count..],
            Wrote::Failed => return Err(WriteFault),
        }
    }
    Ok(())
}

/// Writes lines in order, each as one piece, and the rest of it again where less was taken. The count of faults of the sink can still rise.
///
/// # Errors
///
/// A write failed. A front of the text was written.
pub fn put_lines<K: Sink>(sink: &mut K, lines: &[Text]) -> Result<(), WriteFault>
    requires { (K.sink_state sink.old).faults < 18446744073709551615 }
    ensures { PutsLines lines.now (K.sink_state sink.old) (K.sink_state sink.new) result }
{
    for line in lines {
        if let Err(fault) = put(sink, line.bytes()) {
            return Err(fault);
        }
    }
    Ok(())
}

/// Writes a line as one piece, and the rest of it again where less was taken. The count of faults of the sink can still rise.
///
/// # Errors
///
/// `Unwritten` where a write failed. A front of the line was written.
pub fn put_line<K: Sink>(sink: &mut K, line: &Text) -> Result<(), Cut>
    requires { (K.sink_state sink.old).faults < 18446744073709551615 }
    ensures { Writes (line.now ∷ []) (K.sink_state sink.old) (K.sink_state sink.new) result }
{
    match put(sink, line.bytes()) {
        Ok(()) => Ok(()),
        Err(WriteFault) => Err(Cut::Unwritten),
    }
}
