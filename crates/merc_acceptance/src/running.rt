//! A case through the program's one call, over files and output in memory.
ghost use Rattle.std.specs.Prelude.{◌≡◌, ℕ, [], IfNone, IfOk, IfSome, Some, None};
ghost use Rattle.merc_io.specs.Sinks.{memory_told};
ghost use Rattle.merc_top.specs.Answer.{Answers};

use crate::cases::Case;
use crate::fault::TableFault;
use crate::settings::Settings;
use merc_base::{Tap, Text};
use merc_io::{FailingShelf, FailingSink, OpenGate};
use merc_machine::Ticks;
use merc_top::answer;
use std::alloc::{AllocError, Global};
use std::mem;
use std::sync::Wait;
use std::thread::Threads;

/// Runs a case, which gives its files away. Where something else came than was due, says both. Where it says nothing,
/// the program's one call gave the text and the status that are due, for the case's words over its files, and counted as
/// many steps as are said.
pub(crate) fn difference<R: Threads + Wait + AllocGlobal>(
    rt: &R,
    settings: &Settings,
    case: &mut Case,
) -> Result<Option<String>, TableFault>
    ensures { IfOk result (λ found. IfNone found ((reads writes count : ℕ) × IfSome settings.now.steps (λ steps. count ≡ steps) × Answers case.old.words.items (Some case.old.files.items) 0 reads (record { written = Some []; given = None; faults = 0 }) (record { written = Some case.old.text; given = None; faults = writes }) count case.old.status)) }
{
    let alloc = rt.alloc();
    let files = mem::replace(&mut case.files, Vec::new(alloc));
    let mut shelf = shelf_of(settings, files)?;
    let mut sink = sink_of(alloc, settings)?;
    let mut ticks = Ticks::new();
    let status = status(rt, &case.words, &mut shelf, &mut sink, &mut ticks);
    match compared(alloc, case.status, case.text.bytes(), status, sink.bytes())? {
        None => miscounted(alloc, settings.steps, ticks.count()),
        Some(both) => Ok(Some(both)),
    }
}

// The status that the program's one call gives for words.
fn status<R: Threads + Wait + AllocGlobal>(
    rt: &R,
    words: &[Text],
    shelf: &mut FailingShelf,
    sink: &mut FailingSink,
    ticks: &mut Ticks,
) -> u8
    requires shelf { shelf.old.faults ≡ 0 }
    requires sink { sink.old.sink.faults ≡ 0 }
    requires ticks { ticks.old ≡ 0 }
    ensures { Answers words.now (Some shelf.old.files) shelf.old.faults shelf.new.faults (memory_told sink.old.sink) (memory_told sink.new.sink) ticks.new result }
{
    let alloc = rt.alloc();
    let mut taps: Vec<Box<dyn Tap>> = Vec::new(alloc);
    answer(rt, alloc, words, shelf, sink, &mut taps, &OpenGate, ticks)
}

// These files, of which each read gives as much as is said, and fails where it is said.
fn shelf_of(settings: &Settings, files: Vec<(Text, Text)>) -> Result<FailingShelf, TableFault>
    ensures { IfOk result (λ shelf. (shelf.files ≡ files.items) × (shelf.faults ≡ 0)) }
{
    let fail = settings.failing_reads.clone()?;
    let piece = settings.read_piece.clamp(1, 65_536);
    Ok(FailingShelf::new(files, fail, piece))
}

// An empty sink that takes and fails as is said.
fn sink_of(alloc: Global, settings: &Settings) -> Result<FailingSink, TableFault>
    ensures { IfOk result (λ sink. (sink.sink.bytes ≡ []) × (sink.sink.faults ≡ 0)) }
{
    let fail = settings.failing_writes.clone()?;
    let room = settings.room;
    let sink = match settings.write_piece {
        Some(piece) => FailingSink::taking(alloc, room, fail, piece.max(1)),
        None => FailingSink::with_room(alloc, room, fail),
    };
    Ok(sink?)
}

// The status and the text that are due, and those that came, where they are not the same.
fn compared(
    alloc: Global,
    wanted: u8,
    due: &[u8],
    status: u8,
    came: &[u8],
) -> Result<Option<String>, TableFault>
    ensures same { IfOk result (λ found. IfNone found ((status ≡ wanted) × (came.now ≡ due.now))) }
    ensures differs { IfOk result (λ found. IfSome found (λ both. status ≡ wanted → came.now ≡ due.now → ⊥)) }
{
    if status == wanted && came == due {
        return Ok(None);
    }
    let mut both = String::new(alloc);
    push_shown("  due:  ", wanted, due, &mut both)?;
    push_shown("\n  came: ", status, came, &mut both)?;
    Ok(Some(both))
}

// The numbers of steps that are due and that were counted, where one is due and they are not the same.
fn miscounted(alloc: Global, due: Option<u64>, came: u64) -> Result<Option<String>, TableFault>
    ensures same { IfOk result (λ found. IfNone found (IfSome due (λ steps. came ≡ steps))) }
    ensures differs { IfOk result (λ found. IfSome found (λ both. IfSome due (λ steps. came ≡ steps → ⊥))) }
{
    match due {
        Some(due) if due != came => {
            let mut both = String::new(alloc);
            write!(both, "  due:  {due} steps\n  came: {came} steps")?;
            Ok(Some(both))
        }
        _ => Ok(None),
    }
}

// Adds these words, a status, and a text as a table has it.
fn push_shown(words: &str, status: u8, bytes: &[u8], shown: &mut String) -> Result<(), TableFault> {
    shown.push_str(words)?;
    write!(shown, "{status} ")?;
    for byte in bytes {
        push_byte(*byte, shown)?;
    }
    Ok(())
}

// Adds a byte as a table has it.
fn push_byte(byte: u8, shown: &mut String) -> Result<(), AllocError> {
    match byte {
        b'\n' => shown.push_str("\\n"),
        b'\\' => shown.push_str("\\\\"),
        b' '..=b'~' => shown.push(char::from(byte)),
        _ => write!(shown, "\\x{byte:02x}"),
    }
}
