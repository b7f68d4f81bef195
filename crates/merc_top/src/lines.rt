//! The lines of refusals, each with its line end.
ghost use Rattle.std.specs.Prelude.{◌≡◌, ◌++◌, IfOk, OnOk};
ghost use Rattle.std.specs.Fmt.{decimal};
ghost use Rattle.merc_base.specs.Refusal.{refusal_text};
ghost use Rattle.merc_top.specs.Output.{refusal_line, too_long_line};

use merc_base::{NoMemory, Refusal, Text};
use std::alloc::Global;

/// The line of a refusal. The name is the file's, or `goal`.
///
/// # Errors
///
/// `NoMemory` where memory was refused.
pub fn refusal_line(alloc: Global, name: &[u8], refusal: &Refusal) -> Result<Text, NoMemory>
    ensures { IfOk result (λ line. line ≡ refusal_line name.now refusal.now) }
{
    let mut line = Text::of(alloc, name)?;
    match push_refusal(alloc, refusal, &mut line) {
        Ok(()) => Ok(line),
        Err(refused) => {
            drop(line);
            Err(refused)
        }
    }
}

// Puts what the line of a refusal has behind the name.
fn push_refusal(alloc: Global, refusal: &Refusal, line: &mut Text) -> Result<(), NoMemory>
    ensures { OnOk result (line.new ≡ refusal_line line.old refusal.now) }
{
    line.push(b":")?;
    push_number(alloc, u64::from(refusal.place.line), line)?;
    line.push(b": ")?;
    push_rule(alloc, refusal, line)?;
    line.push(b"\n")
}

// Puts the rule that is broken behind a text.
fn push_rule(alloc: Global, refusal: &Refusal, line: &mut Text) -> Result<(), NoMemory>
    ensures { OnOk result (line.new ≡ line.old ++ refusal_text refusal.now) }
{
    line.push(refusal.to_string(alloc)?.as_bytes())
}

/// Puts a number behind a text.
///
/// # Errors
///
/// `NoMemory` where memory was refused.
pub fn push_number(alloc: Global, number: u64, line: &mut Text) -> Result<(), NoMemory>
    ensures { OnOk result (line.new ≡ line.old ++ decimal number) }
{
    line.push(number.to_string(alloc)?.as_bytes())
}

/// The line for a file of more bytes than the limit.
///
/// # Errors
///
/// `NoMemory` where memory was refused.
pub fn too_long_line(alloc: Global, name: &[u8]) -> Result<Text, NoMemory>
    ensures { IfOk result (λ line. line ≡ too_long_line name.now) }
{
    let mut line = Text::of(alloc, name)?;
    line.push(b": longer than 1048576 bytes")?;
    line.push(b"\n")?;
    Ok(line)
}
