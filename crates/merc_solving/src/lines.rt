//! The lines of a run, each with its line end.
ghost use Rattle.std.specs.Prelude.{◌≡◌, ◌++◌, ◌<◌, ℕ, suc, List, length, slice_get, IfOk, IfSome, OnOk};
ghost use Rattle.merc_meaning.specs.Trace.{LimitPassed, RunDone, RunRaised};
ghost use Rattle.merc_value.specs.Block.{root_values};
ghost use Rattle.merc_solving.specs.Lines.{comma_list, joined, line};
ghost use Rattle.merc_solving.specs.RunLines.{binding, bindings, end_line, stopped_line};

use merc_base::{Name, Names, NoMemory, Text};
use merc_value::{Block, text_of, write_text};
use std::alloc::Global;

// Puts `V = value` behind a text, for the name of a variable and the root of this number.
fn push_binding(
    alloc: Global,
    names: &Names,
    variable: Name,
    values: &Block,
    root: u32,
    line: &mut Text,
) -> Result<(), NoMemory>
    requires { root < length values.now.roots }
    ensures { IfSome (slice_get (root_values values.now) root) (λ value. OnOk result (line.new ≡ line.old ++ binding names.now variable value)) }
{
    line.push(text_of(names, variable))?;
    line.push(b" = ")?;
    write_text(alloc, values, root, names, line)
}

// Puts the bindings of these variables behind a text, with a comma and a blank between each two.
fn push_bindings(
    alloc: Global,
    names: &Names,
    variables: &[Name],
    values: &Block,
    line: &mut Text,
) -> Result<(), NoMemory>
    ensures { OnOk result (line.new ≡ line.old ++ joined (bindings names.now variables.now (root_values values.now))) }
{
    let mut separator: &[u8] = b"";
    let mut root = 0;
    for variable in variables {
        if values.root(root).is_none() {
            return Ok(());
        }
        line.push(separator)?;
        push_binding(alloc, names, *variable, values, root, line)?;
        separator = b", ";
        root = next_root(root)?;
    }
    Ok(())
}

// The number of the next root.
fn next_root(root: u32) -> Result<u32, NoMemory>
    ensures { IfOk result (λ next. next ≡ suc root) }
{
    match root.checked_add(1) {
        Some(next) => Ok(next),
        // so many values need more memory than there is
        None => Err(NoMemory),
    }
}

/// The line of an answer: `V = value` for each of these variables, by their names, with the roots of the block as their
/// values in order, joined by a comma and a blank; `true` where there is none.
///
/// # Errors
///
/// `NoMemory` where memory was refused.
pub fn solution_line(
    alloc: Global,
    names: &Names,
    variables: &[Name],
    values: &Block,
) -> Result<Text, NoMemory>
    ensures { IfOk result (λ text. text ≡ line (comma_list (bindings names.now variables.now (root_values values.now)))) }
{
    let mut line = Text::new(alloc);
    push_bindings(alloc, names, variables, values, &mut line)?;
    if line.bytes().is_empty() {
        line.push(b"true")?;
    }
    line.push(b"\n")?;
    Ok(line)
}

/// The end line of a run that has so many solutions and no further one.
///
/// # Errors
///
/// `NoMemory` where memory was refused.
pub fn solutions_line(alloc: Global, count: u64) -> Result<Text, NoMemory>
    ensures { (names : List (List ℕ)) → IfOk result (λ line. line ≡ end_line names count RunDone) }
{
    let mut line = Text::of(alloc, b"solutions ")?;
    line.push(count.to_string(alloc)?.as_bytes())?;
    line.push(b"\n")?;
    Ok(line)
}

/// The end line of a run that is stopped behind so many solutions.
///
/// # Errors
///
/// `NoMemory` where memory was refused.
pub fn stopped_line(alloc: Global, count: u64) -> Result<Text, NoMemory>
    ensures { (names : List (List ℕ)) → IfOk result (λ line. line ≡ stopped_line names count) }
{
    let mut line = Text::of(alloc, b"stopped after ")?;
    line.push(count.to_string(alloc)?.as_bytes())?;
    line.push(b"\n")?;
    Ok(line)
}

/// The end line of a run with an exception of this text.
///
/// # Errors
///
/// `NoMemory` where memory was refused.
pub fn exception_line(alloc: Global, names: &Names, text: Name) -> Result<Text, NoMemory>
    ensures { (count : ℕ) → IfOk result (λ line. line ≡ end_line names.now count (RunRaised text)) }
{
    let mut line = Text::of(alloc, b"uncaught exception: ")?;
    line.push(text_of(names, text))?;
    line.push(b"\n")?;
    Ok(line)
}

/// The end line of a run that passed its step limit.
///
/// # Errors
///
/// `NoMemory` where memory was refused.
pub fn step_limit_line(alloc: Global) -> Result<Text, NoMemory>
    ensures { (names : List (List ℕ)) (count : ℕ) → IfOk result (λ line. line ≡ end_line names count LimitPassed) }
{
    Text::of(alloc, b"step limit passed\n")
}
