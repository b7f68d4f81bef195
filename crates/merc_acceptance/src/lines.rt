//! The lines of a table, each with those that go on with it.
use crate::fault::TableFault;
use std::alloc::Global;

/// A heading, a setting or a case: a line `key: value`, with the lines that go on with it.
#[derive(Drop)]
pub struct Entry {
    /// The number of its line, from 1.
    pub line: u32,
    /// What stands before the colon; of a heading `==`.
    pub key: String,
    /// What stands behind it.
    pub value: String,
}

/// The line of a fault, and what is wrong there.
#[derive(Clone, Copy)]
pub struct LineFault {
    /// The number of the line, from 1.
    pub line: u32,
    /// What is wrong.
    pub fault: TableFault,
}

impl Entry {
    fn new(alloc: Global, line: u32, key: &str, value: &str) -> Result<Entry, TableFault> {
        Ok(Entry {
            line,
            key: String::from_str(alloc, key)?,
            value: String::from_str(alloc, value)?,
        })
    }
}

/// Adds the entries of a table, in order.
pub(crate) fn read_entries(
    alloc: Global,
    text: &str,
    entries: &mut Vec<Entry>,
) -> Result<(), LineFault> {
    let mut line = 0u32;
    for written in text.lines() {
        line = line.saturating_add(1);
        if let Err(fault) = add_line(alloc, entries, line, written) {
            return Err(LineFault { line, fault });
        }
    }
    Ok(())
}

// Adds a line: an entry, a part of the last one, or nothing where it is empty or a comment.
fn add_line(
    alloc: Global,
    entries: &mut Vec<Entry>,
    line: u32,
    written: &str,
) -> Result<(), TableFault> {
    if written.is_empty() || written.starts_with("#") {
        return Ok(());
    }
    if let Some(more) = written.strip_prefix("|") {
        return go_on(entries, more);
    }
    let (key, value) = key_and_value(written)?;
    entries.push(Entry::new(alloc, line, key.trim(), value.trim())?)?;
    Ok(())
}

// What stands before the colon and what behind; of a heading `==` and the rest.
fn key_and_value(written: &str) -> Result<(&str, &str), TableFault> {
    if let Some(heading) = written.strip_prefix("==") {
        return Ok(("==", heading));
    }
    match written.split_once(':') {
        Some(parts) => Ok(parts),
        None => Err(TableFault::UnknownLine),
    }
}

// Adds a line to the last entry.
fn go_on(entries: &mut Vec<Entry>, more: &str) -> Result<(), TableFault> {
    match entries.last_mut() {
        Some(entry) => push_line(more.strip_prefix(" ").unwrap_or(more), &mut entry.value),
        None => Err(TableFault::NothingToContinue),
    }
}

// Adds a line and its end.
fn push_line(line: &str, value: &mut String) -> Result<(), TableFault> {
    value.push_str(line)?;
    value.push_str("\\n")?;
    Ok(())
}
