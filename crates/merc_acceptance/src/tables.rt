//! Tables: headings, settings and cases.
use crate::cases::Case;
use crate::fault::TableFault;
use crate::lines::{Entry, LineFault, read_entries};
use crate::running::difference;
use crate::settings::Settings;
use crate::tally::Tally;
use std::alloc::Global;
use std::io;
use std::sync::Wait;
use std::thread::Threads;

// What stands under a heading, as far as it was read.
#[derive(Drop)]
struct Section {
    heading: String,
    settings: Settings,
}

impl Section {
    fn new(alloc: Global, heading: &str) -> Result<Section, TableFault> {
        Ok(Section {
            heading: String::from_str(alloc, heading)?,
            settings: Settings::new(alloc)?,
        })
    }

    // Takes a heading or a setting.
    fn set(&mut self, alloc: Global, key: &str, value: &str) -> Result<(), TableFault> {
        if key != "==" {
            return self.settings.set(alloc, key, value);
        }
        *self = Section::new(alloc, value)?;
        Ok(())
    }
}

/// Runs the cases of a table. With its first fault the table ends; the fault counts as a case that failed.
pub(crate) fn run_table<R: Print + Threads + Wait + AllocGlobal>(
    rt: &R,
    path: &str,
    text: &str,
    tally: &mut Tally,
) -> io::Result<()> {
    let mut entries = Vec::new(rt.alloc());
    match read_entries(rt.alloc(), text, &mut entries) {
        Ok(()) => run_entries(rt, path, &entries, tally),
        Err(fault) => tell_fault(rt, path, fault, tally),
    }
}

fn run_entries<R: Print + Threads + Wait + AllocGlobal>(
    rt: &R,
    path: &str,
    entries: &[Entry],
    tally: &mut Tally,
) -> io::Result<()> {
    match Section::new(rt.alloc(), "") {
        Ok(mut section) => run_each(rt, path, entries, &mut section, tally),
        Err(fault) => tell_fault(rt, path, LineFault { line: 1, fault }, tally),
    }
}

// Runs entries up to the first fault.
fn run_each<R: Print + Threads + Wait + AllocGlobal>(
    rt: &R,
    path: &str,
    entries: &[Entry],
    section: &mut Section,
    tally: &mut Tally,
) -> io::Result<()> {
    for entry in entries {
        let line = entry.line;
        match run_entry(rt, section, entry, tally) {
            Ok(None) => {}
            Ok(Some(difference)) => tell_difference(rt, path, line, &section.heading, difference)?,
            Err(fault) => return tell_fault(rt, path, LineFault { line, fault }, tally),
        }
    }
    Ok(())
}

// Takes an entry, and counts it where it is a case. Where something else came than was due, says both.
fn run_entry<R: Threads + Wait + AllocGlobal>(
    rt: &R,
    section: &mut Section,
    entry: &Entry,
    tally: &mut Tally,
) -> Result<Option<String>, TableFault> {
    let key = entry.key.as_str();
    let value = entry.value.as_str();
    if key == "case" {
        return run_case(rt, &section.settings, value, None, tally);
    }
    let Some(line) = key.strip_prefix("line ") else {
        section.set(rt.alloc(), key, value)?;
        return Ok(None);
    };
    match line.parse() {
        Ok(line) => run_case(rt, &section.settings, value, Some(line), tally),
        Err(_) => Err(TableFault::WrongNumber),
    }
}

fn run_case<R: Threads + Wait + AllocGlobal>(
    rt: &R,
    settings: &Settings,
    text: &str,
    line: Option<u32>,
    tally: &mut Tally,
) -> Result<Option<String>, TableFault> {
    let mut case = Case::of(rt.alloc(), settings, text, line)?;
    let difference = difference(rt, settings, &mut case);
    drop(case);
    let difference = difference?;
    tally.count(difference.is_none());
    Ok(difference)
}

fn tell_difference<R: Print>(
    rt: &R,
    path: &str,
    line: u32,
    heading: &str,
    difference: String,
) -> io::Result<()> {
    print_place(rt, path, line)?;
    rt.println(heading)?;
    rt.println(difference.as_str())
}

fn tell_fault<R: Print>(rt: &R, path: &str, fault: LineFault, tally: &mut Tally) -> io::Result<()> {
    tally.count(false);
    print_place(rt, path, fault.line)?;
    rt.println(fault.fault.text())
}

// Begins a line of output with the line of a table that it is about.
fn print_place<R: Print>(rt: &R, path: &str, line: u32) -> io::Result<()> {
    print!(rt; "{path}:")?;
    print!(rt; "{line}: ")
}
