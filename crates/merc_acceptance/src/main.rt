//! Runs tables of cases through the program's one call, and says where something else came than was due.
//! docs/CASES.md says how a table is written.
#![tactic(auto)]

mod cases;
mod constants;
mod escapes;
mod fault;
mod lines;
mod running;
mod settings;
mod tables;
mod tally;

use fault::TableFault;
use std::process::ExitCode;
use std::rt::{Env, Files};
use std::sync::Wait;
use std::thread::Threads;
use std::{env, fs, io};
use tables::run_table;
use tally::Tally;

fn main(rt: HostRuntime) -> ExitCode {
    let mut tally = Tally {
        passed: 0,
        failed: 0,
    };
    let ran = run_all(&rt, &mut tally);
    let (passed, failed) = (tally.passed, tally.failed);
    let printed = println!(rt; "{passed} passed, {failed} failed");
    if ran.is_ok() && printed.is_ok() && failed == 0 {
        ExitCode::SUCCESS
    } else {
        ExitCode::FAILURE
    }
}

// The constants of names, and the tables that the words name.
fn run_all<R: Env + Files + Print + Threads + Wait + AllocGlobal>(
    rt: &R,
    tally: &mut Tally,
) -> io::Result<()> {
    constants::run(rt, tally)?;
    for word in env::args(rt)?.skip(1) {
        run_file(rt, word.as_str(), tally)?;
    }
    Ok(())
}

// A table that cannot be read is told, and counts as one case that failed.
fn run_file<R: Files + Print + Threads + Wait + AllocGlobal>(
    rt: &R,
    path: &str,
    tally: &mut Tally,
) -> io::Result<()> {
    match fs::read_to_string(rt, path) {
        Ok(text) => run_table(rt, path, text.as_str(), tally),
        Err(_) => {
            tally.count(false);
            println!(rt; "{path}: {}", TableFault::Unread.text())
        }
    }
}
