//! The program: `merc_top` over the files of the system and standard output.
#![tactic(auto)]

use merc_base::{NoMemory, Tap, Text};
use merc_io::{FileShelf, OpenGate, OutSink};
use merc_machine::Ticks;
use merc_top::answer;
use merc_top::statuses::{NO_MEMORY, UNREAD, UNWRITTEN};
use merc_words::{Request, read_words};
use std::alloc::Global;
use std::env::FillError;
use std::io;
use std::process::ExitCode;
use std::rt::Env;

fn main(rt: HostRuntime) -> ExitCode {
    let alloc = rt.alloc();
    let Ok(words) = all_words(&rt) else {
        complain(&rt, alloc, &[], NO_MEMORY);
        return ExitCode::from(NO_MEMORY);
    };
    let mut shelf = FileShelf::new(&rt);
    let mut sink = OutSink::new(&rt);
    let mut taps: Vec<Box<dyn Tap>> = Vec::new(alloc);
    let mut ticks = Ticks::new();
    let status = answer(
        &rt, alloc, &words, &mut shelf, &mut sink, &mut taps, &OpenGate, &mut ticks,
    );
    complain(&rt, alloc, &words, status);
    ExitCode::from(status)
}

// Says on standard error why the text that is due was not written. Where that cannot be said, nothing changes.
fn complain<R: Eprint>(rt: &R, alloc: Global, words: &[Text], status: u8) {
    let _said = match status {
        UNREAD => complain_of_file(rt, alloc, words),
        UNWRITTEN => eprintln!(rt; "merc: standard output cannot be written"),
        NO_MEMORY => eprintln!(rt; "merc: out of memory"),
        _ => Ok(()),
    };
}

// Says which file cannot be read, by its name as it was given.
fn complain_of_file<R: Eprint>(rt: &R, alloc: Global, words: &[Text]) -> io::Result<()> {
    let Ok(asked) = read_words(alloc, words) else {
        return eprintln!(rt; "merc: the file cannot be read");
    };
    match &asked {
        Request::Solve { file, .. } | Request::Check { file } | Request::Code { file } => {
            let name = str::from_utf8(file.bytes()).unwrap_or("the file");
            eprintln!(rt; "merc: {name} cannot be read")
        }
        Request::Grow { .. } => eprintln!(rt; "merc: the file cannot be read"),
    }
}

// The words behind the program's own name.
fn all_words<R: Env + AllocGlobal>(rt: &R) -> Result<Vec<Text>, NoMemory> {
    let mut words = Vec::new(rt.alloc());
    for number in 1..usize::MAX {
        match word(rt, number)? {
            Some(word) => words.push(word)?,
            None => break,
        }
    }
    Ok(words)
}

// The word of this number as it is. `env::args` fails at one that is not UTF-8, the program's own name included.
fn word<R: Env + AllocGlobal>(rt: &R, number: usize) -> Result<Option<Text>, NoMemory> {
    let alloc = rt.alloc();
    for exponent in 8..usize::BITS {
        let mut room = vec![in alloc; 0u8; 1usize << exponent]?;
        match rt.arg(number, &mut room) {
            Ok(count) => return Ok(Some(Text::of(alloc, &room[..count])?)),
            Err(FillError::NotPresent) => return Ok(None),
            Err(FillError::TooLong) => {}
        }
    }
    Err(NoMemory)
}
