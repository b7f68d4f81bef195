//! What holds for the cases of a section.
ghost use Rattle.std.specs.Prelude.{◌≤◌, IfOk};

use crate::fault::TableFault;
use std::alloc::{AllocError, Global};

// The most bytes that a sink has room for where nothing is said.
const ROOM: usize = 10_000;

// The most bytes that one read gives where nothing is said.
const READ_PIECE: usize = 65_536;

/// What a section says so far. Texts stand as they are written.
#[derive(Drop)]
pub struct Settings {
    /// The files, each a name and a text. Of one name the last counts.
    pub files: Vec<(String, String)>,
    /// The words.
    pub words: Vec<String>,
    /// The status and the text that are due.
    pub due: Option<(u8, String)>,
    /// The numbers of the reads that fail.
    pub failing_reads: Vec<u64>,
    /// The numbers of the writes that fail.
    pub failing_writes: Vec<u64>,
    /// The most bytes that one read gives.
    pub read_piece: usize,
    /// The most bytes that one write takes, if it does not take all.
    pub write_piece: Option<usize>,
    /// The most bytes that the sink takes in all.
    pub room: usize,
    /// How many steps are counted, if that is said.
    pub steps: Option<u64>,
}

impl Settings {
    /// Those that hold at a heading: the file `m.m` is the least module, and the goal is `X = 1`.
    pub(crate) fn new(alloc: Global) -> Result<Settings, TableFault> {
        let mut settings = Settings {
            files: Vec::new(alloc),
            words: Vec::new(alloc),
            due: None,
            failing_reads: Vec::new(alloc),
            failing_writes: Vec::new(alloc),
            read_piece: READ_PIECE,
            write_piece: None,
            room: ROOM,
            steps: None,
        };
        settings.set_file(alloc, "m.m", ":- module m.\\n")?;
        settings.set_goal(alloc, "X = 1")?;
        Ok(settings)
    }

    /// Takes a line `key: value`.
    pub(crate) fn set(&mut self, alloc: Global, key: &str, value: &str) -> Result<(), TableFault> {
        match key {
            "module" => self.set_file(alloc, "m.m", value),
            "goal" => self.set_goal(alloc, value),
            "words" => self.set_words(alloc, value),
            "failing reads" => set_numbers(value, &mut self.failing_reads),
            "failing writes" => set_numbers(value, &mut self.failing_writes),
            "read piece" => set_number(value, &mut self.read_piece),
            "write piece" => self.set_write_piece(value),
            "room" => set_number(value, &mut self.room),
            "counted steps" => self.set_steps(value),
            _ => self.set_named(alloc, key, value),
        }
    }

    // Takes a line whose key has a name or a number in it.
    fn set_named(&mut self, alloc: Global, key: &str, value: &str) -> Result<(), TableFault> {
        match key.split_once(' ') {
            Some(("file", name)) => self.set_file(alloc, name, value),
            Some(("due", status)) => self.set_due(alloc, status, value),
            _ => Err(TableFault::UnknownLine),
        }
    }

    fn set_due(&mut self, alloc: Global, status: &str, text: &str) -> Result<(), TableFault> {
        let Ok(status) = status.parse() else {
            return Err(TableFault::WrongNumber);
        };
        self.due = Some((status, String::from_str(alloc, text)?));
        Ok(())
    }

    fn set_write_piece(&mut self, value: &str) -> Result<(), TableFault> {
        self.write_piece = Some(number(value, READ_PIECE)?);
        Ok(())
    }

    fn set_steps(&mut self, value: &str) -> Result<(), TableFault> {
        let Ok(steps) = value.parse() else {
            return Err(TableFault::WrongNumber);
        };
        self.steps = Some(steps);
        Ok(())
    }

    fn set_file(&mut self, alloc: Global, name: &str, value: &str) -> Result<(), TableFault> {
        let file = file_of(alloc, name, value)?;
        self.files.retain(|other| other.0.as_str() != name);
        self.files.push(file)?;
        Ok(())
    }

    fn set_goal(&mut self, alloc: Global, goal: &str) -> Result<(), TableFault> {
        self.set_words(alloc, "solve m.m")?;
        self.add_word(alloc, goal)
    }

    // The words stand between blanks.
    fn set_words(&mut self, alloc: Global, value: &str) -> Result<(), TableFault> {
        self.words.clear();
        for word in value.split_whitespace() {
            self.add_word(alloc, word)?;
        }
        Ok(())
    }

    fn add_word(&mut self, alloc: Global, word: &str) -> Result<(), TableFault> {
        self.words.push(String::from_str(alloc, word)?)?;
        Ok(())
    }
}

fn file_of(alloc: Global, name: &str, text: &str) -> Result<(String, String), TableFault> {
    Ok((
        String::from_str(alloc, name)?,
        String::from_str(alloc, text)?,
    ))
}

// A number from 1 to this one.
fn number(value: &str, most: usize) -> Result<usize, TableFault>
    ensures { IfOk result (λ number. (1 ≤ number) × (number ≤ most)) }
{
    match value.parse() {
        Ok(number) if 1 <= number && number <= most => Ok(number),
        _ => Err(TableFault::WrongNumber),
    }
}

fn set_number(value: &str, setting: &mut usize) -> Result<(), TableFault> {
    *setting = number(value, READ_PIECE)?;
    Ok(())
}

// Takes numbers between blanks.
fn set_numbers(value: &str, setting: &mut Vec<u64>) -> Result<(), TableFault> {
    setting.clear();
    for word in value.split_whitespace() {
        match word.parse() {
            Ok(number) => setting.push(number)?,
            Err(_) => return Err(TableFault::WrongNumber),
        }
    }
    Ok(())
}
