//! What the words of a command ask for.
ghost use Rattle.std.specs.Prelude.{◌≡◌, ◌∷◌, ◌++◌, [], All, IfErr, IfOk, List, ℕ, IsUtf8, IsTrue, ◌↔◌, MatchOption, None, Option, Some, codes};
ghost use Rattle.merc_words.specs.declared.words.WordsFault.TheVariants.{Usage};
ghost use Rattle.merc_words.specs.Words.{IsNoRequest, IsNumberIn, IsRequest, default_steps, default_workers, greatest_count, least_count};
ghost use Rattle.merc_words.specs.Parts.{AreSetTo, AsksNothing, IsAskedBy, IsSetTo, file_alone, texts_of, words_behind};

use crate::parts::{Parts, part};
use crate::settings::{Setting, Settings, number_in, set_to};
use merc_base::{NoMemory, Text};
use std::alloc::Global;

// The workers of a run where no option says another number.
const DEFAULT_WORKERS: u64 = 4;
// The steps that a run may take where no option says another number.
const DEFAULT_STEPS: u64 = 1_000_000;
// The least and the greatest module that is grown.
const LEAST_COUNT: u64 = 1;

const GREATEST_COUNT: u64 = 2000;

/// What the words ask for.
#[derive(Drop)]
pub enum Request {
    /// To answer a goal over the module of a file.
    Solve {
        /// The name of the file.
        file: Text,
        /// The text of the goal.
        goal: Text,
        /// How many workers take part, 1 to 64.
        workers: u64,
        /// The steps that the run may take, 0 to 1,000,000,000.
        steps: u64,
        /// The answers behind which the run is stopped, 1 to 1,000,000,000, where a number of them is given.
        most: Option<u64>,
    },
    /// To check the module of a file of this name.
    Check {
        file: Text,
    },
    /// To list the code of the module of a file of this name.
    Code {
        file: Text,
    },
    /// To make a module and to answer a goal over it.
    Grow {
        /// The number of predicates of the module, 1 to 2,000.
        count: u64,
        /// How many workers take part, 1 to 64.
        workers: u64,
    },
}

/// Why words give no request.
#[derive(Clone, Copy, Debug, PartialEq, Eq)]
pub enum WordsFault {
    /// The words ask for nothing that there is.
    Usage,
    /// Memory was refused.
    NoMemory,
}

impl From<NoMemory> for WordsFault {
    ghost use Rattle.std.specs.Prelude.{◌≡◌};
    ghost use Rattle.merc_words.specs.declared.words.WordsFault.TheVariants.{NoMemory};

    ghost from_gives = { λ _ e. e ≡ NoMemory };

    fn from(_: NoMemory) -> Self {
        WordsFault::NoMemory
    }
}

// The words as text, which they are where each is UTF-8.
fn texts<'a>(alloc: Global, words: &'a [Text]) -> Result<Vec<&'a str>, WordsFault>
    ensures texts { IfOk result (λ texts. (words_behind texts.items ≡ words.now) × All IsUtf8 words.now) }
    ensures usage { IfErr result (λ fault. fault ≡ Usage → All IsUtf8 words.now → ⊥) }
{
    let mut texts = Vec::new(alloc);
    for word in words {
        let Ok(text) = str::from_utf8(word.bytes()) else {
            return Err(WordsFault::Usage);
        };
        push_text(&mut texts, text)?;
    }
    Ok(texts)
}

fn push_text<'a>(texts: &mut Vec<&'a str>, text: &'a str) -> Result<(), NoMemory>
    ensures { IfOk result (λ _. texts.new.items ≡ texts.old.items ++ text.entry ∷ []) }
{
    texts.push(text)?;
    Ok(())
}

// What the options are set to by their texts, or `None` where one of these spells no number that its option can be set to.
fn settings_of(parts: &Parts<'_>) -> Option<Settings>
    ensures { MatchOption result ((settings : Settings) → AreSetTo (texts_of parts.now) settings → ⊥) (AreSetTo (texts_of parts.now)) }
{
    let workers = set_to(Setting::Workers, parts.workers)?;
    let steps = set_to(Setting::Steps, parts.steps)?;
    let most = set_to(Setting::Max, parts.most)?;
    Some(Settings {
        workers,
        steps,
        most,
    })
}

// The texts of a file alone.
fn file_alone(alloc: Global, parts: &Parts<'_>) -> Result<Text, WordsFault>
    ensures file { IfOk result (λ file. texts_of parts.now ≡ file_alone file) }
    ensures usage { IfErr result (λ fault. fault ≡ Usage → (file : List ℕ) → texts_of parts.now ≡ file_alone file → ⊥) }
{
    match *parts {
        Parts {
            first: Some(file),
            second: None,
            workers: None,
            steps: None,
            most: None,
        } => Ok(Text::of(alloc, file.as_bytes())?),
        _ => Err(WordsFault::Usage),
    }
}

// What `solve` asks for.
fn solve_request(alloc: Global, parts: &Parts<'_>) -> Result<Request, WordsFault>
    ensures asked { IfOk result (IsAskedBy (codes "solve") (texts_of parts.now)) }
    ensures usage { IfErr result (λ fault. fault ≡ Usage → AsksNothing (codes "solve") (texts_of parts.now)) }
{
    let Some(file) = parts.first else {
        return Err(WordsFault::Usage);
    };
    let Some(goal) = parts.second else {
        return Err(WordsFault::Usage);
    };
    let Some(settings) = settings_of(parts) else {
        return Err(WordsFault::Usage);
    };
    let file = Text::of(alloc, file.as_bytes())?;
    let goal = Text::of(alloc, goal.as_bytes())?;
    Ok(Request::Solve {
        file,
        goal,
        workers: settings.workers.unwrap_or(DEFAULT_WORKERS),
        steps: settings.steps.unwrap_or(DEFAULT_STEPS),
        most: settings.most,
    })
}

// What `grow` asks for.
fn grow_request(parts: &Parts<'_>) -> Option<Request>
    ensures { MatchOption result (AsksNothing (codes "grow") (texts_of parts.now)) (IsAskedBy (codes "grow") (texts_of parts.now)) }
{
    let Parts {
        first: Some(text),
        second: None,
        workers,
        steps: None,
        most: None,
    } = *parts
    else {
        return None;
    };
    let count = number_in(LEAST_COUNT, GREATEST_COUNT, text.as_bytes())?;
    let workers = set_to(Setting::Workers, workers)?;
    Some(Request::Grow {
        count,
        workers: workers.unwrap_or(DEFAULT_WORKERS),
    })
}

// What a command asks for with these words behind it.
fn request_of(alloc: Global, command: &[u8], parts: &Parts<'_>) -> Result<Request, WordsFault>
    ensures asked { IfOk result (IsAskedBy command.now (texts_of parts.now)) }
    ensures usage { IfErr result (λ fault. fault ≡ Usage → AsksNothing command.now (texts_of parts.now)) }
{
    if command == b"solve".as_slice() {
        solve_request(alloc, parts)
    } else if command == b"check".as_slice() {
        let file = file_alone(alloc, parts)?;
        Ok(Request::Check { file })
    } else if command == b"code".as_slice() {
        let file = file_alone(alloc, parts)?;
        Ok(Request::Code { file })
    } else if command == b"grow".as_slice() {
        grow_request(parts).ok_or(WordsFault::Usage)
    } else {
        Err(WordsFault::Usage)
    }
}

/// The request that the words mean, as docs/COMMANDS.md says.
///
/// # Errors
///
/// `Usage` where they ask for nothing that there is, `NoMemory` where memory was refused.
pub fn read_words(alloc: Global, words: &[Text]) -> Result<Request, WordsFault>
    ensures request { IfOk result (IsRequest words.now) }
    ensures usage { IfErr result (λ fault. fault ≡ Usage → IsNoRequest words.now) }
{
    let texts = texts(alloc, words)?;
    let [command, behind @ ..] = texts.as_slice() else {
        return Err(WordsFault::Usage);
    };
    let parts = part(alloc, behind)?;
    request_of(alloc, command.as_bytes(), &parts)
}
