//! How the words behind the command are parted, by `clap`.
ghost use Rattle.std.specs.Prelude.{◌≡◌, ◌↔◌, false, All, IfErr, IfOk, IsUtf8};
ghost use Rattle.clap.specs.Simple.{app_of, new_rule, with_rule};
ghost use Rattle.clap.specs.Walk.{rule_of};
ghost use Rattle.clap.specs.Values.{kind_of};
ghost use Rattle.clap.specs.declared.error.kind.ErrorKind.TheVariants.{OutOfMemory};
ghost use Rattle.merc_words.specs.declared.words.WordsFault.TheVariants.{Usage};
ghost use Rattle.merc_words.specs.Asked.{asked_app, option_rule, plain_app};
ghost use Rattle.merc_words.specs.Parts.{Gives, Texts, texts_of, words_behind};

use crate::words::WordsFault;
use clap::error::ErrorKind;
use clap::{Arg, Command, Error};
use merc_base::NoMemory;
use std::alloc::Global;

/// What the words behind the command give.
#[derive(Clone, Copy)]
pub struct Parts<'a> {
    /// The first word that is no option.
    pub first: Option<&'a str>,
    /// The second such word.
    pub second: Option<&'a str>,
    /// The text that says how many workers there are.
    pub workers: Option<&'a str>,
    /// The text that says how many steps there are.
    pub steps: Option<&'a str>,
    /// The text that says how many answers are wanted.
    pub most: Option<&'a str>,
}

// An option with one text.
fn option<'a>(alloc: Global, name: &'a str) -> Arg<'a>
    ensures rule { rule_of result ≡ option_rule name.entry.now }
    ensures local { result.global ≡ false }
{
    Arg::new(alloc, name).long(name)
}

// The command with one more option, which has one text.
fn with_option<'a>(
    alloc: Global,
    command: Command<'a>,
    name: &'a str,
) -> Result<Command<'a>, NoMemory>
    ensures { IfOk result (λ more. app_of more ≡ with_rule (app_of command.entry) (option_rule name.entry.now)) }
{
    Ok(command.arg(option(alloc, name))?)
}

// The command with one more plain word, which is not wanted.
fn with_word<'a>(
    alloc: Global,
    command: Command<'a>,
    name: &'a str,
) -> Result<Command<'a>, NoMemory>
    ensures { IfOk result (λ more. app_of more ≡ with_rule (app_of command.entry) (new_rule name.entry.now)) }
{
    Ok(command.arg(Arg::new(alloc, name))?)
}

// A command that is handed the words behind its name, and adds no help.
fn plain_command<'a>(alloc: Global) -> Command<'a>
    ensures { app_of result ≡ plain_app }
{
    Command::new(alloc, "merc")
        .no_binary_name(true)
        .disable_help_flag(true)
}

// What `clap` is asked: one command for all, with the three options and two plain words, of which none is wanted.
fn command<'a>(alloc: Global) -> Result<Command<'a>, NoMemory>
    ensures { IfOk result (λ command. app_of command ≡ asked_app) }
{
    let command = with_option(alloc, plain_command(alloc), "workers")?;
    let command = with_option(alloc, command, "steps")?;
    let command = with_option(alloc, command, "max")?;
    let command = with_word(alloc, command, "first")?;
    with_word(alloc, command, "second")
}

// Why the words were refused.
fn fault_of(error: &Error) -> WordsFault
    ensures memory { kind_of error.now ≡ OutOfMemory → result ≡ WordsFault.NoMemory }
    ensures usage { result ≡ Usage → kind_of error.now ≡ OutOfMemory → ⊥ }
{
    match error.kind() {
        ErrorKind::OutOfMemory => WordsFault::NoMemory,
        _ => WordsFault::Usage,
    }
}

/// Parts the words behind the command.
///
/// # Errors
///
/// `Usage` where they cannot be parted, `NoMemory` where memory was refused.
pub fn part<'a>(alloc: Global, words: &'a [&'a str]) -> Result<Parts<'a>, WordsFault>
    requires { All IsUtf8 (words_behind words.now) }
    ensures parts { IfOk result (λ parts. (texts : Texts) → Gives (words_behind words.now) texts ↔ (texts ≡ texts_of parts)) }
    ensures usage { IfErr result (λ fault. fault ≡ Usage → (texts : Texts) → Gives (words_behind words.now) texts → ⊥) }
{
    let command = command(alloc)?;
    match command.try_get_matches_from(words) {
        Ok(matches) => Ok(Parts {
            first: matches.get_str("first"),
            second: matches.get_str("second"),
            workers: matches.get_str("workers"),
            steps: matches.get_str("steps"),
            most: matches.get_str("max"),
        }),
        Err(error) => Err(fault_of(&error)),
    }
}
