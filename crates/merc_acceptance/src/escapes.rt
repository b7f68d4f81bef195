//! Texts of a table: what is written with a backslash, and a case's own text and line in their places.
ghost use Rattle.std.specs.Prelude.{◌<◌, length, IfSome};

use crate::fault::TableFault;
use merc_base::Text;
use std::alloc::Global;

/// What a case puts into the texts around it.
#[derive(Drop)]
pub struct Filling<'a> {
    alloc: Global,
    /// Stands for `\_`.
    pub text: &'a [u8],
    /// Stands for `\#`.
    pub line: &'a [u8],
    /// Whether `\_` stood somewhere.
    pub has_text: bool,
    /// Whether `\#` stood somewhere.
    pub has_line: bool,
}

impl<'a> Filling<'a> {
    /// This text and line, which stood nowhere yet.
    pub(crate) fn new(alloc: Global, text: &'a [u8], line: &'a [u8]) -> Filling<'a> {
        Filling {
            alloc,
            text,
            line,
            has_text: false,
            has_line: false,
        }
    }
}

/// The text that is written so.
pub(crate) fn expand(written: &str, filling: &mut Filling<'_>) -> Result<Text, TableFault> {
    let mut text = Text::new(filling.alloc);
    push_all(written.as_bytes(), filling, &mut text)?;
    Ok(text)
}

/// Adds the text that is written so.
pub(crate) fn push_all(
    written: &[u8],
    filling: &mut Filling<'_>,
    text: &mut Text,
) -> Result<(), TableFault> {
    let mut rest = written;
    // Each time takes one byte at least, until none is left.
    for _ in 0..written.len() {
        rest = push_next(rest, filling, text)?;
    }
    Ok(())
}

// Adds a byte, or what an escape or a repeat stands for, and gives what follows.
fn push_next<'a>(
    written: &'a [u8],
    filling: &mut Filling<'_>,
    text: &mut Text,
) -> Result<&'a [u8], TableFault> {
    match written.strip_prefix(b"\\*") {
        Some(repeat) => push_repeat(repeat, filling, text),
        None => push_one(written, 0, filling, text),
    }
}

// Adds a byte, or what an escape stands for, in this part of a repeat, and gives what follows; behind the end nothing.
fn push_one<'a>(
    written: &'a [u8],
    part: usize,
    filling: &mut Filling<'_>,
    text: &mut Text,
) -> Result<&'a [u8], TableFault> {
    match written.split_first() {
        Some((b'\\', escape)) => push_escape(escape, part, filling, text),
        Some((byte, rest)) => {
            text.push(&[*byte])?;
            Ok(rest)
        }
        None => Ok(written),
    }
}

// Adds what stands for the escape behind a backslash, and gives what follows.
fn push_escape<'a>(
    escape: &'a [u8],
    part: usize,
    filling: &mut Filling<'_>,
    text: &mut Text,
) -> Result<&'a [u8], TableFault> {
    match escape.split_first() {
        Some((b'x', digits)) => push_hexadecimal(digits, text),
        Some((letter, rest)) => {
            push_named(*letter, part, filling, text)?;
            Ok(rest)
        }
        None => Err(TableFault::WrongEscape),
    }
}

// Adds the byte with the two digits that come first, and gives what follows.
fn push_hexadecimal<'a>(digits: &'a [u8], text: &mut Text) -> Result<&'a [u8], TableFault> {
    let [high, low, rest @ ..] = digits else {
        return Err(TableFault::WrongEscape);
    };
    text.push(&[byte_of(*high, *low)?])?;
    Ok(rest)
}

// Adds what stands for this letter behind a backslash.
fn push_named(
    letter: u8,
    part: usize,
    filling: &mut Filling<'_>,
    text: &mut Text,
) -> Result<(), TableFault> {
    match letter {
        b'i' => push_number(filling.alloc, part, text),
        b'j' => push_number(filling.alloc, part.saturating_add(1), text),
        _ => {
            text.push(named(letter, filling)?)?;
            Ok(())
        }
    }
}

// What stands for this letter, which is the same in each part of a repeat.
fn named<'a>(letter: u8, filling: &mut Filling<'a>) -> Result<&'a [u8], TableFault> {
    match letter {
        b'n' => Ok(b"\n"),
        b'r' => Ok(b"\r"),
        b't' => Ok(b"\t"),
        b'\\' => Ok(b"\\"),
        b'_' => {
            filling.has_text = true;
            Ok(filling.text)
        }
        b'#' => {
            filling.has_line = true;
            Ok(filling.line)
        }
        _ => Err(TableFault::WrongEscape),
    }
}

fn push_number(alloc: Global, number: usize, text: &mut Text) -> Result<(), TableFault> {
    let digits = number.to_string(alloc)?;
    text.push(digits.as_bytes())?;
    Ok(())
}

// The byte with these two hexadecimal digits.
fn byte_of(high: u8, low: u8) -> Result<u8, TableFault> {
    match (char::from(high).to_digit(16), char::from(low).to_digit(16)) {
        (Some(high), Some(low)) => Ok((high * 16 + low) as u8),
        _ => Err(TableFault::WrongEscape),
    }
}

// Adds a part so often as `COUNT{PART}` says, and gives what follows the `}`.
fn push_repeat<'a>(
    repeat: &'a [u8],
    filling: &mut Filling<'_>,
    text: &mut Text,
) -> Result<&'a [u8], TableFault> {
    let Some((count, behind)) = cut(repeat, b'{') else {
        return Err(TableFault::WrongEscape);
    };
    let Some((part, rest)) = cut(behind, b'}') else {
        return Err(TableFault::WrongEscape);
    };
    for number in 0..number_of(count)? {
        push_part(part, number, filling, text)?;
    }
    Ok(rest)
}

// Adds one part of a repeat.
fn push_part(
    part: &[u8],
    number: usize,
    filling: &mut Filling<'_>,
    text: &mut Text,
) -> Result<(), TableFault> {
    let mut rest = part;
    for _ in 0..part.len() {
        rest = push_one(rest, number, filling, text)?;
    }
    Ok(())
}

// What stands before the first such byte, and what behind.
fn cut(bytes: &[u8], mark: u8) -> Option<(&[u8], &[u8])>
    ensures { IfSome result (λ parts. length parts.1.now < length bytes.now) }
{
    let at = bytes.iter().position(|byte| *byte == mark)?;
    Some((&bytes[..at], &bytes[at + 1..]))
}

fn number_of(digits: &[u8]) -> Result<usize, TableFault> {
    let Ok(digits) = str::from_utf8(digits) else {
        return Err(TableFault::WrongNumber);
    };
    digits.parse().map_err(|_| TableFault::WrongNumber)
}
