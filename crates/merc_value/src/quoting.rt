//! Names and texts, each within quotes where it needs them.
ghost use Rattle.std.specs.Prelude.{◌≡◌, ◌++◌, IfOk, OnOk};
ghost use Rattle.std.specs.List.{list_all, list_any};
ghost use Rattle.std.specs.Str.{bytes_eq};
ghost use Rattle.merc_value.specs.Text.{text_at, is_blank, escape, quoted, is_word_byte, is_word, is_plain, name_text};

use merc_base::{Name, Names, NoMemory, Text};
use std::alloc::Global;

// The operators that are spelled like plain names.
const WORD_OPERATORS: [&[u8]; 17] = [
    b"module",
    b"end_module",
    b"import_module",
    b"mode",
    b"type",
    b"else",
    b"if",
    b"then",
    b"some",
    b"all",
    b"not",
    b"pred",
    b"func",
    b"is",
    b"div",
    b"mod",
    b"rem",
];

/// The text of a name, which is empty where the table does not hold the name.
pub fn text_of<'a>(names: &'a Names, name: Name) -> &'a [u8]
    ensures { result.now ≡ text_at names.now name }
{
    names.text(name).unwrap_or(b"")
}

/// Whether a name is `_`. A variable of this name is another one wherever it stands.
pub fn is_blank(names: &Names, name: Name) -> bool
    ensures { result ≡ is_blank names.now name }
{
    text_of(names, name) == b"_".as_slice()
}

/// A text within quotes of this byte: a backslash stands before that byte and a backslash, and a line end and a tab are
/// written as `\n` and `\t`.
///
/// # Errors
///
/// `NoMemory` where memory was refused.
pub fn quoted(alloc: Global, quote: u8, text: &[u8]) -> Result<Text, NoMemory>
    ensures { IfOk result (λ written. written ≡ quoted quote text.now) }
{
    let mut written = Text::new(alloc);
    written.push(&[quote])?;
    for byte in text {
        push_escaped(quote, *byte, &mut written)?;
    }
    written.push(&[quote])?;
    Ok(written)
}

fn push_escaped(quote: u8, byte: u8, written: &mut Text) -> Result<(), NoMemory>
    ensures { OnOk result (written.new ≡ written.old ++ escape quote byte) }
{
    if byte == b'\n' {
        written.push(b"\\n")
    } else if byte == b'\t' {
        written.push(b"\\t")
    } else if byte == b'\\' || byte == quote {
        written.push(&[b'\\', byte])
    } else {
        written.push(&[byte])
    }
}

// The name with this text, within quotes unless it is plain.
pub(crate) fn name_text(alloc: Global, text: &[u8]) -> Result<Text, NoMemory>
    ensures { IfOk result (λ written. written ≡ name_text text.now) }
{
    if is_plain(text) {
        Text::of(alloc, text)
    } else {
        quoted(alloc, b'\'', text)
    }
}

/// Whether a name with this text needs no quotes: a lower-case letter followed by letters, digits and `_`, and no
/// operator.
#[tactic(auto, unfolding(crate::specs::Text::word_operators))]
pub fn is_plain(text: &[u8]) -> bool
    ensures { result ≡ is_plain text.now }
{
    is_word(text) && !is_word_among(text, &WORD_OPERATORS)
}

fn is_word_among(text: &[u8], words: &[&[u8]]) -> bool
    ensures { result ≡ list_any (λ word. bytes_eq text.now word.now) words.now }
{
    words.iter().any(|word| text == *word)
}

// Whether a text is a lower-case letter followed by letters, digits and `_`.
fn is_word(text: &[u8]) -> bool
    ensures { result ≡ is_word text.now }
{
    match text {
        [] => false,
        [first, rest @ ..] => first.is_ascii_lowercase() && are_word_bytes(rest),
    }
}

fn are_word_bytes(text: &[u8]) -> bool
    ensures { result ≡ list_all is_word_byte text.now }
{
    text.iter().all(|byte| is_word_byte(*byte))
}

fn is_word_byte(byte: u8) -> bool
    ensures { result ≡ is_word_byte byte }
{
    byte.is_ascii_alphanumeric() || byte == b'_'
}
