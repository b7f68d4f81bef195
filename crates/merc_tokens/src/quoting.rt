//! Quoted texts: what stands between quotes, with escapes.
ghost use Rattle.std.specs.Prelude.{◌≡◌, ◌+◌, ◌≤◌, [], length, IfOk, IfSome, option_map};
ghost use Rattle.merc_tokens.specs.Quoted.{is_escape, escaped, quoted};

use crate::bytes::behind;
use merc_base::{NoMemory, Text};
use std::alloc::Global;

/// Whether the byte may follow a `\`.
pub fn is_escape(byte: u8) -> bool
    ensures { result ≡ is_escape byte }
{
    byte == b'n' || byte == b't' || byte == b'\\' || byte == b'"' || byte == b'\''
}

/// What the byte stands for behind a `\`.
pub fn escaped(byte: u8) -> u8
    ensures { result ≡ escaped byte }
{
    if byte == b'n' {
        b'\n'
    } else if byte == b't' {
        b'\t'
    } else {
        byte
    }
}

/// The text up to the closing quote, and how many bytes stand up to behind that quote. `None` where it is not closed
/// in its line, or has an unknown escape.
///
/// # Errors
///
/// `NoMemory` where memory was refused.
pub fn quoted(alloc: Global, quote: u8, text: &[u8]) -> Result<Option<(Text, usize)>, NoMemory>
    ensures value { IfOk result (λ found. option_map (λ pair. (pair.0, pair.1)) found ≡ quoted quote [] 0 text.now) }
    ensures bound { IfOk result (λ found. IfSome found (λ pair. pair.1 ≤ length text.now)) }
{
    let mut content = Text::new(alloc);
    match push_quoted(&mut content, quote, text) {
        Ok(Some(past)) => Ok(Some((content, past))),
        Ok(None) => {
            // (a call, here and below, since it costs much to prove what is dropped)
            drop(content);
            Ok(None)
        }
        Err(refused) => {
            drop(content);
            Err(refused)
        }
    }
}

// Puts the text up to the closing quote behind the content, and says how many bytes stand up to behind that quote.
fn push_quoted(content: &mut Text, quote: u8, text: &[u8]) -> Result<Option<usize>, NoMemory>
    ensures value { IfOk result (λ found. option_map (λ past. (content.new, past)) found ≡ quoted quote content.old 0 text.now) }
    ensures bound { IfOk result (λ found. IfSome found (λ past. past ≤ length text.now)) }
{
    let mut past = 0;
    let mut rest = text;
    loop {
        match rest {
            [] => return Ok(None),
            [byte] => {
                let closes = *byte == quote;
                return Ok(if closes { Some(past + 1) } else { None });
            }
            [byte, next, ..] => {
                if *byte == quote {
                    if *next != quote {
                        return Ok(Some(past + 1));
                    }
                    content.push(&[quote])?;
                    past += 2;
                    rest = behind(rest, 2);
                } else if *byte == b'\\' {
                    if !is_escape(*next) {
                        return Ok(None);
                    }
                    content.push(&[escaped(*next)])?;
                    past += 2;
                    rest = behind(rest, 2);
                } else if *byte == b'\n' {
                    return Ok(None);
                } else {
                    content.push(&[*byte])?;
                    past += 1;
                    rest = behind(rest, 1);
                }
            }
        }
    }
}
