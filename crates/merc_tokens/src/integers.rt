//! Integers: which number a text begins with.
ghost use Rattle.std.specs.Prelude.{◌≡◌, ◌+◌, ◌≤◌, ◌&&◌, ◌==◌, drop, length, reverse, slice_get, IfSome, Some, option_map};
ghost use Rattle.std.specs.Str.{continuation_len, chars};
ghost use Rattle.std.specs.List.{prefix_len};
ghost use Rattle.merc_tokens.specs.Bytes.{is_underscore};
ghost use Rattle.merc_tokens.specs.Integers.{within_limit, digits_value, digits_len, more_digits_len, based_integer, first_character, front_character, front_escape, character_at, form_of, integer_at};
ghost use Rattle.merc_tokens.specs.declared.bytes.Class.TheVariants.{Digits};

use crate::bytes::{Class, begins_with_digit, digit_of, run_len};
use crate::quoting::{escaped, is_escape};

/// The greatest integer.
pub const LIMIT: u128 = 9_223_372_036_854_775_808;

/// How an integer is written.
#[derive(Clone, Copy)]
pub enum Form {
    /// `0'` and a character.
    Character,
    /// Digits of a base behind its prefix.
    Based(u8),
    Decimal,
}

/// An integer at the front of a text.
#[derive(Clone, Copy)]
pub struct Integer {
    /// The number, or `None` where it is above the limit.
    pub value: Option<u64>,
    /// How many bytes spell it.
    pub past: usize,
    pub is_decimal: bool,
}

fn form_of(text: &[u8]) -> Form
    ensures { result ≡ form_of text.now }
{
    match text {
        [b'0', b'\'', ..] => Form::Character,
        [b'0', b'b', ..] => Form::Based(2),
        [b'0', b'o', ..] => Form::Based(8),
        [b'0', b'x', ..] => Form::Based(16),
        _ => Form::Decimal,
    }
}

// The text behind its first two bytes.
fn behind_two(text: &[u8]) -> &[u8]
    ensures { result.now ≡ drop 2 text.now }
{
    match text {
        [_, _, rest @ ..] => rest,
        _ => &[],
    }
}

// The number that digits of a base spell, with `_` between them, or `None` where it is above the limit.
fn digits_value(base: u8, digits: &[u8]) -> Option<u64>
    requires base { (1 ≤ base) × (base ≤ 16) }
    ensures { result ≡ within_limit (digits_value base 0 digits.now) }
{
    let mut value: u64 = 0;
    for byte in digits {
        if *byte != b'_' {
            let next = u128::from(base) * u128::from(value) + u128::from(digit_of(*byte));
            if next > LIMIT {
                return None;
            }
            value = next as u64;
        }
    }
    Some(value)
}

// How many bytes of digits a text has that begins with a digit.
fn digits_len(base: u8, text: &[u8]) -> usize
    ensures value { result ≡ digits_len base text.now }
    ensures bound { result ≤ length text.now }
    ensures some { 1 ≤ length text.now → 1 ≤ result }
{
    match text {
        [] => 0,
        [_, rest @ ..] => 1 + more_digits_len(base, rest),
    }
}

// How many bytes of a text go on with digits: `_` stands between digits, and not behind the last.
fn more_digits_len(base: u8, text: &[u8]) -> usize
    ensures value { result ≡ more_digits_len base text.now }
    ensures bound { result ≤ length text.now }
{
    let run = &text[..run_len(text, Class::Digits(base))];
    run.len() - trailing_underscores(run)
}

fn trailing_underscores(run: &[u8]) -> usize
    ensures { result ≡ prefix_len is_underscore (reverse run.now) }
{
    run.iter().rev().take_while(|byte| **byte == b'_').count()
}

fn based_integer(base: u8, prefix: usize, digits: &[u8]) -> Option<Integer>
    requires base { (1 ≤ base) × (base ≤ 16) }
    requires prefix { prefix ≤ 2 }
    ensures value { result ≡ based_integer base prefix digits.now }
    ensures bound { IfSome result (λ integer. (1 ≤ integer.past) × (integer.past ≤ prefix + length digits.now)) }
{
    if !begins_with_digit(base, digits) {
        return None;
    }
    let len = digits_len(base, digits);
    Some(Integer {
        value: digits_value(base, &digits[..len]),
        past: prefix + len,
        is_decimal: base == 10,
    })
}

// How many bytes a character has that begins with this one.
fn character_len(byte: u8) -> usize
    ensures { result ≡ 1 + continuation_len byte }
{
    match byte {
        0..=127 => 1,
        128..=223 => 2,
        224..=239 => 3,
        _ => 4,
    }
}

// The code point of the first of the characters that bytes spell, if they are UTF-8.
fn first_character(bytes: &[u8]) -> Option<u64>
    ensures { result ≡ first_character bytes.now }
{
    match str::from_utf8(bytes) {
        Ok(text) => first_of(text),
        Err(_) => None,
    }
}

// The code point of a text's first character.
fn first_of(text: &str) -> Option<u64>
    ensures { result ≡ slice_get (chars text.now) 0 }
{
    let character = text.chars().next()?;
    Some(u64::from(u32::from(character)))
}

// The code point of the character that a text begins with, and how many bytes spell it.
fn front_character(text: &[u8]) -> Option<(u64, usize)>
    ensures value { option_map (λ found. (found.0, found.1)) result ≡ front_character text.now }
    ensures bound { IfSome result (λ found. found.1 ≤ length text.now) }
{
    match text {
        [] => None,
        [byte, ..] => {
            let front = &text[..character_len(*byte).min(text.len())];
            first_character(front).map(|character| (character, front.len()))
        }
    }
}

fn front_escape(text: &[u8]) -> Option<(u64, usize)>
    ensures value { option_map (λ found. (found.0, found.1)) result ≡ front_escape text.now }
    ensures bound { IfSome result (λ found. found.1 ≤ 1 + length text.now) }
{
    match text {
        [byte, ..] if is_escape(*byte) => Some((u64::from(escaped(*byte)), 2)),
        _ => None,
    }
}

fn character_at(text: &[u8]) -> Option<(u64, usize)>
    ensures value { option_map (λ found. (found.0, found.1)) result ≡ character_at text.now }
    ensures bound { IfSome result (λ found. found.1 ≤ length text.now) }
{
    match text {
        [] | [b'\'', ..] => None,
        [b'\\', rest @ ..] => front_escape(rest),
        _ => front_character(text),
    }
}

/// The integer that a text begins with. A prefix with no digit or character behind it begins none.
pub fn integer_at(text: &[u8]) -> Option<Integer>
    requires { 1 ≤ length text.now }
    ensures value { result ≡ integer_at text.now }
    ensures bound { IfSome result (λ integer. (1 ≤ integer.past) × (integer.past ≤ length text.now)) }
{
    match form_of(text) {
        Form::Character => {
            let (value, len) = character_at(behind_two(text))?;
            Some(Integer {
                value: Some(value),
                past: 2 + len,
                is_decimal: false,
            })
        }
        Form::Based(base) => based_integer(base, 2, behind_two(text)),
        Form::Decimal => based_integer(10, 0, text),
    }
}
