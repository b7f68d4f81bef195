//! Pieces of text: blanks, comments and tokens.
ghost use Rattle.std.specs.Prelude.{◌≡◌, ◌+◌, ◌≤◌, [], length, IfOk, IfSome, option_map};
ghost use Rattle.merc_base.specs.Characters.{double_quote_code, quote_code};
ghost use Rattle.merc_tokens.specs.Bytes.{begins_with};
ghost use Rattle.merc_tokens.specs.Pieces.{run_of, named, comment_past, comment_piece, ends_item, begins_name, dot_of, graphic_piece, begins_fraction, make_of, IfFirst, integer_piece, quoted_piece, string_piece, first_piece, Fits};
ghost use Rattle.merc_tokens.specs.Quoted.{quoted};
ghost use Rattle.merc_tokens.specs.Integers.{integer_at};

use crate::bytes::{
    Class, Start, begins_with_digit, begins_with_graphic, begins_with_letter, behind, next_is,
    run_len, start_of,
};
use crate::integers::integer_at;
use crate::quoting::quoted;
use merc_base::{Construct, Detail, LimitName, NoMemory, Rule, Text};
use std::alloc::Global;

const NAME_LIMIT: usize = 255;

/// A token, with the text of what it names.
#[derive(Drop)]
pub enum Spelling {
    Name(Text),
    Quoted(Text),
    Var(Text),
    Int(u64),
    Text(Text),
    OpenArgs,
    Open,
    Close,
    OpenList,
    CloseList,
    Comma,
    Bar,
    Dot,
    Stop,
}

/// What a text begins with.
#[derive(Drop)]
pub enum Piece {
    /// A blank or a comment of so many bytes.
    Gap(usize),
    /// A token of so many bytes.
    Token(Spelling, usize),
    /// None of these.
    Fault(Rule, Detail),
}

// Which token a name is.
#[derive(Clone, Copy)]
enum Kind {
    Name,
    Quoted,
    Var,
}

const BAD_TOKEN: Piece = Piece::Fault(Rule::BadToken, Detail::Plain);

// The first byte with the bytes of a class that follow.
fn run_of(text: &[u8], class: Class) -> &[u8]
    ensures run { result.now ≡ run_of class text.now }
    ensures bound { length result.now ≤ length text.now }
{
    match text {
        [] => text,
        [_, rest @ ..] => &text[..1 + run_len(rest, class)],
    }
}

// A token with a name, which has at most 255 bytes.
fn named(make: Kind, name: Text, len: usize) -> Piece
    requires { 1 ≤ len }
    ensures value { result ≡ named (make_of make) name len }
    ensures fits { Fits len result }
{
    if name.bytes().len() > NAME_LIMIT {
        return Piece::Fault(Rule::LimitPassed, Detail::Limit(LimitName::Name));
    }
    let spelling = match make {
        Kind::Name => Spelling::Name(name),
        Kind::Quoted => Spelling::Quoted(name),
        Kind::Var => Spelling::Var(name),
    };
    Piece::Token(spelling, len)
}

// A token that is the longest run of a class.
fn run_piece(alloc: Global, make: Kind, class: Class, text: &[u8]) -> Result<Piece, NoMemory>
    requires { 1 ≤ length text.now }
    ensures value { IfOk result (λ piece. piece ≡ named (make_of make) (run_of class text.now) (length (run_of class text.now))) }
    ensures fits { IfOk result (λ piece. Fits (length text.now) piece) }
{
    let run = run_of(text, class);
    Ok(named(make, Text::of(alloc, run)?, run.len()))
}

// Where a comment ends: behind the first `*/`.
fn comment_past(text: &[u8]) -> Option<usize>
    ensures value { result ≡ comment_past 0 text.now }
    ensures bound { IfSome result (λ past. past ≤ length text.now) }
{
    let mut past = 0;
    let mut rest = text;
    while let [byte, behind @ ..] = rest {
        if *byte == b'*' && next_is(b'/', behind) {
            return Some(past + 2);
        }
        past += 1;
        rest = behind;
    }
    None
}

// A comment whose text stands behind its `/*`.
fn comment_piece(text: &[u8]) -> Piece
    ensures value { result ≡ comment_piece (option_map (λ past. 2 + past) (comment_past 0 text.now)) }
    ensures fits { Fits (2 + length text.now) result }
{
    match comment_past(text) {
        Some(past) => Piece::Gap(2 + past),
        None => BAD_TOKEN,
    }
}

fn ends_item(rest: &[u8]) -> bool
    ensures { result ≡ ends_item rest.now }
{
    match rest {
        [] => true,
        [byte, ..] => matches!(*byte, b' ' | b'\t' | b'\n' | b'\r' | b'%'),
    }
}

fn begins_name(text: &[u8]) -> bool
    ensures { result ≡ begins_with begins_name text.now }
{
    match text {
        [] => false,
        [byte, ..] => byte.is_ascii_lowercase() || *byte == b';' || *byte == b'\'',
    }
}

// What a `.` that stands alone is.
fn dot_of(alloc: Global, after_name: bool, rest: &[u8]) -> Result<Spelling, NoMemory>
    ensures { IfOk result (λ spelling. spelling ≡ dot_of after_name rest.now) }
{
    if ends_item(rest) {
        Ok(Spelling::Stop)
    } else if after_name && begins_name(rest) {
        Ok(Spelling::Dot)
    } else {
        Ok(Spelling::Name(Text::of(alloc, b".")?))
    }
}

fn graphic_piece(alloc: Global, after_name: bool, text: &[u8]) -> Result<Piece, NoMemory>
    requires { 1 ≤ length text.now }
    ensures value { IfOk result (λ piece. IfFirst text.now (λ byte rest. piece ≡ graphic_piece after_name byte rest)) }
    ensures fits { IfOk result (λ piece. Fits (length text.now) piece) }
{
    match text {
        [b'/', b'*', rest @ ..] => Ok(comment_piece(rest)),
        [b'.', rest @ ..] if !begins_with_graphic(rest) => {
            Ok(Piece::Token(dot_of(alloc, after_name, rest)?, 1))
        }
        _ => run_piece(alloc, Kind::Name, Class::Graphic, text),
    }
}

// What begins with a quote, which this text follows.
fn quoted_piece(alloc: Global, text: &[u8]) -> Result<Piece, NoMemory>
    ensures value { IfOk result (λ piece. piece ≡ quoted_piece (quoted quote_code [] 0 text.now)) }
    ensures fits { IfOk result (λ piece. Fits (1 + length text.now) piece) }
{
    match quoted(alloc, b'\'', text)? {
        Some((name, past)) => Ok(named(Kind::Quoted, name, 1 + past)),
        None => Ok(BAD_TOKEN),
    }
}

// What begins with a double quote, which this text follows.
fn string_piece(alloc: Global, text: &[u8]) -> Result<Piece, NoMemory>
    ensures value { IfOk result (λ piece. piece ≡ string_piece (quoted double_quote_code [] 0 text.now)) }
    ensures fits { IfOk result (λ piece. Fits (1 + length text.now) piece) }
{
    match quoted(alloc, b'"', text)? {
        Some((content, past)) => Ok(Piece::Token(Spelling::Text(content), 1 + past)),
        None => Ok(BAD_TOKEN),
    }
}

fn begins_fraction(text: &[u8]) -> bool
    ensures { result ≡ begins_fraction text.now }
{
    match text {
        [b'.', rest @ ..] => begins_with_digit(10, rest),
        _ => false,
    }
}

fn integer_piece(text: &[u8]) -> Piece
    requires { 1 ≤ length text.now }
    ensures value { result ≡ integer_piece (integer_at text.now) text.now }
    ensures fits { Fits (length text.now) result }
{
    let Some(integer) = integer_at(text) else {
        return BAD_TOKEN;
    };
    let rest = behind(text, integer.past);
    if begins_with_letter(rest) {
        Piece::Fault(Rule::OutsideProfile, Detail::Word(Construct::IntegerSuffix))
    } else if integer.is_decimal && begins_fraction(rest) {
        Piece::Fault(Rule::OutsideProfile, Detail::Word(Construct::Float))
    } else if let Some(value) = integer.value {
        Piece::Token(Spelling::Int(value), integer.past)
    } else {
        Piece::Fault(Rule::LimitPassed, Detail::Limit(LimitName::Integer))
    }
}

/// What a text begins with, where it is told whether a name stands directly before it.
///
/// # Errors
///
/// `NoMemory` where memory was refused.
pub fn first_piece(alloc: Global, after_name: bool, text: &[u8]) -> Result<Piece, NoMemory>
    ensures value { IfOk result (λ piece. piece ≡ first_piece after_name text.now) }
    ensures fits { IfOk result (λ piece. Fits (length text.now) piece) }
{
    let [byte, rest @ ..] = text else {
        return Ok(BAD_TOKEN);
    };
    match start_of(*byte) {
        Start::Blank => Ok(Piece::Gap(1)),
        Start::Percent => Ok(Piece::Gap(1 + run_len(rest, Class::Line))),
        Start::Lower => run_piece(alloc, Kind::Name, Class::Word, text),
        Start::Upper => run_piece(alloc, Kind::Var, Class::Word, text),
        Start::Digit => Ok(integer_piece(text)),
        Start::Quote => quoted_piece(alloc, rest),
        Start::DoubleQuote => string_piece(alloc, rest),
        Start::Semicolon => Ok(Piece::Token(Spelling::Name(Text::of(alloc, b";")?), 1)),
        Start::Open if after_name => Ok(Piece::Token(Spelling::OpenArgs, 1)),
        Start::Open => Ok(Piece::Token(Spelling::Open, 1)),
        Start::Close => Ok(Piece::Token(Spelling::Close, 1)),
        Start::OpenList => Ok(Piece::Token(Spelling::OpenList, 1)),
        Start::CloseList => Ok(Piece::Token(Spelling::CloseList, 1)),
        Start::Comma => Ok(Piece::Token(Spelling::Comma, 1)),
        Start::Bar => Ok(Piece::Token(Spelling::Bar, 1)),
        Start::Outside => Ok(Piece::Fault(
            Rule::OutsideProfile,
            Detail::Word(Construct::Character),
        )),
        Start::Graphic => graphic_piece(alloc, after_name, text),
        Start::Other => Ok(BAD_TOKEN),
    }
}
