//! The tokens of a whole text.
ghost use Rattle.std.specs.Prelude.{◌≡◌, ◌+◌, ◌≤◌, ◌==◌, [], ◌∷◌, ◌++◌, ℕ, List, Some, fold, length, take, slice_get, IfOk, OnOk, IfErr, MatchOption};
ghost use Rattle.std.specs.List.{count_by};
ghost use Rattle.std.specs.Str.{IsUtf8};
ghost use Rattle.std.specs.Str.Lossy.{utf8_valid_len};
ghost use Rattle.merc_base.specs.Characters.{line_end_code};
ghost use Rattle.merc_base.specs.Texts.{with_text};
ghost use Rattle.merc_tokens.specs.Tokens.{ReadsTokens, is_name, named_text, spelling_in, with_texts};
ghost use Rattle.merc_tokens.specs.Faults.{RefusesRightly};
ghost use Rattle.merc_tokens.specs.Outcomes.{ReadsAll, ReadsFault, ReadsRightly, earlier};
ghost use Rattle.merc_tokens.specs.declared.token.Token.{Token};

use crate::bytes::behind;
use crate::pieces::{Piece, Spelling, first_piece};
use crate::token::{Token, TokenKind, Tokens};
use merc_base::{Detail, Fault, Name, Names, NoMemory, Place, Refusal, Rule, Sequence, Span, Text};
use std::alloc::Global;

// How many line ends stand in a text.
fn line_ends(text: &[u8]) -> usize
    ensures value { result ≡ count_by (λ byte. byte == line_end_code) text.now }
    ensures bound { result ≤ length text.now }
{
    text.iter().filter(|byte| **byte == b'\n').count()
}

fn is_name(spelling: &Spelling) -> bool
    ensures { result ≡ is_name spelling.now }
{
    matches!(spelling, Spelling::Name(_) | Spelling::Quoted(_))
}

// The name of this text.
fn intern(names: &mut Names, text: &Text) -> Result<Name, NoMemory>
    ensures known { IfOk result (λ name. slice_get names.new name ≡ Some text.now) }
    ensures added { OnOk result (names.new ≡ with_text names.old text.now) }
    ensures grows { (more : List (List ℕ)) × (names.new ≡ names.old ++ more) }
{
    names.intern(text.bytes())
}

// The kind of token that this spells.
fn kind_of(names: &mut Names, spelling: &Spelling) -> Result<TokenKind, NoMemory>
    ensures value { IfOk result (λ kind. spelling_in names.new kind ≡ Some spelling.now) }
    ensures added { OnOk result (names.new ≡ fold with_text names.old (named_text spelling.now)) }
    ensures grows { (more : List (List ℕ)) × (names.new ≡ names.old ++ more) }
{
    Ok(match spelling {
        Spelling::Name(name) => TokenKind::Name(intern(names, name)?),
        Spelling::Quoted(name) => TokenKind::Quoted(intern(names, name)?),
        Spelling::Var(name) => TokenKind::Var(intern(names, name)?),
        Spelling::Int(value) => TokenKind::Int(*value),
        Spelling::Text(content) => TokenKind::Text(intern(names, content)?),
        Spelling::OpenArgs => TokenKind::OpenArgs,
        Spelling::Open => TokenKind::Open,
        Spelling::Close => TokenKind::Close,
        Spelling::OpenList => TokenKind::OpenList,
        Spelling::CloseList => TokenKind::CloseList,
        Spelling::Comma => TokenKind::Comma,
        Spelling::Bar => TokenKind::Bar,
        Spelling::Dot => TokenKind::Dot,
        Spelling::Stop => TokenKind::Stop,
    })
}

// Puts a token of so many bytes, which begins here, behind the others.
fn push_token(
    tokens: &mut Tokens,
    names: &mut Names,
    spelling: Spelling,
    span: Span,
) -> Result<(), NoMemory>
    ensures token { OnOk result ((token : Token) × (tokens.new ≡ tokens.old ++ token ∷ []) × (with_texts names.new token ≡ Some (record { kind = spelling; span = span }))) }
    ensures added { OnOk result (names.new ≡ fold with_text names.old (named_text spelling)) }
    ensures grows { (more : List (List ℕ)) × (names.new ≡ names.old ++ more) }
{
    let kind = kind_of(names, &spelling);
    // (a call, here and below, since it costs much to prove what is dropped)
    drop(spelling);
    tokens.push(Token { kind: kind?, span })?;
    Ok(())
}

// How a reading ends.
#[derive(Drop)]
enum Reading {
    All(Tokens),
    Faulty(Refusal),
}

// The tokens of a text, or its first fault, where nothing is said of UTF-8.
fn read_all(alloc: Global, text: &[u8], names: &mut Names) -> Result<Reading, NoMemory>
    requires { length text.now ≤ 300000000 }
    ensures reading { IfOk result (ReadsRightly text.now names.old names.new) }
    ensures grows { (more : List (List ℕ)) × (names.new ≡ names.old ++ more) }
{
    let mut tokens = Sequence::new(alloc);
    match push_all(alloc, text, names, &mut tokens) {
        Ok(None) => Ok(Reading::All(tokens)),
        Ok(Some(refusal)) => {
            drop(tokens);
            Ok(Reading::Faulty(refusal))
        }
        Err(refused) => {
            drop(tokens);
            Err(refused)
        }
    }
}

// Puts the tokens of a text into a list that has none yet, up to the first fault, where nothing is said of UTF-8.
fn push_all(
    alloc: Global,
    text: &[u8],
    names: &mut Names,
    tokens: &mut Tokens,
) -> Result<Option<Refusal>, NoMemory>
    requires text { length text.now ≤ 300000000 }
    requires tokens { tokens.old ≡ [] }
    ensures reading { IfOk result (λ fault. MatchOption fault (ReadsAll text.now names.old names.new tokens.new) (ReadsFault text.now)) }
    ensures grows { (more : List (List ℕ)) × (names.new ≡ names.old ++ more) }
{
    let mut at: usize = 0;
    let mut line: u32 = 1;
    let mut after_name = false;
    while at < text.len() {
        let rest = behind(text, at);
        let len = match first_piece(alloc, after_name, rest)? {
            Piece::Fault(rule, detail) => {
                let place = Place {
                    byte: at as u32,
                    line,
                };
                return Ok(Some(Refusal {
                    rule,
                    place,
                    detail,
                }));
            }
            Piece::Gap(len) => {
                after_name = false;
                len
            }
            Piece::Token(spelling, len) => {
                after_name = is_name(&spelling);
                let (first, past) = (at as u32, (at + len) as u32);
                push_token(tokens, names, spelling, Span { first, past, line })?;
                len
            }
        };
        line += line_ends_in(rest, len);
        at += len;
    }
    Ok(None)
}

// How many line ends stand in the first bytes of a text.
fn line_ends_in(text: &[u8], len: usize) -> u32
    requires within { len ≤ length text.now }
    requires small { length text.now ≤ 300000000 }
    ensures value { result ≡ count_by (λ byte. byte == line_end_code) (take len text.now) }
    ensures bound { result ≤ len }
{
    line_ends(&text[..len]) as u32
}

// The first byte of a text that is not UTF-8.
fn first_bad_byte(text: &[u8]) -> Option<usize>
    ensures { MatchOption result (IsUtf8 text.now) (λ at. (IsUtf8 text.now → ⊥) × (at ≡ utf8_valid_len text.now) × (at ≤ length text.now)) }
{
    match str::from_utf8(text) {
        Ok(_) => None,
        Err(error) => Some(error.valid_up_to()),
    }
}

/// The tokens of a text. Their names are put into the table in order, each where it is new. It takes time linear in the
/// text, save for the look-up of names. The text has at most 300,000,000 bytes.
///
/// # Errors
///
/// `Refused` says the first fault of a text that has no tokens: the one with the least place, and at one place the one
/// with the least rule. `NoMemory` says that memory was refused. The table may hold further names then.
pub fn tokens(alloc: Global, text: &[u8], names: &mut Names) -> Result<Tokens, Fault>
    requires { length text.now ≤ 300000000 }
    ensures found { IfOk result (λ tokens. ReadsTokens names.old names.new text.now tokens) }
    ensures refused { IfErr result (λ fault. RefusesRightly text.now fault) }
    ensures grows { (more : List (List ℕ)) × (names.new ≡ names.old ++ more) }
{
    let reading = read_all(alloc, text, names)?;
    match first_bad_byte(text) {
        Some(at) => {
            let refusal = earlier(text, at, &reading);
            drop(reading);
            Err(Fault::Refused(refusal))
        }
        None => match reading {
            Reading::All(tokens) => Ok(tokens),
            Reading::Faulty(refusal) => Err(Fault::Refused(refusal)),
        },
    }
}

// The earlier of the fault that was read and of a byte that is not UTF-8.
fn earlier(text: &[u8], at: usize, reading: &Reading) -> Refusal
    requires at { at ≤ length text.now }
    requires small { length text.now ≤ 300000000 }
    ensures { result ≡ earlier text.now at reading.now }
{
    match reading {
        Reading::Faulty(refusal) if (refusal.place.byte as usize) < at => *refusal,
        _ => Refusal {
            rule: Rule::BadToken,
            place: Place {
                byte: at as u32,
                line: 1 + line_ends_in(text, at),
            },
            detail: Detail::Plain,
        },
    }
}
