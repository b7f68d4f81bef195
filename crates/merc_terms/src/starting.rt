//! What stands where a term must begin.
ghost use Rattle.std.specs.Prelude.{◌≡◌, ◌≤◌, ◌<◌, length, Some, IfSome};
ghost use Rattle.merc_tokens.specs.declared.token.TokenKind.TheVariants.{Name as NameKind};
ghost use Rattle.merc_terms.specs.Reading.{joined, begins_with, is_integer, is_infix_name, leaves_plain, is_left_plain, is_sign};
ghost use Rattle.merc_terms.specs.Starting.{named_before, qualified_start, plain_start, signed_start, operator_start, list_start, start_with, start_at};
ghost use Rattle.merc_terms.specs.Finds.{Finds};

use crate::operators::{self, Operator};
use merc_base::{Name, Span};
use merc_tokens::{Token, TokenKind};

/// What stands where a term must begin.
#[derive(Clone, Copy)]
pub(crate) enum Start {
    Variable(Name, Span),
    /// An integer by its magnitude, negative where it has the sign.
    Integer(bool, u64, Span),
    Text(Name, Span),
    /// A name without arguments, perhaps with a qualifier.
    Constant(Name, Option<Name>, Span),
    /// A name directly before its arguments, behind their opening parenthesis.
    Application(Name, Option<Name>, Span),
    /// An opening bracket of a list that is not empty.
    List(Span),
    /// An opening parenthesis.
    Parenthesis(Span),
    /// A prefix operator.
    Prefix(Operator, Span),
}

/// From where one span begins to where another ends.
pub(crate) fn joined(from: Span, to: Span) -> Span
    ensures { result ≡ joined from to }
{
    Span {
        first: from.first,
        past: to.past,
        line: from.line,
    }
}

/// What stands where a term must begin, and the tokens behind it.
pub(crate) fn first_start(tokens: &[Token]) -> Option<(Start, &[Token])>
    ensures there { Finds (start_at tokens.now) result }
    ensures shorter { IfSome result (λ found. length found.1.now < length tokens.now) }
{
    let [first, rest @ ..] = tokens else {
        return None;
    };
    let span = first.span;
    match first.kind {
        TokenKind::Name(name) => name_start(name, span, rest),
        TokenKind::Quoted(name) => plain_start(name, span, rest),
        TokenKind::Var(name) => Some((Start::Variable(name, span), rest)),
        TokenKind::Int(value) => Some((Start::Integer(false, value, span), rest)),
        TokenKind::Text(text) => Some((Start::Text(text, span), rest)),
        TokenKind::OpenArgs | TokenKind::Open => Some((Start::Parenthesis(span), rest)),
        TokenKind::OpenList => Some(list_start(span, rest)),
        TokenKind::Close
        | TokenKind::CloseList
        | TokenKind::Comma
        | TokenKind::Bar
        | TokenKind::Dot
        | TokenKind::Stop => None,
    }
}

// A name that is not quoted, before these tokens.
fn name_start(name: Name, span: Span, tokens: &[Token]) -> Option<(Start, &[Token])>
    ensures there { Finds (start_with (NameKind name) span tokens.now) result }
    ensures shorter { IfSome result (λ found. length found.1.now ≤ length tokens.now) }
{
    if is_sign(name, tokens) {
        return signed_start(span, tokens);
    }
    match operators::prefix(name) {
        Some(operator) => operator_start(operator, name, span, tokens),
        None => plain_start(name, span, tokens),
    }
}

// A name that may be this prefix operator, before these tokens.
fn operator_start(
    operator: Operator,
    name: Name,
    span: Span,
    tokens: &[Token],
) -> Option<(Start, &[Token])>
    ensures there { Finds (operator_start (Some operator) name span tokens.now) result }
    ensures shorter { IfSome result (λ found. length found.1.now ≤ length tokens.now) }
{
    if is_left_plain(tokens) {
        return plain_start(name, span, tokens);
    }
    Some((Start::Prefix(operator, span), tokens))
}

// `-` before these tokens, as the sign of a literal where an integer comes first.
fn signed_start(sign: Span, tokens: &[Token]) -> Option<(Start, &[Token])>
    ensures there { Finds (signed_start sign tokens.now) result }
    ensures shorter { IfSome result (λ found. length found.1.now ≤ length tokens.now) }
{
    let [first, rest @ ..] = tokens else {
        return None;
    };
    match first.kind {
        TokenKind::Int(value) => {
            Some((Start::Integer(true, value, joined(sign, first.span)), rest))
        }
        _ => None,
    }
}

// A name that is no operator, before these tokens.
fn plain_start(name: Name, span: Span, tokens: &[Token]) -> Option<(Start, &[Token])>
    ensures there { Finds (plain_start name span tokens.now) result }
    ensures shorter { IfSome result (λ found. length found.1.now ≤ length tokens.now) }
{
    let [first, rest @ ..] = tokens else {
        return Some((Start::Constant(name, None, span), tokens));
    };
    match first.kind {
        TokenKind::Dot => qualified_start(name, span, rest),
        _ => named_before(name, None, span, tokens),
    }
}

// A name behind a qualifier mark.
fn qualified_start(qualifier: Name, span: Span, tokens: &[Token]) -> Option<(Start, &[Token])>
    ensures there { Finds (qualified_start qualifier span tokens.now) result }
    ensures shorter { IfSome result (λ found. length found.1.now ≤ length tokens.now) }
{
    let [first, rest @ ..] = tokens else {
        return None;
    };
    match first.kind {
        TokenKind::Name(name) | TokenKind::Quoted(name) => {
            named_before(name, Some(qualifier), joined(span, first.span), rest)
        }
        _ => None,
    }
}

// A name with its qualifier, before these tokens. With a parenthesis directly behind it, it has arguments. No second
// mark follows it.
fn named_before(
    name: Name,
    qualifier: Option<Name>,
    span: Span,
    tokens: &[Token],
) -> Option<(Start, &[Token])>
    ensures there { Finds (named_before name qualifier span tokens.now) result }
    ensures shorter { IfSome result (λ found. length found.1.now ≤ length tokens.now) }
{
    let [first, rest @ ..] = tokens else {
        return Some((Start::Constant(name, qualifier, span), tokens));
    };
    match first.kind {
        TokenKind::OpenArgs => Some((Start::Application(name, qualifier, span), rest)),
        TokenKind::Dot => None,
        _ => Some((Start::Constant(name, qualifier, span), tokens)),
    }
}

// A list's opening bracket, before these tokens.
fn list_start(span: Span, tokens: &[Token]) -> (Start, &[Token])
    ensures there { list_start span tokens.now ≡ Some (result.0, result.1.now) }
    ensures shorter { length result.1.now ≤ length tokens.now }
{
    match tokens {
        [first, rest @ ..] if first.kind == TokenKind::CloseList => (
            Start::Constant(Name::NIL, None, joined(span, first.span)),
            rest,
        ),
        _ => (Start::List(span), tokens),
    }
}

// Whether `-` is the sign of the integer behind it.
fn is_sign(name: Name, tokens: &[Token]) -> bool
    ensures { result ≡ is_sign name tokens.now }
{
    name == Name::MINUS && begins_with_integer(tokens)
}

fn begins_with_integer(tokens: &[Token]) -> bool
    ensures { result ≡ begins_with is_integer tokens.now }
{
    match tokens {
        [first, ..] => matches!(first.kind, TokenKind::Int(_)),
        [] => false,
    }
}

/// Whether an infix operator's name comes first.
pub(crate) fn begins_with_infix_name(tokens: &[Token]) -> bool
    ensures { result ≡ begins_with is_infix_name tokens.now }
{
    match tokens {
        [first, ..] => is_infix_name(&first.kind),
        [] => false,
    }
}

fn is_infix_name(kind: &TokenKind) -> bool
    ensures { result ≡ is_infix_name kind.now }
{
    match kind {
        TokenKind::Name(name) => operators::infix(*name).is_some(),
        _ => false,
    }
}

// Whether a prefix operator's name is a plain name before these tokens.
fn is_left_plain(tokens: &[Token]) -> bool
    ensures { result ≡ is_left_plain tokens.now }
{
    match tokens {
        [first, ..] => leaves_plain(&first.kind),
        [] => true,
    }
}

fn leaves_plain(kind: &TokenKind) -> bool
    ensures { result ≡ leaves_plain kind.now }
{
    match kind {
        TokenKind::Name(name) => {
            operators::infix(*name).is_some() && operators::prefix(*name).is_none()
        }
        TokenKind::OpenArgs
        | TokenKind::Close
        | TokenKind::CloseList
        | TokenKind::Comma
        | TokenKind::Bar
        | TokenKind::Stop => true,
        _ => false,
    }
}
