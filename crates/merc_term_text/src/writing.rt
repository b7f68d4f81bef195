//! The text of a term.
ghost use Rattle.std.specs.Prelude.{◌≡◌, ◌+◌, ◌*◌, ◌++◌, ◌∷◌, [], List, ℕ, true, length, map, codes, IfOk, OnOk, OnErr};
ghost use Rattle.std.specs.Fmt.{signed_decimal};
ghost use Rattle.merc_base.specs.Names.{HoldsFixed};
ghost use Rattle.merc_value.specs.Text.{name_text};
ghost use Rattle.merc_value.specs.Writing.{AppendsFront};
ghost use Rattle.merc_tree.specs.Shape.{arguments_of};
ghost use Rattle.merc_term_text.specs.Pieces.{pieces_text};
ghost use Rattle.merc_term_text.specs.Written.{term_form, part_of, part_pieces, operand_pieces, operator_pieces, item_pieces, ListForm, InfixForm, PrefixForm, QuantifierForm, PlainForm, term_text};
ghost use Rattle.merc_term_text.specs.ReadsAs.{ReadsAs};
ghost use Rattle.merc_term_text.specs.Walking.{meant, mark_pieces, work_pieces, weight, size, sizes_of, goal_pieces, head_pieces, mark_before, is_nil_term, Puts, Takes, arguments_pieces};

use crate::form::{Form, form_of};
use crate::work::{Mark, Work};
use merc_base::{Name, Names, NoMemory, Text};
use merc_terms::Operator;
use merc_tree::{Arguments, Shape, Term, TermRef};
use merc_value::{is_plain, quoted, text_of};
use std::alloc::Global;

/// Appends the text of a term: operators as operators, with as few parentheses as their priorities ask for; the goal of
/// a quantifier and an integer behind a prefix operator always in parentheses; other applications as `name(a, b)`, lists
/// as `[a, b | tail]`, names in quotes where they are not plain. With a full stop behind it the text reads as that term
/// again. Where memory is refused, a front of the text was appended.
///
/// The walk keeps a stack of what is still to be written.
pub fn write_term(
    alloc: Global,
    term: &Term,
    names: &Names,
    into: &mut Text,
) -> Result<(), NoMemory>
    ensures text { OnOk result (into.new ≡ into.old ++ term_text names.now term.now) }
    ensures front { OnErr result (AppendsFront (term_text names.now term.now) into.old into.new) }
    ensures reads_back { (text : List ℕ) → ReadsAs names.now text term.now → ReadsAs names.now (term_text names.now term.now ++ codes ".") term.now }
{
    // Every table holds the constants, `-` among them, so that what is written reads back.
    let _minus = names.text(Name::MINUS);
    write_whole(alloc, term.as_ref(), names, into)
}

// Appends the text of a term.
fn write_whole(
    alloc: Global,
    term: TermRef<'_>,
    names: &Names,
    into: &mut Text,
) -> Result<(), NoMemory>
    requires { HoldsFixed names.now }
    ensures text { OnOk result (into.new ≡ into.old ++ term_text names.now term.entry) }
    ensures front { OnErr result (AppendsFront (term_text names.now term.entry) into.old into.new) }
{
    let mut stack = Vec::new(alloc);
    put(&mut stack, Work::Bare(term, true))?;
    while let Some(work) = stack.pop() {
        let mark = next_mark(work, &mut stack)?;
        write_mark(alloc, mark, names, into)?;
    }
    Ok(())
}

// Puts an entry on the stack.
fn put<'a>(stack: &mut Vec<Work<'a>>, work: Work<'a>) -> Result<(), NoMemory>
    ensures { OnOk result (Puts (λ names. work_pieces names work.entry) (weight work.entry) stack.old.items stack.new.items) }
{
    stack.push(work)?;
    Ok(())
}

// Takes the first mark off an entry of the stack.
fn next_mark<'a>(work: Work<'a>, stack: &mut Vec<Work<'a>>) -> Result<Mark, NoMemory>
    ensures { IfOk result (Takes (λ names. work_pieces names work.entry) (weight work.entry) stack.old.items stack.new.items) }
{
    match work {
        Work::Mark(mark) => Ok(mark),
        Work::Bare(term, commas) => {
            let form = form_of(&term);
            bare_mark(&term, &form, commas, stack)
        }
        Work::Part(term, max, commas) => part_mark(&term, max, commas, stack),
        Work::Operand(term, max, commas) => operand_mark(&term, max, commas, stack),
        Work::Tail(term) => tail_mark(&term, stack),
    }
}

// Takes the first mark off a term where terms of at most this priority may stand.
fn part_mark<'a>(
    term: &TermRef<'a>,
    max: u32,
    commas: bool,
    stack: &mut Vec<Work<'a>>,
) -> Result<Mark, NoMemory>
    ensures { IfOk result (Takes (λ names. part_pieces max commas (part_of names term.now)) (16 * size term.now + 3) stack.old.items stack.new.items) }
{
    let form = form_of(term);
    if form.is_enclosed(max, commas) {
        put(stack, Work::Mark(Mark::Close))?;
        put(stack, Work::Bare(term.copy(), true))?;
        return Ok(Mark::Open);
    }
    bare_mark(term, &form, commas, stack)
}

// Takes the first mark off a prefix operator's operand.
fn operand_mark<'a>(
    term: &TermRef<'a>,
    max: u32,
    commas: bool,
    stack: &mut Vec<Work<'a>>,
) -> Result<Mark, NoMemory>
    ensures { IfOk result (Takes (λ names. operand_pieces max commas (part_of names term.now)) (16 * size term.now + 5) stack.old.items stack.new.items) }
{
    if is_integer(term) {
        put(stack, Work::Mark(Mark::Close))?;
        put(stack, Work::Part(term.copy(), max, commas))?;
        return Ok(Mark::Open);
    }
    part_mark(term, max, commas, stack)
}

// Whether a term is an integer.
fn is_integer(term: &TermRef<'_>) -> bool
    ensures { (names : List (List ℕ)) → result ≡ (part_of names term.now).is_integer }
{
    match term.shape() {
        Shape::Integer(_) => true,
        Shape::Variable(_) | Shape::Text(_) | Shape::Application { .. } => false,
    }
}

// Takes the first mark off a list from this tail on.
fn tail_mark<'a>(term: &TermRef<'a>, stack: &mut Vec<Work<'a>>) -> Result<Mark, NoMemory>
    ensures { IfOk result (Takes (λ names. (part_of names term.now).tail) (16 * size term.now + 4) stack.old.items stack.new.items) }
{
    match form_of(term) {
        Form::List => {
            put_items(term, stack)?;
            Ok(Mark::Comma)
        }
        _ => end_mark(term, stack),
    }
}

// Takes the first mark off a list's tail that is no cell.
fn end_mark<'a>(term: &TermRef<'a>, stack: &mut Vec<Work<'a>>) -> Result<Mark, NoMemory>
    requires { term_form term.now ≡ ListForm → ⊥ }
    ensures { IfOk result (Takes (λ names. (part_of names term.now).tail) (16 * size term.now + 4) stack.old.items stack.new.items) }
{
    if is_nil(term) {
        return Ok(Mark::Nothing);
    }
    put(stack, Work::Part(term.copy(), 1199, false))?;
    Ok(Mark::Bar)
}

// Whether a term is the empty list.
fn is_nil(term: &TermRef<'_>) -> bool
    ensures { result ≡ is_nil_term term.now }
{
    match term.shape() {
        Shape::Application {
            name,
            qualifier,
            arity,
        } => name == Name::NIL && qualifier.is_none() && arity == 0,
        Shape::Variable(_) | Shape::Integer(_) | Shape::Text(_) => false,
    }
}

// Takes the first mark off a term without parentheses round it.
fn bare_mark<'a>(
    term: &TermRef<'a>,
    form: &Form,
    commas: bool,
    stack: &mut Vec<Work<'a>>,
) -> Result<Mark, NoMemory>
    requires { meant form.now ≡ term_form term.now }
    ensures { IfOk result (Takes (λ names. (part_of names term.now).pieces commas) (16 * size term.now) stack.old.items stack.new.items) }
{
    match form {
        Form::List => list_mark(term, stack),
        Form::Infix(operator) => infix_mark(term, operator, commas, stack),
        Form::Prefix(operator) => prefix_mark(term, operator, commas, stack),
        Form::Quantifier(operator) => quantifier_mark(term, operator, commas, stack),
        Form::Plain => plain_mark(term, stack),
    }
}

// Takes the opening bracket off a list.
fn list_mark<'a>(term: &TermRef<'a>, stack: &mut Vec<Work<'a>>) -> Result<Mark, NoMemory>
    requires { ListForm ≡ term_form term.now }
    ensures { IfOk result (Takes (λ names. (part_of names term.now).pieces true) (16 * size term.now) stack.old.items stack.new.items) }
{
    put(stack, Work::Mark(Mark::CloseList))?;
    put_items(term, stack)?;
    Ok(Mark::OpenList)
}

// Puts a list's items on the stack, without a bracket.
fn put_items<'a>(term: &TermRef<'a>, stack: &mut Vec<Work<'a>>) -> Result<(), NoMemory>
    requires { ListForm ≡ term_form term.now }
    ensures { OnOk result (Puts (λ names. item_pieces (map (part_of names) (arguments_of term.now))) (16 * sizes_of (arguments_of term.now)) stack.old.items stack.new.items) }
{
    let (head, tail) = two_of(term);
    put(stack, Work::Tail(tail))?;
    put(stack, Work::Part(head, 1199, false))
}

// The two arguments of a term.
fn two_of<'a>(term: &TermRef<'a>) -> (TermRef<'a>, TermRef<'a>)
    requires { length (arguments_of term.now) ≡ 2 }
    ensures { arguments_of term.now ≡ result.0 ∷ result.1 ∷ [] }
{
    let mut arguments = term.arguments();
    let last = arguments.take_last().unwrap();
    let first = arguments.take_last().unwrap();
    (first, last)
}

// The argument of a term that has one.
fn only_of<'a>(term: &TermRef<'a>) -> TermRef<'a>
    requires { length (arguments_of term.now) ≡ 1 }
    ensures { arguments_of term.now ≡ result ∷ [] }
{
    term.arguments().take_last().unwrap()
}

// Puts an infix operator between its operands on the stack.
fn infix_mark<'a>(
    term: &TermRef<'a>,
    operator: &Operator,
    commas: bool,
    stack: &mut Vec<Work<'a>>,
) -> Result<Mark, NoMemory>
    requires { InfixForm operator.now ≡ term_form term.now }
    ensures { IfOk result (Takes (λ names. (part_of names term.now).pieces commas) (16 * size term.now) stack.old.items stack.new.items) }
{
    let (left, right) = two_of(term);
    put(stack, Work::Part(right, operator.last_most(), commas))?;
    put_operator(operator, stack)?;
    put(stack, Work::Part(left, operator.first_most(), commas))?;
    Ok(Mark::Nothing)
}

// Puts the name of an infix operator on the stack, with its blanks.
fn put_operator(operator: &Operator, stack: &mut Vec<Work<'_>>) -> Result<(), NoMemory>
    ensures { OnOk result (Puts (λ names. operator_pieces operator.now) 3 stack.old.items stack.new.items) }
{
    if operator.name == Name::COMMA {
        return put(stack, Work::Mark(Mark::Comma));
    }
    put(stack, Work::Mark(Mark::Blank))?;
    put(stack, Work::Mark(Mark::Operator(operator.name)))?;
    put(stack, Work::Mark(Mark::Blank))
}

// Takes a prefix operator's name off a term, before its operand.
fn prefix_mark<'a>(
    term: &TermRef<'a>,
    operator: &Operator,
    commas: bool,
    stack: &mut Vec<Work<'a>>,
) -> Result<Mark, NoMemory>
    requires { PrefixForm operator.now ≡ term_form term.now }
    ensures { IfOk result (Takes (λ names. (part_of names term.now).pieces commas) (16 * size term.now) stack.old.items stack.new.items) }
{
    let operand = only_of(term);
    put(stack, Work::Operand(operand, operator.last_most(), commas))?;
    put(stack, Work::Mark(Mark::Blank))?;
    Ok(Mark::Operator(operator.name))
}

// Takes a quantifier's name off a term, before its variables and its goal.
fn quantifier_mark<'a>(
    term: &TermRef<'a>,
    operator: &Operator,
    commas: bool,
    stack: &mut Vec<Work<'a>>,
) -> Result<Mark, NoMemory>
    requires { QuantifierForm operator.now ≡ term_form term.now }
    ensures { IfOk result (Takes (λ names. (part_of names term.now).pieces commas) (16 * size term.now) stack.old.items stack.new.items) }
{
    let (variables, goal) = two_of(term);
    put_goal(goal, stack)?;
    put(stack, Work::Part(variables, 0, commas))?;
    put(stack, Work::Mark(Mark::Blank))?;
    Ok(Mark::Operator(operator.name))
}

// Puts a blank and a quantifier's goal, in parentheses, on the stack.
fn put_goal<'a>(goal: TermRef<'a>, stack: &mut Vec<Work<'a>>) -> Result<(), NoMemory>
    ensures { OnOk result (Puts (λ names. goal_pieces (part_of names goal.entry)) (16 * size goal.entry + 6) stack.old.items stack.new.items) }
{
    put(stack, Work::Mark(Mark::Close))?;
    put(stack, Work::Part(goal, 1200, true))?;
    put(stack, Work::Mark(Mark::Open))?;
    put(stack, Work::Mark(Mark::Blank))
}

// Takes the first mark off a variable, a literal or a name with its arguments.
fn plain_mark<'a>(term: &TermRef<'a>, stack: &mut Vec<Work<'a>>) -> Result<Mark, NoMemory>
    requires { PlainForm ≡ term_form term.now }
    ensures { IfOk result (Takes (λ names. (part_of names term.now).pieces true) (16 * size term.now) stack.old.items stack.new.items) }
{
    match term.shape() {
        Shape::Variable(name) => Ok(Mark::Variable(name)),
        Shape::Integer(value) => Ok(Mark::Integer(value)),
        Shape::Text(name) => Ok(Mark::Text(name)),
        Shape::Application {
            name,
            qualifier,
            arity,
        } => {
            put_arguments(term.arguments(), stack)?;
            name_mark(name, qualifier, arity, stack)
        }
    }
}

// Takes the first mark off a name with its qualifier and so many arguments, which stand behind it.
fn name_mark(
    name: Name,
    qualifier: Option<Name>,
    arity: usize,
    stack: &mut Vec<Work<'_>>,
) -> Result<Mark, NoMemory>
    ensures { IfOk result (Takes (λ names. head_pieces names name qualifier arity) 3 stack.old.items stack.new.items) }
{
    match qualifier {
        None => Ok(if name == Name::NIL && arity == 0 {
            Mark::EmptyList
        } else {
            Mark::Name(name)
        }),
        Some(qualifier) => {
            put(stack, Work::Mark(Mark::Name(name)))?;
            put(stack, Work::Mark(Mark::Dot))?;
            Ok(Mark::Name(qualifier))
        }
    }
}

// Puts arguments in their parentheses on the stack, where there are any.
fn put_arguments<'a>(
    mut arguments: Arguments<'a>,
    stack: &mut Vec<Work<'a>>,
) -> Result<(), NoMemory>
    ensures { OnOk result (Puts (λ names. arguments_pieces (map (part_of names) arguments.entry)) (16 * sizes_of arguments.entry + 1) stack.old.items stack.new.items) }
{
    if arguments.len() == 0 {
        return Ok(());
    }
    put(stack, Work::Mark(Mark::Close))?;
    while let Some(last) = arguments.take_last() {
        put(stack, Work::Part(last, 1199, false))?;
        let before = mark_before(arguments.len());
        put(stack, Work::Mark(before))?;
    }
    Ok(())
}

// What stands before the argument that follows so many.
fn mark_before(count: usize) -> Mark
    ensures { result ≡ mark_before count }
{
    if count == 0 {
        Mark::OpenArguments
    } else {
        Mark::Comma
    }
}

// Writes a mark. Where memory is refused the text is unchanged.
fn write_mark(alloc: Global, mark: Mark, names: &Names, into: &mut Text) -> Result<(), NoMemory>
    requires { HoldsFixed names.now }
    ensures ok { OnOk result (into.new ≡ into.old ++ pieces_text names.now (mark_pieces names.now mark)) }
    ensures err { OnErr result (into.new ≡ into.old) }
{
    match mark {
        Mark::Nothing => Ok(()),
        Mark::Blank => into.push(b" "),
        Mark::OpenArguments | Mark::Open => into.push(b"("),
        Mark::Close => into.push(b")"),
        Mark::OpenList => into.push(b"["),
        Mark::CloseList => into.push(b"]"),
        Mark::EmptyList => into.push(b"[]"),
        Mark::Comma => into.push(b", "),
        Mark::Bar => into.push(b" | "),
        Mark::Dot => into.push(b"."),
        Mark::Name(name) => write_name(alloc, text_of(names, name), into),
        Mark::Operator(name) | Mark::Variable(name) => into.push(text_of(names, name)),
        Mark::Integer(value) => write_integer(alloc, value, into),
        Mark::Text(name) => into.push(quoted(alloc, b'"', text_of(names, name))?.bytes()),
    }
}

// Writes a name with this text, in quotes where it is not plain.
fn write_name(alloc: Global, text: &[u8], into: &mut Text) -> Result<(), NoMemory>
    ensures ok { OnOk result (into.new ≡ into.old ++ name_text text.now) }
    ensures err { OnErr result (into.new ≡ into.old) }
{
    if is_plain(text) {
        into.push(text)
    } else {
        into.push(quoted(alloc, b'\'', text)?.bytes())
    }
}

// Writes an integer, with its sign where it is negative.
fn write_integer(alloc: Global, value: i64, into: &mut Text) -> Result<(), NoMemory>
    ensures ok { OnOk result (into.new ≡ into.old ++ signed_decimal value) }
    ensures err { OnErr result (into.new ≡ into.old) }
{
    into.push(value.to_string(alloc)?.as_bytes())
}
