//! The parts of a listing: slots, places, symbols, operators and modes.
ghost use Rattle.std.specs.Prelude.{◌≡◌, ◌≤◌, ◌++◌, [], ◌∷◌, codes, map, max, length, IfOk, OnOk};
ghost use Rattle.std.specs.Fmt.{decimal, signed_decimal};
ghost use Rattle.merc_value.specs.Text.{text_at, name_text};
ghost use Rattle.merc_listing.specs.Listing.{behind, mode_text, spaced};
ghost use Rattle.merc_listing.specs.Parts.{beyond, beyond_named, comparison_text, constructor_text, first_mark, label, more_places, named, operation_text, place_text, places_text, slot, string_text, symbol_text};

use merc_base::{Name, Names, NoMemory, Text};
use merc_code::{CompiledProcedure, Instruction};
use merc_goal_tree::{Comparison, Operation, Symbol, Var};
use merc_tree::Arg;
use merc_value::{is_plain, quoted, text_of};
use std::alloc::Global;

/// Puts a number behind a text. Numbers of places and slots may need more than 64 bits.
pub(crate) fn push_number(alloc: Global, number: u128, line: &mut Text) -> Result<(), NoMemory>
    ensures { OnOk result (line.new ≡ line.old ++ decimal number) }
{
    line.push(number.to_string(alloc)?.as_bytes())
}

// Puts a slot of this number behind a text.
pub(crate) fn push_slot(alloc: Global, number: u128, line: &mut Text) -> Result<(), NoMemory>
    ensures { OnOk result (line.new ≡ line.old ++ spaced (slot number ∷ [])) }
{
    line.push(b" s")?;
    push_number(alloc, number, line)
}

// Puts the slots of variables behind a text.
pub(crate) fn push_slots(alloc: Global, variables: &[Var], line: &mut Text) -> Result<(), NoMemory>
    ensures { OnOk result (line.new ≡ line.old ++ spaced (map slot variables.now)) }
{
    for variable in variables {
        push_slot(alloc, variable.number() as u128, line)?;
    }
    Ok(())
}

// Puts the place behind a text that lies behind so many of the instructions that follow the one at this place.
pub(crate) fn push_behind(
    alloc: Global,
    place: usize,
    skipped: usize,
    line: &mut Text,
) -> Result<(), NoMemory>
    ensures { OnOk result (line.new ≡ line.old ++ behind place skipped) }
{
    line.push(b"L")?;
    push_number(alloc, place as u128 + skipped as u128 + 1, line)
}

// The first number behind that of a variable.
fn beyond_one(variable: Var) -> u128
    ensures value { result ≡ beyond (variable ∷ []) }
    ensures bound { result ≤ 18446744073709551616 }
{
    variable.number() as u128 + 1
}

// The first number behind those of variables.
fn beyond_all(variables: &[Var]) -> u128
    ensures value { result ≡ beyond variables.now }
    ensures bound { result ≤ 18446744073709551616 }
{
    let mut first = 0;
    for variable in variables {
        first = beyond_one(*variable).max(first);
    }
    first
}

// The first number behind those of the variables that an instruction names.
fn beyond_named(instruction: &Instruction) -> u128
    ensures value { result ≡ beyond (named instruction.now) }
    ensures bound { result ≤ 18446744073709551616 }
{
    match instruction {
        Instruction::Integer(one, _)
        | Instruction::Text(one, _)
        | Instruction::Literal(one, _)
        | Instruction::Switch(one, _)
        | Instruction::Raise(one)
        | Instruction::Wait(one)
        | Instruction::Signal(one) => beyond_one(*one),
        Instruction::Copy(one, other)
        | Instruction::Test(one, other)
        | Instruction::Compare(_, one, other) => beyond_all(&[*one, *other]),
        Instruction::Build(whole, _, arguments) | Instruction::Split(whole, _, arguments) => {
            beyond_one(*whole).max(beyond_all(arguments.as_slice()))
        }
        Instruction::Arithmetic(_, result, one, other) => beyond_all(&[*result, *one, *other]),
        Instruction::Call(_, arguments) | Instruction::Answer(arguments) => {
            beyond_all(arguments.as_slice())
        }
        Instruction::Jump(_)
        | Instruction::Try(_)
        | Instruction::Mark(_)
        | Instruction::Commit(_)
        | Instruction::Soften(_)
        | Instruction::Return
        | Instruction::Fail
        | Instruction::Fork(_)
        | Instruction::Close => 0,
    }
}

/// The slot of a procedure's first mark.
pub(crate) fn first_mark(procedure: &CompiledProcedure) -> u128
    ensures value { result ≡ first_mark procedure.now }
    ensures bound { result ≤ 18446744073709551616 }
{
    let mut first = procedure.places.as_slice().len() as u128;
    for instruction in procedure.code.as_slice() {
        first = beyond_named(instruction).max(first);
    }
    first
}

// Puts a name behind a text, within quotes unless it is plain.
fn push_name(alloc: Global, name: &[u8], line: &mut Text) -> Result<(), NoMemory>
    ensures { OnOk result (line.new ≡ line.old ++ name_text name.now) }
{
    if is_plain(name) {
        line.push(name)
    } else {
        line.push(quoted(alloc, b'\'', name)?.bytes())
    }
}

// Puts a text within quotes behind another.
fn push_string(alloc: Global, names: &Names, text: Name, line: &mut Text) -> Result<(), NoMemory>
    ensures { OnOk result (line.new ≡ line.old ++ string_text names.now text) }
{
    line.push(quoted(alloc, b'"', text_of(names, text))?.bytes())
}

// Puts a constructor's name behind a text, for so many arguments.
fn push_constructor(
    alloc: Global,
    names: &Names,
    name: Name,
    arity: usize,
    line: &mut Text,
) -> Result<(), NoMemory>
    ensures { OnOk result (line.new ≡ line.old ++ constructor_text names.now name arity) }
{
    if name == Name::NIL && arity == 0 {
        return line.push(b"[]");
    }
    push_name(alloc, text_of(names, name), line)
}

/// Puts a symbol behind a text.
pub(crate) fn push_symbol(
    alloc: Global,
    names: &Names,
    symbol: Symbol,
    line: &mut Text,
) -> Result<(), NoMemory>
    ensures { OnOk result (line.new ≡ line.old ++ symbol_text names.now symbol) }
{
    match symbol {
        Symbol::Constructor(name, arity) => {
            push_constructor(alloc, names, name, arity, line)?;
            line.push(b"/")?;
            push_number(alloc, arity as u128, line)
        }
        Symbol::Integer(number) => line.push(number.to_string(alloc)?.as_bytes()),
        Symbol::Text(text) => push_string(alloc, names, text, line),
    }
}

pub(crate) fn operation_text(operation: Operation) -> &'static [u8]
    ensures { result.now ≡ operation_text operation }
{
    match operation {
        Operation::Add => b"+",
        Operation::Subtract => b"-",
        Operation::Multiply => b"*",
        Operation::Quotient => b"//",
        Operation::Div => b"div",
        Operation::Mod => b"mod",
        Operation::Rem => b"rem",
    }
}

pub(crate) fn comparison_text(comparison: Comparison) -> &'static [u8]
    ensures { result.now ≡ comparison_text comparison }
{
    match comparison {
        Comparison::Less => b"<",
        Comparison::Greater => b">",
        Comparison::AtMost => b"=<",
        Comparison::AtLeast => b">=",
    }
}

fn place_text(place: Arg) -> &'static [u8]
    ensures { result.now ≡ place_text place }
{
    match place {
        Arg::Input => b"in",
        Arg::Output => b"out",
    }
}

// Puts the places of a mode behind a text, in brackets; nothing where there is none.
fn push_places(places: &[Arg], line: &mut Text) -> Result<(), NoMemory>
    ensures { OnOk result (line.new ≡ line.old ++ places_text places.now) }
{
    match places {
        [] => Ok(()),
        [first, others @ ..] => {
            line.push(b"(")?;
            line.push(place_text(*first))?;
            push_more_places(others, line)?;
            line.push(b")")
        }
    }
}

/// Puts a predicate's name and the places of a mode behind a text.
pub(crate) fn push_mode(
    alloc: Global,
    name: &[u8],
    places: &[Arg],
    line: &mut Text,
) -> Result<(), NoMemory>
    ensures { OnOk result (line.new ≡ line.old ++ mode_text name.now places.now) }
{
    push_name(alloc, name, line)?;
    push_places(places, line)
}

// Puts places behind a text, each behind a comma and a blank.
fn push_more_places(places: &[Arg], line: &mut Text) -> Result<(), NoMemory>
    ensures { OnOk result (line.new ≡ line.old ++ more_places places.now) }
{
    for place in places {
        line.push(b", ")?;
        line.push(place_text(*place))?;
    }
    Ok(())
}
