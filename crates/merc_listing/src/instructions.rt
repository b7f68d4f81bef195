//! Instructions as they are listed.
ghost use Rattle.std.specs.Prelude.{◌≡◌, ◌≤◌, ◌++◌, [], ◌∷◌, codes, map, slice_get, option_map, OnOk};
ghost use Rattle.std.specs.Fmt.{decimal, signed_decimal};
ghost use Rattle.merc_last_calls.specs.LastCalls.{outputs};
ghost use Rattle.merc_live.specs.Reads.{inputs};
ghost use Rattle.merc_listing.specs.Listing.{behind, call_slots, instruction_line, mode_text, name_in, operands, places_of, procedure_text, spaced, target_text, word};
ghost use Rattle.merc_listing.specs.Parts.{slot, symbol_text};

use crate::parts::{
    comparison_text, operation_text, push_behind, push_mode, push_number, push_slot, push_slots,
    push_symbol,
};
use merc_base::{Names, NoMemory, Text};
use merc_code::{Instruction, Target};
use merc_goal_tree::{Symbol, Var};
use merc_graded_tree::{Procedure, Site};
use merc_tree::{Arg, PredDecl};
use merc_value::text_of;
use std::alloc::Global;

/// What a listing is written from: the texts of names, and the predicates by their numbers.
#[derive(Drop)]
pub(crate) struct Known<'a> {
    pub alloc: Global,
    pub names: &'a Names,
    pub predicates: &'a [PredDecl],
}

/// The word of an instruction.
pub(crate) fn word(instruction: &Instruction) -> &'static [u8]
    ensures { result.now ≡ word instruction.now }
{
    match instruction {
        Instruction::Integer(_, _) => b"int",
        Instruction::Text(_, _) => b"text",
        Instruction::Copy(_, _) => b"copy",
        Instruction::Build(_, _, _) => b"build",
        Instruction::Split(_, _, _) => b"split",
        Instruction::Literal(_, _) => b"literal",
        Instruction::Test(_, _) => b"test",
        Instruction::Arithmetic(_, _, _, _) => b"arith",
        Instruction::Compare(_, _, _) => b"compare",
        Instruction::Raise(_) => b"raise",
        Instruction::Jump(_) => b"jump",
        Instruction::Switch(_, _) => b"switch",
        Instruction::Try(_) => b"try",
        Instruction::Mark(_) => b"mark",
        Instruction::Commit(_) => b"commit",
        Instruction::Soften(_) => b"soften",
        Instruction::Call(_, _) => b"call",
        Instruction::Return => b"return",
        Instruction::Fail => b"fail",
        Instruction::Answer(_) => b"answer",
        Instruction::Fork(_) => b"fork",
        Instruction::Wait(_) => b"wait",
        Instruction::Signal(_) => b"signal",
        Instruction::Close => b"close",
    }
}

/// Puts the line of an instruction at a place behind a text. Given is the slot of the procedure's first mark.
pub(crate) fn push_instruction(
    known: &Known<'_>,
    marks: u128,
    place: usize,
    instruction: &Instruction,
    line: &mut Text,
) -> Result<(), NoMemory>
    requires { marks ≤ 18446744073709551616 }
    ensures { OnOk result (line.new ≡ line.old ++ instruction_line known.now.names.now known.now.predicates.now marks place instruction.now) }
{
    line.push(b"  L")?;
    push_number(known.alloc, place as u128, line)?;
    line.push(b" ")?;
    line.push(word(instruction))?;
    push_operands(known, marks, place, instruction, line)?;
    line.push(b"\n")
}

// Puts the operands of an instruction at a place behind a text.
fn push_operands(
    known: &Known<'_>,
    marks: u128,
    place: usize,
    instruction: &Instruction,
    line: &mut Text,
) -> Result<(), NoMemory>
    requires { marks ≤ 18446744073709551616 }
    ensures { OnOk result (line.new ≡ line.old ++ spaced (operands known.now.names.now known.now.predicates.now marks place instruction.now)) }
{
    match instruction {
        Instruction::Integer(to, number) => push_shape(
            known,
            *to,
            Symbol::Integer(*number),
            &[],
            line,
        ),
        Instruction::Text(to, text) => push_shape(known, *to, Symbol::Text(*text), &[], line),
        Instruction::Literal(whole, symbol) => push_shape(known, *whole, *symbol, &[], line),
        Instruction::Build(whole, symbol, arguments)
        | Instruction::Split(whole, symbol, arguments) => {
            push_shape(known, *whole, *symbol, arguments.as_slice(), line)
        }
        Instruction::Copy(one, other) | Instruction::Test(one, other) => {
            push_slots(known.alloc, &[*one, *other], line)
        }
        Instruction::Arithmetic(operation, result, one, other) => {
            push_operator(
                known.alloc,
                operation_text(*operation),
                &[*result, *one, *other],
                line,
            )
        }
        Instruction::Compare(comparison, one, other) => {
            push_operator(
                known.alloc,
                comparison_text(*comparison),
                &[*one, *other],
                line,
            )
        }
        Instruction::Raise(one) | Instruction::Wait(one) | Instruction::Signal(one) => {
            push_slot(known.alloc, one.number() as u128, line)
        }
        Instruction::Jump(skipped) | Instruction::Try(skipped) => {
            push_place(known.alloc, place, *skipped, line)
        }
        Instruction::Switch(whole, targets) => {
            push_switch(known, place, *whole, targets.as_slice(), line)
        }
        Instruction::Mark(mark) | Instruction::Commit(mark) | Instruction::Soften(mark) => {
            push_slot(known.alloc, marks + mark.number() as u128, line)
        }
        Instruction::Call(procedure, arguments) => {
            push_call(known, procedure, arguments.as_slice(), line)
        }
        Instruction::Fork(site) => push_site(known.alloc, *site, line),
        Instruction::Return | Instruction::Fail | Instruction::Answer(_) | Instruction::Close => {
            Ok(())
        }
    }
}

// Puts a variable's slot, a symbol and the slots of others behind a text.
fn push_shape(
    known: &Known<'_>,
    whole: Var,
    symbol: Symbol,
    arguments: &[Var],
    line: &mut Text,
) -> Result<(), NoMemory>
    ensures { OnOk result (line.new ≡ line.old ++ spaced (slot whole ∷ symbol_text known.now.names.now symbol ∷ map slot arguments.now)) }
{
    push_slot(known.alloc, whole.number() as u128, line)?;
    line.push(b" ")?;
    push_symbol(known.alloc, known.names, symbol, line)?;
    push_slots(known.alloc, arguments, line)
}

// Puts an operator and the slots of variables behind a text.
fn push_operator(
    alloc: Global,
    operator: &[u8],
    variables: &[Var],
    line: &mut Text,
) -> Result<(), NoMemory>
    ensures { OnOk result (line.new ≡ line.old ++ spaced (operator.now ∷ map slot variables.now)) }
{
    line.push(b" ")?;
    line.push(operator)?;
    push_slots(alloc, variables, line)
}

// Puts the place behind a text that lies behind so many of the instructions that follow the one at this place.
fn push_place(alloc: Global, place: usize, skipped: usize, line: &mut Text) -> Result<(), NoMemory>
    ensures { OnOk result (line.new ≡ line.old ++ spaced (behind place skipped ∷ [])) }
{
    line.push(b" ")?;
    push_behind(alloc, place, skipped, line)
}

// Puts a site behind a text.
fn push_site(alloc: Global, site: Site, line: &mut Text) -> Result<(), NoMemory>
    ensures { OnOk result (line.new ≡ line.old ++ spaced (decimal site.number ∷ [])) }
{
    line.push(b" ")?;
    push_number(alloc, site.number as u128, line)
}

// Puts the operands of a switch at a place behind a text.
fn push_switch(
    known: &Known<'_>,
    place: usize,
    whole: Var,
    targets: &[Target],
    line: &mut Text,
) -> Result<(), NoMemory>
    ensures { OnOk result (line.new ≡ line.old ++ spaced (slot whole ∷ map (target_text known.now.names.now known.now.predicates.now place) targets.now)) }
{
    push_slot(known.alloc, whole.number() as u128, line)?;
    for target in targets {
        push_target(known, place, target, line)?;
    }
    Ok(())
}

// Puts a symbol behind a text, and where the switch at a place goes on for it.
fn push_target(
    known: &Known<'_>,
    place: usize,
    target: &Target,
    line: &mut Text,
) -> Result<(), NoMemory>
    ensures { OnOk result (line.new ≡ line.old ++ spaced (target_text known.now.names.now known.now.predicates.now place target.now ∷ [])) }
{
    line.push(b" ")?;
    push_symbol(known.alloc, known.names, target.symbol, line)?;
    line.push(b":")?;
    push_behind(known.alloc, place, target.skipped, line)
}

// Puts the called procedure behind a text, the slots of the inputs, and those of the outputs behind a colon.
fn push_call(
    known: &Known<'_>,
    procedure: &Procedure,
    arguments: &[Var],
    line: &mut Text,
) -> Result<(), NoMemory>
    ensures { OnOk result (line.new ≡ line.old ++ spaced (procedure_text known.now.names.now known.now.predicates.now procedure.now ∷ call_slots (places_of known.now.predicates.now procedure.now) arguments.now)) }
{
    let places = called_places(known.predicates, procedure);
    line.push(b" ")?;
    push_mode(
        known.alloc,
        called_name(known.names, known.predicates, procedure),
        places,
        line,
    )?;
    push_call_slots(known.alloc, places, arguments, line)
}

// Puts the slots of a call's inputs behind a text, and those of its outputs behind a colon.
fn push_call_slots(
    alloc: Global,
    places: &[Arg],
    arguments: &[Var],
    line: &mut Text,
) -> Result<(), NoMemory>
    ensures { OnOk result (line.new ≡ line.old ++ spaced (call_slots places.now arguments.now)) }
{
    push_inputs(alloc, places, arguments, line)?;
    line.push(b" :")?;
    push_outputs(alloc, places, arguments, line)
}

// The places of a procedure; none for one that is not there.
fn called_places<'a>(predicates: &'a [PredDecl], procedure: &Procedure) -> &'a [Arg]
    ensures { result.now ≡ places_of predicates.now procedure.now }
{
    match predicates.get(procedure.predicate.number()) {
        None => &[],
        Some(declared) => match declared.modes.as_slice().get(procedure.mode) {
            None => &[],
            Some(mode) => mode.args.as_slice(),
        },
    }
}

// The text of the name of a procedure's predicate; none for one that is not there.
fn called_name<'a>(names: &'a Names, predicates: &[PredDecl], procedure: &Procedure) -> &'a [u8]
    ensures { result.now ≡ name_in names.now (slice_get predicates.now procedure.now.predicate) }
{
    match predicates.get(procedure.predicate.number()) {
        None => b"",
        Some(declared) => text_of(names, declared.name),
    }
}

// Puts the slots of the arguments at Input places behind a text.
fn push_inputs(
    alloc: Global,
    places: &[Arg],
    arguments: &[Var],
    line: &mut Text,
) -> Result<(), NoMemory>
    ensures { OnOk result (line.new ≡ line.old ++ spaced (map slot (inputs places.now arguments.now))) }
{
    let mut places = places;
    let mut arguments = arguments;
    while let [place, others @ ..] = places {
        match arguments {
            [] => return Ok(()),
            [argument, rest @ ..] => {
                if matches!(place, Arg::Input) {
                    push_slot(alloc, argument.number() as u128, line)?;
                }
                arguments = rest;
            }
        }
        places = others;
    }
    Ok(())
}

// Puts the slots of the arguments at Output places behind a text.
fn push_outputs(
    alloc: Global,
    places: &[Arg],
    arguments: &[Var],
    line: &mut Text,
) -> Result<(), NoMemory>
    ensures { OnOk result (line.new ≡ line.old ++ spaced (map slot (outputs places.now arguments.now))) }
{
    let mut places = places;
    let mut arguments = arguments;
    while let [place, others @ ..] = places {
        match arguments {
            [] => return Ok(()),
            [argument, rest @ ..] => {
                if matches!(place, Arg::Output) {
                    push_slot(alloc, argument.number() as u128, line)?;
                }
                arguments = rest;
            }
        }
        places = others;
    }
    Ok(())
}
