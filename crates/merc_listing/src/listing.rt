//! The listing of a module's code.
ghost use Rattle.std.specs.Prelude.{◌≡◌, ◌≤◌, ◌++◌, OnOk, OnErr};
ghost use Rattle.merc_listing.specs.Listing.{code_lines, listing, mode_text, modes_lines, predicates_lines, procedure_lines};

use crate::instructions::{Known, push_instruction};
use crate::parts::{first_mark, push_mode};
use merc_base::{Names, NoMemory, Sequence, Text};
use merc_code::{CompiledProcedure, Instruction};
use merc_tree::{ModeDecl, PredDecl};
use merc_value::text_of;
use std::alloc::Global;

/// Appends the listing of a module's code. Given are its predicates, those of the file before those of the library; the code
/// of each predicate in each of its modes, both by number; and of each predicate of the file the lines of its clauses. Each
/// of these predicates is listed in each of its modes, in order, as docs/COMMANDS.md says. It takes time of the order of
/// the code and of what is appended.
///
/// # Errors
///
/// `NoMemory` where memory was refused. Then nothing was appended.
pub fn write_listing(
    alloc: Global,
    predicates: &[PredDecl],
    procedures: &[Sequence<CompiledProcedure>],
    clauses: &[Text],
    names: &Names,
    into: &mut Text,
) -> Result<(), NoMemory>
    ensures listing { OnOk result (into.new ≡ into.old ++ listing names.now predicates.now procedures.now clauses.now) }
    ensures unchanged { OnErr result (into.new ≡ into.old) }
{
    let known = Known {
        alloc,
        names,
        predicates,
    };
    let mut text = Text::new(alloc);
    push_predicates(&known, procedures, clauses, &mut text)?;
    into.push(text.bytes())
}

// Puts the lines of the predicates behind a text that have lines of clauses.
fn push_predicates(
    known: &Known<'_>,
    procedures: &[Sequence<CompiledProcedure>],
    clauses: &[Text],
    text: &mut Text,
) -> Result<(), NoMemory>
    ensures { OnOk result (text.new ≡ text.old ++ predicates_lines known.now.names.now known.now.predicates.now known.now.predicates.now procedures.now clauses.now) }
{
    let mut declared = known.predicates;
    let mut compiled = procedures;
    let mut clauses = clauses;
    while let [first, others @ ..] = declared {
        match compiled {
            [] => return Ok(()),
            [code, more_code @ ..] => match clauses {
                [] => return Ok(()),
                [lines, more_lines @ ..] => {
                    push_modes(
                        known,
                        first,
                        lines,
                        first.modes.as_slice(),
                        code.as_slice(),
                        text,
                    )?;
                    compiled = more_code;
                    clauses = more_lines;
                }
            },
        }
        declared = others;
    }
    Ok(())
}

// Puts the lines of a predicate in each of these modes behind a text.
fn push_modes(
    known: &Known<'_>,
    declared: &PredDecl,
    clauses: &Text,
    modes: &[ModeDecl],
    procedures: &[CompiledProcedure],
    text: &mut Text,
) -> Result<(), NoMemory>
    ensures { OnOk result (text.new ≡ text.old ++ modes_lines known.now.names.now known.now.predicates.now declared.now clauses.now modes.now procedures.now) }
{
    let mut modes = modes;
    let mut compiled = procedures;
    while let [mode, others @ ..] = modes {
        match compiled {
            [] => return Ok(()),
            [procedure, rest @ ..] => {
                push_procedure(known, declared, clauses, mode, procedure, text)?;
                compiled = rest;
            }
        }
        modes = others;
    }
    Ok(())
}

// Puts the lines of a predicate in a mode behind a text.
fn push_procedure(
    known: &Known<'_>,
    declared: &PredDecl,
    clauses: &Text,
    mode: &ModeDecl,
    procedure: &CompiledProcedure,
    text: &mut Text,
) -> Result<(), NoMemory>
    ensures { OnOk result (text.new ≡ text.old ++ procedure_lines known.now.names.now known.now.predicates.now declared.now clauses.now mode.now procedure.now) }
{
    push_mode(
        known.alloc,
        text_of(known.names, declared.name),
        mode.args.as_slice(),
        text,
    )?;
    text.push(b":\n")?;
    text.push(clauses.bytes())?;
    push_code(
        known,
        first_mark(procedure),
        procedure.code.as_slice(),
        text,
    )
}

// Puts the lines of code behind a text. Given is the slot of the procedure's first mark.
fn push_code(
    known: &Known<'_>,
    marks: u128,
    code: &[Instruction],
    text: &mut Text,
) -> Result<(), NoMemory>
    requires { marks ≤ 18446744073709551616 }
    ensures { OnOk result (text.new ≡ text.old ++ code_lines known.now.names.now known.now.predicates.now marks 0 code.now) }
{
    for (place, instruction) in code.iter().enumerate() {
        push_instruction(known, marks, place, instruction, text)?;
    }
    Ok(())
}
