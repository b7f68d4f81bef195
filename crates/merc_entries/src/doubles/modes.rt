//! The modes that items declare.
ghost use Rattle.std.specs.Prelude.{◌≡◌, map, Some, IfOk};
ghost use Rattle.std.specs.Option.{option_to_list};
ghost use Rattle.merc_tree.specs.Shape.{arguments_of};
ghost use Rattle.merc_operands.specs.Operands.{plain_name};
ghost use Rattle.merc_item_forms.specs.Forms.{argument_mode};
ghost use Rattle.merc_entries.specs.Entries.{is_out, modes_at, key_of, modes_of, outputs_of};
ghost use Rattle.merc_item_forms.specs.ItemValue.{item_value};
ghost use Rattle.merc_entries.specs.ModeValue.{mode_value};

use crate::key_set::key_of;
use crate::moded::has_mode;
use merc_base::{Key, Name, NoMemory};
use merc_item_forms::{Item, argument_mode};
use merc_operands::{arguments, plain_name};
use merc_tree::TermRef;
use std::alloc::Global;

/// A mode of a predicate.
#[derive(PartialEq, Eq, PartialOrd, Ord, Drop)]
pub(crate) struct Mode {
    pub(crate) predicate: Key,
    /// Which of the arguments are outputs.
    pub(crate) outputs: Vec<bool>,
}

/// The mode that an item declares, if it declares one.
pub(crate) fn mode_of(alloc: Global, item: &Item<'_>) -> Result<Option<Mode>, NoMemory>
    ensures { IfOk result (λ mode. map mode_value (option_to_list mode) ≡ modes_of (item_value item.now)) }
{
    match item {
        Item::Predicate(head, category) => {
            if has_mode(head, category) {
                Ok(mode_at(head, predicate_outputs(alloc, head)?))
            } else {
                Ok(None)
            }
        }
        Item::Mode(head, _) => Ok(mode_at(head, mode_outputs(alloc, head)?)),
        _ => Ok(None),
    }
}

// A mode of the predicate with this head, none where the head is a variable or a literal.
fn mode_at(head: &TermRef<'_>, outputs: Vec<bool>) -> Option<Mode>
    ensures { map mode_value (option_to_list result) ≡ modes_at (key_of head.now) outputs.items }
{
    match key_of(head) {
        Some(predicate) => Some(Mode { predicate, outputs }),
        None => None,
    }
}

// Which arguments of the predicate that this head declares are outputs, of those with a mode.
fn predicate_outputs(alloc: Global, head: &TermRef<'_>) -> Result<Vec<bool>, NoMemory>
    ensures { IfOk result (λ outputs. outputs.items ≡ outputs_of (map argument_mode (arguments_of head.now))) }
{
    let arguments = arguments(alloc, head)?;
    let outputs = outputs_with_types(alloc, &arguments);
    // (a call, here and below, since it costs much to prove what is dropped)
    drop(arguments);
    outputs
}

// Which arguments of the mode that this head declares are outputs.
fn mode_outputs(alloc: Global, head: &TermRef<'_>) -> Result<Vec<bool>, NoMemory>
    ensures { IfOk result (λ outputs. outputs.items ≡ outputs_of (map Some (arguments_of head.now))) }
{
    let arguments = arguments(alloc, head)?;
    let outputs = outputs_alone(alloc, &arguments);
    drop(arguments);
    outputs
}

// Which arguments of a predicate's declaration are outputs, of those with a mode.
fn outputs_with_types(alloc: Global, arguments: &[TermRef<'_>]) -> Result<Vec<bool>, NoMemory>
    ensures { IfOk result (λ outputs. outputs.items ≡ outputs_of (map argument_mode arguments.now)) }
{
    let mut outputs = Vec::new(alloc);
    for argument in arguments {
        if let Some(mode) = argument_mode(argument) {
            outputs.push(is_out(&mode))?;
        }
    }
    Ok(outputs)
}

// Which arguments of a mode's declaration are outputs.
fn outputs_alone(alloc: Global, arguments: &[TermRef<'_>]) -> Result<Vec<bool>, NoMemory>
    ensures { IfOk result (λ outputs. outputs.items ≡ outputs_of (map Some arguments.now)) }
{
    let mut outputs = Vec::new(alloc);
    for argument in arguments {
        outputs.push(is_out(argument))?;
    }
    Ok(outputs)
}

fn is_out(mode: &TermRef<'_>) -> bool
    ensures { result ≡ is_out (plain_name mode.now) }
{
    match plain_name(mode) {
        Some(name) => name == Name::OUT,
        None => false,
    }
}
