//! Rights that go to the first of goals which come one after the other.
ghost use Rattle.std.specs.Prelude.{◌≡◌, ◌++◌, ℕ, suc, List, map, IfOk, OnOk};
ghost use Rattle.std.specs.List.{flat_map};
ghost use Rattle.std.specs.Option.{is_some, option_to_list};
ghost use Rattle.merc_graded_tree.specs.Nodes.{Node, outputs_of};
ghost use Rattle.merc_rights.specs.Groups.{numbered, rights_in};
ghost use Rattle.merc_rights.specs.Members.{turn_signal, turn_wait, uses_it, IsLaid};
ghost use Rattle.merc_rights.specs.Rows.{next_from, row_of, Tells};

use crate::groups::{Group, NumberedGroup, put_group};
use crate::members::{Members, binders};
use crate::occurrences::{Index, Occurrences};
use crate::rights::Awaited;
use crate::rows::Rows;
use crate::signals::Signals;
use merc_base::NoMemory;
use merc_goal_tree::Var;
use std::alloc::Global;

/// Each right to wait by the first goal that uses its variable.
///
/// # Errors
///
/// `NoMemory` where memory was refused.
pub fn waits_in_turn(
    alloc: Global,
    occurrences: &Occurrences<'_>,
    members: &Members<'_>,
    waits: &[Awaited],
) -> Result<Rows<Awaited>, NoMemory>
    requires { IsLaid occurrences.now members.now }
    ensures { IfOk result (λ rows. (number : ℕ) → row_of number rows ≡ row_of number (flat_map (turn_wait members.now.goals.items) waits.now)) }
{
    let mut found = Vec::new(alloc);
    for wait in waits {
        if let Some(turn) = turn_of_wait(occurrences, members, wait) {
            found.push(turn)?;
        }
    }
    Rows::of(found)
}

// The first goal that uses the variable, with the right, which tells of the goals behind it.
fn turn_of_wait(
    occurrences: &Occurrences<'_>,
    members: &Members<'_>,
    wait: &Awaited,
) -> Option<(usize, Awaited)>
    requires { IsLaid occurrences.now members.now }
    ensures { option_to_list result ≡ turn_wait members.now.goals.items wait.now }
{
    let variable = wait.right.variable;
    match members.next_user(occurrences, variable, 0) {
        Some(user) => {
            let later = wait.later || is_used_behind(occurrences, members, variable, user);
            Some((
                user,
                Awaited {
                    right: wait.right,
                    later,
                },
            ))
        }
        None => None,
    }
}

/// Each right to signal by the first goal that binds its variable.
///
/// # Errors
///
/// `NoMemory` where memory was refused.
pub fn signals_in_turn(
    alloc: Global,
    members: &Members<'_>,
    signals: Signals,
) -> Result<Vec<NumberedGroup>, NoMemory>
    ensures { IfOk result (λ found. numbered found.items ≡ flat_map (turn_signal members.now.goals.items) signals) }
{
    let binders = binders(alloc, &members.goals)?;
    let mut found = Vec::new(alloc);
    for group in signals.into_groups() {
        put_in_turn(&binders, group, &mut found)?;
    }
    Ok(found)
}

// Puts a group for the first goal that binds its variable.
fn put_in_turn(
    binders: &Index,
    group: Group,
    found: &mut Vec<NumberedGroup>,
) -> Result<(), NoMemory>
    ensures { OnOk result ((goals : List Node) → Tells binders.now (map outputs_of goals) → numbered found.new.items ≡ numbered found.old.items ++ flat_map (turn_signal goals) (rights_in group)) }
{
    match binders.next(group.variable, 0) {
        Some(number) => put_group(number, group, found),
        None => Ok(()),
    }
}

/// Whether a goal behind the one of a number uses the variable.
pub fn is_used_behind(
    occurrences: &Occurrences<'_>,
    members: &Members<'_>,
    variable: Var,
    number: usize,
) -> bool
    requires laid { IsLaid occurrences.now members.now }
    ensures { result ≡ is_some (next_from (uses_it variable) (suc number) 0 members.now.goals.items) }
{
    if number >= members.goals.as_slice().len() {
        return false;
    }
    members
        .next_user(occurrences, variable, number + 1)
        .is_some()
}
