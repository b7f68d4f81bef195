//! Rights that go to each of the goals which use their variable, or bind it.
ghost use Rattle.std.specs.Prelude.{◌≡◌, ◌<◌, ◌++◌, ℕ, List, [], ◌∷◌, length, slice_index_or, map, IfOk, OnOk, if◌then◌else◌};
ghost use Rattle.std.specs.List.{flat_map};
ghost use Rattle.merc_graded_tree.specs.Variables.{among, in_node};
ghost use Rattle.merc_rights.specs.Groups.{numbered, rights_in, shares_in};
ghost use Rattle.merc_rights.specs.Members.{pass_shares, signal_shares, spared, wait_shares, IsLaid};
ghost use Rattle.merc_rights.specs.Rows.{numbers_from, row_of, Tells};
ghost use Rattle.merc_graded_tree.specs.Nodes.{Node};

use crate::groups::{Group, NumberedGroup, put_group};
use crate::members::{Members, binders};
use crate::occurrences::{Index, Occurrences};
use crate::rights::{Awaited, Right};
use crate::rows::Rows;
use crate::signals::Signals;
use crate::sums::sum;
use merc_base::NoMemory;
use merc_goal_tree::Var;
use std::alloc::Global;

/// Puts each right to wait, by the numbers of all goals that use its variable, behind the others.
///
/// # Errors
///
/// `NoMemory` where memory was refused.
pub fn put_shares(
    alloc: Global,
    occurrences: &Occurrences<'_>,
    members: &Members<'_>,
    waits: &[Awaited],
    found: &mut Vec<(usize, Awaited)>,
) -> Result<(), NoMemory>
    requires { IsLaid occurrences.now members.now }
    ensures { OnOk result (found.new.items ≡ found.old.items ++ flat_map (wait_shares members.now.goals.items) waits.now) }
{
    for wait in waits {
        let users = members.users(alloc, occurrences, wait.right.variable, 0)?;
        put_share(wait, &users, found)?;
    }
    Ok(())
}

// Puts a right for each of these numbers.
fn put_share(
    wait: &Awaited,
    users: &[usize],
    found: &mut Vec<(usize, Awaited)>,
) -> Result<(), NoMemory>
    ensures { OnOk result (found.new.items ≡ found.old.items ++ map (λ number. (number, wait.now)) users.now) }
{
    for user in users {
        found.push((*user, *wait))?;
    }
    Ok(())
}

/// Each right to wait for what is used behind, by the numbers of the goals that do not use its variable.
///
/// # Errors
///
/// `NoMemory` where memory was refused.
pub fn passed(
    alloc: Global,
    occurrences: &Occurrences<'_>,
    members: &Members<'_>,
    waits: &[Awaited],
) -> Result<Rows<Right>, NoMemory>
    requires { IsLaid occurrences.now members.now }
    ensures { IfOk result (λ rows. (number : ℕ) → row_of number rows ≡ row_of number (flat_map (pass_shares members.now.goals.items) waits.now)) }
{
    let mut found = Vec::new(alloc);
    for wait in waits {
        put_if_later(alloc, occurrences, members, wait, &mut found)?;
    }
    Rows::of(found)
}

// Puts a right for each goal that does not use its variable, where it is used behind.
fn put_if_later(
    alloc: Global,
    occurrences: &Occurrences<'_>,
    members: &Members<'_>,
    wait: &Awaited,
    found: &mut Vec<(usize, Right)>,
) -> Result<(), NoMemory>
    requires { IsLaid occurrences.now members.now }
    ensures { OnOk result (found.new.items ≡ found.old.items ++ pass_shares members.now.goals.items wait.now) }
{
    if !wait.later {
        return Ok(());
    }
    let numbers = spared_by(alloc, occurrences, members, wait.right.variable)?;
    put_right_share(&wait.right, &numbers, found)
}

// Puts a right for each of these numbers.
fn put_right_share(
    right: &Right,
    numbers: &[usize],
    found: &mut Vec<(usize, Right)>,
) -> Result<(), NoMemory>
    ensures { OnOk result (found.new.items ≡ found.old.items ++ map (λ number. (number, right.now)) numbers.now) }
{
    for number in numbers {
        found.push((*number, *right))?;
    }
    Ok(())
}

// The goals that do not use a variable.
fn spared_by(
    alloc: Global,
    occurrences: &Occurrences<'_>,
    members: &Members<'_>,
    variable: Var,
) -> Result<Vec<usize>, NoMemory>
    requires { IsLaid occurrences.now members.now }
    ensures { IfOk result (λ numbers. numbers.items ≡ numbers_from (spared variable) 0 0 members.now.goals.items) }
{
    let mut numbers = Vec::new(alloc);
    for number in 0..members.goals.as_slice().len() {
        let used = is_user(occurrences, members, variable, number);
        put_unless(used, number, &mut numbers)?;
    }
    Ok(numbers)
}

// Whether the goal of a number uses the variable.
fn is_user(
    occurrences: &Occurrences<'_>,
    members: &Members<'_>,
    variable: Var,
    number: usize,
) -> bool
    requires { IsLaid occurrences.now members.now }
    ensures { (d : Node) → number < length members.now.goals.items → result ≡ in_node (slice_index_or members.now.goals.items number d) variable }
{
    match members.next_user(occurrences, variable, number) {
        Some(user) => user == number,
        None => false,
    }
}

// Puts a number unless it is not to be put.
fn put_unless(spared: bool, number: usize, numbers: &mut Vec<usize>) -> Result<(), NoMemory>
    ensures { OnOk result (numbers.new.items ≡ numbers.old.items ++ (if spared then [] else number ∷ [])) }
{
    if spared {
        return Ok(());
    }
    numbers.push(number)?;
    Ok(())
}

/// Each right to signal, by the numbers of all goals that bind its variable.
///
/// # Errors
///
/// `NoMemory` where memory was refused.
pub fn bound_shares(
    alloc: Global,
    members: &Members<'_>,
    signals: Signals,
) -> Result<Vec<NumberedGroup>, NoMemory>
    ensures { IfOk result (λ shares. (number : ℕ) → row_of number (numbered shares.items) ≡ row_of number (flat_map (signal_shares members.now.goals.items) signals)) }
{
    let binders = binders(alloc, &members.goals)?;
    spread_all(alloc, &binders, signals)
}

/// Each right to signal, by the numbers of all lists that hold its variable. Rights that go to one list are moved.
///
/// # Errors
///
/// `NoMemory` where memory was refused.
pub fn spread_all(
    alloc: Global,
    holders: &Index,
    signals: Signals,
) -> Result<Vec<NumberedGroup>, NoMemory>
    ensures { IfOk result (λ shares. (lists : List (List ℕ)) → Tells holders.now lists → (number : ℕ) → row_of number (numbered shares.items) ≡ row_of number (flat_map (shares_in lists) signals)) }
{
    let mut found = Vec::new(alloc);
    for group in signals.into_groups() {
        let numbers = held_by(alloc, holders, group.variable)?;
        spread(alloc, group, numbers, &mut found)?;
    }
    Ok(found)
}

// Puts a group for each of these numbers: the last one has the group itself.
fn spread(
    alloc: Global,
    group: Group,
    numbers: Vec<usize>,
    found: &mut Vec<NumberedGroup>,
) -> Result<(), NoMemory>
    ensures { OnOk result (numbered found.new.items ≡ numbered found.old.items ++ flat_map (λ number. map (λ right. (number, right)) (rights_in group)) numbers.items) }
{
    let mut numbers = numbers;
    match numbers.pop() {
        Some(number) => {
            put_copies(alloc, &group, &numbers, found)?;
            put_group(number, group, found)
        }
        None => Ok(()),
    }
}

// Puts a copy of a group for each of these numbers.
fn put_copies(
    alloc: Global,
    group: &Group,
    numbers: &[usize],
    found: &mut Vec<NumberedGroup>,
) -> Result<(), NoMemory>
    ensures { OnOk result (numbered found.new.items ≡ numbered found.old.items ++ flat_map (λ number. map (λ right. (number, right)) (rights_in group.now)) numbers.now) }
{
    for number in numbers {
        put_group(*number, group.try_clone(alloc)?, found)?;
    }
    Ok(())
}

// The lists that hold a variable.
fn held_by(alloc: Global, holders: &Index, variable: Var) -> Result<Vec<usize>, NoMemory>
    ensures { IfOk result (λ numbers. (lists : List (List ℕ)) → Tells holders.now lists → numbers.items ≡ numbers_from (λ list. among list variable) 0 0 lists) }
{
    let mut numbers = Vec::new(alloc);
    let mut next = 0;
    while let Some(holder) = holders.next(variable, next) {
        numbers.push(holder)?;
        next = sum(holder, 1)?;
    }
    Ok(numbers)
}
