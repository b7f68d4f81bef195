//! The conjuncts of an `&`: what each waits for and signals, the cells between them, and the rights that move into them.
ghost use Rattle.std.specs.Prelude.{◌≡◌, ◌<◌, ◌++◌, ℕ, suc, List, [], ◌∷◌, map, length, slice_index_or, IfOk, OnOk, if◌then◌else◌, true};
ghost use Rattle.std.specs.List.{flat_map};
ghost use Rattle.std.specs.List.Sorted.{IsNonDecreasingBy};
ghost use Rattle.merc_graded_tree.specs.Nodes.{Node, outputs_of};
ghost use Rattle.merc_rights.specs.Groups.{by_variable, held_in, held_variables, numbered, numbered_with, AreAt, AreHeld};
ghost use Rattle.merc_rights.specs.Members.{move_of, wait_shares, Adds, AddsVariable, AddsVariables, Finds, FindsWith, IsLaid};
ghost use Rattle.merc_rights.specs.Waits.{fresh};
ghost use Rattle.merc_rights.specs.Rights.{right_to, Right as MeantRight};
ghost use Rattle.merc_rights.specs.Rows.{Tells};

use crate::arms::{put_shares, spread_all};
use crate::groups::{Group, NumberedGroup, put_group};
use crate::members::Members;
use crate::occurrences::{Index, Occurrences, put, put_all};
use crate::rights::{Awaited, Right};
use crate::signals::{Signals, by_number, take_row, with_others};
use crate::sites::{CellInfo, Moved};
use crate::sums::sum;
use merc_base::NoMemory;
use merc_goal_tree::Var;
use std::alloc::Global;

/// What is found at an `&`. Conjuncts are numbered from 0 where they come with groups or first in a pair, and else from 1.
#[derive(Drop)]
pub struct Found {
    pub cells: Vec<CellInfo>,
    pub moves: Vec<Moved>,
    pub waits: Vec<(usize, Awaited)>,
    pub signals: Vec<NumberedGroup>,
}

/// What the variables give that conjuncts bind, where these rights to signal move in.
///
/// # Errors
///
/// `NoMemory` where memory was refused.
pub fn found_at(
    alloc: Global,
    occurrences: &Occurrences<'_>,
    members: &Members<'_>,
    outputs: &[Var],
    signals: Signals,
) -> Result<Found, NoMemory>
    requires { IsLaid occurrences.now members.now }
    ensures { IfOk result (λ found. Finds members.now.goals.items outputs.now signals found) }
{
    let held = set_of_held(alloc, signals.groups())?;
    let found = found_without(alloc, occurrences, members, outputs, &held)?;
    let Found {
        cells,
        moves,
        waits,
        signals: own,
    } = found;
    Ok(Found {
        cells,
        moves,
        waits,
        signals: with_moved(alloc, own, signals)?,
    })
}

// What the variables give that conjuncts bind, without the rights to signal that move in.
fn found_without(
    alloc: Global,
    occurrences: &Occurrences<'_>,
    members: &Members<'_>,
    outputs: &[Var],
    held: &Index,
) -> Result<Found, NoMemory>
    requires { IsLaid occurrences.now members.now }
    ensures { IfOk result (λ found. (variables : List ℕ) → Tells held.now (variables ∷ []) → (moved : List (ℕ × MeantRight)) → AreHeld variables moved → FindsWith members.now.goals.items outputs.now moved found) }
{
    let outputs = set_of(alloc, outputs)?;
    let mut found = Found {
        cells: Vec::new(alloc),
        moves: Vec::new(alloc),
        waits: Vec::new(alloc),
        signals: Vec::new(alloc),
    };
    for producer in 0..members.goals.len() {
        put_producer(
            alloc,
            occurrences,
            members,
            &outputs,
            held,
            producer,
            &mut found,
        )?;
    }
    Ok(found)
}

// The variables of a list, to be asked for.
fn set_of(alloc: Global, variables: &[Var]) -> Result<Index, NoMemory>
    ensures { IfOk result (λ set. Tells set (variables.now ∷ [])) }
{
    let mut pairs = Vec::new(alloc);
    put_all(variables, 0, &mut pairs)?;
    Index::of(pairs)
}

// The variables of groups that have rights, to be asked for.
fn set_of_held(alloc: Global, groups: &[Group]) -> Result<Index, NoMemory>
    ensures { IfOk result (λ set. Tells set (held_variables groups.now ∷ [])) }
{
    let mut pairs = Vec::new(alloc);
    for group in groups {
        put_held(group, &mut pairs)?;
    }
    Index::of(pairs)
}

// Puts the variable of a group that has rights.
fn put_held(group: &Group, pairs: &mut Vec<(usize, usize)>) -> Result<(), NoMemory>
    ensures { OnOk result (pairs.new.items ≡ pairs.old.items ++ map (λ variable. (variable, 0)) (held_in group.now)) }
{
    if group.conjuncts.is_empty() {
        return Ok(());
    }
    put(group.variable, 0, pairs)
}

// Puts what the variables give that a conjunct binds.
fn put_producer(
    alloc: Global,
    occurrences: &Occurrences<'_>,
    members: &Members<'_>,
    outputs: &Index,
    held: &Index,
    producer: usize,
    found: &mut Found,
) -> Result<(), NoMemory>
    requires laid { IsLaid occurrences.now members.now }
    requires within { producer < length members.now.goals.items }
    ensures { OnOk result ((list variables : List ℕ) → Tells outputs.now (list ∷ []) → Tells held.now (variables ∷ []) → (moved : List (ℕ × MeantRight)) → AreHeld variables moved → (d : Node) → AddsVariables members.now.goals.items list moved producer (outputs_of (slice_index_or members.now.goals.items producer d)) found.old found.new) }
{
    for variable in members.goals[producer].outputs().as_slice() {
        put_variable(
            alloc,
            occurrences,
            members,
            outputs,
            held,
            producer,
            *variable,
            found,
        )?;
    }
    Ok(())
}

// Puts what a variable gives that a conjunct binds.
fn put_variable(
    alloc: Global,
    occurrences: &Occurrences<'_>,
    members: &Members<'_>,
    outputs: &Index,
    held: &Index,
    producer: usize,
    variable: Var,
    found: &mut Found,
) -> Result<(), NoMemory>
    requires { IsLaid occurrences.now members.now }
    ensures { OnOk result ((list variables : List ℕ) → Tells outputs.now (list ∷ []) → Tells held.now (variables ∷ []) → (moved : List (ℕ × MeantRight)) → AreHeld variables moved → AddsVariable members.now.goals.items list moved producer variable found.old found.new) }
{
    let child = sum(producer, 1)?;
    let users = members.users(alloc, occurrences, variable, child)?;
    let consumers = consumers(alloc, &users, outputs.next(variable, 0).is_some())?;
    put_cells(variable, child, &consumers, &mut found.cells)?;
    put_waits(variable, &users, &mut found.waits)?;
    let is_held = held.next(variable, 0).is_some();
    put_move(is_held, variable, child, &mut found.moves)?;
    let group = Group {
        variable,
        conjuncts: consumers,
    };
    put_group(producer, group, &mut found.signals)
}

// Puts what tells of rights to signal that move in where there are such.
fn put_move(
    is_held: bool,
    variable: Var,
    child: usize,
    moves: &mut Vec<Moved>,
) -> Result<(), NoMemory>
    ensures { OnOk result (moves.new.items ≡ moves.old.items ++ (if is_held then record { variable = variable; child = child; signal = true } ∷ [] else [])) }
{
    if !is_held {
        return Ok(());
    }
    moves.push(Moved {
        variable,
        child,
        signal: true,
    })?;
    Ok(())
}

// Who waits for a variable: conjuncts of these numbers from 0 on, by their numbers from 1, and the goals behind if they do.
fn consumers(alloc: Global, users: &[usize], behind: bool) -> Result<Vec<usize>, NoMemory>
    ensures { IfOk result (λ consumers. consumers.items ≡ map suc users.now ++ (if behind then 0 ∷ [] else [])) }
{
    let mut consumers = Vec::new(alloc);
    for user in users {
        consumers.push(sum(*user, 1)?)?;
    }
    if behind {
        consumers.push(0)?;
    }
    Ok(consumers)
}

// Puts the cells of a variable behind the others.
fn put_cells(
    variable: Var,
    producer: usize,
    consumers: &[usize],
    cells: &mut Vec<CellInfo>,
) -> Result<(), NoMemory>
    ensures { OnOk result (cells.new.items ≡ cells.old.items ++ map (λ consumer. record { variable = variable; producer = producer; consumer = consumer }) consumers.now) }
{
    for consumer in consumers {
        cells.push(CellInfo {
            variable,
            producer,
            consumer: *consumer,
        })?;
    }
    Ok(())
}

// Puts the rights of conjuncts to wait for a variable behind the others.
fn put_waits(
    variable: Var,
    users: &[usize],
    waits: &mut Vec<(usize, Awaited)>,
) -> Result<(), NoMemory>
    ensures { OnOk result (waits.new.items ≡ waits.old.items ++ map (λ user. (user, fresh (right_to (suc user) variable))) users.now) }
{
    for user in users {
        let right = Right {
            variable,
            conjunct: sum(*user, 1)?,
        };
        waits.push((
            *user,
            Awaited {
                right,
                later: false,
            },
        ))?;
    }
    Ok(())
}

// The groups of conjuncts, with the rights that move in for their variables.
fn with_moved(
    alloc: Global,
    own: Vec<NumberedGroup>,
    signals: Signals,
) -> Result<Vec<NumberedGroup>, NoMemory>
    ensures { IfOk result (λ all. numbered all.items ≡ numbered_with (by_variable signals) own.items) }
{
    let places = places(alloc, &own)?;
    let moved = by_number(spread_all(alloc, &places, signals)?)?;
    joined(alloc, own, moved)
}

// Where groups stand, by variable.
fn places(alloc: Global, groups: &[NumberedGroup]) -> Result<Index, NoMemory>
    ensures { IfOk result (λ places. Tells places (map (λ item. item.group.variable ∷ []) groups.now)) }
{
    let mut pairs = Vec::new(alloc);
    for (place, item) in groups.iter().enumerate() {
        put(item.group.variable, place, &mut pairs)?;
    }
    Index::of(pairs)
}

// Groups, each with the rights by the number of its place.
fn joined(
    alloc: Global,
    own: Vec<NumberedGroup>,
    moved: Vec<NumberedGroup>,
) -> Result<Vec<NumberedGroup>, NoMemory>
    requires { IsNonDecreasingBy (λ item. item.number) moved.items }
    ensures { IfOk result (λ all. (signals : List MeantRight) → AreAt own.items signals (numbered moved.items) → numbered all.items ≡ numbered_with (by_variable signals) own.items) }
{
    let mut left = own;
    let mut rows = moved;
    let mut all = Vec::new(alloc);
    while let Some(item) = left.pop() {
        let others = take_row(alloc, left.len(), &mut rows)?;
        all.push(NumberedGroup {
            number: item.number,
            group: with_others(item.group, others)?,
        })?;
    }
    all.reverse();
    Ok(all)
}

/// Puts rights to wait that move into the conjuncts which use their variables behind what is found.
///
/// # Errors
///
/// `NoMemory` where memory was refused.
pub fn put_moved(
    alloc: Global,
    occurrences: &Occurrences<'_>,
    members: &Members<'_>,
    inside: &[Awaited],
    found: &mut Found,
) -> Result<(), NoMemory>
    requires { IsLaid occurrences.now members.now }
    ensures { OnOk result (Adds [] found.old found.new [] (map move_of (flat_map (wait_shares members.now.goals.items) inside.now)) (flat_map (wait_shares members.now.goals.items) inside.now) []) }
{
    let mut pairs = Vec::new(alloc);
    put_shares(alloc, occurrences, members, inside, &mut pairs)?;
    for pair in &pairs {
        put_moved_in(pair, found)?;
    }
    Ok(())
}

// Puts a right to wait that moves into the conjunct of a number.
fn put_moved_in(pair: &(usize, Awaited), found: &mut Found) -> Result<(), NoMemory>
    ensures { OnOk result (Adds [] found.old found.new [] (move_of pair.now ∷ []) (pair.now ∷ []) []) }
{
    let child = sum(pair.0, 1)?;
    found.moves.push(Moved {
        variable: pair.1.right.variable,
        child,
        signal: false,
    })?;
    found.waits.push(*pair)?;
    Ok(())
}
