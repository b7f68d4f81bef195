//! Rights to wait that stay before a goal, and those that go into it.
ghost use Rattle.std.specs.Prelude.{◌≡◌, ◌==◌, ◌++◌, [], ◌∷◌, IfOk, OnOk, if◌then◌else◌};
ghost use Rattle.std.specs.List.{filter};
ghost use Rattle.merc_graded_tree.specs.Nodes.{Node, nodes_of};
ghost use Rattle.merc_graded_tree.specs.Variables.{in_node};
ghost use Rattle.merc_rights.specs.Members.{IsLaid};
ghost use Rattle.merc_rights.specs.Waits.{moves, others, rights_of, stays, those_waits};

use crate::members::Members;
use crate::occurrences::Occurrences;
use crate::rights::{Awaited, Right};
use crate::turns::is_used_behind;
use merc_base::{NoMemory, Sequence};
use merc_goal_tree::Var;
use std::alloc::Global;

/// Rights to wait in two parts, each in order.
#[derive(Drop)]
pub struct Parted {
    /// Those that stay before the goal.
    pub before: Sequence<Right>,
    /// Those that go into it.
    pub inside: Sequence<Awaited>,
}

// Nothing in either part.
fn nothing(alloc: Global) -> Parted
    ensures before { result.before ≡ [] }
    ensures inside { result.inside ≡ [] }
{
    Parted {
        before: Sequence::new(alloc),
        inside: Sequence::new(alloc),
    }
}

// Puts a right into its part.
fn put(stays: bool, wait: Awaited, parted: &mut Parted) -> Result<(), NoMemory>
    ensures before { OnOk result (parted.new.before ≡ parted.old.before ++ (if stays then wait.right ∷ [] else [])) }
    ensures inside { OnOk result (parted.new.inside ≡ parted.old.inside ++ (if stays then [] else wait ∷ [])) }
{
    if stays {
        parted.before.push(wait.right)
    } else {
        parted.inside.push(wait)
    }
}

/// All stay.
///
/// # Errors
///
/// `NoMemory` where memory was refused.
pub fn rights(alloc: Global, waits: &[Awaited]) -> Result<Sequence<Right>, NoMemory>
    ensures { IfOk result (λ rights. rights ≡ rights_of waits.now) }
{
    let mut rights = Sequence::new(alloc);
    for wait in waits {
        rights.push(wait.right)?;
    }
    Ok(rights)
}

/// Those for a variable stay.
///
/// # Errors
///
/// `NoMemory` where memory was refused.
pub fn part_by_variable(alloc: Global, variable: Var, waits: &[Awaited]) -> Result<Parted, NoMemory>
    ensures before { IfOk result (λ parted. parted.before ≡ rights_of (those_waits (λ other. other == variable) waits.now)) }
    ensures inside { IfOk result (λ parted. parted.inside ≡ those_waits (others (λ other. other == variable)) waits.now) }
{
    let mut parted = nothing(alloc);
    for wait in waits {
        put(
            wait.right.variable.number() == variable.number(),
            *wait,
            &mut parted,
        )?;
    }
    Ok(parted)
}

/// Those stay that a goal, which is alone, uses.
///
/// # Errors
///
/// `NoMemory` where memory was refused.
pub fn part_by_use(
    alloc: Global,
    occurrences: &Occurrences<'_>,
    condition: &Members<'_>,
    waits: &[Awaited],
) -> Result<Parted, NoMemory>
    requires { IsLaid occurrences.now condition.now }
    ensures before { (goal : Node) → condition.now.goals.items ≡ goal ∷ [] → IfOk result (λ parted. parted.before ≡ rights_of (those_waits (in_node goal) waits.now)) }
    ensures inside { (goal : Node) → condition.now.goals.items ≡ goal ∷ [] → IfOk result (λ parted. parted.inside ≡ those_waits (others (in_node goal)) waits.now) }
{
    let mut parted = nothing(alloc);
    for wait in waits {
        let user = condition.next_user(occurrences, wait.right.variable, 0);
        put(user.is_some(), *wait, &mut parted)?;
    }
    Ok(parted)
}

/// All stay but those that move into the one goal which uses their variable.
///
/// # Errors
///
/// `NoMemory` where memory was refused.
pub fn part_by_moves(
    alloc: Global,
    occurrences: &Occurrences<'_>,
    members: &Members<'_>,
    waits: &[Awaited],
) -> Result<Parted, NoMemory>
    requires { IsLaid occurrences.now members.now }
    ensures before { IfOk result (λ parted. parted.before ≡ rights_of (filter (stays (nodes_of members.now.goals.items)) waits.now)) }
    ensures inside { IfOk result (λ parted. parted.inside ≡ filter (moves (nodes_of members.now.goals.items)) waits.now) }
{
    let mut parted = nothing(alloc);
    for wait in waits {
        let moves = moves(occurrences, members, *wait);
        put(!moves, *wait, &mut parted)?;
    }
    Ok(parted)
}

// Whether just one goal uses the variable, and nothing behind.
fn moves(occurrences: &Occurrences<'_>, members: &Members<'_>, wait: Awaited) -> bool
    requires { IsLaid occurrences.now members.now }
    ensures { result ≡ moves (nodes_of members.now.goals.items) wait }
{
    let variable = wait.right.variable;
    match members.next_user(occurrences, variable, 0) {
        Some(user) => !wait.later && !is_used_behind(occurrences, members, variable, user),
        None => false,
    }
}
