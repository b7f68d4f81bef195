//! Where the variables of a goal occur.
ghost use Rattle.std.specs.Prelude.{◌≡◌, ◌∷◌, ◌++◌, nat_le, ℕ, [], map, slice_get, IfOk, OnOk};
ghost use Rattle.std.specs.List.{find};
ghost use Rattle.std.specs.Option.{option_map};
ghost use Rattle.std.specs.List.Sorted.{IsNonDecreasing, IsNonDecreasingBy};
ghost use Rattle.merc_graded_tree.specs.Variables.{among, variables_of};
ghost use Rattle.merc_rights.specs.Rows.{next_from, pairs_from, row_of, Tells};
ghost use Rattle.merc_rights.specs.Uses.{uses, uses_of};

use crate::rows::Rows;
use merc_base::NoMemory;
use merc_goal_tree::Var;
use merc_graded_tree::{BasicGoal, NodeRef, Root};
use std::alloc::Global;
use std::marker::Model;

/// Numbers by variable, in order.
#[derive(Drop)]
pub struct Index {
    rows: Rows<usize>,
}

impl Model for Index {
    ghost use Rattle.std.specs.Prelude.{ℕ, List};
    ghost use Rattle.std.specs.List.Sorted.{IsNonDecreasing};
    ghost use Rattle.merc_rights.specs.Rows.{row_of};

    ghost Value = { List (ℕ × ℕ) };

    ghost view = { λ i. i.rows };

    ghost invariant = { λ i. (variable : ℕ) → IsNonDecreasing (row_of variable i.rows) };
}

impl Index {
    /// These numbers, each with its variable.
    ///
    /// # Errors
    ///
    /// `NoMemory` where memory was refused.
    pub fn of(pairs: Vec<(usize, usize)>) -> Result<Index, NoMemory>
        requires { (variable : ℕ) → IsNonDecreasing (row_of variable pairs.items) }
        ensures { IfOk result (λ index. (variable : ℕ) → row_of variable index ≡ row_of variable pairs.items) }
    {
        Ok(Index {
            rows: Rows::of(pairs)?,
        })
    }

    /// The first number of a variable from one on.
    pub fn next(&self, variable: Var, from: usize) -> Option<usize>
        ensures { result ≡ find (nat_le from) (row_of variable self.now) }
    {
        first_from(self.rows.row(variable.number()), from)
    }
}

// The first of these numbers from one on.
fn first_from(row: &[(usize, usize)], from: usize) -> Option<usize>
    requires { IsNonDecreasingBy (λ item. item.1) row.now }
    ensures { result ≡ find (nat_le from) (map (λ item. item.1) row.now) }
{
    number_at(row, row.partition_point(|item| item.1 < from))
}

// The number at an index.
fn number_at(row: &[(usize, usize)], index: usize) -> Option<usize>
    ensures { result ≡ option_map (λ item. item.1) (slice_get row.now index) }
{
    match row.get(index) {
        Some(item) => Some(item.1),
        None => None,
    }
}

/// For each variable of a goal the indexes of the parts that hold it, in order. A goal that the goal holds has the indexes
/// of its own parts, which stand together, so that whether it uses a variable is one search.
#[derive(Drop)]
pub struct Occurrences<'a> {
    goal: NodeRef<'a>,
    index: Index,
}

impl<'a> Model for Occurrences<'a> {
    ghost use Rattle.merc_graded_tree.specs.Nodes.{Node};
    ghost use Rattle.merc_rights.specs.Rows.{Tells};
    ghost use Rattle.merc_rights.specs.Uses.{uses_of};

    ghost Value = { Node };

    ghost use Rattle.merc_graded_tree.specs.LabelCode.{node_code};

    ghost coded = { node_code };

    ghost view = { λ o. o.goal };

    ghost invariant = { λ o. Tells o.index (uses_of o.goal) };
}

impl<'a> Occurrences<'a> {
    /// Those of a goal. It takes time of the order of the number of its variables times its logarithm.
    ///
    /// # Errors
    ///
    /// `NoMemory` where memory was refused.
    pub fn of(alloc: Global, goal: &NodeRef<'a>) -> Result<Occurrences<'a>, NoMemory>
        ensures { IfOk result (λ occurrences. occurrences ≡ goal.now) }
    {
        let index = Index::of(part_pairs(alloc, goal)?)?;
        Ok(Occurrences {
            goal: goal.copy(),
            index,
        })
    }

    /// The first part from an index on that holds the variable.
    pub fn first_from(&self, variable: Var, from: usize) -> Option<usize>
        ensures { result ≡ next_from (λ list. among list variable) from 0 (uses_of self.now) }
    {
        self.index.next(variable, from)
    }
}

// The variables of the parts of a goal, each with the index of the part.
fn part_pairs(alloc: Global, goal: &NodeRef<'_>) -> Result<Vec<(usize, usize)>, NoMemory>
    ensures { IfOk result (λ pairs. pairs.items ≡ pairs_from 0 (uses_of goal.now)) }
{
    let mut pairs = Vec::new(alloc);
    for index in 0..goal.part_count() {
        if let Some(label) = goal.part(index) {
            put_root(&label.root, index, &mut pairs)?;
        }
    }
    Ok(pairs)
}

// Puts the variables of a root, which is the part at an index.
fn put_root(root: &Root, index: usize, pairs: &mut Vec<(usize, usize)>) -> Result<(), NoMemory>
    ensures { OnOk result (pairs.new.items ≡ pairs.old.items ++ map (λ variable. (variable, index)) (uses root.now)) }
{
    match root {
        Root::Basic(goal) => put_basic(goal, index, pairs),
        Root::Switch(variable, _) => put(*variable, index, pairs),
        Root::Conjunction(_, _)
        | Root::Disjunction(_)
        | Root::Conditional
        | Root::Negation
        | Root::Quantified(_) => Ok(()),
    }
}

// Puts the variables of a goal that holds no others.
fn put_basic(
    goal: &BasicGoal,
    index: usize,
    pairs: &mut Vec<(usize, usize)>,
) -> Result<(), NoMemory>
    ensures { OnOk result (pairs.new.items ≡ pairs.old.items ++ map (λ variable. (variable, index)) (variables_of goal.now)) }
{
    match goal {
        BasicGoal::True | BasicGoal::Fail => Ok(()),
        BasicGoal::Assign(one, other)
        | BasicGoal::Test(one, other)
        | BasicGoal::Compare(_, one, other) => put_two(*one, *other, index, pairs),
        BasicGoal::Build(whole, _, arguments) | BasicGoal::Split(whole, _, arguments) => {
            put_with_all(*whole, arguments.as_slice(), index, pairs)
        }
        BasicGoal::Arithmetic(_, result, left, right) => {
            put_three(*result, *left, *right, index, pairs)
        }
        BasicGoal::Raise(variable)
        | BasicGoal::Wait(variable, _)
        | BasicGoal::Signal(variable, _) => put(*variable, index, pairs),
        BasicGoal::Call(_, arguments) => put_all(arguments.as_slice(), index, pairs),
    }
}

// Puts two variables with a number behind the others.
fn put_two(
    one: Var,
    other: Var,
    number: usize,
    pairs: &mut Vec<(usize, usize)>,
) -> Result<(), NoMemory>
    ensures { OnOk result (pairs.new.items ≡ pairs.old.items ++ (one, number) ∷ (other, number) ∷ []) }
{
    put(one, number, pairs)?;
    put(other, number, pairs)
}

// Puts three variables with a number behind the others.
fn put_three(
    one: Var,
    other: Var,
    last: Var,
    number: usize,
    pairs: &mut Vec<(usize, usize)>,
) -> Result<(), NoMemory>
    ensures { OnOk result (pairs.new.items ≡ pairs.old.items ++ (one, number) ∷ (other, number) ∷ (last, number) ∷ []) }
{
    put(one, number, pairs)?;
    put_two(other, last, number, pairs)
}

// Puts a variable and then others, all with a number, behind the others.
fn put_with_all(
    first: Var,
    rest: &[Var],
    number: usize,
    pairs: &mut Vec<(usize, usize)>,
) -> Result<(), NoMemory>
    ensures { OnOk result (pairs.new.items ≡ pairs.old.items ++ (first, number) ∷ map (λ variable. (variable, number)) rest.now) }
{
    put(first, number, pairs)?;
    put_all(rest, number, pairs)
}

/// Puts variables, each with a number, behind the others.
///
/// # Errors
///
/// `NoMemory` where memory was refused.
pub fn put_all(
    variables: &[Var],
    number: usize,
    pairs: &mut Vec<(usize, usize)>,
) -> Result<(), NoMemory>
    ensures { OnOk result (pairs.new.items ≡ pairs.old.items ++ map (λ variable. (variable, number)) variables.now) }
{
    for variable in variables {
        put(*variable, number, pairs)?;
    }
    Ok(())
}

/// Puts a variable with a number behind the others.
///
/// # Errors
///
/// `NoMemory` where memory was refused.
pub fn put(variable: Var, number: usize, pairs: &mut Vec<(usize, usize)>) -> Result<(), NoMemory>
    ensures { OnOk result (pairs.new.items ≡ pairs.old.items ++ (variable, number) ∷ []) }
{
    pairs.push((variable.number(), number))?;
    Ok(())
}
