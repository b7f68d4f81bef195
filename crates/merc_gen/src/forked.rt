//! The code of conjuncts that are forked.
ghost use Rattle.std.specs.Prelude.{◌≡◌, ◌++◌, [], map, IfOk, OnOk};
ghost use Rattle.merc_graded_tree.specs.Nodes.{Conjunction, goal_of, nodes_of};
ghost use Rattle.merc_gen.specs.Generated.{conjunct_code, conjunct_codes};
ghost use Rattle.merc_gen.specs.Singles.{contained};
ghost use Rattle.merc_gen.specs.Sites.{forked_in, forked_in_all, forked_with};
ghost use Rattle.merc_gen.specs.Walking.{own_forked};

use crate::Singles;
use crate::generating::generate_goal;
use crate::trees::TreesLeft;
use crate::variables::variables_in;
use crate::walking::push_parts;
use merc_base::{NoMemory, Sequence};
use merc_code::{CompiledConjunct, Instruction};
use merc_graded_tree::{NodeRef, NodeView, Nodes, Parts, Running, push_all};
use std::alloc::Global;

/// The code of the conjuncts that are forked at each site, first of these trees and then of a goal, in the order of the text.
///
/// # Errors
///
/// `NoMemory` where memory was refused.
pub(crate) fn generate_conjuncts(
    alloc: Global,
    singles: &Singles,
    trees: &Nodes,
    goal: &NodeRef<'_>,
) -> Result<Sequence<Sequence<CompiledConjunct>>, NoMemory>
    ensures { IfOk result (λ conjuncts. conjuncts ≡ map (conjunct_codes (contained singles.now)) (forked_with trees.now goal.now)) }
{
    let mut conjuncts = Sequence::new(alloc);
    put_both(alloc, singles, trees, goal, &mut conjuncts).and(Ok(conjuncts))
}

// Puts the code of the conjuncts that are forked in these trees, and then in a goal, into an empty list.
fn put_both(
    alloc: Global,
    singles: &Singles,
    trees: &Nodes,
    goal: &NodeRef<'_>,
    conjuncts: &mut Sequence<Sequence<CompiledConjunct>>,
) -> Result<(), NoMemory>
    requires { conjuncts.old ≡ [] }
    ensures { OnOk result (conjuncts.new ≡ map (conjunct_codes (contained singles.now)) (forked_with trees.now goal.now)) }
{
    put_trees(alloc, singles, trees, conjuncts)?;
    put_forked(alloc, singles, goal, conjuncts)
}

// Puts the code of the conjuncts that are forked in these trees into an empty list.
fn put_trees(
    alloc: Global,
    singles: &Singles,
    trees: &Nodes,
    conjuncts: &mut Sequence<Sequence<CompiledConjunct>>,
) -> Result<(), NoMemory>
    requires { conjuncts.old ≡ [] }
    ensures { OnOk result (conjuncts.new ≡ map (conjunct_codes (contained singles.now)) (forked_in_all (nodes_of trees.now))) }
{
    let mut left = TreesLeft::new(trees);
    while let Some(tree) = left.take_first() {
        put_forked(alloc, singles, &tree, conjuncts)?;
    }
    Ok(())
}

// Puts the code of the conjuncts that are forked in a goal behind the others.
fn put_forked(
    alloc: Global,
    singles: &Singles,
    goal: &NodeRef<'_>,
    conjuncts: &mut Sequence<Sequence<CompiledConjunct>>,
) -> Result<(), NoMemory>
    ensures { OnOk result (conjuncts.new ≡ conjuncts.old ++ map (conjunct_codes (contained singles.now)) (forked_in goal.now)) }
{
    let mut left = Vec::new(alloc);
    let done = put_all_forked(alloc, singles, goal, &mut left, conjuncts);
    // (a call, since it costs much to prove what is dropped here)
    drop(left);
    done
}

// The same where nothing is left to be looked at.
fn put_all_forked<'a>(
    alloc: Global,
    singles: &Singles,
    goal: &NodeRef<'a>,
    left: &mut Vec<NodeRef<'a>>,
    conjuncts: &mut Sequence<Sequence<CompiledConjunct>>,
) -> Result<(), NoMemory>
    requires { left.old.items ≡ [] }
    ensures { OnOk result (conjuncts.new ≡ conjuncts.old ++ map (conjunct_codes (contained singles.now)) (forked_in goal.now)) }
{
    left.push(goal.copy())?;
    while let Some(next) = left.pop() {
        put_own(alloc, singles, &next, conjuncts)?;
        push_parts(&next, left)?;
    }
    Ok(())
}

// Puts the code of the conjuncts that a goal forks itself.
fn put_own(
    alloc: Global,
    singles: &Singles,
    goal: &NodeRef<'_>,
    conjuncts: &mut Sequence<Sequence<CompiledConjunct>>,
) -> Result<(), NoMemory>
    ensures { OnOk result (conjuncts.new ≡ conjuncts.old ++ map (conjunct_codes (contained singles.now)) (own_forked (goal_of goal.now))) }
{
    match goal.view() {
        NodeView::Conjunction(running, goals) => {
            put_running(alloc, singles, running, goals, conjuncts)
        }
        NodeView::Basic(_) => Ok(()),
        NodeView::Disjunction(_) => Ok(()),
        NodeView::Switch(_, _, _) => Ok(()),
        NodeView::Conditional(_, _, _) => Ok(()),
        NodeView::Negation(_) => Ok(()),
        NodeView::Quantified(_, _) => Ok(()),
    }
}

// Puts the code of goals that run so, where they are forked.
fn put_running(
    alloc: Global,
    singles: &Singles,
    running: Running,
    goals: Parts<'_>,
    conjuncts: &mut Sequence<Sequence<CompiledConjunct>>,
) -> Result<(), NoMemory>
    ensures { OnOk result (conjuncts.new ≡ conjuncts.old ++ map (conjunct_codes (contained singles.now)) (own_forked (Conjunction running (nodes_of goals.entry)))) }
{
    match running {
        Running::Parallel(Some(_)) => conjuncts.push(generate_each(alloc, singles, goals)?),
        Running::Parallel(None) => Ok(()),
        Running::Sequential => Ok(()),
    }
}

// The code of each of these conjuncts.
fn generate_each(
    alloc: Global,
    singles: &Singles,
    goals: Parts<'_>,
) -> Result<Sequence<CompiledConjunct>, NoMemory>
    ensures { IfOk result (λ codes. codes ≡ conjunct_codes (contained singles.now) (nodes_of goals.entry)) }
{
    let mut left = Vec::new(alloc);
    let mut codes = Sequence::new(alloc);
    let done = put_each(alloc, singles, goals, &mut left, &mut codes);
    // (a call, since it costs much to prove what is dropped here)
    drop(left);
    done.and(Ok(codes))
}

// Puts the code of each of these conjuncts into an empty list, where nothing is left to be looked at.
fn put_each<'a>(
    alloc: Global,
    singles: &Singles,
    goals: Parts<'a>,
    left: &mut Vec<NodeRef<'a>>,
    codes: &mut Sequence<CompiledConjunct>,
) -> Result<(), NoMemory>
    requires left { left.old.items ≡ [] }
    requires codes { codes.old ≡ [] }
    ensures { OnOk result (codes.new ≡ conjunct_codes (contained singles.now) (nodes_of goals.entry)) }
{
    push_all(goals, left)?;
    while let Some(goal) = left.pop() {
        codes.push(generate_conjunct(alloc, singles, &goal)?)?;
    }
    Ok(())
}

// The code of one conjunct.
fn generate_conjunct(
    alloc: Global,
    singles: &Singles,
    goal: &NodeRef<'_>,
) -> Result<CompiledConjunct, NoMemory>
    ensures { IfOk result (λ conjunct. conjunct ≡ conjunct_code (contained singles.now) goal.now) }
{
    let used = variables_in(alloc, goal)?;
    let code = generate_goal(alloc, singles, goal, Instruction::Close)?;
    Ok(CompiledConjunct {
        used,
        code: Sequence::from_vec(code),
    })
}
