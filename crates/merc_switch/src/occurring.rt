//! The outputs that occur in goals.
ghost use Rattle.std.specs.Prelude.{◌≡◌, ℕ, ◌||◌, ◌∷◌, [], filter, IfOk, IfSome, OnOk};
ghost use Rattle.std.specs.List.{list_all};
ghost use Rattle.merc_graded_tree.specs.Nodes.{nodes_of, outputs_of};
ghost use Rattle.merc_graded_tree.specs.Variables.{in_nodes, variables_of};
ghost use Rattle.merc_order.specs.Bound.{among};
ghost use Rattle.merc_switch.specs.Occurring.{variables_at, outputs_behind};
ghost use Rattle.merc_switch.specs.Selections.{MayCount, has_output};

use crate::counting::{counts_of, outputs_counted};
use crate::whole::Whole;
use merc_base::NoMemory;
use merc_goal_tree::{Var, Vars};
use merc_graded_tree::{BasicGoal, NodeRef, Root};
use merc_switch_choice::{Disjunct, VarCounts, VarSet};
use std::alloc::Global;

/// Those of the outputs of the whole that occur in the disjuncts. Where they are not counted yet the smallest disjunct is
/// gone through first: if it has all outputs they need not be counted.
///
/// # Errors
///
/// `NoMemory` where memory was refused, here and in the calls below.
pub(crate) fn outputs_in(
    alloc: Global,
    whole: &Whole<'_>,
    disjuncts: &[Disjunct<'_>],
    counts: &mut Option<VarCounts>,
) -> Result<Vars, NoMemory>
    requires { MayCount whole.now counts.old disjuncts.now }
    ensures outputs { IfOk result (λ kept. kept ≡ filter (λ output. in_nodes (nodes_of disjuncts.now) output) (outputs_of whole.now)) }
    ensures counts { MayCount whole.now counts.new disjuncts.now }
{
    if let Some(counts) = counts {
        return outputs_counted(alloc, whole, counts);
    }
    let mut found = VarSet::new(alloc);
    let all = all_in_smallest(alloc, whole, disjuncts, &mut found);
    // (calls, here and below, since it costs much to prove what is dropped)
    drop(found);
    if let Some(outputs) = all? {
        return Ok(outputs);
    }
    let made = counts_of(alloc, whole, disjuncts)?;
    let outputs = outputs_counted(alloc, whole, &made);
    drop(counts.replace(made));
    outputs
}

// The outputs of the whole if all of them occur in the disjunct of the fewest parts, where none are found yet.
fn all_in_smallest(
    alloc: Global,
    whole: &Whole<'_>,
    disjuncts: &[Disjunct<'_>],
    found: &mut VarSet,
) -> Result<Option<Vars>, NoMemory>
    requires { found.old ≡ [] }
    ensures { IfOk result (λ all. IfSome all (λ kept. kept ≡ filter (λ output. in_nodes (nodes_of disjuncts.now) output) (outputs_of whole.now))) }
{
    add_smallest(disjuncts, whole, found)?;
    if has_all(found, whole.outputs()) {
        return Ok(Some(whole.outputs_among(alloc, found)?));
    }
    Ok(None)
}

// Adds the outputs of the whole that occur in the disjunct of the fewest parts.
fn add_smallest(
    disjuncts: &[Disjunct<'_>],
    whole: &Whole<'_>,
    found: &mut VarSet,
) -> Result<(), NoMemory>
    ensures { OnOk result ((variable : ℕ) → (among found.new variable || in_nodes (nodes_of disjuncts.now) variable) ≡ (among found.old variable || in_nodes (nodes_of disjuncts.now) variable)) }
{
    match disjuncts.get(smallest_of(disjuncts)) {
        Some(smallest) => add_outputs(&smallest.goal(), whole, found),
        None => Ok(()),
    }
}

// The index of the disjunct of the fewest parts, 0 where there are no disjuncts.
fn smallest_of(disjuncts: &[Disjunct<'_>]) -> usize {
    let mut smallest = 0;
    for index in 0..disjuncts.len() {
        if disjuncts[index].goal().part_count() < disjuncts[smallest].goal().part_count() {
            smallest = index;
        }
    }
    smallest
}

// Whether all of the outputs are among the variables.
fn has_all(variables: &VarSet, outputs: &[Var]) -> bool
    ensures { result ≡ list_all (λ output. among variables.now output) outputs.now }
{
    for output in outputs {
        if !variables.contains(*output) {
            return false;
        }
    }
    true
}

/// Adds the outputs of the whole that occur in a goal.
pub(crate) fn add_outputs(
    goal: &NodeRef<'_>,
    whole: &Whole<'_>,
    found: &mut VarSet,
) -> Result<(), NoMemory>
    ensures { OnOk result ((variable : ℕ) → among found.new variable ≡ (among found.old variable || has_output (outputs_of whole.now) variable goal.now)) }
{
    for index in 0..goal.part_count() {
        match goal.part(index) {
            Some(label) => add_own(&label.root, whole, found)?,
            None => unreachable!(),
        }
    }
    Ok(())
}

// Adds those in a goal itself, without the goals that it joins.
fn add_own(root: &Root, whole: &Whole<'_>, found: &mut VarSet) -> Result<(), NoMemory>
    ensures { OnOk result (found.new ≡ outputs_behind (outputs_of whole.now) found.old (variables_at root.now)) }
{
    match root {
        Root::Basic(goal) => add_basic(goal, whole, found),
        Root::Switch(variable, _) => add_one(*variable, whole, found),
        _ => Ok(()),
    }
}

fn add_basic(goal: &BasicGoal, whole: &Whole<'_>, found: &mut VarSet) -> Result<(), NoMemory>
    ensures { OnOk result (found.new ≡ outputs_behind (outputs_of whole.now) found.old (variables_of goal.now)) }
{
    match goal {
        BasicGoal::True | BasicGoal::Fail => Ok(()),
        BasicGoal::Assign(one, other) | BasicGoal::Test(one, other) => {
            add_each(&[*one, *other], whole, found)
        }
        BasicGoal::Compare(_, one, other) => add_each(&[*one, *other], whole, found),
        BasicGoal::Build(value, _, arguments) | BasicGoal::Split(value, _, arguments) => {
            add_one(*value, whole, found)?;
            add_each(arguments.as_slice(), whole, found)
        }
        BasicGoal::Arithmetic(_, result, left, right) => {
            add_each(&[*result, *left, *right], whole, found)
        }
        BasicGoal::Raise(variable) => add_one(*variable, whole, found),
        BasicGoal::Wait(variable, _) | BasicGoal::Signal(variable, _) => {
            add_one(*variable, whole, found)
        }
        BasicGoal::Call(_, arguments) => add_each(arguments.as_slice(), whole, found),
    }
}

fn add_each(variables: &[Var], whole: &Whole<'_>, found: &mut VarSet) -> Result<(), NoMemory>
    ensures { OnOk result (found.new ≡ outputs_behind (outputs_of whole.now) found.old variables.now) }
{
    for variable in variables {
        add_one(*variable, whole, found)?;
    }
    Ok(())
}

fn add_one(variable: Var, whole: &Whole<'_>, found: &mut VarSet) -> Result<(), NoMemory>
    ensures { OnOk result (found.new ≡ outputs_behind (outputs_of whole.now) found.old (variable ∷ [])) }
{
    if whole.has_output(variable) {
        found.add(variable)?;
    }
    Ok(())
}
