//! In how many disjuncts outputs occur.
ghost use Rattle.std.specs.Prelude.{◌≡◌, ◌+◌, ◌-◌, ℕ, nat_lt, List, filter, IfOk, OnOk};
ghost use Rattle.merc_graded_tree.specs.Nodes.{Node, nodes_of, outputs_of};
ghost use Rattle.merc_graded_tree.specs.Variables.{in_nodes};
ghost use Rattle.merc_order.specs.Bound.{among};
ghost use Rattle.merc_switch_choice.specs.Counting.{one_if, counting, count_of};
ghost use Rattle.merc_switch.specs.Selections.{has_output, CountsOutputs};

use crate::occurring::add_outputs;
use crate::whole::Whole;
use merc_base::NoMemory;
use merc_goal_tree::{Var, Vars};
use merc_switch_choice::{Disjunct, VarCounts, VarSet};
use std::alloc::Global;

/// In how many of the disjuncts each output of the whole occurs.
///
/// # Errors
///
/// `NoMemory` where memory was refused, here and in the calls below.
pub(crate) fn counts_of(
    alloc: Global,
    whole: &Whole<'_>,
    disjuncts: &[Disjunct<'_>],
) -> Result<VarCounts, NoMemory>
    ensures { IfOk result (λ counts. CountsOutputs (outputs_of whole.now) counts disjuncts.now) }
{
    let mut counts = VarCounts::new(alloc);
    for disjunct in disjuncts {
        add_disjunct(alloc, whole, disjunct, &mut counts)?;
    }
    Ok(counts)
}

/// Takes disjuncts out of the counts.
pub(crate) fn remove_disjuncts(
    alloc: Global,
    whole: &Whole<'_>,
    disjuncts: &[Disjunct<'_>],
    counts: &mut VarCounts,
) -> Result<(), NoMemory>
    ensures { OnOk result ((variable : ℕ) → count_of counts.new variable ≡ count_of counts.old variable - counting (has_output (outputs_of whole.now) variable) disjuncts.now) }
{
    for disjunct in disjuncts {
        remove_disjunct(alloc, whole, disjunct, counts)?;
    }
    Ok(())
}

/// The outputs of the whole that occur in the disjuncts that were counted. It takes time in how many they are, however many
/// the whole has.
pub(crate) fn outputs_counted(
    alloc: Global,
    whole: &Whole<'_>,
    counts: &VarCounts,
) -> Result<Vars, NoMemory>
    ensures { IfOk result (λ kept. (disjuncts : List Node) → CountsOutputs (outputs_of whole.now) counts.now disjuncts → kept ≡ filter (λ output. in_nodes (nodes_of disjuncts) output) (outputs_of whole.now)) }
{
    let outputs = whole.outputs();
    // to sort a few takes longer than to look at some times as many
    if counts.len() < outputs.len() / 8 {
        let variables = counts.variables(alloc)?;
        let kept = whole.outputs_among(alloc, &variables);
        // (a call, since it costs much to prove what is dropped here)
        drop(variables);
        return kept;
    }
    those_counted(alloc, outputs, counts)
}

// Counts the outputs that occur in a disjunct once more.
fn add_disjunct(
    alloc: Global,
    whole: &Whole<'_>,
    disjunct: &Disjunct<'_>,
    counts: &mut VarCounts,
) -> Result<(), NoMemory>
    ensures { OnOk result ((variable : ℕ) → count_of counts.new variable ≡ count_of counts.old variable + one_if (has_output (outputs_of whole.now) variable disjunct.now)) }
{
    let outputs = outputs_at(alloc, whole, disjunct)?;
    let added = counts.add_each(outputs.numbers());
    // (a call, since it costs much to prove what is dropped here)
    drop(outputs);
    added
}

// Counts the outputs that occur in a disjunct once less.
fn remove_disjunct(
    alloc: Global,
    whole: &Whole<'_>,
    disjunct: &Disjunct<'_>,
    counts: &mut VarCounts,
) -> Result<(), NoMemory>
    ensures { OnOk result ((variable : ℕ) → count_of counts.new variable ≡ count_of counts.old variable - one_if (has_output (outputs_of whole.now) variable disjunct.now)) }
{
    let outputs = outputs_at(alloc, whole, disjunct)?;
    let removed = counts.remove_each(outputs.numbers());
    // (a call, since it costs much to prove what is dropped here)
    drop(outputs);
    removed
}

// The outputs of the whole that occur in a disjunct, in the order in which they occur.
fn outputs_at(alloc: Global, whole: &Whole<'_>, disjunct: &Disjunct<'_>) -> Result<VarSet, NoMemory>
    ensures { IfOk result (λ outputs. (variable : ℕ) → among outputs variable ≡ has_output (outputs_of whole.now) variable disjunct.now) }
{
    let mut outputs = VarSet::new(alloc);
    match add_outputs(&disjunct.goal(), whole, &mut outputs) {
        Ok(()) => Ok(outputs),
        Err(refused) => {
            // (a call, since it costs much to prove what is dropped here)
            drop(outputs);
            Err(refused)
        }
    }
}

// Those of the outputs whose count is above 0.
fn those_counted(alloc: Global, outputs: &[Var], counts: &VarCounts) -> Result<Vars, NoMemory>
    ensures { IfOk result (λ kept. kept ≡ filter (λ output. nat_lt 0 (count_of counts.now output)) outputs.now) }
{
    let mut kept = Vars::new(alloc);
    for output in outputs {
        if counts.of(*output) > 0 {
            kept.push(*output)?;
        }
    }
    Ok(kept)
}
