//! Counts are handed on to parts of the disjuncts.
ghost use Rattle.std.specs.Prelude.{◌≡◌, ◌<◌, ◌-◌, ℕ, List, [], length, Some, IfOk, IfSome, OnOk};
ghost use Rattle.std.specs.List.{slice_index_or};
ghost use Rattle.merc_graded_tree.specs.Nodes.{Node, outputs_of};
ghost use Rattle.merc_switch_choice.specs.Counting.{count_of, all_counting};
ghost use Rattle.merc_switch.specs.Selections.{has_output, CountsOutputs, MayCount, MayCountAll};
ghost use Rattle.merc_switch.specs.Handing.{IsHanded};

use crate::counting::remove_disjuncts;
use crate::whole::Whole;
use merc_base::NoMemory;
use merc_switch_choice::{Disjuncts, VarCounts};
use std::alloc::Global;

/// The counts of one of several groups of disjuncts.
#[derive(Drop)]
pub(crate) struct Handed {
    counts: VarCounts,
    // the index of that group
    index: usize,
}

/// Makes the counts of all groups of the whole together, if there are any, those of the largest group. Only the others are
/// gone through.
///
/// # Errors
///
/// `NoMemory` where memory was refused, here and in the calls below.
pub(crate) fn hand_on(
    alloc: Global,
    whole: &Whole<'_>,
    groups: &[Disjuncts<'_>],
    counts: Option<VarCounts>,
) -> Result<Option<Handed>, NoMemory>
    requires { MayCountAll whole.now counts groups.now }
    ensures { IfOk result (λ handed. IsHanded whole.now handed groups.now) }
{
    let Some(counts) = counts else {
        return Ok(None);
    };
    let Some(index) = largest_of(groups) else {
        // (a call, since it costs much to prove what is dropped here)
        drop(counts);
        return Ok(None);
    };
    let mut counts = counts;
    match remove_others(alloc, whole, groups, index, &mut counts) {
        Ok(()) => Ok(Some(Handed { counts, index })),
        Err(refused) => {
            // (a call, as above)
            drop(counts);
            Err(refused)
        }
    }
}

/// Takes the counts if they are those of the group at an index.
pub(crate) fn take_counts(handed: &mut Option<Handed>, index: usize) -> Option<VarCounts>
    ensures counts { (whole : Node) (groups : List (List Node)) → IsHanded whole handed.old groups → index < length groups → MayCount whole result (slice_index_or groups index []) }
    ensures handed { (whole : Node) (groups : List (List Node)) → IsHanded whole handed.old groups → IsHanded whole handed.new groups }
{
    let Some(kept) = handed.take() else {
        return None;
    };
    if kept.index == index {
        return Some(kept.counts);
    }
    // (a call, since it costs much to prove what is dropped here)
    drop(handed.replace(kept));
    None
}

// The index of the group that has the most disjuncts, none where no group has several.
fn largest_of(groups: &[Disjuncts<'_>]) -> Option<usize>
    ensures { IfSome result (λ index. index < length groups.now) }
{
    let mut largest = None;
    let mut most = 1;
    for index in 0..groups.len() {
        let count = groups[index].as_slice().len();
        if count > most {
            largest = Some(index);
            most = count;
        }
    }
    largest
}

// Takes all groups but the one at an index out of the counts, which leaves its own.
fn remove_others(
    alloc: Global,
    whole: &Whole<'_>,
    groups: &[Disjuncts<'_>],
    index: usize,
    counts: &mut VarCounts,
) -> Result<(), NoMemory>
    requires within { index < length groups.now }
    requires counts { MayCountAll whole.now (Some counts.old) groups.now }
    ensures { OnOk result (CountsOutputs (outputs_of whole.now) counts.new (slice_index_or groups.now index [])) }
{
    remove_groups(alloc, whole, &groups[..index], counts)?;
    remove_groups(alloc, whole, &groups[index + 1..], counts)
}

// Takes groups of disjuncts out of the counts.
fn remove_groups(
    alloc: Global,
    whole: &Whole<'_>,
    groups: &[Disjuncts<'_>],
    counts: &mut VarCounts,
) -> Result<(), NoMemory>
    ensures { OnOk result ((variable : ℕ) → count_of counts.new variable ≡ count_of counts.old variable - all_counting (has_output (outputs_of whole.now) variable) groups.now) }
{
    for group in groups {
        remove_disjuncts(alloc, whole, group.as_slice(), counts)?;
    }
    Ok(())
}
