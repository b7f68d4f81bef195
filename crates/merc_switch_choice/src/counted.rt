//! Several disjuncts together, of which it is known how many split each variable.
ghost use Rattle.std.specs.Prelude.{◌≡◌, ◌<◌, ◌≤◌, ◌-◌, ℕ, [], insert, length, IfOk, IfSome, OnOk};
ghost use Rattle.std.specs.List.{list_all, AllByRecursion};
ghost use Rattle.merc_grading.specs.Switches.{symbol_at, is_there};
ghost use Rattle.merc_switch_choice.specs.Counting.{splitting, count_of, all_splitting};
ghost use Rattle.merc_switch_choice.specs.Gaps.{symbol_of_gap, Avoids};
ghost use Rattle.merc_switch_choice.specs.Summaries.{Describes, DescribesAll};

use crate::counts::VarCounts;
use crate::disjuncts::Disjunct;
use crate::gaps::Gap;
use crate::summary::Summary;
use merc_base::{NoMemory, Sequence};
use merc_goal_tree::Var;
use std::alloc::Global;
use std::marker::Model;

/// Disjuncts in their order. Contracts see the goals that they are.
#[derive(Drop)]
pub struct Disjuncts<'a> {
    items: Vec<Disjunct<'a>>,
    summary: Summary,
}

impl<'a> Model for Disjuncts<'a> {
    ghost use Rattle.std.specs.Prelude.{List};
    ghost use Rattle.merc_graded_tree.specs.Nodes.{Node};

    ghost Value = { List Node };

    ghost use Rattle.std.specs.Coded.{codes};
    ghost use Rattle.merc_graded_tree.specs.LabelCode.{node_code};

    ghost coded = { Prim.hlevel (codes, node_code) };

    ghost view = { λ d. d.items.items };

    ghost use Rattle.merc_switch_choice.specs.Summaries.{Describes};

    ghost invariant = { λ d. Describes d.summary d.items.items };
}

impl<'a> Disjuncts<'a> {
    /// These disjuncts, counted.
    ///
    /// # Errors
    ///
    /// `NoMemory` where memory was refused.
    pub fn of(alloc: Global, items: Vec<Disjunct<'a>>) -> Result<Disjuncts<'a>, NoMemory>
        ensures { IfOk result (λ disjuncts. disjuncts ≡ items.entry.items) }
    {
        match Summary::of(alloc, &items) {
            Ok(summary) => Ok(Disjuncts { items, summary }),
            Err(refused) => {
                // (a call, since it costs much to prove what is dropped here)
                drop(items);
                Err(refused)
            }
        }
    }

    // These disjuncts, of which this is known.
    fn with_summary(items: Vec<Disjunct<'a>>, summary: Summary) -> Disjuncts<'a>
        requires { Describes summary items.items }
        ensures { result ≡ items.entry.items }
    {
        Disjuncts { items, summary }
    }

    /// The disjuncts.
    pub fn as_slice(&self) -> &[Disjunct<'a>]
        ensures { result.now ≡ self.now }
    {
        &self.items
    }

    /// Gives the disjuncts and what is known of them. It takes no memory.
    pub(crate) fn into_parts(self) -> (Vec<Disjunct<'a>>, Summary)
        ensures items { result.0.items ≡ self.entry }
        ensures summary { Describes result.1 self.entry }
    {
        (self.items, self.summary)
    }

    /// Gives the disjuncts back. It takes no memory.
    pub fn into_vec(self) -> Vec<Disjunct<'a>>
        ensures { result.items ≡ self.entry }
    {
        // (a call, since it costs much to prove what is dropped here)
        drop(self.summary);
        self.items
    }

    /// Whether all of them split the variable.
    pub(crate) fn all_split(&self, variable: Var) -> bool
        ensures { result ≡ list_all (λ disjunct. is_there (symbol_at variable disjunct)) self.now }
    {
        self.summary.counts.of(variable) == self.as_slice().len()
    }

    /// A symbol by which none of them splits the variable, where one is known.
    pub(crate) fn gap(&self, variable: Var) -> Option<Gap>
        ensures { IfSome result (λ gap. AllByRecursion (Avoids variable (symbol_of_gap gap)) self.now) }
    {
        self.summary.gaps.of(variable)
    }

    /// Keeps a symbol by which none of them splits the variable.
    ///
    /// # Errors
    ///
    /// `NoMemory` where memory was refused.
    pub(crate) fn keep_gap(&mut self, variable: Var, gap: Gap) -> Result<(), NoMemory>
        requires { AllByRecursion (Avoids variable (symbol_of_gap gap)) self.old }
        ensures { self.new ≡ self.old }
    {
        self.summary.gaps.put(variable, gap)
    }

    /// The index of one that splits the fewest variables, 0 where there are no disjuncts.
    pub(crate) fn fewest(&self) -> usize
        ensures { 0 < length self.now → result < length self.now }
    {
        fewest_of(&self.items)
    }
}

// The index of one that splits the fewest variables.
fn fewest_of(disjuncts: &[Disjunct<'_>]) -> usize
    ensures { 0 < length disjuncts.now → result < length disjuncts.now }
{
    let mut fewest = 0;
    for index in 0..disjuncts.len() {
        if disjuncts[index].variables().len() < disjuncts[fewest].variables().len() {
            fewest = index;
        }
    }
    fewest
}

/// Groups of disjuncts, counted. Given is what is known of all together: the largest group takes it over without the counts
/// of the others, so that only the others are gone through.
///
/// # Errors
///
/// `NoMemory` where memory was refused.
pub(crate) fn counted_each<'a>(
    alloc: Global,
    groups: Vec<Sequence<Disjunct<'a>>>,
    summary: Summary,
) -> Result<Vec<Disjuncts<'a>>, NoMemory>
    requires { DescribesAll summary groups.items }
    ensures { IfOk result (λ counted. counted.items ≡ groups.entry.items) }
{
    if groups.is_empty() {
        // (calls, here and below, since it costs much to prove what is dropped)
        drop(groups);
        drop(summary);
        return Ok(Vec::new(alloc));
    }
    counted_by_largest(alloc, groups, summary)
}

// Groups of disjuncts, counted as `counted_each` does, where there is a group.
fn counted_by_largest<'a>(
    alloc: Global,
    groups: Vec<Sequence<Disjunct<'a>>>,
    summary: Summary,
) -> Result<Vec<Disjuncts<'a>>, NoMemory>
    requires some { 0 < length groups.items }
    requires known { DescribesAll summary groups.items }
    ensures { IfOk result (λ counted. counted.items ≡ groups.entry.items) }
{
    let mut groups = groups;
    let mut summary = summary;
    let largest = largest_of(&groups);
    let largest_group = groups.remove(largest);
    match counted_anew(alloc, groups, &mut summary.counts) {
        Ok(others) => with_group(
            others,
            largest,
            Disjuncts::with_summary(largest_group.into_vec(), summary),
        ),
        Err(refused) => {
            drop(largest_group);
            drop(summary);
            Err(refused)
        }
    }
}

// Groups and one more at an index.
fn with_group<'a>(
    others: Vec<Disjuncts<'a>>,
    index: usize,
    group: Disjuncts<'a>,
) -> Result<Vec<Disjuncts<'a>>, NoMemory>
    requires { index ≤ length others.items }
    ensures { IfOk result (λ groups. groups.items ≡ insert others.entry.items index group.entry) }
{
    let mut groups = others;
    put_group(&mut groups, index, group).and(Ok(groups))
}

// Puts a group at an index before the others.
fn put_group<'a>(
    groups: &mut Vec<Disjuncts<'a>>,
    index: usize,
    group: Disjuncts<'a>,
) -> Result<(), NoMemory>
    requires { index ≤ length groups.old.items }
    ensures { OnOk result (groups.new.items ≡ insert groups.old.items index group.entry) }
{
    groups.insert(index, group)?;
    Ok(())
}

// The index of the group that has the most disjuncts.
fn largest_of(groups: &[Sequence<Disjunct<'_>>]) -> usize
    ensures { 0 < length groups.now → result < length groups.now }
{
    let mut largest = 0;
    for index in 0..groups.len() {
        if groups[largest].as_slice().len() < groups[index].as_slice().len() {
            largest = index;
        }
    }
    largest
}

// Groups of disjuncts, each counted anew, and taken out of the counts.
fn counted_anew<'a>(
    alloc: Global,
    groups: Vec<Sequence<Disjunct<'a>>>,
    counts: &mut VarCounts,
) -> Result<Vec<Disjuncts<'a>>, NoMemory>
    ensures groups { IfOk result (λ counted. counted.items ≡ groups.entry.items) }
    ensures counts { OnOk result ((variable : ℕ) → count_of counts.new variable ≡ count_of counts.old variable - all_splitting groups.entry.items variable) }
{
    let mut groups = groups;
    let mut counted = Vec::new(alloc);
    let done = count_anew(alloc, &mut groups, counts, &mut counted);
    drop(groups);
    done.and(Ok(counted))
}

// Moves the groups to an empty list, in their order: each counted anew, and taken out of the counts.
fn count_anew<'a>(
    alloc: Global,
    groups: &mut Vec<Sequence<Disjunct<'a>>>,
    counts: &mut VarCounts,
    counted: &mut Vec<Disjuncts<'a>>,
) -> Result<(), NoMemory>
    requires { counted.old.items ≡ [] }
    ensures groups { OnOk result (counted.new.items ≡ groups.old.items) }
    ensures counts { OnOk result ((variable : ℕ) → count_of counts.new variable ≡ count_of counts.old variable - all_splitting groups.old.items variable) }
{
    while let Some(last) = groups.pop() {
        counted.push(group_anew(alloc, last, counts)?)?;
    }
    counted.reverse();
    Ok(())
}

// A group of disjuncts, counted anew, and taken out of the counts.
fn group_anew<'a>(
    alloc: Global,
    group: Sequence<Disjunct<'a>>,
    counts: &mut VarCounts,
) -> Result<Disjuncts<'a>, NoMemory>
    ensures group { IfOk result (λ counted. counted ≡ group.entry) }
    ensures counts { OnOk result ((variable : ℕ) → count_of counts.new variable ≡ count_of counts.old variable - splitting group.entry variable) }
{
    let counted = Disjuncts::of(alloc, group.into_vec())?;
    remove_splits(counted.as_slice(), counts).and(Ok(counted))
}

// Takes the splits of disjuncts out of the counts.
fn remove_splits(disjuncts: &[Disjunct<'_>], counts: &mut VarCounts) -> Result<(), NoMemory>
    ensures { OnOk result ((variable : ℕ) → count_of counts.new variable ≡ count_of counts.old variable - splitting disjuncts.now variable) }
{
    for disjunct in disjuncts {
        counts.remove_each(disjunct.variables())?;
    }
    Ok(())
}
