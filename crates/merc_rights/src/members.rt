//! The goals that a goal joins, and which of them use a variable.
ghost use Rattle.std.specs.Prelude.{◌≡◌, ◌-◌, nat_le, map, slice_index_or, Some, None, IfOk, if◌then◌else◌};
ghost use Rattle.std.specs.List.Sorted.{IsNonDecreasing};
ghost use Rattle.merc_graded_tree.specs.Nodes.{outputs_of};
ghost use Rattle.merc_graded_tree.specs.Variables.{in_node};
ghost use Rattle.merc_rights.specs.Members.{count_of, IsLaid};
ghost use Rattle.merc_rights.specs.Rows.{next_from, numbers_from, Tells};
ghost use Rattle.merc_rights.specs.Places.{starts_of};

use crate::occurrences::{Index, Occurrences, put_all};
use crate::sums::sum;
use merc_base::NoMemory;
use merc_goal_tree::Var;
use merc_graded_tree::{NodeRef, Parts};
use std::alloc::Global;

/// Goals that are joined, with the index of the first part of each among those of the whole goal.
#[derive(Drop)]
pub struct Members<'a> {
    /// From the first to the last.
    pub goals: Vec<NodeRef<'a>>,
    /// The index of the first part of the first.
    pub first: usize,
    /// One more than there are goals: the last one is the index behind them.
    pub starts: Vec<usize>,
}

impl<'a> Members<'a> {
    /// These, where the parts of the first stand from an index on.
    ///
    /// # Errors
    ///
    /// `NoMemory` where memory was refused.
    pub fn of(alloc: Global, goals: Vec<NodeRef<'a>>, first: usize) -> Result<Members<'a>, NoMemory>
        ensures goals { IfOk result (λ members. members.goals.items ≡ goals.entry.items) }
        ensures first { IfOk result (λ members. members.first ≡ first) }
        ensures starts { IfOk result (λ members. members.starts.items ≡ starts_of first goals.entry.items) }
    {
        let starts = starts(alloc, &goals, first)?;
        Ok(Members {
            goals,
            first,
            starts,
        })
    }

    /// The first goal from this one on that uses the variable.
    pub(crate) fn next_user(
        &self,
        occurrences: &Occurrences<'_>,
        variable: Var,
        from: usize,
    ) -> Option<usize>
        requires { IsLaid occurrences.now self.now }
        ensures { result ≡ next_from (λ goal. in_node goal variable) from 0 self.now.goals.items }
    {
        let goals = self.goals.as_slice();
        let starts = self.starts.as_slice();
        if from >= goals.len() {
            return None;
        }
        match occurrences.first_from(variable, start_of(starts, from)) {
            Some(place) => member_of(starts, place, start_of(starts, goals.len())),
            None => None,
        }
    }

    /// The goals from this one on that use the variable. It takes time of the order of their number times the logarithm of
    /// the whole's size.
    ///
    /// # Errors
    ///
    /// `NoMemory` where memory was refused.
    pub(crate) fn users(
        &self,
        alloc: Global,
        occurrences: &Occurrences<'_>,
        variable: Var,
        from: usize,
    ) -> Result<Vec<usize>, NoMemory>
        requires { IsLaid occurrences.now self.now }
        ensures { IfOk result (λ users. users.items ≡ numbers_from (λ goal. in_node goal variable) from 0 self.now.goals.items) }
    {
        let mut users = Vec::new(alloc);
        let mut next = from;
        while let Some(user) = self.next_user(occurrences, variable, next) {
            users.push(user)?;
            next = sum(user, 1)?;
        }
        Ok(users)
    }
}

/// The start of this number, 0 where there is none.
pub fn start_of(starts: &[usize], number: usize) -> usize
    ensures { result ≡ slice_index_or starts.now number 0 }
{
    if number < starts.len() {
        starts[number]
    } else {
        0
    }
}

// The number of the goal that has the part at a place, None where the place is past the end.
fn member_of(starts: &[usize], place: usize, end: usize) -> Option<usize>
    requires { IsNonDecreasing starts.now }
    ensures { result ≡ (if nat_le end place then None else Some (count_of place starts.now - 1)) }
{
    if end <= place {
        return None;
    }
    Some(count_up_to(starts, place).saturating_sub(1))
}

// How many of these places, which rise, stand before another or are it.
fn count_up_to(places: &[usize], place: usize) -> usize
    requires { IsNonDecreasing places.now }
    ensures { result ≡ count_of place places.now }
{
    places.partition_point(|other| *other <= place)
}

// Where the parts of goals start, and where they end.
fn starts(alloc: Global, goals: &[NodeRef<'_>], first: usize) -> Result<Vec<usize>, NoMemory>
    ensures { IfOk result (λ starts. starts.items ≡ starts_of first goals.now) }
{
    let mut starts = Vec::new(alloc);
    let mut start = first;
    for goal in goals {
        starts.push(start)?;
        start = sum(start, goal.part_count())?;
    }
    starts.push(start)?;
    Ok(starts)
}

/// A list of goals.
///
/// # Errors
///
/// `NoMemory` where memory was refused.
pub fn listed<'a>(alloc: Global, parts: Parts<'a>) -> Result<Vec<NodeRef<'a>>, NoMemory>
    ensures { IfOk result (λ goals. goals.items ≡ parts.entry) }
{
    let mut goals = Vec::new(alloc);
    let mut left = parts;
    while let Some(last) = left.take_last() {
        goals.push(last)?;
    }
    goals.reverse();
    Ok(goals)
}

/// The numbers of goals by the variables that they bind.
///
/// # Errors
///
/// `NoMemory` where memory was refused.
pub(crate) fn binders(alloc: Global, goals: &[NodeRef<'_>]) -> Result<Index, NoMemory>
    ensures { IfOk result (λ index. Tells index (map outputs_of goals.now)) }
{
    let mut pairs = Vec::new(alloc);
    for (number, goal) in goals.iter().enumerate() {
        put_all(goal.outputs().as_slice(), number, &mut pairs)?;
    }
    Index::of(pairs)
}
