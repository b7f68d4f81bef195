//! Which goals of a conjunction are to be asked whether they are ready.
ghost use Rattle.std.specs.Prelude.{◌≡◌, ◌+◌, ◌≤◌, ◌<◌, ℕ, suc, true, false, length, IfOk, OnOk, IfSome, IfNone};
ghost use Rattle.merc_goal_tree.specs.Nodes.{nodes_of};
ghost use Rattle.merc_goal_tree.specs.Parts.{parts_of, all_parts};
ghost use Rattle.merc_goal_order.specs.Agenda.{start_at, StandAt, ArePlaced, Holds, awaits, awaited_count, IsSound, IsTaken, AwaitsPlaces, AwaitsAgain};
ghost use Rattle.merc_goal_order.specs.Positions.{IsNext};

use merc_base::NoMemory;
use merc_goal_facts::Facts;
use merc_goal_tree::{NodeRef, Var};
use merc_simple_goals::Places;
use std::alloc::Global;
use std::collections::BTreeSet;

/// Where a goal of a conjunction begins.
#[derive(Clone, Copy)]
pub(crate) struct Start {
    /// The index of its first part among those of all goals.
    pub(crate) at: usize,
    /// The first place of its variables among those of the body.
    pub(crate) place: usize,
}

/// The goals of a conjunction that are to be asked, by their index.
#[derive(Drop)]
pub(crate) struct Agenda {
    // Where each goal begins, and behind the last where they end.
    starts: Vec<Start>,
    // So many were asked, from the first on.
    asked: usize,
    // Those of them that are to be asked again.
    again: BTreeSet<usize>,
}

impl Agenda {
    /// All goals of a conjunction. `facts` are those of their parts, and `all` are the variables of their body: those of
    /// the goals occur from `start` on.
    ///
    /// # Errors
    ///
    /// `NoMemory` where memory was refused.
    pub(crate) fn of(
        alloc: Global,
        all: &Places,
        goals: &[NodeRef<'_>],
        facts: &[Facts],
        start: usize,
    ) -> Result<Agenda, NoMemory>
        requires known { length facts.now ≡ length (all_parts (nodes_of goals.now)) }
        ensures sound { IfOk result (λ agenda. IsSound agenda) }
        ensures stands { IfOk result (λ agenda. StandAt goals.now agenda.starts.items) }
        ensures placed { IfOk result (λ agenda. ArePlaced start goals.now facts.now all.now agenda.starts.items) }
        ensures fresh { IfOk result (λ agenda. (index : ℕ) → awaits agenda index ≡ true) }
    {
        Ok(Agenda {
            starts: starts_of(alloc, all, goals, facts, start)?,
            asked: 0,
            again: BTreeSet::new(alloc),
        })
    }

    /// Where a goal begins.
    pub(crate) fn start(&self, index: usize) -> Start
        requires { index < length self.now.starts.items }
        ensures { result ≡ start_at self.now.starts.items index }
    {
        self.starts[index]
    }

    /// The first goal that is to be asked, which then is not any more; `None` where there is none.
    pub(crate) fn take(&mut self) -> Option<usize>
        requires sound { IsSound self.old }
        ensures sound { IsSound self.new }
        ensures starts { self.new.starts ≡ self.old.starts }
        ensures none { IfNone result ((index : ℕ) → suc index < length self.old.starts.items → awaits self.old index ≡ false) }
        ensures some { IfSome result (λ index. index < self.new.asked) }
        ensures taken { IfSome result (λ index. IsTaken index (awaits self.old) (awaits self.new)) }
        ensures fewer { IfSome result (λ index. awaited_count self.new < awaited_count self.old) }
    {
        if let Some(index) = self.again.pop_first() {
            return Some(index);
        }
        let index = self.asked;
        if index + 1 < self.starts.len() {
            self.asked = index + 1;
            return Some(index);
        }
        None
    }

    /// Has those goals asked again in which one of these variables occurs, but not the one that bound them, the goal with the
    /// number `binding`.
    ///
    /// # Errors
    ///
    /// `NoMemory` where memory was refused.
    pub(crate) fn await_all(
        &mut self,
        all: &Places,
        binding: usize,
        variables: &[Var],
    ) -> Result<(), NoMemory>
        requires sound { IsSound self.old }
        requires binding { binding < self.old.asked }
        ensures sound { IsSound self.new }
        ensures starts { self.new.starts ≡ self.old.starts }
        ensures awaits { OnOk result (AwaitsAgain all.now binding variables.now self.old self.new) }
    {
        let first = self.starts[0].place;
        let end = self.starts[self.asked].place;
        for variable in variables {
            self.await_places(all.within(first, end, *variable), binding)?;
        }
        Ok(())
    }

    // Has those goals asked again to which one of these places belongs, but for this one.
    fn await_places(&mut self, places: &[usize], binding: usize) -> Result<(), NoMemory>
        requires sound { IsSound self.old }
        requires binding { binding < self.old.asked }
        ensures sound { IsSound self.new }
        ensures starts { self.new.starts ≡ self.old.starts }
        ensures asked { self.new.asked ≡ self.old.asked }
        ensures awaits { OnOk result (AwaitsPlaces binding places.now self.old self.new) }
    {
        let own = self.starts[binding].place;
        let next = self.starts[binding + 1].place;
        for place in places {
            if *place < own || next <= *place {
                let index = self.goal_at(*place);
                self.again.insert(index)?;
            }
        }
        Ok(())
    }

    // The goal to which a place belongs, one of those that were asked.
    fn goal_at(&self, place: usize) -> usize
        requires sound { IsSound self.now }
        requires some { 0 < self.now.asked }
        ensures below { result < self.now.asked }
        ensures holds { (start_at self.now.starts.items 0).place ≤ place → place < (start_at self.now.starts.items self.now.asked).place → Holds self.now.starts.items result place }
    {
        let mut low = 0;
        let mut high = self.asked;
        while low + 1 < high {
            let middle = low + (high - low) / 2;
            if self.starts[middle].place <= place {
                low = middle;
            } else {
                high = middle;
            }
        }
        low
    }
}

// Where the goals begin, and behind the last where they end.
fn starts_of(
    alloc: Global,
    all: &Places,
    goals: &[NodeRef<'_>],
    facts: &[Facts],
    start: usize,
) -> Result<Vec<Start>, NoMemory>
    requires known { length facts.now ≡ length (all_parts (nodes_of goals.now)) }
    ensures stands { IfOk result (λ starts. StandAt goals.now starts.items) }
    ensures placed { IfOk result (λ starts. ArePlaced start goals.now facts.now all.now starts.items) }
{
    let mut starts = Vec::with_capacity(alloc, goals.len() + 1)?;
    let mut here = Start {
        at: 0,
        place: start,
    };
    for goal in goals {
        starts.push(here)?;
        here = start_behind(all, goal, facts, here);
    }
    starts.push(here)?;
    Ok(starts)
}

// Where the goal behind this one begins.
fn start_behind(all: &Places, goal: &NodeRef<'_>, facts: &[Facts], here: Start) -> Start
    requires known { here.at + length (parts_of goal.now) ≤ length facts.now }
    ensures at { result.at ≡ here.at + length (parts_of goal.now) }
    ensures place { IsNext goal.now facts.now all.now here.at here.place result.place }
{
    let at = here.at + goal.part_count();
    let own = at - 1;
    let found = &facts[own];
    Start {
        at,
        place: all.place_behind(here.place, found.occurrences),
    }
}
