//! Goals in flat form, as they are looked at.
ghost use Rattle.std.specs.Prelude.{◌≡◌, ◌<◌, [], ◌∷◌, ◌++◌, length, slice_get, MatchOption};
ghost use Rattle.std.specs.Option.{option_map};
ghost use Rattle.merc_base.specs.declared.place.Span.{Span};
ghost use Rattle.merc_goal_tree.specs.Nodes.{span_of};
ghost use Rattle.merc_goal_tree.specs.Roots.{goals_of, joining, root_of};
ghost use Rattle.merc_goal_tree.specs.Parts.{parts_of, parts_in};
ghost use Rattle.merc_goal_tree.specs.Views.{viewed};

use crate::entries::{Entry, entries_between, last_entry};
use crate::{Root, SimpleGoal, Vars};
use merc_base::Span;
use std::marker::Model;

/// A goal that lies in a list of goals.
#[derive(Drop)]
pub struct NodeRef<'a> {
    pub(crate) entries: &'a [Entry],
}

impl<'a> Model for NodeRef<'a> {
    ghost use Rattle.merc_goal_tree.specs.Nodes.{Node};

    ghost Value = { Node };

    ghost use Rattle.merc_goal_tree.specs.EntryCode.{node_code};

    ghost coded = { node_code };

    ghost use Rattle.merc_goal_tree.specs.Entries.{node_of, IsNode};

    ghost view = { λ n. node_of n.entries.now };

    ghost invariant = { λ n. IsNode n.entries.now };
}

/// A goal with the goals that it joins, to be taken apart.
#[derive(Drop)]
pub enum NodeView<'a> {
    /// A goal that holds no others.
    Simple(&'a SimpleGoal),
    /// Goals in sequence.
    Conjunction(Parts<'a>),
    /// Goals that may run side by side.
    Parallel(Parts<'a>),
    /// Goals to choose from.
    Disjunction(Parts<'a>),
    /// A condition, a then part and an else part.
    Conditional(NodeRef<'a>, NodeRef<'a>, NodeRef<'a>),
    /// The negation of a goal.
    Negation(NodeRef<'a>),
    /// Variables that a goal has for itself.
    Quantified(&'a Vars, NodeRef<'a>),
}

impl<'a> NodeRef<'a> {
    /// A second reference to the goal. Nothing of the goal is copied.
    pub fn copy(&self) -> NodeRef<'a>
        ensures { result ≡ self.now }
    {
        NodeRef {
            entries: self.entries,
        }
    }

    /// Where the goal stands in its text.
    pub fn span(&self) -> Span
        ensures { result ≡ span_of self.now }
    {
        last_entry(self.entries).span
    }

    /// What the goal is, with the goals that it joins.
    pub fn view(&self) -> NodeView<'a>
        ensures { viewed result (span_of self.now) ≡ self.now }
    {
        let goals = self.goals();
        match self.root() {
            Root::Simple(goal) => NodeView::Simple(goal),
            Root::Conjunction(_) => NodeView::Conjunction(goals),
            Root::Parallel(_) => NodeView::Parallel(goals),
            Root::Disjunction(_) => NodeView::Disjunction(goals),
            Root::Conditional => conditional_view(goals),
            Root::Negation => NodeView::Negation(only_goal(goals)),
            Root::Quantified(variables) => NodeView::Quantified(variables, only_goal(goals)),
        }
    }

    /// The number of the goal's parts, itself among them.
    pub fn part_count(&self) -> usize
        ensures { result ≡ length (parts_of self.now) }
    {
        self.entries.len()
    }

    /// What the part at an index is at its root, and its span, None past the last. The parts of the goals that a goal
    /// joins stand before the goal itself.
    pub fn part(&self, index: usize) -> Option<(&'a Root, Span)>
        ensures { option_map (λ part. (part.0.now, part.1)) result ≡ slice_get (parts_of self.now) index }
    {
        part_at(self.entries, index)
    }

    // What the goal is at its root.
    fn root(&self) -> &'a Root
        ensures { result.now ≡ root_of self.now }
    {
        &last_entry(self.entries).root
    }

    // The goals that it joins.
    fn goals(&self) -> Parts<'a>
        ensures { result ≡ goals_of self.now }
    {
        Parts {
            entries: entries_between(self.entries, 0, self.entries.len() - 1),
            count: last_entry(self.entries).root.arity(),
        }
    }
}

// The three goals of a conditional.
fn conditional_view<'a>(mut goals: Parts<'a>) -> NodeView<'a>
    requires { length goals ≡ 3 }
    ensures { (span : Span) → viewed result span ≡ joining Root.Conditional span goals.entry }
{
    let else_part = goals.take_goal();
    let then_part = goals.take_goal();
    NodeView::Conditional(goals.take_goal(), then_part, else_part)
}

// The goal that is alone here.
fn only_goal<'a>(mut goals: Parts<'a>) -> NodeRef<'a>
    requires { length goals ≡ 1 }
    ensures { goals.entry ≡ result ∷ [] }
{
    goals.take_goal()
}

// The root and the span at an index.
fn part_at(entries: &[Entry], index: usize) -> Option<(&Root, Span)>
    ensures { option_map (λ part. (part.0.now, part.1)) result ≡ slice_get (parts_in entries.now) index }
{
    match entries.get(index) {
        Some(entry) => Some((&entry.root, entry.span)),
        None => None,
    }
}

/// Goals that are joined, to be taken from the last to the first.
#[derive(Drop)]
pub struct Parts<'a> {
    entries: &'a [Entry],
    count: usize,
}

impl<'a> Model for Parts<'a> {
    ghost use Rattle.std.specs.Prelude.{◌≡◌, List, [], length};
    ghost use Rattle.merc_goal_tree.specs.Nodes.{Node};

    ghost Value = { List Node };

    ghost use Rattle.merc_goal_tree.specs.EntryCode.{node_list_code};

    ghost coded = { node_list_code };

    ghost use Rattle.merc_goal_tree.specs.Entries.{built, AreNodes};

    ghost view = { λ p. built p.entries.now [] };

    ghost invariant = { λ p. AreNodes p.entries.now × (p.count ≡ length (built p.entries.now [])) };
}

impl<'a> Parts<'a> {
    /// How many are left.
    pub fn len(&self) -> usize
        ensures { result ≡ length self.now }
    {
        self.count
    }

    /// Takes the last goal.
    pub fn take_last(&mut self) -> Option<NodeRef<'a>>
        ensures { MatchOption result ((self.old ≡ []) × (self.new ≡ [])) (λ last. self.old ≡ self.new ++ last ∷ []) }
    {
        if self.count == 0 {
            return None;
        }
        Some(self.take_goal())
    }

    // Takes the last goal, where there is one.
    fn take_goal(&mut self) -> NodeRef<'a>
        requires { 0 < length self.old }
        ensures { self.old ≡ self.new ++ result ∷ [] }
    {
        let entries = self.entries;
        let start = entries.len() - last_entry(entries).size;
        self.entries = entries_between(entries, 0, start);
        self.count -= 1;
        NodeRef {
            entries: entries_between(entries, start, entries.len()),
        }
    }
}
