//! Goals in the order in which they go, as they are looked at.
ghost use Rattle.std.specs.Prelude.{◌≡◌, ◌<◌, [], ◌∷◌, ◌++◌, length, slice_get, MatchOption};
ghost use Rattle.std.specs.Option.{option_map};
ghost use Rattle.merc_graded_tree.specs.Nodes.{goal_of, outputs_of, category_of, span_of};
ghost use Rattle.merc_graded_tree.specs.Roots.{label_of, goals_of, joining};
ghost use Rattle.merc_graded_tree.specs.Labels.{labels_of};
ghost use Rattle.merc_graded_tree.specs.Entries.{labels_in};
ghost use Rattle.merc_graded_tree.specs.Views.{viewed};

use crate::entries::{Entry, entries_between, last_entry};
use crate::{BasicGoal, Label, Root, Running};
use merc_base::{Category, Sequence, Span};
use merc_goal_tree::{Symbol, Var, Vars};
use std::marker::Model;

/// A goal that lies in a list of goals.
#[derive(Drop)]
pub struct NodeRef<'a> {
    pub(crate) entries: &'a [Entry],
}

impl<'a> Model for NodeRef<'a> {
    ghost use Rattle.merc_graded_tree.specs.Nodes.{Node};

    ghost Value = { Node };

    ghost use Rattle.merc_graded_tree.specs.LabelCode.{node_code};

    ghost coded = { node_code };

    ghost use Rattle.merc_graded_tree.specs.Entries.{node_from, IsNode};

    ghost view = { λ n. node_from n.entries.now };

    ghost invariant = { λ n. IsNode n.entries.now };
}

/// A goal with the goals that it joins, to be taken apart.
#[derive(Drop)]
pub enum NodeView<'a> {
    /// A goal that holds no others.
    Basic(&'a BasicGoal),
    /// Goals that run in this way.
    Conjunction(Running, Parts<'a>),
    /// Goals to choose from.
    Disjunction(Parts<'a>),
    /// The variable, the symbols of its value in order, and the arms of these.
    Switch(Var, &'a Sequence<Symbol>, Parts<'a>),
    /// A condition, a then part and an else part.
    Conditional(NodeRef<'a>, NodeRef<'a>, NodeRef<'a>),
    /// The negation of a goal.
    Negation(NodeRef<'a>),
    /// Variables that a goal has for itself.
    Quantified(&'a Vars, NodeRef<'a>),
}

impl<'a> NodeRef<'a> {
    /// A second reference to the goal. Nothing of the goal is copied.
    pub fn copy(&self) -> NodeRef<'a>
        ensures { result ≡ self.now }
    {
        NodeRef {
            entries: self.entries,
        }
    }

    /// Where the goal stands in its text.
    pub fn span(&self) -> Span
        ensures { result ≡ span_of self.now }
    {
        self.label().span
    }

    /// The variables that are free before the goal, bound behind it, and occur outside it.
    pub fn outputs(&self) -> &'a Vars
        ensures { result.now ≡ outputs_of self.now }
    {
        &self.label().outputs
    }

    /// How often the goal can succeed, None where it has not been graded.
    pub fn category(&self) -> Option<Category>
        ensures { result ≡ category_of self.now }
    {
        self.label().category
    }

    /// What the goal is, with the goals that it joins.
    pub fn view(&self) -> NodeView<'a>
        ensures { viewed result ≡ goal_of self.now }
    {
        let goals = self.goals();
        match &self.label().root {
            Root::Basic(goal) => NodeView::Basic(goal),
            Root::Conjunction(running, _) => NodeView::Conjunction(*running, goals),
            Root::Disjunction(_) => NodeView::Disjunction(goals),
            Root::Switch(variable, symbols) => NodeView::Switch(*variable, symbols, goals),
            Root::Conditional => conditional_view(goals),
            Root::Negation => NodeView::Negation(only_goal(goals)),
            Root::Quantified(own) => NodeView::Quantified(own, only_goal(goals)),
        }
    }

    /// The number of the goal's parts, itself among them.
    pub fn part_count(&self) -> usize
        ensures { result ≡ length (labels_of self.now) }
    {
        self.entries.len()
    }

    /// What the part at an index has besides the goals that it joins, None past the last. The parts of the goals that
    /// a goal joins stand before the goal itself.
    pub fn part(&self, index: usize) -> Option<&'a Label>
        ensures { option_map (λ label. label.now) result ≡ slice_get (labels_of self.now) index }
    {
        label_at(self.entries, index)
    }

    // What it has besides the goals that it joins.
    fn label(&self) -> &'a Label
        ensures { result.now ≡ label_of self.now }
    {
        &last_entry(self.entries).label
    }

    // The goals that it joins.
    fn goals(&self) -> Parts<'a>
        ensures { result ≡ goals_of self.now }
    {
        Parts {
            entries: entries_between(self.entries, 0, self.entries.len() - 1),
            count: last_entry(self.entries).label.root.arity(),
        }
    }
}

// The three goals of a conditional.
fn conditional_view<'a>(mut goals: Parts<'a>) -> NodeView<'a>
    requires { length goals ≡ 3 }
    ensures { viewed result ≡ joining Root.Conditional goals.entry }
{
    let else_part = goals.take_goal();
    let then_part = goals.take_goal();
    NodeView::Conditional(goals.take_goal(), then_part, else_part)
}

// The goal that is alone here.
fn only_goal<'a>(mut goals: Parts<'a>) -> NodeRef<'a>
    requires { length goals ≡ 1 }
    ensures { goals.entry ≡ result ∷ [] }
{
    goals.take_goal()
}

// The label of the entry at an index.
fn label_at(entries: &[Entry], index: usize) -> Option<&Label>
    ensures { option_map (λ label. label.now) result ≡ slice_get (labels_in entries.now) index }
{
    match entries.get(index) {
        Some(entry) => Some(&entry.label),
        None => None,
    }
}

/// Goals that are joined, to be taken from the last to the first.
#[derive(Drop)]
pub struct Parts<'a> {
    entries: &'a [Entry],
    count: usize,
}

impl<'a> Model for Parts<'a> {
    ghost use Rattle.std.specs.Prelude.{◌≡◌, List, length};
    ghost use Rattle.merc_graded_tree.specs.Nodes.{Node};

    ghost Value = { List Node };

    ghost use Rattle.merc_graded_tree.specs.LabelCode.{node_list_code};

    ghost coded = { node_list_code };

    ghost use Rattle.merc_graded_tree.specs.Entries.{nodes_from, AreNodes};

    ghost view = { λ p. nodes_from p.entries.now };

    ghost invariant = { λ p. AreNodes p.entries.now × (p.count ≡ length (nodes_from p.entries.now)) };
}

impl<'a> Parts<'a> {
    /// How many are left.
    pub fn len(&self) -> usize
        ensures { result ≡ length self.now }
    {
        self.count
    }

    /// Takes the last goal.
    pub fn take_last(&mut self) -> Option<NodeRef<'a>>
        ensures { MatchOption result ((self.old ≡ []) × (self.new ≡ [])) (λ last. self.old ≡ self.new ++ last ∷ []) }
    {
        if self.count == 0 {
            return None;
        }
        Some(self.take_goal())
    }

    // Takes the last goal, where there is one.
    fn take_goal(&mut self) -> NodeRef<'a>
        requires { 0 < length self.old }
        ensures { self.old ≡ self.new ++ result ∷ [] }
    {
        let entries = self.entries;
        let start = entries.len() - last_entry(entries).size;
        self.entries = entries_between(entries, 0, start);
        self.count -= 1;
        NodeRef {
            entries: entries_between(entries, start, entries.len()),
        }
    }
}
