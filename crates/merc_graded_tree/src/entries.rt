//! How goals lie in a list of entries: the goals that are joined, then the one that joins them.
ghost use Rattle.std.specs.Prelude.{◌≡◌, ◌≤◌, ◌<◌, ◌-◌, [], ◌∷◌, ◌++◌, length, take, IfOk};
ghost use Rattle.std.specs.List.{slice_index_or, slice_range};
ghost use Rattle.merc_graded_tree.specs.Roots.{arity_of};

use crate::{BasicGoal, Site};
use merc_base::{Category, NoMemory, Sequence, Span};
use merc_goal_tree::{Symbol, Var, Vars};
use std::alloc::Global;

/// How the goals of a conjunction run.
#[derive(Clone, Copy)]
pub enum Running {
    /// One after the other.
    Sequential,
    /// Side by side, forked at a site once it has one.
    Parallel(Option<Site>),
}

/// What a goal is at its root.
#[derive(Drop)]
pub enum Root {
    /// A goal that holds no others.
    Basic(BasicGoal),
    /// So many goals that run in this way.
    Conjunction(Running, usize),
    /// So many goals to choose from.
    Disjunction(usize),
    /// An arm for each of these symbols of the variable's value.
    Switch(Var, Sequence<Symbol>),
    /// A condition, a then part and an else part.
    Conditional,
    /// The negation of a goal.
    Negation,
    /// Variables that a goal has for itself.
    Quantified(Vars),
}

/// What a goal has besides the goals that it joins.
#[derive(Drop)]
pub struct Label {
    /// What the goal is at its root.
    pub root: Root,
    /// The variables that are free before the goal, bound behind it, and occur outside it.
    pub outputs: Vars,
    /// How often the goal can succeed, once this is known.
    pub category: Option<Category>,
    /// Where the goal stands in its text.
    pub span: Span,
}

// A goal behind the entries of the goals that it joins. `size` counts the entries of the whole goal.
#[derive(Drop)]
pub(crate) struct Entry {
    pub(crate) label: Label,
    pub(crate) size: usize,
}

impl Root {
    // How many goals it joins.
    pub(crate) fn arity(&self) -> usize
        ensures { result ≡ arity_of self.now }
    {
        match self {
            Root::Basic(_) => 0,
            Root::Conjunction(_, count) | Root::Disjunction(count) => *count,
            Root::Switch(_, symbols) => symbols.as_slice().len(),
            Root::Conditional => 3,
            Root::Negation | Root::Quantified(_) => 1,
        }
    }

    /// A copy of the root. `NoMemory` where memory was refused.
    pub fn try_clone(&self, alloc: Global) -> Result<Root, NoMemory>
        ensures { IfOk result (λ copy. copy ≡ self.now) }
    {
        match self {
            Root::Basic(goal) => Ok(Root::Basic(goal.try_clone(alloc)?)),
            Root::Conjunction(running, count) => Ok(Root::Conjunction(*running, *count)),
            Root::Disjunction(count) => Ok(Root::Disjunction(*count)),
            Root::Switch(variable, symbols) => {
                Ok(Root::Switch(*variable, symbols.try_clone(alloc)?))
            }
            Root::Conditional => Ok(Root::Conditional),
            Root::Negation => Ok(Root::Negation),
            Root::Quantified(own) => Ok(Root::Quantified(own.try_clone(alloc)?)),
        }
    }
}

impl Label {
    /// A copy of the label. `NoMemory` where memory was refused.
    pub fn try_clone(&self, alloc: Global) -> Result<Label, NoMemory>
        ensures { IfOk result (λ copy. copy ≡ self.now) }
    {
        // (the root last, since it costs much to prove what is dropped of it)
        let outputs = self.outputs.try_clone(alloc)?;
        Ok(Label {
            root: self.root.try_clone(alloc)?,
            outputs,
            category: self.category,
            span: self.span,
        })
    }
}

// Where the goal of this number starts, or the end where there are not so many.
pub(crate) fn start_of(starts: &[usize], number: usize, end: usize) -> usize
    ensures { result ≡ slice_index_or starts.now number end }
{
    if number < starts.len() {
        starts[number]
    } else {
        end
    }
}

// The entries from one index to another.
pub(crate) fn entries_between(entries: &[Entry], start: usize, end: usize) -> &[Entry]
    requires order { start ≤ end }
    requires within { end ≤ length entries.now }
    ensures { result.now ≡ slice_range entries.now start end }
{
    &entries[start..end]
}

// The last of these entries.
pub(crate) fn last_entry(entries: &[Entry]) -> &Entry
    requires { 0 < length entries.now }
    ensures { entries.now ≡ take (length entries.now - 1) entries.now ++ result.now ∷ [] }
{
    &entries[entries.len() - 1]
}
