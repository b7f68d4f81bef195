//! How goals lie in a list of entries: the goals that are joined, then the root that joins them.
ghost use Rattle.std.specs.Prelude.{◌≡◌, ◌≤◌, ◌<◌, ◌-◌, [], ◌∷◌, ◌++◌, length, take};
ghost use Rattle.std.specs.List.{slice_index_or, slice_range};
ghost use Rattle.merc_goal_tree.specs.Roots.{arity_of};

use crate::{SimpleGoal, Vars};
use merc_base::Span;

/// What a goal is at its root.
#[derive(Drop)]
pub enum Root {
    /// A goal that holds no others.
    Simple(SimpleGoal),
    /// So many goals in sequence.
    Conjunction(usize),
    /// So many goals that may run side by side.
    Parallel(usize),
    /// So many goals to choose from.
    Disjunction(usize),
    /// A condition, a then part and an else part.
    Conditional,
    /// The negation of a goal.
    Negation,
    /// Variables that a goal has for itself.
    Quantified(Vars),
}

// The root of a goal, which stands behind the entries of the goals that it joins. `size` counts the entries of the
// whole goal.
#[derive(Drop)]
pub(crate) struct Entry {
    pub(crate) root: Root,
    pub(crate) span: Span,
    pub(crate) size: usize,
}

impl Root {
    // How many goals it joins.
    pub(crate) fn arity(&self) -> usize
        ensures { result ≡ arity_of self.now }
    {
        match self {
            Root::Simple(_) => 0,
            Root::Conjunction(count) | Root::Parallel(count) | Root::Disjunction(count) => *count,
            Root::Conditional => 3,
            Root::Negation | Root::Quantified(_) => 1,
        }
    }
}

// Where the goal of this number starts, or the end where there are not so many.
pub(crate) fn start_of(starts: &[usize], number: usize, end: usize) -> usize
    ensures { result ≡ slice_index_or starts.now number end }
{
    if number < starts.len() {
        starts[number]
    } else {
        end
    }
}

// The entries from one index to another.
pub(crate) fn entries_between(entries: &[Entry], start: usize, end: usize) -> &[Entry]
    requires order { start ≤ end }
    requires within { end ≤ length entries.now }
    ensures { result.now ≡ slice_range entries.now start end }
{
    &entries[start..end]
}

// The last of these entries.
pub(crate) fn last_entry(entries: &[Entry]) -> &Entry
    requires { 0 < length entries.now }
    ensures { entries.now ≡ take (length entries.now - 1) entries.now ++ result.now ∷ [] }
{
    &entries[entries.len() - 1]
}
