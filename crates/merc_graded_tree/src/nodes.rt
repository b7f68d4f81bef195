//! Goals in the order in which they go, as they are built.
ghost use Rattle.std.specs.Prelude.{◌≡◌, ◌≤◌, ◌<◌, [], ◌∷◌, ◌++◌, length, take, slice_get, None, OnOk, OnErr};
ghost use Rattle.merc_graded_tree.specs.Nodes.{node, Basic};
ghost use Rattle.merc_graded_tree.specs.Roots.{arity_of, joined, last_joined};

use crate::entries::{Entry, entries_between, start_of};
use crate::{BasicGoal, Label, NodeRef, Root, Running};
use merc_base::{NoMemory, Sequence, Span};
use merc_goal_tree::{Symbol, Var, Vars};
use std::alloc::Global;
use std::marker::Model;

/// Goals in order. They lie in one list of entries, each goal behind those that it joins, so that they are dropped and
/// read without recursion. As a stack they serve to build goals: the last ones become parts of the next.
#[derive(Drop)]
pub struct Nodes {
    entries: Vec<Entry>,
    // where the entries of each goal start
    starts: Vec<usize>,
}

impl Model for Nodes {
    ghost use Rattle.std.specs.Prelude.{◌≡◌, List};
    ghost use Rattle.merc_graded_tree.specs.Nodes.{Node};

    ghost Value = { List Node };

    ghost use Rattle.merc_graded_tree.specs.LabelCode.{node_list_code};

    ghost coded = { node_list_code };

    ghost use Rattle.merc_graded_tree.specs.Entries.{nodes_from, AreNodes, starts_from};

    ghost view = { λ n. nodes_from n.entries.items };

    ghost invariant = { λ n. AreNodes n.entries.items × (n.starts.items ≡ starts_from 0 (nodes_from n.entries.items)) };
}

impl Nodes {
    /// No goals. It takes no memory before one is pushed.
    pub fn new(alloc: Global) -> Nodes
        ensures { result ≡ [] }
    {
        Nodes {
            entries: Vec::new(alloc),
            starts: Vec::new(alloc),
        }
    }

    /// The number of goals.
    pub fn len(&self) -> usize
        ensures { result ≡ length self.now }
    {
        self.starts.len()
    }

    /// Puts a goal that holds no others behind the others, without a category. Where memory is refused nothing
    /// changes, here and in the calls below.
    pub fn push(&mut self, goal: BasicGoal, outputs: Vars, span: Span) -> Result<(), NoMemory>
        ensures ok { OnOk result (self.new ≡ self.old ++ node (Basic goal) outputs None span ∷ []) }
        ensures err { OnErr result (self.new ≡ self.old) }
    {
        self.join(Root::Basic(goal), outputs, span)
    }

    /// Makes the last `count` goals one conjunction that runs in this way, without a category.
    pub fn conjoin(
        &mut self,
        running: Running,
        count: usize,
        outputs: Vars,
        span: Span,
    ) -> Result<(), NoMemory>
        requires { count ≤ length self.old }
        ensures ok { OnOk result (self.new ≡ joined (Root.Conjunction running count) outputs span self.old) }
        ensures err { OnErr result (self.new ≡ self.old) }
    {
        self.join(Root::Conjunction(running, count), outputs, span)
    }

    /// Makes the last `count` goals one disjunction, without a category.
    pub fn disjoin(&mut self, count: usize, outputs: Vars, span: Span) -> Result<(), NoMemory>
        requires { count ≤ length self.old }
        ensures ok { OnOk result (self.new ≡ joined (Root.Disjunction count) outputs span self.old) }
        ensures err { OnErr result (self.new ≡ self.old) }
    {
        self.join(Root::Disjunction(count), outputs, span)
    }

    /// Makes the last goals, as many as there are symbols, the arms of one switch on the variable, without a category.
    /// The first of them is the arm of the first symbol, and so on.
    pub fn switch(
        &mut self,
        variable: Var,
        symbols: Sequence<Symbol>,
        outputs: Vars,
        span: Span,
    ) -> Result<(), NoMemory>
        requires { length symbols ≤ length self.old }
        ensures ok { OnOk result (self.new ≡ joined (Root.Switch variable symbols) outputs span self.old) }
        ensures err { OnErr result (self.new ≡ self.old) }
    {
        self.join(Root::Switch(variable, symbols), outputs, span)
    }

    /// Makes the last three goals the condition, the then part and the else part of one goal, without a category.
    pub fn decide(&mut self, outputs: Vars, span: Span) -> Result<(), NoMemory>
        requires { 3 ≤ length self.old }
        ensures ok { OnOk result (self.new ≡ joined Root.Conditional outputs span self.old) }
        ensures err { OnErr result (self.new ≡ self.old) }
    {
        self.join(Root::Conditional, outputs, span)
    }

    /// Puts the negation of the last goal in its place, without a category.
    pub fn negate(&mut self, outputs: Vars, span: Span) -> Result<(), NoMemory>
        requires { 1 ≤ length self.old }
        ensures ok { OnOk result (self.new ≡ joined Root.Negation outputs span self.old) }
        ensures err { OnErr result (self.new ≡ self.old) }
    {
        self.join(Root::Negation, outputs, span)
    }

    /// Quantifies the last goal: these variables are its own. The whole has no category.
    pub fn quantify(&mut self, own: Vars, outputs: Vars, span: Span) -> Result<(), NoMemory>
        requires { 1 ≤ length self.old }
        ensures ok { OnOk result (self.new ≡ joined (Root.Quantified own) outputs span self.old) }
        ensures err { OnErr result (self.new ≡ self.old) }
    {
        self.join(Root::Quantified(own), outputs, span)
    }

    /// The goal at an index, None past the last.
    pub fn get(&self, index: usize) -> Option<NodeRef<'_>>
        ensures { result ≡ slice_get self.now index }
    {
        if index >= self.starts.len() {
            return None;
        }
        let start = start_of(&self.starts, index, self.entries.len());
        let end = start_of(&self.starts, index + 1, self.entries.len());
        Some(NodeRef {
            entries: entries_between(&self.entries, start, end),
        })
    }

    /// Puts a goal with this label behind the others. It joins the last ones, as many as its root says.
    pub fn put(&mut self, label: Label) -> Result<(), NoMemory>
        requires { arity_of label.root ≤ length self.old }
        ensures ok { OnOk result (self.new ≡ last_joined label self.old) }
        ensures err { OnErr result (self.new ≡ self.old) }
    {
        let kept = self.starts.len() - label.root.arity();
        let start = start_of(&self.starts, kept, self.entries.len());
        let size = self.entries.len() - start + 1;
        put_entry(
            &mut self.entries,
            &mut self.starts,
            Entry { label, size },
            kept,
            start,
        )?;
        Ok(())
    }

    // Puts a root behind the others, which joins the last ones, without a category.
    fn join(&mut self, root: Root, outputs: Vars, span: Span) -> Result<(), NoMemory>
        requires { arity_of root ≤ length self.old }
        ensures ok { OnOk result (self.new ≡ joined root outputs span self.old) }
        ensures err { OnErr result (self.new ≡ self.old) }
    {
        self.put(Label {
            root,
            outputs,
            category: None,
            span,
        })
    }
}

// Puts an entry behind the others, and where its goal starts behind the first `kept` starts. Where memory is refused
// nothing changes.
fn put_entry(
    entries: &mut Vec<Entry>,
    starts: &mut Vec<usize>,
    entry: Entry,
    kept: usize,
    start: usize,
) -> Result<(), NoMemory>
    ensures entries { OnOk result (entries.new.items ≡ entries.old.items ++ entry ∷ []) }
    ensures starts { OnOk result (starts.new.items ≡ take kept starts.old.items ++ start ∷ []) }
    ensures err { OnErr result ((entries.new.items ≡ entries.old.items) × (starts.new.items ≡ starts.old.items)) }
{
    starts.reserve(1)?;
    entries.push(entry)?;
    starts.truncate(kept);
    starts.push(start).unwrap();
    Ok(())
}
