//! Goals in flat form, as they are built.
ghost use Rattle.std.specs.Prelude.{◌≡◌, ◌≢◌, ◌≤◌, [], ◌∷◌, ◌++◌, length, slice_get, OnOk, OnErr, MatchOption};
ghost use Rattle.merc_goal_tree.specs.Nodes.{Simple};
ghost use Rattle.merc_goal_tree.specs.Roots.{arity_of, joined};

use crate::entries::{Entry, entries_between, start_of};
use crate::{NodeRef, Root, SimpleGoal, Vars};
use merc_base::{NoMemory, Span};
use std::alloc::Global;
use std::marker::Model;

/// Goals in order. They lie in one list of entries, each goal behind those that it joins, so that they are dropped and
/// read without recursion. As a stack they serve to build goals: the last ones become parts of the next.
#[derive(Drop)]
pub struct Nodes {
    entries: Vec<Entry>,
    // where the entries of each goal start
    starts: Vec<usize>,
}

impl Model for Nodes {
    ghost use Rattle.std.specs.Prelude.{◌≡◌, List, []};
    ghost use Rattle.merc_goal_tree.specs.Nodes.{Node};

    ghost Value = { List Node };

    ghost use Rattle.merc_goal_tree.specs.EntryCode.{node_list_code};

    ghost coded = { node_list_code };

    ghost use Rattle.merc_goal_tree.specs.Entries.{built, AreNodes, starts_from};

    ghost view = { λ n. built n.entries.items [] };

    ghost invariant = { λ n. AreNodes n.entries.items × (n.starts.items ≡ starts_from 0 (built n.entries.items [])) };
}

impl Nodes {
    /// No goals. It takes no memory before one is pushed.
    pub fn new(alloc: Global) -> Nodes
        ensures { result ≡ [] }
    {
        Nodes {
            entries: Vec::new(alloc),
            starts: Vec::new(alloc),
        }
    }

    /// The number of goals.
    pub fn len(&self) -> usize
        ensures { result ≡ length self.now }
    {
        self.starts.len()
    }

    /// Puts a goal that holds no others behind the others. Where memory is refused nothing changes, here and in the
    /// calls below.
    pub fn push(&mut self, goal: SimpleGoal, span: Span) -> Result<(), NoMemory>
        ensures ok { OnOk result (self.new ≡ self.old ++ Simple goal span ∷ []) }
        ensures err { OnErr result (self.new ≡ self.old) }
    {
        self.join(Root::Simple(goal), span)
    }

    /// Makes the last `count` goals one conjunction.
    pub fn conjoin(&mut self, count: usize, span: Span) -> Result<(), NoMemory>
        requires { count ≤ length self.old }
        ensures ok { OnOk result (self.new ≡ joined (Root.Conjunction count) span self.old) }
        ensures err { OnErr result (self.new ≡ self.old) }
    {
        self.join(Root::Conjunction(count), span)
    }

    /// Makes the last `count` goals one parallel conjunction.
    pub fn conjoin_parallel(&mut self, count: usize, span: Span) -> Result<(), NoMemory>
        requires { count ≤ length self.old }
        ensures ok { OnOk result (self.new ≡ joined (Root.Parallel count) span self.old) }
        ensures err { OnErr result (self.new ≡ self.old) }
    {
        self.join(Root::Parallel(count), span)
    }

    /// Makes the last `count` goals one disjunction.
    pub fn disjoin(&mut self, count: usize, span: Span) -> Result<(), NoMemory>
        requires { count ≤ length self.old }
        ensures ok { OnOk result (self.new ≡ joined (Root.Disjunction count) span self.old) }
        ensures err { OnErr result (self.new ≡ self.old) }
    {
        self.join(Root::Disjunction(count), span)
    }

    /// Makes the last three goals the condition, the then part and the else part of one goal.
    pub fn conditional(&mut self, span: Span) -> Result<(), NoMemory>
        requires { 3 ≤ length self.old }
        ensures ok { OnOk result (self.new ≡ joined Root.Conditional span self.old) }
        ensures err { OnErr result (self.new ≡ self.old) }
    {
        self.join(Root::Conditional, span)
    }

    /// Puts the negation of the last goal in its place.
    pub fn negate(&mut self, span: Span) -> Result<(), NoMemory>
        requires { 1 ≤ length self.old }
        ensures ok { OnOk result (self.new ≡ joined Root.Negation span self.old) }
        ensures err { OnErr result (self.new ≡ self.old) }
    {
        self.join(Root::Negation, span)
    }

    /// Quantifies the last goal: these variables are its own.
    pub fn quantify(&mut self, variables: Vars, span: Span) -> Result<(), NoMemory>
        requires { 1 ≤ length self.old }
        ensures ok { OnOk result (self.new ≡ joined (Root.Quantified variables) span self.old) }
        ensures err { OnErr result (self.new ≡ self.old) }
    {
        self.join(Root::Quantified(variables), span)
    }

    /// The goal at an index, None past the last.
    pub fn get(&self, index: usize) -> Option<NodeRef<'_>>
        ensures { result ≡ slice_get self.now index }
    {
        if index >= self.starts.len() {
            return None;
        }
        let start = start_of(&self.starts, index, self.entries.len());
        let end = start_of(&self.starts, index + 1, self.entries.len());
        Some(NodeRef {
            entries: entries_between(&self.entries, start, end),
        })
    }

    /// The only goal, None where there is none or more than one. It takes no memory.
    pub fn into_only(self) -> Option<Node>
        ensures { MatchOption result (length self ≢ 1) (λ node. self ≡ node ∷ []) }
    {
        if self.starts.len() != 1 {
            return None;
        }
        Some(Node {
            entries: self.entries,
        })
    }

    // Puts a root behind the others, which joins the last ones.
    fn join(&mut self, root: Root, span: Span) -> Result<(), NoMemory>
        requires { arity_of root ≤ length self.old }
        ensures ok { OnOk result (self.new ≡ joined root span self.old) }
        ensures err { OnErr result (self.new ≡ self.old) }
    {
        let kept = self.starts.len() - root.arity();
        let start = start_of(&self.starts, kept, self.entries.len());
        let size = self.entries.len() - start + 1;
        self.starts.reserve(1)?;
        self.entries.push(Entry { root, span, size })?;
        self.starts.truncate(kept);
        self.starts.push(start).unwrap();
        Ok(())
    }
}

/// A goal.
#[derive(Drop)]
pub struct Node {
    entries: Vec<Entry>,
}

impl Model for Node {
    ghost use Rattle.merc_goal_tree.specs.Nodes.{Node};

    ghost Value = { Node };

    ghost use Rattle.merc_goal_tree.specs.EntryCode.{node_code};

    ghost coded = { node_code };

    ghost use Rattle.merc_goal_tree.specs.Entries.{node_of, IsNode};

    ghost view = { λ n. node_of n.entries.items };

    ghost invariant = { λ n. IsNode n.entries.items };
}

impl Node {
    /// The goal, to be looked at.
    pub fn as_ref(&self) -> NodeRef<'_>
        ensures { result ≡ self.now }
    {
        NodeRef {
            entries: &self.entries,
        }
    }
}
