//! What is to be done for a goal's code.

use merc_base::Sequence;
use merc_code::Instruction;
use merc_goal_tree::{Symbol, Var};
use merc_graded_tree::{NodeRef, Parts};

/// The arms of a switch that are left, those before the ones whose code is there.
#[derive(Drop)]
pub(crate) struct Arms<'a> {
    pub(crate) variable: Var,
    pub(crate) symbols: &'a Sequence<Symbol>,
    pub(crate) left: Parts<'a>,
    pub(crate) mark: usize,
    // how many instructions are left where the code behind the switch begins
    pub(crate) behind: usize,
    // how many instructions are left where each arm begins whose code is there, the last first, but for the first of them
    pub(crate) starts: Vec<usize>,
}

/// One thing to do. The last of a list of tasks comes first. Marks of goals have numbers from the given one on, and a
/// place is given by how many instructions are left there.
#[derive(Drop)]
pub(crate) enum Task<'a> {
    /// To put the goal's code before the others.
    Emit(NodeRef<'a>, usize),
    /// To put the goal's code before the others, without what drops its choice points.
    Bare(NodeRef<'a>, usize),
    Put(Instruction),
    /// To put a choice point before the others that goes on at this place.
    Branch(usize),
    /// To put the code of goals that come one after the other.
    InTurn(Parts<'a>, usize),
    /// To put the code of disjuncts before others, which goes on at this place.
    Choose(Parts<'a>, usize, usize),
    /// To put the code of a condition and a then part before the else part, which goes on at this place.
    Decide(NodeRef<'a>, NodeRef<'a>, usize, usize),
    /// To put the code of arms, and then of the switch.
    Switch(Arms<'a>),
}
