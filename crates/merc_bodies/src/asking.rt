//! The body of a goal that is asked.
ghost use Rattle.std.specs.Prelude.{◌≡◌, map, IfOk};
ghost use Rattle.merc_bodies.specs.Bodies.{asked_body, numbered, own_variables};

use crate::numbering::Numbering;
use crate::renaming::{new_variables, push_renamed};
use merc_base::NoMemory;
use merc_goal_tree::{Node, NodeRef, Nodes, Var, Vars};
use std::alloc::Global;

/// A goal that is asked.
#[derive(Drop)]
pub struct Asked {
    /// The goal, whose variables have the numbers from 0, without gaps.
    pub goal: Node,
    /// The variables whose values are asked for.
    pub answers: Vars,
}

/// The body of a goal that is asked, of which this is the flat form and these are the variables whose values are asked
/// for. It has no arguments: its variables are numbered from 0, without gaps and in the order that they had. A variable
/// that does not occur in the goal has the number behind them.
///
/// With n occurrences of variables this takes time of the order of n log n.
///
/// # Errors
///
/// `NoMemory` where memory was refused.
pub fn asked_body(alloc: Global, form: &NodeRef<'_>, answers: &[Var]) -> Result<Asked, NoMemory>
    ensures goal { IfOk result (λ asked. asked.goal ≡ asked_body form.now) }
    ensures answers { IfOk result (λ asked. asked.answers ≡ map (numbered 0 0 (own_variables 0 form.now)) answers.now) }
{
    let mut numbering = Numbering::new(alloc, 0)?;
    numbering.take(alloc, form)?;
    let mut nodes = Nodes::new(alloc);
    push_renamed(alloc, &numbering, form, &mut nodes)?;
    let answers = new_variables(alloc, &numbering, answers)?;
    match nodes.into_only() {
        Some(goal) => Ok(Asked { goal, answers }),
        None => unreachable!(),
    }
}
