//! What is to be done to find the switches of a goal.
ghost use Rattle.std.specs.Prelude.{◌≡◌, [], ◌∷◌, MatchOption, OnOk};

use crate::selection::Selection;
use merc_base::{Category, NoMemory};
use merc_goal_tree::Vars;
use merc_graded_tree::{Label, NodeRef};
use merc_switch_choice::VarSet;
use std::alloc::Global;
use std::marker::Model;

/// One thing to do.
#[derive(Drop)]
pub(crate) enum Task<'a> {
    /// To find the switches of a goal, which is put behind the others.
    Find(NodeRef<'a>),
    /// To put a goal behind the others as it is.
    Keep(NodeRef<'a>),
    /// To bind the outputs of a goal.
    Bind(NodeRef<'a>),
    /// To bind no more than so many variables, the first ones.
    Unbind(usize),
    /// To put disjuncts behind the others as one goal, a switch if they can be one.
    Judge(Group<'a>),
    /// To make the last goals, as many as the root says, one goal that has this label.
    Close(Label),
}

/// Disjuncts that become one goal.
#[derive(Drop)]
pub(crate) struct Group<'a> {
    /// The disjuncts, with the disjunction whose disjuncts they are.
    pub(crate) selected: Selection<'a>,
    /// The variables by whose symbols they came together.
    pub(crate) used: VarSet,
    /// By how many variables they can come together still, at most.
    pub(crate) left: usize,
    /// The outputs of the goal.
    pub(crate) outputs: Vars,
    /// The category of the goal.
    pub(crate) category: Option<Category>,
}

/// Tasks in the order in which they are to be done.
#[derive(Drop)]
pub(crate) struct Tasks<'a> {
    // the last comes first
    stack: Vec<Task<'a>>,
}

impl<'a> Model for Tasks<'a> {
    ghost use Rattle.std.specs.Prelude.{List, reverse};
    ghost use Rattle.merc_switch.specs.declared.tasks.Task.{Task};

    ghost Value = { List Task };

    ghost use Rattle.std.specs.Coded.{codes};
    ghost use Rattle.merc_graded_tree.specs.LabelCode.{node_code};

    ghost coded = { Prim.hlevel (codes, node_code) };

    ghost view = { λ t. reverse t.stack.items };
}

impl<'a> Tasks<'a> {
    /// No tasks. It takes no memory.
    pub(crate) fn new(alloc: Global) -> Tasks<'a>
        ensures { result ≡ [] }
    {
        Tasks {
            stack: Vec::new(alloc),
        }
    }

    /// Puts a task before the others.
    ///
    /// # Errors
    ///
    /// `NoMemory` where memory was refused.
    pub(crate) fn push(&mut self, task: Task<'a>) -> Result<(), NoMemory>
        ensures { OnOk result (self.new ≡ task.entry ∷ self.old) }
    {
        self.stack.push(task)?;
        Ok(())
    }

    /// Takes the first task.
    pub(crate) fn pop(&mut self) -> Option<Task<'a>>
        ensures { MatchOption result (self.old ≡ []) (λ task. self.old ≡ task ∷ self.new) }
    {
        self.stack.pop()
    }
}
