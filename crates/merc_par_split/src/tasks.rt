//! What is to be done to split goals, so that they are gone through without recursion.
ghost use Rattle.std.specs.Prelude.{◌≡◌, [], ◌∷◌, ◌+◌, ◌++◌, IfOk, OnOk, MatchOption};
ghost use Rattle.merc_par_split.specs.declared.tasks.Task.{Task};
ghost use Rattle.merc_par_split.specs.Tasks.{passing, relabelled, wraps};

use merc_base::{NoMemory, Sequence, Span};
use merc_graded_tree::{Label, NodeRef, Root, Running};
use merc_rights::{Awaited, Right, Signals, sum};
use std::alloc::Global;
use std::marker::Model;
use std::mem;

/// A goal of a conjunct, with its rights.
#[derive(Drop)]
pub(crate) struct Placing<'a> {
    pub(crate) goal: NodeRef<'a>,
    /// The index of its first part among those of the whole goal.
    pub(crate) first: usize,
    /// Each for a variable that the goal uses.
    pub(crate) waits: Sequence<Awaited>,
    /// Each for a variable that the goal binds.
    pub(crate) signals: Signals,
}

impl<'a> Placing<'a> {
    /// Takes the rights to signal. None are left.
    pub(crate) fn take_signals(&mut self, alloc: Global) -> Signals
        ensures taken { result ≡ self.old.signals }
        ensures left { self.new ≡ record { goal = self.old.goal; first = self.old.first; waits = self.old.waits; signals = [] } }
    {
        mem::replace(&mut self.signals, Signals::none(alloc))
    }

    /// Takes the rights to wait. None are left.
    pub(crate) fn take_waits(&mut self, alloc: Global) -> Sequence<Awaited>
        ensures taken { result ≡ self.old.waits }
        ensures left { self.new ≡ record { goal = self.old.goal; first = self.old.first; waits = []; signals = self.old.signals } }
    {
        mem::replace(&mut self.waits, Sequence::new(alloc))
    }
}

/// One thing to do.
#[derive(Drop)]
pub(crate) enum Task<'a> {
    /// To put the goal's split tree behind the others.
    Place(Placing<'a>),
    /// The same, where the signals go into the goal.
    Enter(Placing<'a>),
    /// To put waits behind the others.
    Waits(Sequence<Right>, Span),
    /// To put signals behind the others.
    Signals(Signals, Span),
    /// To make the last goals, as many as the root says, one goal that has this label.
    Close(Label),
}

/// Tasks in the order in which they are to be done.
#[derive(Drop)]
pub(crate) struct Tasks<'a> {
    // the last comes first
    stack: Vec<Task<'a>>,
}

impl<'a> Model for Tasks<'a> {
    ghost use Rattle.std.specs.Prelude.{List, reverse};
    ghost use Rattle.merc_par_split.specs.declared.tasks.Task.{Task};

    ghost Value = { List Task };

    ghost use Rattle.std.specs.Coded.{codes};
    ghost use Rattle.merc_graded_tree.specs.LabelCode.{node_code};

    ghost coded = { Prim.hlevel (codes, node_code) };

    ghost view = { λ t. reverse t.stack.items };
}

impl<'a> Tasks<'a> {
    /// No tasks. It takes no memory.
    pub(crate) fn new(alloc: Global) -> Tasks<'a>
        ensures { result ≡ [] }
    {
        Tasks {
            stack: Vec::new(alloc),
        }
    }

    /// Puts a task before the others.
    ///
    /// # Errors
    ///
    /// `NoMemory` where memory was refused.
    pub(crate) fn push(&mut self, task: Task<'a>) -> Result<(), NoMemory>
        ensures { OnOk result (self.new ≡ task.entry ∷ self.old) }
    {
        self.stack.push(task)?;
        Ok(())
    }

    /// Takes the first task.
    pub(crate) fn pop(&mut self) -> Option<Task<'a>>
        ensures { MatchOption result (self.old ≡ []) (λ task. self.old ≡ task ∷ self.new) }
    {
        self.stack.pop()
    }
}

/// The label of a goal with this root.
///
/// # Errors
///
/// `NoMemory` where memory was refused.
pub(crate) fn relabelled(alloc: Global, goal: &NodeRef<'_>, root: Root) -> Result<Label, NoMemory>
    ensures { IfOk result (λ label. label ≡ relabelled goal.now root) }
{
    Ok(Label {
        root,
        outputs: goal.outputs().try_clone(alloc)?,
        category: goal.category(),
        span: goal.span(),
    })
}

/// Leaves to make the last goals, as many as the root says, one goal with this root in the place of a goal.
///
/// # Errors
///
/// `NoMemory` where memory was refused.
pub(crate) fn leave_close<'a>(
    alloc: Global,
    goal: &NodeRef<'a>,
    root: Root,
    tasks: &mut Tasks<'a>,
) -> Result<(), NoMemory>
    ensures { OnOk result (tasks.new ≡ Task.Close (relabelled goal.now root) ∷ tasks.old) }
{
    tasks.push(Task::Close(relabelled(alloc, goal, root)?))
}

/// Leaves to make the last goals one conjunction in the place of a goal, which is the goal and so many others. It is the goal
/// where there are none.
///
/// # Errors
///
/// `NoMemory` where memory was refused.
pub(crate) fn leave_wrap<'a>(
    alloc: Global,
    goal: &NodeRef<'a>,
    others: usize,
    tasks: &mut Tasks<'a>,
) -> Result<(), NoMemory>
    ensures { OnOk result (tasks.new ≡ wraps others goal.now ++ tasks.old) }
{
    if others == 0 {
        return Ok(());
    }
    let count = sum(others, 1)?;
    let root = Root::Conjunction(Running::Sequential, count);
    leave_close(alloc, goal, root, tasks)
}

/// Leaves to make so many goals, a goal and so many others one conjunction in the place of the goal.
///
/// # Errors
///
/// `NoMemory` where memory was refused.
pub(crate) fn leave_around<'a>(
    alloc: Global,
    goal: &NodeRef<'a>,
    before: usize,
    behind: usize,
    tasks: &mut Tasks<'a>,
) -> Result<(), NoMemory>
    ensures { OnOk result (tasks.new ≡ wraps (before + behind) goal.now ++ tasks.old) }
{
    let others = sum(before, behind)?;
    leave_wrap(alloc, goal, others, tasks)
}

/// Leaves rights to wait behind a goal.
///
/// # Errors
///
/// `NoMemory` where memory was refused.
pub(crate) fn leave_passing<'a>(
    alloc: Global,
    goal: &NodeRef<'a>,
    rights: Sequence<Right>,
    tasks: &mut Tasks<'a>,
) -> Result<(), NoMemory>
    ensures { OnOk result (tasks.new ≡ passing goal.now rights ++ tasks.old) }
{
    let count = rights.as_slice().len();
    if count == 0 {
        return Ok(());
    }
    leave_wrap(alloc, goal, count, tasks)?;
    tasks.push(Task::Waits(rights, goal.span()))
}
