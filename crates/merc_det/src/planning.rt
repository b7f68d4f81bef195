//! What is to be done for goals, so that they are gone through without recursion.
ghost use Rattle.std.specs.Prelude.{◌≡◌, [], ◌∷◌, ◌++◌, slice_get, OnOk};
ghost use Rattle.merc_graded_tree.specs.Nodes.{nodes_of};
ghost use Rattle.merc_graded_tree.specs.Roots.{arms_of};
ghost use Rattle.merc_graded_tree.specs.Views.{viewed};
ghost use Rattle.merc_det.specs.Tasks.{arm_task, arm_tasks, choice_tasks, conjunct_task, inner_tasks, plan, recall_tasks, tasks_in_turn};

use merc_base::NoMemory;
use merc_goal_tree::{Symbol, Var};
use merc_graded_tree::{NodeRef, NodeView, Parts, Running};

/// One thing to do. The last of a list of tasks comes first.
#[derive(Drop)]
pub(crate) enum Task<'a> {
    /// To put the goal with all its categories behind the others.
    Grade(NodeRef<'a>),
    /// The same of a conjunct of `&`, which hands on nothing if it has no solution.
    Beside(NodeRef<'a>),
    /// What became known behind the first so many symbols is forgotten if the last goal has no solution.
    Withhold(usize),
    /// What this goal tells is known if the last goal has no solution.
    Recall(NodeRef<'a>),
    /// What the goal tells is known.
    Tell(NodeRef<'a>),
    /// The symbol is known of the variable.
    Learn(Var, Symbol),
    /// What became known behind the first so many symbols is forgotten.
    Forget(usize),
    /// To make the last goals, as many as the goal joins, that goal.
    Close(NodeRef<'a>),
}

/// Plans a goal: those that it joins, each with what is known where it stands, and then the goal itself. So many symbols
/// are known before it. Behind a parallel conjunction all is known that its conjuncts tell, also what one that has no
/// solution kept from the others.
///
/// # Errors
///
/// `NoMemory` where memory was refused.
pub(crate) fn plan<'a>(
    goal: NodeRef<'a>,
    known: usize,
    tasks: &mut Vec<Task<'a>>,
) -> Result<(), NoMemory>
    ensures { OnOk result (tasks.new.items ≡ tasks.old.items ++ plan known goal.entry) }
{
    let view = goal.view();
    plan_recall(&goal, &view, known, tasks)?;
    leave(Task::Close(goal), tasks)?;
    plan_inner(view, known, tasks)
}

// Plans that what the conjuncts of `&` tell is known behind them all.
fn plan_recall<'a>(
    goal: &NodeRef<'a>,
    view: &NodeView<'a>,
    known: usize,
    tasks: &mut Vec<Task<'a>>,
) -> Result<(), NoMemory>
    ensures { OnOk result (tasks.new.items ≡ tasks.old.items ++ recall_tasks known goal.now (viewed view.now)) }
{
    match view {
        NodeView::Conjunction(Running::Parallel(_), _) => {
            leave(Task::Recall(goal.copy()), tasks)?;
            leave(Task::Withhold(known), tasks)
        }
        NodeView::Conjunction(Running::Sequential, _)
        | NodeView::Basic(_)
        | NodeView::Disjunction(_)
        | NodeView::Switch(_, _, _)
        | NodeView::Conditional(_, _, _)
        | NodeView::Negation(_)
        | NodeView::Quantified(_, _) => Ok(()),
    }
}

// Plans the goals that a goal joins.
fn plan_inner<'a>(
    view: NodeView<'a>,
    known: usize,
    tasks: &mut Vec<Task<'a>>,
) -> Result<(), NoMemory>
    ensures { OnOk result (tasks.new.items ≡ tasks.old.items ++ inner_tasks known (viewed view.entry)) }
{
    match view {
        NodeView::Basic(_) => Ok(()),
        NodeView::Conjunction(running, goals) => plan_in_turn(running, goals, tasks),
        NodeView::Disjunction(goals) => plan_choices(goals, known, tasks),
        NodeView::Switch(variable, symbols, arms) => {
            plan_arms(variable, symbols.as_slice(), arms, known, tasks)
        }
        NodeView::Conditional(condition, then_part, else_part) => {
            plan_conditional(condition, then_part, else_part, known, tasks)
        }
        NodeView::Negation(inner) => plan_apart(inner, known, tasks),
        NodeView::Quantified(_, inner) => leave(Task::Grade(inner), tasks),
    }
}

// Plans a condition, a then part that goes on behind it, and an else part from what is known before both.
fn plan_conditional<'a>(
    condition: NodeRef<'a>,
    then_part: NodeRef<'a>,
    else_part: NodeRef<'a>,
    known: usize,
    tasks: &mut Vec<Task<'a>>,
) -> Result<(), NoMemory>
    ensures { OnOk result (tasks.new.items ≡ tasks.old.items ++ Task.Forget known ∷ Task.Grade else_part.entry ∷ Task.Forget known ∷ Task.Grade then_part.entry ∷ Task.Grade condition.entry ∷ []) }
{
    plan_apart(else_part, known, tasks)?;
    plan_apart(then_part, known, tasks)?;
    leave(Task::Grade(condition), tasks)
}

// Plans goals that run one after the other, or beside one another.
fn plan_in_turn<'a>(
    running: Running,
    goals: Parts<'a>,
    tasks: &mut Vec<Task<'a>>,
) -> Result<(), NoMemory>
    ensures { OnOk result (tasks.new.items ≡ tasks.old.items ++ tasks_in_turn running (nodes_of goals.entry)) }
{
    let mut left = goals;
    while let Some(last) = left.take_last() {
        leave(conjunct_task(running, last), tasks)?;
    }
    Ok(())
}

fn conjunct_task(running: Running, goal: NodeRef<'_>) -> Task<'_>
    ensures { result ≡ conjunct_task running goal.entry }
{
    match running {
        Running::Sequential => Task::Grade(goal),
        Running::Parallel(_) => Task::Beside(goal),
    }
}

/// Plans a conjunct of `&`, which hands on nothing if it has no solution. So many symbols are known before it.
///
/// # Errors
///
/// `NoMemory` where memory was refused.
pub(crate) fn plan_beside<'a>(
    goal: NodeRef<'a>,
    known: usize,
    tasks: &mut Vec<Task<'a>>,
) -> Result<(), NoMemory>
    ensures { OnOk result (tasks.new.items ≡ tasks.old.items ++ Task.Withhold known ∷ Task.Grade goal.entry ∷ []) }
{
    leave(Task::Withhold(known), tasks)?;
    leave(Task::Grade(goal), tasks)
}

// Plans goals, each from what is known before the first.
fn plan_choices<'a>(
    goals: Parts<'a>,
    known: usize,
    tasks: &mut Vec<Task<'a>>,
) -> Result<(), NoMemory>
    ensures { OnOk result (tasks.new.items ≡ tasks.old.items ++ choice_tasks known (nodes_of goals.entry)) }
{
    let mut left = goals;
    while let Some(last) = left.take_last() {
        plan_apart(last, known, tasks)?;
    }
    Ok(())
}

// Plans the arms of a switch, each with its symbol known.
fn plan_arms<'a>(
    variable: Var,
    symbols: &[Symbol],
    arms: Parts<'a>,
    known: usize,
    tasks: &mut Vec<Task<'a>>,
) -> Result<(), NoMemory>
    ensures { OnOk result (tasks.new.items ≡ tasks.old.items ++ arm_tasks known variable (arms_of symbols.now arms.entry)) }
{
    let mut left = arms;
    while let Some(last) = left.take_last() {
        plan_arm(variable, symbols, left.len(), last, known, tasks)?;
    }
    Ok(())
}

// Plans the arm of the symbol at an index; nothing where there is no such symbol.
fn plan_arm<'a>(
    variable: Var,
    symbols: &[Symbol],
    index: usize,
    body: NodeRef<'a>,
    known: usize,
    tasks: &mut Vec<Task<'a>>,
) -> Result<(), NoMemory>
    ensures { OnOk result (tasks.new.items ≡ tasks.old.items ++ arm_task known variable (slice_get symbols.now index) body.entry) }
{
    if let Some(symbol) = symbol_at(symbols, index) {
        plan_apart(body, known, tasks)?;
        leave(Task::Learn(variable, symbol), tasks)?;
    }
    Ok(())
}

fn symbol_at(symbols: &[Symbol], index: usize) -> Option<Symbol>
    ensures { result ≡ slice_get symbols.now index }
{
    match symbols.get(index) {
        Some(symbol) => Some(*symbol),
        None => None,
    }
}

// Plans a goal, and that what becomes known in it is forgotten behind it.
fn plan_apart<'a>(
    goal: NodeRef<'a>,
    known: usize,
    tasks: &mut Vec<Task<'a>>,
) -> Result<(), NoMemory>
    ensures { OnOk result (tasks.new.items ≡ tasks.old.items ++ Task.Forget known ∷ Task.Grade goal.entry ∷ []) }
{
    leave(Task::Forget(known), tasks)?;
    leave(Task::Grade(goal), tasks)
}

/// Leaves a task to be done next.
///
/// # Errors
///
/// `NoMemory` where memory was refused.
pub(crate) fn leave<'a>(task: Task<'a>, tasks: &mut Vec<Task<'a>>) -> Result<(), NoMemory>
    ensures { OnOk result (tasks.new.items ≡ tasks.old.items ++ task.entry ∷ []) }
{
    tasks.push(task)?;
    Ok(())
}
