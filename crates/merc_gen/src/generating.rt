//! The code of goals.
ghost use Rattle.std.specs.Prelude.{◌≡◌, Bool, ◌+◌, ◌++◌, ◌-◌, suc, [], ◌∷◌, length, reverse, IfOk, OnOk};
ghost use Rattle.merc_code.specs.Steps.{Code};
ghost use Rattle.merc_code.specs.declared.instruction.Instruction.{Instruction};
ghost use Rattle.merc_graded_tree.specs.declared.basic.Procedure.{Procedure};
ghost use Rattle.merc_graded_tree.specs.declared.entries.Running.{Running};
ghost use Rattle.merc_graded_tree.specs.Nodes.{Conjunction, Disjunction, Negation, Switch, goal_of, nodes_of};
ghost use Rattle.merc_graded_tree.specs.Roots.{arms_of};
ghost use Rattle.merc_gen.specs.Generated.{goal_code, leaving, node_code};
ghost use Rattle.merc_gen.specs.Singles.{contained};
ghost use Rattle.merc_gen.specs.Tasks.{after, decided_code, disjuncts_code, in_turn_code, switched_code, targets_at, task_turns, Performs};
ghost use Rattle.merc_gen.specs.declared.tasks.Task.{Task};
ghost use Rattle.merc_gen.specs.Turns.{arms_turns, goal_turns, joined_turns, list_turns, node_turns};

use crate::Singles;
use crate::arms::with_symbols;
use crate::basics::put_basic;
use crate::quiet::{is_cut, is_once};
use crate::suffix::Suffix;
use crate::tasks::{Arms, Task};
use merc_base::{NoMemory, Sequence};
use merc_code::{Instruction, Mark, Target};
use merc_goal_tree::{Symbol, Var};
use merc_graded_tree::{NodeRef, NodeView, Parts, Running, Site};
use std::alloc::Global;

/// The goal's code before a last instruction, where some procedures are known to leave no choice point behind. It takes
/// time and memory of the order of the goal's size.
///
/// # Errors
///
/// `NoMemory` where memory was refused.
pub fn generate_goal(
    alloc: Global,
    singles: &Singles,
    goal: &NodeRef<'_>,
    last: Instruction,
) -> Result<Vec<Instruction>, NoMemory>
    ensures { IfOk result (λ code. code.items ≡ node_code (contained singles.now) goal.now 0 (last ∷ [])) }
{
    let mut code = Suffix::new(alloc);
    let mut tasks = Vec::new(alloc);
    let done = perform_all(alloc, singles, goal, last, &mut tasks, &mut code);
    // (a call, since it costs much to prove what is dropped here)
    drop(tasks);
    done.and(Ok(code.into_vec()))
}

// Puts the goal's code before a last instruction, where nothing is to be done and there is no code.
fn perform_all<'a>(
    alloc: Global,
    singles: &Singles,
    goal: &NodeRef<'a>,
    last: Instruction,
    tasks: &mut Vec<Task<'a>>,
    code: &mut Suffix,
) -> Result<(), NoMemory>
    requires tasks { tasks.old.items ≡ [] }
    requires code { code.old ≡ [] }
    ensures { OnOk result (code.new ≡ node_code (contained singles.now) goal.now 0 (last ∷ [])) }
{
    code.put_first(last)?;
    leave(Task::Emit(goal.copy(), 0), tasks)?;
    while let Some(task) = tasks.pop() {
        perform(alloc, singles, task, tasks, code)?;
    }
    Ok(())
}

// Does one task. It may leave others to be done.
fn perform<'a>(
    alloc: Global,
    singles: &Singles,
    task: Task<'a>,
    tasks: &mut Vec<Task<'a>>,
    code: &mut Suffix,
) -> Result<(), NoMemory>
    ensures { OnOk result (Performs (contained singles.now) (after (contained singles.now) task.entry) (task_turns task.entry) tasks.old.items code.old tasks.new.items code.new) }
{
    match task {
        Task::Emit(goal, mark) => emit(alloc, singles, goal, mark, tasks, code),
        Task::Bare(goal, mark) => emit_bare(alloc, &goal, mark, tasks, code),
        Task::Put(instruction) => code.put_first(instruction),
        Task::Branch(behind) => put_branch(behind, code),
        Task::InTurn(goals, mark) => emit_in_turn(goals, mark, tasks),
        Task::Choose(goals, mark, behind) => { emit_disjunct(goals, mark, behind, tasks, code) }
        Task::Decide(condition, then_part, mark, behind) => {
            emit_condition(condition, then_part, mark, behind, tasks, code)
        }
        Task::Switch(arms) => emit_arm(alloc, arms, tasks, code),
    }
}

// The next number.
fn next_number(mark: usize) -> Result<usize, NoMemory>
    ensures { IfOk result (λ next. next ≡ suc mark) }
{
    match mark.checked_add(1) {
        Some(next) => Ok(next),
        // a goal that is nested so deep needs more memory than there is
        None => Err(NoMemory),
    }
}

// Puts a choice point in front that goes on at a place.
fn put_branch(behind: usize, code: &mut Suffix) -> Result<(), NoMemory>
    ensures { OnOk result (code.new ≡ Instruction.Try (length code.old - behind) ∷ code.old) }
{
    code.put_first(Instruction::Try(code.len().saturating_sub(behind)))
}

// Puts a jump to a place in front.
fn put_jump(behind: usize, code: &mut Suffix) -> Result<(), NoMemory>
    ensures { OnOk result (code.new ≡ Instruction.Jump (length code.old - behind) ∷ code.old) }
{
    code.put_first(Instruction::Jump(code.len().saturating_sub(behind)))
}

fn emit<'a>(
    alloc: Global,
    singles: &Singles,
    goal: NodeRef<'a>,
    mark: usize,
    tasks: &mut Vec<Task<'a>>,
    code: &mut Suffix,
) -> Result<(), NoMemory>
    ensures { OnOk result (Performs (contained singles.now) (node_code (contained singles.now) goal.entry mark) (node_turns goal.entry) tasks.old.items code.old tasks.new.items code.new) }
{
    if !is_cut(alloc, singles, &goal)? {
        return leave(Task::Bare(goal, mark), tasks);
    }
    let inner = next_number(mark)?;
    code.put_first(Instruction::Commit(Mark::new(mark)))?;
    leave(Task::Put(Instruction::Mark(Mark::new(mark))), tasks)?;
    leave(Task::Bare(goal, inner), tasks)
}

fn emit_bare<'a>(
    alloc: Global,
    goal: &NodeRef<'a>,
    mark: usize,
    tasks: &mut Vec<Task<'a>>,
    code: &mut Suffix,
) -> Result<(), NoMemory>
    ensures { OnOk result ((single : Procedure → Bool) → Performs single (goal_code single (goal_of goal.now) mark) (goal_turns (goal_of goal.now)) tasks.old.items code.old tasks.new.items code.new) }
{
    match goal.view() {
        NodeView::Basic(basic) => put_basic(alloc, basic, code),
        NodeView::Conjunction(running, goals) => {
            start_conjunction(running, goals, mark, tasks, code)
        }
        NodeView::Disjunction(goals) => start_disjunction(goals, mark, tasks, code),
        NodeView::Switch(variable, symbols, arms) => {
            start_switch(alloc, variable, symbols, arms, mark, tasks, code)
        }
        NodeView::Conditional(condition, then_part, else_part) => {
            let decided = Task::Decide(condition, then_part, mark, code.len());
            emit_before(else_part, mark, decided, tasks)
        }
        NodeView::Negation(inner) => emit_negation(inner, mark, tasks, code),
        NodeView::Quantified(_, inner) => leave(Task::Emit(inner, mark), tasks),
    }
}

// Forks goals that run side by side at a site. The code of others is to be put in turn.
fn start_conjunction<'a>(
    running: Running,
    goals: Parts<'a>,
    mark: usize,
    tasks: &mut Vec<Task<'a>>,
    code: &mut Suffix,
) -> Result<(), NoMemory>
    ensures { OnOk result ((single : Procedure → Bool) → Performs single (goal_code single (Conjunction running (nodes_of goals.entry)) mark) (goal_turns (Conjunction running (nodes_of goals.entry))) tasks.old.items code.old tasks.new.items code.new) }
{
    match running {
        Running::Parallel(site) => start_parallel(site, goals, mark, tasks, code),
        Running::Sequential => leave(Task::InTurn(goals, mark), tasks),
    }
}

// Forks goals at a site. Without one their code is to be put in turn.
fn start_parallel<'a>(
    site: Option<Site>,
    goals: Parts<'a>,
    mark: usize,
    tasks: &mut Vec<Task<'a>>,
    code: &mut Suffix,
) -> Result<(), NoMemory>
    ensures { OnOk result ((single : Procedure → Bool) → Performs single (goal_code single (Conjunction (Running.Parallel site) (nodes_of goals.entry)) mark) (goal_turns (Conjunction (Running.Parallel site) (nodes_of goals.entry))) tasks.old.items code.old tasks.new.items code.new) }
{
    match site {
        Some(site) => code.put_first(Instruction::Fork(site)),
        None => leave(Task::InTurn(goals, mark), tasks),
    }
}

// Leaves a task to be done next.
fn leave<'a>(task: Task<'a>, tasks: &mut Vec<Task<'a>>) -> Result<(), NoMemory>
    ensures { OnOk result (tasks.new.items ≡ tasks.old.items ++ task.entry ∷ []) }
{
    tasks.push(task)?;
    Ok(())
}

// The goal's code is to be put next, and then the task is to be done.
fn emit_before<'a>(
    goal: NodeRef<'a>,
    mark: usize,
    task: Task<'a>,
    tasks: &mut Vec<Task<'a>>,
) -> Result<(), NoMemory>
    ensures { OnOk result (tasks.new.items ≡ tasks.old.items ++ task.entry ∷ Task.Emit goal.entry mark ∷ []) }
{
    leave(task, tasks)?;
    leave(Task::Emit(goal, mark), tasks)
}

// The goal's code is to be put next, without dropping its choice points, and before it a mark, and a choice point that goes
// on at a place.
fn leave_marked<'a>(
    goal: NodeRef<'a>,
    mark: usize,
    place: usize,
    tasks: &mut Vec<Task<'a>>,
) -> Result<(), NoMemory>
    ensures { OnOk result (tasks.new.items ≡ tasks.old.items ++ Task.Put (Instruction.Mark mark) ∷ Task.Branch place ∷ Task.Bare goal.entry (suc mark) ∷ []) }
{
    let inner = next_number(mark)?;
    leave(Task::Put(Instruction::Mark(Mark::new(mark))), tasks)?;
    leave(Task::Branch(place), tasks)?;
    leave(Task::Bare(goal, inner), tasks)
}

fn emit_in_turn<'a>(
    goals: Parts<'a>,
    mark: usize,
    tasks: &mut Vec<Task<'a>>,
) -> Result<(), NoMemory>
    ensures { OnOk result ((single : Procedure → Bool) (code : Code) → Performs single (in_turn_code single mark goals.entry) (list_turns goals.entry) tasks.old.items code tasks.new.items code) }
{
    let mut left = goals;
    match left.take_last() {
        Some(last) => emit_before(last, mark, Task::InTurn(left, mark), tasks),
        None => Ok(()),
    }
}

// The last disjunct makes no choice point.
fn start_disjunction<'a>(
    goals: Parts<'a>,
    mark: usize,
    tasks: &mut Vec<Task<'a>>,
    code: &mut Suffix,
) -> Result<(), NoMemory>
    ensures { OnOk result ((single : Procedure → Bool) → Performs single (goal_code single (Disjunction (nodes_of goals.entry)) mark) (joined_turns (nodes_of goals.entry)) tasks.old.items code.old tasks.new.items code.new) }
{
    let mut left = goals;
    match left.take_last() {
        Some(last) => emit_before(last, mark, Task::Choose(left, mark, code.len()), tasks),
        None => code.put_first(Instruction::Fail),
    }
}

// Puts the code of the last disjunct that is left in front of the others' code.
fn emit_disjunct<'a>(
    goals: Parts<'a>,
    mark: usize,
    behind: usize,
    tasks: &mut Vec<Task<'a>>,
    code: &mut Suffix,
) -> Result<(), NoMemory>
    ensures { OnOk result ((single : Procedure → Bool) → Performs single (disjuncts_code single mark behind goals.entry) (list_turns goals.entry) tasks.old.items code.old tasks.new.items code.new) }
{
    let mut left = goals;
    match left.take_last() {
        Some(last) => {
            leave(Task::Choose(left, mark, behind), tasks)?;
            emit_before(last, mark, Task::Branch(code.len()), tasks)?;
            put_jump(behind, code)
        }
        None => Ok(()),
    }
}

fn emit_condition<'a>(
    condition: NodeRef<'a>,
    then_part: NodeRef<'a>,
    mark: usize,
    behind: usize,
    tasks: &mut Vec<Task<'a>>,
    code: &mut Suffix,
) -> Result<(), NoMemory>
    ensures { OnOk result ((single : Procedure → Bool) → Performs single (decided_code single condition.entry then_part.entry mark behind) (suc (suc (suc (node_turns condition.entry + node_turns then_part.entry)))) tasks.old.items code.old tasks.new.items code.new) }
{
    let once = is_once(&condition);
    leave_marked(condition, mark, code.len(), tasks)?;
    emit_before(then_part, mark, Task::Put(leaving(once, mark)), tasks)?;
    put_jump(behind, code)
}

// The instruction behind a condition: a commit where it answers at most once, else one that softens its choice point.
fn leaving(once: bool, mark: usize) -> Instruction
    ensures { result ≡ leaving once mark }
{
    if once {
        Instruction::Commit(Mark::new(mark))
    } else {
        Instruction::Soften(Mark::new(mark))
    }
}

fn emit_negation<'a>(
    goal: NodeRef<'a>,
    mark: usize,
    tasks: &mut Vec<Task<'a>>,
    code: &mut Suffix,
) -> Result<(), NoMemory>
    ensures { OnOk result ((single : Procedure → Bool) → Performs single (goal_code single (Negation goal.entry) mark) (suc (node_turns goal.entry)) tasks.old.items code.old tasks.new.items code.new) }
{
    leave_marked(goal, mark, code.len(), tasks)?;
    code.put_first(Instruction::Fail)?;
    code.put_first(Instruction::Commit(Mark::new(mark)))
}

// The last arm jumps nowhere.
fn start_switch<'a>(
    alloc: Global,
    variable: Var,
    symbols: &'a Sequence<Symbol>,
    arms: Parts<'a>,
    mark: usize,
    tasks: &mut Vec<Task<'a>>,
    code: &mut Suffix,
) -> Result<(), NoMemory>
    ensures { OnOk result ((single : Procedure → Bool) → Performs single (goal_code single (Switch variable (arms_of symbols.now arms.entry)) mark) (arms_turns (arms_of symbols.now arms.entry)) tasks.old.items code.old tasks.new.items code.new) }
{
    let mut left = with_symbols(arms, symbols.as_slice().len());
    let Some(last) = left.take_last() else {
        return code.put_first(Instruction::Switch(variable, Sequence::new(alloc)));
    };
    let others = Task::Switch(Arms {
        variable,
        symbols,
        left,
        mark,
        behind: code.len(),
        starts: Vec::new(alloc),
    });
    emit_before(last, mark, others, tasks)
}

// Puts the code of the last arm that is left in front; the switch itself where none is left.
fn emit_arm<'a>(
    alloc: Global,
    arms: Arms<'a>,
    tasks: &mut Vec<Task<'a>>,
    code: &mut Suffix,
) -> Result<(), NoMemory>
    ensures { OnOk result ((single : Procedure → Bool) → Performs single (switched_code single arms.entry) (list_turns arms.entry.left) tasks.old.items code.old tasks.new.items code.new) }
{
    let mut arms = arms;
    let start = code.len();
    arms.starts.push(start)?;
    match arms.left.take_last() {
        Some(last) => {
            put_jump(arms.behind, code)?;
            emit_before(last, arms.mark, Task::Switch(arms), tasks)
        }
        None => {
            let targets = targets(alloc, arms.symbols.as_slice(), arms.starts, start)?;
            code.put_first(Instruction::Switch(arms.variable, targets))
        }
    }
}

// The targets of symbols whose arms begin at these places, the last first, and of which the first begins at this one.
fn targets(
    alloc: Global,
    symbols: &[Symbol],
    starts: Vec<usize>,
    first: usize,
) -> Result<Sequence<Target>, NoMemory>
    ensures { IfOk result (λ targets. targets ≡ targets_at symbols.now (reverse starts.items) first) }
{
    let mut starts = starts;
    let mut targets = Sequence::new(alloc);
    let done = push_targets(symbols, &mut starts, first, &mut targets);
    // (a call, since it costs much to prove what is dropped here)
    drop(starts);
    done.and(Ok(targets))
}

// Puts the targets into an empty list. The places of the arms are taken.
fn push_targets(
    symbols: &[Symbol],
    starts: &mut Vec<usize>,
    first: usize,
    targets: &mut Sequence<Target>,
) -> Result<(), NoMemory>
    requires { targets.old ≡ [] }
    ensures { OnOk result (targets.new ≡ targets_at symbols.now (reverse starts.old.items) first) }
{
    let mut left = symbols;
    while let [symbol, rest @ ..] = left {
        let start = match starts.pop() {
            Some(start) => start,
            None => return Ok(()),
        };
        targets.push(Target {
            symbol: *symbol,
            skipped: first.saturating_sub(start),
        })?;
        left = rest;
    }
    Ok(())
}
