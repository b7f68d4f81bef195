//! What is left to do for a goal with its rights.
ghost use Rattle.std.specs.Prelude.{◌≡◌, ◌+◌, ◌++◌, ℕ, List, [], ◌∷◌, length, map, IfOk, OnOk};
ghost use Rattle.std.specs.List.{flat_map};
ghost use Rattle.merc_graded_tree.specs.declared.entries.Root.TheVariants.{Basic as BasicRoot, Disjunction as DisjunctionRoot, Negation as NegationRoot, Quantified, Switch as SwitchRoot, Conditional as ConditionalRoot};
ghost use Rattle.merc_graded_tree.specs.Labels.{all_labels, arm_labels, labels_of};
ghost use Rattle.merc_graded_tree.specs.Roots.{arms_of};
ghost use Rattle.merc_graded_tree.specs.Nodes.{Node, outputs_of, span_of};
ghost use Rattle.merc_graded_tree.specs.Variables.{in_node};
ghost use Rattle.merc_par_split.specs.Constructs.{arm_tasks, conditional_tasks, site_tasks, switch_tasks, turn_tasks, whole_tasks, FindsMoved, LeavesConjuncts, LeavesRunning};
ghost use Rattle.merc_par_split.specs.Split.{may_fail};
ghost use Rattle.merc_par_split.specs.Tasks.{closed, member_tasks, placed_tasks, relabelled, shares_of, wraps, Performs};
ghost use Rattle.merc_par_split.specs.declared.tasks.Task.{Task};
ghost use Rattle.merc_rights.specs.Groups.{numbered};
ghost use Rattle.merc_rights.specs.Members.{pass_shares, signal_shares, turn_signal, turn_wait, wait_shares, IsLaid};
ghost use Rattle.merc_rights.specs.Places.{starts_of, Lies};
ghost use Rattle.merc_rights.specs.Rights.{right_to};
ghost use Rattle.merc_rights.specs.Rows.{row_of};
ghost use Rattle.merc_rights.specs.Waits.{others, rights_of, those_waits};
ghost use Rattle.merc_rights.specs.declared.conjuncts.Found.{Found as TheFound};

use crate::members::{Shares, leave_members};
use crate::tasks::{Placing, Task, Tasks, leave_around, leave_close};
use merc_base::{Category, NoMemory, Sequence};
use merc_goal_tree::{Symbol, Var, Vars};
use merc_graded_tree::{BasicGoal, NodeRef, NodeView, Parts, Root, Running, Site};
use merc_rights::parting::rights;
use merc_rights::{
    Awaited, CellInfo, Found, Members, Moved, Occurrences, Parted, Right, Rows, Signals, SiteInfo,
    bound_shares, found_at, listed, part_by_moves, part_by_use, part_by_variable, passed,
    put_moved, put_shares, signals_in_turn, sum, waits_in_turn,
};
use std::alloc::Global;

// A goal whose category is not known may fail.
fn may_fail(category: Option<Category>) -> bool
    ensures { result ≡ may_fail category }
{
    match category {
        Some(category) => category.can_fail(),
        None => true,
    }
}

/// A goal without rights.
pub(crate) fn without_rights<'a>(alloc: Global, goal: NodeRef<'a>, first: usize) -> Task<'a>
    ensures { result ≡ Task.Place (record { goal = goal.entry; first = first; waits = []; signals = [] }) }
{
    Task::Place(Placing {
        goal,
        first,
        waits: Sequence::new(alloc),
        signals: Signals::none(alloc),
    })
}

/// Leaves a goal. Signals go into goals that cannot fail.
///
/// # Errors
///
/// `NoMemory` where memory was refused.
pub(crate) fn place<'a>(
    alloc: Global,
    placing: Placing<'a>,
    tasks: &mut Tasks<'a>,
) -> Result<(), NoMemory>
    ensures { OnOk result (tasks.new ≡ placed_tasks placing.entry ++ tasks.old) }
{
    if !may_fail(placing.goal.category()) {
        return tasks.push(Task::Enter(placing));
    }
    let mut placing = placing;
    leave_signals(alloc, &mut placing, 0, tasks)?;
    tasks.push(Task::Enter(placing))
}

/// Leaves what a goal joins, and what stands around it.
///
/// # Errors
///
/// `NoMemory` where memory was refused.
pub(crate) fn enter<'a>(
    alloc: Global,
    occurrences: &Occurrences<'_>,
    placing: Placing<'a>,
    tasks: &mut Tasks<'a>,
    sites: &mut Vec<SiteInfo>,
) -> Result<(), NoMemory>
    requires { Lies (labels_of occurrences.now) placing.first (labels_of placing.goal) }
    ensures { OnOk result ((goals : List Node) → Performs occurrences.now (Task.Enter placing.entry) tasks.old (record { goals = goals; sites = sites.old.items }) tasks.new (record { goals = goals; sites = sites.new.items })) }
{
    let mut placing = placing;
    leave_viewed(alloc, occurrences, &mut placing, tasks, sites)
}

// The same. What is moved out of the goal's rights is not there any more.
fn leave_viewed<'a>(
    alloc: Global,
    occurrences: &Occurrences<'_>,
    placing: &mut Placing<'a>,
    tasks: &mut Tasks<'a>,
    sites: &mut Vec<SiteInfo>,
) -> Result<(), NoMemory>
    requires { Lies (labels_of occurrences.now) placing.old.first (labels_of placing.old.goal) }
    ensures { OnOk result ((goals : List Node) → Performs occurrences.now (Task.Enter placing.old) tasks.old (record { goals = goals; sites = sites.old.items }) tasks.new (record { goals = goals; sites = sites.new.items })) }
{
    match placing.goal.view() {
        NodeView::Basic(basic) => leave_basic(alloc, placing, basic, tasks),
        NodeView::Conjunction(running, goals) => leave_conjunction(
            alloc,
            occurrences,
            placing,
            running,
            goals,
            tasks,
            sites,
        ),
        NodeView::Disjunction(goals) => leave_disjunction(alloc, placing, goals, tasks),
        NodeView::Switch(variable, symbols, arms) => leave_whole_switch(
            alloc,
            occurrences,
            placing,
            variable,
            symbols,
            arms,
            tasks,
        ),
        NodeView::Conditional(condition, then_part, else_part) => leave_conditional(
            alloc,
            occurrences,
            placing,
            condition,
            then_part,
            else_part,
            tasks,
        ),
        NodeView::Negation(inner) => leave_negation(alloc, placing, inner, tasks),
        NodeView::Quantified(own, inner) => { leave_quantified(alloc, placing, own, inner, tasks) }
    }
}

// Leaves goals that run in this way.
fn leave_conjunction<'a>(
    alloc: Global,
    occurrences: &Occurrences<'_>,
    placing: &mut Placing<'a>,
    running: Running,
    goals: Parts<'a>,
    tasks: &mut Tasks<'a>,
    sites: &mut Vec<SiteInfo>,
) -> Result<(), NoMemory>
    requires { Lies (labels_of occurrences.now) placing.old.first (all_labels goals) }
    ensures { OnOk result (LeavesRunning running placing.old goals.entry sites.old.items sites.new.items tasks.old tasks.new) }
{
    match running {
        Running::Sequential => leave_turns(alloc, occurrences, placing, goals, tasks),
        Running::Parallel(_) => leave_conjuncts(alloc, occurrences, placing, goals, tasks, sites),
    }
}

// Leaves a goal that holds no others.
fn leave_basic<'a>(
    alloc: Global,
    placing: &mut Placing<'a>,
    basic: &BasicGoal,
    tasks: &mut Tasks<'a>,
) -> Result<(), NoMemory>
    ensures { OnOk result (tasks.new ≡ whole_tasks placing.old (BasicRoot basic.now) [] ++ tasks.old) }
{
    let before = placing.waits.as_slice().len();
    leave_signals(alloc, placing, before, tasks)?;
    leave_basic_close(alloc, &placing.goal, basic, tasks)?;
    leave_waits(alloc, placing, tasks)
}

// Leaves to close a goal that holds no others.
fn leave_basic_close<'a>(
    alloc: Global,
    goal: &NodeRef<'a>,
    basic: &BasicGoal,
    tasks: &mut Tasks<'a>,
) -> Result<(), NoMemory>
    ensures { OnOk result (tasks.new ≡ Task.Close (relabelled goal.now (BasicRoot basic.now)) ∷ tasks.old) }
{
    let root = Root::Basic(basic.try_clone(alloc)?);
    leave_close(alloc, goal, root, tasks)
}

// Leaves goals to choose from.
fn leave_disjunction<'a>(
    alloc: Global,
    placing: &mut Placing<'a>,
    goals: Parts<'a>,
    tasks: &mut Tasks<'a>,
) -> Result<(), NoMemory>
    ensures { OnOk result (tasks.new ≡ whole_tasks placing.old (DisjunctionRoot (length goals.entry)) goals.entry ++ tasks.old) }
{
    let before = placing.waits.as_slice().len();
    leave_signals(alloc, placing, before, tasks)?;
    leave_close(alloc, &placing.goal, Root::Disjunction(goals.len()), tasks)?;
    leave_alone(alloc, listed(alloc, goals)?, placing.first, tasks)?;
    leave_waits(alloc, placing, tasks)
}

// Leaves the negation of a goal.
fn leave_negation<'a>(
    alloc: Global,
    placing: &mut Placing<'a>,
    inner: NodeRef<'a>,
    tasks: &mut Tasks<'a>,
) -> Result<(), NoMemory>
    ensures { OnOk result (tasks.new ≡ whole_tasks placing.old NegationRoot (inner.entry ∷ []) ++ tasks.old) }
{
    let before = placing.waits.as_slice().len();
    leave_signals(alloc, placing, before, tasks)?;
    leave_close(alloc, &placing.goal, Root::Negation, tasks)?;
    leave_alone(alloc, single(alloc, inner)?, placing.first, tasks)?;
    leave_waits(alloc, placing, tasks)
}

// Leaves a switch, which has as many arms as symbols.
fn leave_whole_switch<'a>(
    alloc: Global,
    occurrences: &Occurrences<'_>,
    placing: &mut Placing<'a>,
    variable: Var,
    symbols: &Sequence<Symbol>,
    arms: Parts<'a>,
    tasks: &mut Tasks<'a>,
) -> Result<(), NoMemory>
    requires { Lies (labels_of occurrences.now) placing.old.first (arm_labels (arms_of symbols.now arms)) }
    ensures { OnOk result ((length symbols.now ≡ length arms.entry) × (tasks.new ≡ switch_tasks placing.old variable symbols.now arms.entry ++ tasks.old)) }
{
    if symbols.as_slice().len() != arms.len() {
        return Err(NoMemory);
    }
    leave_switch(alloc, occurrences, placing, variable, symbols, arms, tasks)
}

// Leaves a goal that has variables for itself. All rights go into it.
fn leave_quantified<'a>(
    alloc: Global,
    placing: &mut Placing<'a>,
    own: &Vars,
    inner: NodeRef<'a>,
    tasks: &mut Tasks<'a>,
) -> Result<(), NoMemory>
    ensures { OnOk result (tasks.new ≡ Task.Place (record { goal = inner.entry; first = placing.old.first; waits = placing.old.waits; signals = placing.old.signals }) ∷ Task.Close (relabelled placing.old.goal (Quantified own.now)) ∷ tasks.old) }
{
    leave_quantified_close(alloc, &placing.goal, own, tasks)?;
    let waits = placing.take_waits(alloc);
    let signals = placing.take_signals(alloc);
    tasks.push(Task::Place(Placing {
        goal: inner,
        first: placing.first,
        waits,
        signals,
    }))
}

// Leaves to close a goal that has variables for itself.
fn leave_quantified_close<'a>(
    alloc: Global,
    goal: &NodeRef<'a>,
    own: &Vars,
    tasks: &mut Tasks<'a>,
) -> Result<(), NoMemory>
    ensures { OnOk result (tasks.new ≡ Task.Close (relabelled goal.now (Quantified own.now)) ∷ tasks.old) }
{
    let root = Root::Quantified(own.try_clone(alloc)?);
    leave_close(alloc, goal, root, tasks)
}

// A list of one goal.
fn single<'a>(alloc: Global, goal: NodeRef<'a>) -> Result<Vec<NodeRef<'a>>, NoMemory>
    ensures { IfOk result (λ goals. goals.items ≡ goal.entry ∷ []) }
{
    let mut goals = Vec::new(alloc);
    goals.push(goal)?;
    Ok(goals)
}

// Leaves a goal's signals behind it, and to make it, so many goals before it and the signals one goal. None are left.
fn leave_signals<'a>(
    alloc: Global,
    placing: &mut Placing<'a>,
    before: usize,
    tasks: &mut Tasks<'a>,
) -> Result<(), NoMemory>
    ensures tasks { OnOk result (tasks.new ≡ Task.Signals placing.old.signals (span_of placing.old.goal) ∷ (wraps (before + length placing.old.signals) placing.old.goal ++ tasks.old)) }
    ensures left { OnOk result (placing.new ≡ record { goal = placing.old.goal; first = placing.old.first; waits = placing.old.waits; signals = [] }) }
{
    let count = placing.signals.len()?;
    leave_around(alloc, &placing.goal, before, count, tasks)?;
    let signals = placing.take_signals(alloc);
    tasks.push(Task::Signals(signals, placing.goal.span()))
}

// Leaves that no signals stand behind a goal, and to make it and so many goals before it one goal.
fn leave_no_signals<'a>(
    alloc: Global,
    goal: &NodeRef<'a>,
    before: usize,
    tasks: &mut Tasks<'a>,
) -> Result<(), NoMemory>
    ensures { OnOk result (tasks.new ≡ Task.Signals [] (span_of goal.now) ∷ (wraps (before + 0) goal.now ++ tasks.old)) }
{
    leave_around(alloc, goal, before, 0, tasks)?;
    tasks.push(Task::Signals(Signals::none(alloc), goal.span()))
}

// Leaves a goal's waits.
fn leave_waits<'a>(
    alloc: Global,
    placing: &Placing<'a>,
    tasks: &mut Tasks<'a>,
) -> Result<(), NoMemory>
    ensures { OnOk result (tasks.new ≡ Task.Waits (rights_of placing.now.waits) (span_of placing.now.goal) ∷ tasks.old) }
{
    let waits = rights(alloc, placing.waits.as_slice())?;
    tasks.push(Task::Waits(waits, placing.goal.span()))
}

// Leaves goals without rights, the first of which has this place.
fn leave_alone<'a>(
    alloc: Global,
    goals: Vec<NodeRef<'a>>,
    first: usize,
    tasks: &mut Tasks<'a>,
) -> Result<(), NoMemory>
    ensures { OnOk result (tasks.new ≡ member_tasks first (shares_of 0 goals.entry.items [] [] []) ++ tasks.old) }
{
    let members = Members::of(alloc, goals, first)?;
    let shares = Shares {
        waits: Rows::none(alloc),
        signals: Vec::new(alloc),
        passed: Rows::none(alloc),
    };
    leave_members(alloc, members, shares, tasks)
}

// Leaves goals one after the other: each right goes to the first one that uses its variable, or binds it.
fn leave_turns<'a>(
    alloc: Global,
    occurrences: &Occurrences<'_>,
    placing: &mut Placing<'a>,
    goals: Parts<'a>,
    tasks: &mut Tasks<'a>,
) -> Result<(), NoMemory>
    requires { Lies (labels_of occurrences.now) placing.old.first (all_labels goals) }
    ensures { OnOk result (tasks.new ≡ turn_tasks placing.old goals.entry ++ tasks.old) }
{
    let root = Root::Conjunction(Running::Sequential, goals.len());
    leave_close(alloc, &placing.goal, root, tasks)?;
    let members = Members::of(alloc, listed(alloc, goals)?, placing.first)?;
    let shares = turn_shares(alloc, occurrences, &members, placing)?;
    leave_members(alloc, members, shares, tasks)
}

// What goes to each of goals one after the other.
fn turn_shares(
    alloc: Global,
    occurrences: &Occurrences<'_>,
    members: &Members<'_>,
    placing: &mut Placing<'_>,
) -> Result<Shares, NoMemory>
    requires { IsLaid occurrences.now members.now }
    ensures waits { IfOk result (λ shares. (number : ℕ) → row_of number shares.waits ≡ row_of number (flat_map (turn_wait members.now.goals.items) placing.old.waits)) }
    ensures signals { IfOk result (λ shares. (number : ℕ) → row_of number (numbered shares.signals.items) ≡ row_of number (flat_map (turn_signal members.now.goals.items) placing.old.signals)) }
    ensures passed { IfOk result (λ shares. shares.passed ≡ []) }
{
    let signals = placing.take_signals(alloc);
    let signals = signals_in_turn(alloc, members, signals)?;
    let waits = waits_in_turn(alloc, occurrences, members, placing.waits.as_slice())?;
    Ok(Shares {
        waits,
        signals,
        passed: Rows::none(alloc),
    })
}

// Leaves goals of which one is chosen: each right goes to all that use its variable, or bind it, and what is used behind is
// waited for behind the others.
fn leave_arms<'a>(
    alloc: Global,
    occurrences: &Occurrences<'_>,
    goals: Vec<NodeRef<'a>>,
    first: usize,
    waits: &[Awaited],
    signals: Signals,
    tasks: &mut Tasks<'a>,
) -> Result<(), NoMemory>
    requires { Lies (labels_of occurrences.now) first (all_labels goals.items) }
    ensures { OnOk result (tasks.new ≡ arm_tasks goals.entry.items first waits.now signals ++ tasks.old) }
{
    let members = Members::of(alloc, goals, first)?;
    let shares = arm_shares(alloc, occurrences, &members, waits, signals)?;
    leave_members(alloc, members, shares, tasks)
}

// What goes to each of goals of which one is chosen.
fn arm_shares(
    alloc: Global,
    occurrences: &Occurrences<'_>,
    members: &Members<'_>,
    waits: &[Awaited],
    signals: Signals,
) -> Result<Shares, NoMemory>
    requires { IsLaid occurrences.now members.now }
    ensures waits { IfOk result (λ shares. (number : ℕ) → row_of number shares.waits ≡ row_of number (flat_map (wait_shares members.now.goals.items) waits.now)) }
    ensures signals { IfOk result (λ shares. (number : ℕ) → row_of number (numbered shares.signals.items) ≡ row_of number (flat_map (signal_shares members.now.goals.items) signals)) }
    ensures passed { IfOk result (λ shares. (number : ℕ) → row_of number shares.passed ≡ row_of number (flat_map (pass_shares members.now.goals.items) waits.now)) }
{
    let signals = bound_shares(alloc, members, signals)?;
    let waits_of_all = used_shares(alloc, occurrences, members, waits)?;
    let passed = passed(alloc, occurrences, members, waits)?;
    Ok(Shares {
        waits: waits_of_all,
        signals,
        passed,
    })
}

// The rights to wait of each of the goals that use their variables.
fn used_shares(
    alloc: Global,
    occurrences: &Occurrences<'_>,
    members: &Members<'_>,
    waits: &[Awaited],
) -> Result<Rows<Awaited>, NoMemory>
    requires { IsLaid occurrences.now members.now }
    ensures { IfOk result (λ rows. (number : ℕ) → row_of number rows ≡ row_of number (flat_map (wait_shares members.now.goals.items) waits.now)) }
{
    let mut found = Vec::new(alloc);
    put_shares(alloc, occurrences, members, waits, &mut found)?;
    Rows::of(found)
}

// Leaves a switch. What it looks at is waited for before it.
fn leave_switch<'a>(
    alloc: Global,
    occurrences: &Occurrences<'_>,
    placing: &mut Placing<'a>,
    variable: Var,
    symbols: &Sequence<Symbol>,
    arms: Parts<'a>,
    tasks: &mut Tasks<'a>,
) -> Result<(), NoMemory>
    requires { Lies (labels_of occurrences.now) placing.old.first (all_labels arms) }
    ensures { OnOk result (tasks.new ≡ switch_tasks placing.old variable symbols.now arms.entry ++ tasks.old) }
{
    let span = placing.goal.span();
    let parted = part_by_variable(alloc, variable, placing.waits.as_slice())?;
    leave_switch_inside(
        alloc,
        occurrences,
        placing,
        variable,
        symbols,
        arms,
        &parted,
        tasks,
    )?;
    tasks.push(Task::Waits(parted.before, span))
}

// Leaves a switch without the waits that stay before it.
fn leave_switch_inside<'a>(
    alloc: Global,
    occurrences: &Occurrences<'_>,
    placing: &mut Placing<'a>,
    variable: Var,
    symbols: &Sequence<Symbol>,
    arms: Parts<'a>,
    parted: &Parted,
    tasks: &mut Tasks<'a>,
) -> Result<(), NoMemory>
    requires { Lies (labels_of occurrences.now) placing.old.first (all_labels arms) }
    ensures { OnOk result (tasks.new ≡ arm_tasks arms.entry placing.old.first parted.now.inside placing.old.signals ++ (closed placing.old.goal (SwitchRoot variable symbols.now) (length parted.now.before) (Task.Signals [] (span_of placing.old.goal)) 0 ++ tasks.old)) }
{
    let before = parted.before.as_slice().len();
    leave_switch_close(alloc, &placing.goal, variable, symbols, before, tasks)?;
    let goals = listed(alloc, arms)?;
    let inside = parted.inside.as_slice();
    let signals = placing.take_signals(alloc);
    leave_arms(
        alloc,
        occurrences,
        goals,
        placing.first,
        inside,
        signals,
        tasks,
    )
}

// Leaves to close a switch before which so many goals stand.
fn leave_switch_close<'a>(
    alloc: Global,
    goal: &NodeRef<'a>,
    variable: Var,
    symbols: &Sequence<Symbol>,
    before: usize,
    tasks: &mut Tasks<'a>,
) -> Result<(), NoMemory>
    ensures { OnOk result (tasks.new ≡ closed goal.now (SwitchRoot variable symbols.now) before (Task.Signals [] (span_of goal.now)) 0 ++ tasks.old) }
{
    leave_no_signals(alloc, goal, before, tasks)?;
    let root = Root::Switch(variable, symbols.try_clone(alloc)?);
    leave_close(alloc, goal, root, tasks)
}

// Leaves a conditional. What the condition uses is waited for before it.
fn leave_conditional<'a>(
    alloc: Global,
    occurrences: &Occurrences<'_>,
    placing: &mut Placing<'a>,
    condition: NodeRef<'a>,
    then_part: NodeRef<'a>,
    else_part: NodeRef<'a>,
    tasks: &mut Tasks<'a>,
) -> Result<(), NoMemory>
    requires { Lies (labels_of occurrences.now) placing.old.first (labels_of condition ++ (labels_of then_part ++ labels_of else_part)) }
    ensures { OnOk result (tasks.new ≡ conditional_tasks placing.old condition.entry then_part.entry else_part.entry ++ tasks.old) }
{
    let span = placing.goal.span();
    let parted = part_at_condition(alloc, occurrences, &condition, placing)?;
    leave_conditional_inside(
        alloc,
        occurrences,
        placing,
        condition,
        then_part,
        else_part,
        &parted,
        tasks,
    )?;
    tasks.push(Task::Waits(parted.before, span))
}

// Leaves a conditional without the waits that stay before it.
fn leave_conditional_inside<'a>(
    alloc: Global,
    occurrences: &Occurrences<'_>,
    placing: &mut Placing<'a>,
    condition: NodeRef<'a>,
    then_part: NodeRef<'a>,
    else_part: NodeRef<'a>,
    parted: &Parted,
    tasks: &mut Tasks<'a>,
) -> Result<(), NoMemory>
    requires { Lies (labels_of occurrences.now) placing.old.first (labels_of condition ++ (labels_of then_part ++ labels_of else_part)) }
    ensures { OnOk result (tasks.new ≡ Task.Place (record { goal = condition.entry; first = placing.old.first; waits = []; signals = [] }) ∷ (arm_tasks (then_part.entry ∷ else_part.entry ∷ []) (placing.old.first + length (labels_of condition.entry)) parted.now.inside placing.old.signals ++ (closed placing.old.goal ConditionalRoot (length parted.now.before) (Task.Signals [] (span_of placing.old.goal)) 0 ++ tasks.old))) }
{
    let before = parted.before.as_slice().len();
    leave_no_signals(alloc, &placing.goal, before, tasks)?;
    leave_close(alloc, &placing.goal, Root::Conditional, tasks)?;
    let inside = parted.inside.as_slice();
    leave_asked(
        alloc,
        occurrences,
        placing,
        condition,
        then_part,
        else_part,
        inside,
        tasks,
    )
}

// The waits that stay before a condition, and those that go past it.
fn part_at_condition<'a>(
    alloc: Global,
    occurrences: &Occurrences<'_>,
    condition: &NodeRef<'a>,
    placing: &Placing<'a>,
) -> Result<Parted, NoMemory>
    requires { Lies (labels_of occurrences.now) placing.now.first (labels_of condition.now) }
    ensures before { IfOk result (λ parted. parted.before ≡ rights_of (those_waits (in_node condition.now) placing.now.waits)) }
    ensures inside { IfOk result (λ parted. parted.inside ≡ those_waits (others (in_node condition.now)) placing.now.waits) }
{
    let asked = Members::of(alloc, single(alloc, condition.copy())?, placing.first)?;
    part_by_use(alloc, occurrences, &asked, placing.waits.as_slice())
}

// Leaves a condition and what is chosen by it, into which these waits go.
fn leave_asked<'a>(
    alloc: Global,
    occurrences: &Occurrences<'_>,
    placing: &mut Placing<'a>,
    condition: NodeRef<'a>,
    then_part: NodeRef<'a>,
    else_part: NodeRef<'a>,
    inside: &[Awaited],
    tasks: &mut Tasks<'a>,
) -> Result<(), NoMemory>
    requires { Lies (labels_of occurrences.now) placing.old.first (labels_of condition ++ (labels_of then_part ++ labels_of else_part)) }
    ensures { OnOk result (tasks.new ≡ Task.Place (record { goal = condition.entry; first = placing.old.first; waits = []; signals = [] }) ∷ (arm_tasks (then_part.entry ∷ else_part.entry ∷ []) (placing.old.first + length (labels_of condition.entry)) inside.now placing.old.signals ++ tasks.old)) }
{
    let past = sum(placing.first, condition.part_count())?;
    let arms = pair(alloc, then_part, else_part)?;
    let signals = placing.take_signals(alloc);
    leave_arms(alloc, occurrences, arms, past, inside, signals, tasks)?;
    tasks.push(without_rights(alloc, condition, placing.first))
}

// A list of two goals.
fn pair<'a>(
    alloc: Global,
    one: NodeRef<'a>,
    other: NodeRef<'a>,
) -> Result<Vec<NodeRef<'a>>, NoMemory>
    ensures { IfOk result (λ goals. goals.items ≡ one.entry ∷ other.entry ∷ []) }
{
    let mut goals = Vec::new(alloc);
    goals.push(one)?;
    goals.push(other)?;
    Ok(goals)
}

// Leaves the conjuncts of an `&` at a new site. What several of them use, or what is used behind, is waited for before it, and
// its outputs behind it.
fn leave_conjuncts<'a>(
    alloc: Global,
    occurrences: &Occurrences<'_>,
    placing: &mut Placing<'a>,
    goals: Parts<'a>,
    tasks: &mut Tasks<'a>,
    sites: &mut Vec<SiteInfo>,
) -> Result<(), NoMemory>
    requires { Lies (labels_of occurrences.now) placing.old.first (all_labels goals) }
    ensures { OnOk result (LeavesConjuncts placing.old goals.entry sites.old.items sites.new.items tasks.old tasks.new) }
{
    let span = placing.goal.span();
    let members = Members::of(alloc, listed(alloc, goals)?, placing.first)?;
    let parted = part_by_moves(alloc, occurrences, &members, placing.waits.as_slice())?;
    leave_parted(alloc, occurrences, placing, members, &parted, tasks, sites)?;
    tasks.push(Task::Waits(parted.before, span))
}

// Leaves the conjuncts of an `&` at a new site, without the waits that stay before it.
fn leave_parted<'a>(
    alloc: Global,
    occurrences: &Occurrences<'_>,
    placing: &mut Placing<'a>,
    members: Members<'a>,
    parted: &Parted,
    tasks: &mut Tasks<'a>,
    sites: &mut Vec<SiteInfo>,
) -> Result<(), NoMemory>
    requires { IsLaid occurrences.now members }
    ensures { OnOk result ((found : TheFound) × (FindsMoved members.entry.goals.items placing.old parted.now.inside found × ((sites.new.items ≡ sites.old.items ++ record { children = length members.entry.goals.items; cells = found.cells.items; moves = found.moves.items } ∷ []) × (tasks.new ≡ member_tasks members.entry.first (shares_of 0 members.entry.goals.items found.waits.items (numbered found.signals.items) []) ++ (site_tasks placing.old.goal (length members.entry.goals.items) (length sites.old.items) (length parted.now.before) ++ tasks.old))))) }
{
    let inside = parted.inside.as_slice();
    let found = found_with_moved(alloc, occurrences, &members, placing, inside)?;
    let before = parted.before.as_slice().len();
    leave_beside(alloc, &placing.goal, members, found, before, tasks, sites)
}

// Leaves conjuncts before which so many goals stand, and puts what is found at their site behind the others.
fn leave_beside<'a>(
    alloc: Global,
    goal: &NodeRef<'a>,
    members: Members<'a>,
    found: Found,
    before: usize,
    tasks: &mut Tasks<'a>,
    sites: &mut Vec<SiteInfo>,
) -> Result<(), NoMemory>
    requires { members.starts.items ≡ starts_of members.first members.goals.items }
    ensures tasks { OnOk result (tasks.new ≡ member_tasks members.entry.first (shares_of 0 members.entry.goals.items found.waits.items (numbered found.signals.items) []) ++ (site_tasks goal.now (length members.entry.goals.items) (length sites.old.items) before ++ tasks.old)) }
    ensures sites { OnOk result (sites.new.items ≡ sites.old.items ++ record { children = length members.entry.goals.items; cells = found.cells.items; moves = found.moves.items } ∷ []) }
{
    leave_site(alloc, goal, members.goals.len(), sites.len(), before, tasks)?;
    leave_found(alloc, members, found, tasks, sites)
}

// What is found at an `&` into which these waits move.
fn found_with_moved<'a>(
    alloc: Global,
    occurrences: &Occurrences<'_>,
    members: &Members<'_>,
    placing: &mut Placing<'a>,
    inside: &[Awaited],
) -> Result<Found, NoMemory>
    requires { IsLaid occurrences.now members.now }
    ensures found { IfOk result (λ found. FindsMoved members.now.goals.items placing.old inside.now found) }
    ensures goal { IfOk result (λ found. placing.new.goal ≡ placing.old.goal) }
{
    let signals = placing.take_signals(alloc);
    let outputs = placing.goal.outputs().as_slice();
    let mut found = found_at(alloc, occurrences, members, outputs, signals)?;
    put_moved(alloc, occurrences, members, inside, &mut found)?;
    Ok(found)
}

// Leaves to close an `&` of so many conjuncts at the site of this number, and the parent's waits for the outputs.
fn leave_site<'a>(
    alloc: Global,
    goal: &NodeRef<'a>,
    children: usize,
    number: usize,
    before: usize,
    tasks: &mut Tasks<'a>,
) -> Result<(), NoMemory>
    ensures { OnOk result (tasks.new ≡ site_tasks goal.now children number before ++ tasks.old) }
{
    let outputs = goal.outputs().as_slice();
    leave_around(alloc, goal, before, outputs.len(), tasks)?;
    leave_outputs(alloc, goal, tasks)?;
    let root = Root::Conjunction(Running::Parallel(Some(Site { number })), children);
    leave_close(alloc, goal, root, tasks)
}

// Leaves the parent's waits for the outputs.
fn leave_outputs<'a>(
    alloc: Global,
    goal: &NodeRef<'a>,
    tasks: &mut Tasks<'a>,
) -> Result<(), NoMemory>
    ensures { OnOk result (tasks.new ≡ Task.Waits (map (right_to 0) (outputs_of goal.now)) (span_of goal.now) ∷ tasks.old) }
{
    let waits = parent_waits(alloc, goal.outputs().as_slice())?;
    tasks.push(Task::Waits(waits, goal.span()))
}

// The parent's waits for the outputs.
fn parent_waits(alloc: Global, outputs: &[Var]) -> Result<Sequence<Right>, NoMemory>
    ensures { IfOk result (λ rights. rights ≡ map (right_to 0) outputs.now) }
{
    let mut rights = Sequence::new(alloc);
    for variable in outputs {
        rights.push(Right {
            variable: *variable,
            conjunct: 0,
        })?;
    }
    Ok(rights)
}

// Leaves conjuncts, and puts what is found at their site behind the others.
fn leave_found<'a>(
    alloc: Global,
    members: Members<'a>,
    found: Found,
    tasks: &mut Tasks<'a>,
    sites: &mut Vec<SiteInfo>,
) -> Result<(), NoMemory>
    requires { members.starts.items ≡ starts_of members.first members.goals.items }
    ensures tasks { OnOk result (tasks.new ≡ member_tasks members.entry.first (shares_of 0 members.entry.goals.items found.waits.items (numbered found.signals.items) []) ++ tasks.old) }
    ensures sites { OnOk result (sites.new.items ≡ sites.old.items ++ record { children = length members.entry.goals.items; cells = found.cells.items; moves = found.moves.items } ∷ []) }
{
    let Found {
        cells,
        moves,
        waits,
        signals,
    } = found;
    put_site(members.goals.len(), cells, moves, sites)?;
    let shares = Shares {
        waits: Rows::of(waits)?,
        signals,
        passed: Rows::none(alloc),
    };
    leave_members(alloc, members, shares, tasks)
}

// Puts what stands at a site behind the others.
fn put_site(
    children: usize,
    cells: Vec<CellInfo>,
    moves: Vec<Moved>,
    sites: &mut Vec<SiteInfo>,
) -> Result<(), NoMemory>
    ensures { OnOk result (sites.new.items ≡ sites.old.items ++ record { children = children; cells = cells.items; moves = moves.items } ∷ []) }
{
    sites.push(SiteInfo {
        children,
        cells: Sequence::from_vec(cells),
        moves: Sequence::from_vec(moves),
    })?;
    Ok(())
}
