//! How disjuncts are taken apart into tasks.
ghost use Rattle.std.specs.Prelude.{◌≡◌, ◌∷◌, ◌++◌, ◌-◌, ◌≤◌, [], true, List, map, filter, Some, None, IfOk, IfSome, OnOk};
ghost use Rattle.std.specs.List.{list_all, AllByRecursion};
ghost use Rattle.merc_graded_tree.specs.Nodes.{Node, nodes_of, outputs_of};
ghost use Rattle.merc_graded_tree.specs.Variables.{in_nodes};
ghost use Rattle.merc_order.specs.Bound.{among};
ghost use Rattle.merc_grading.specs.Switches.{symbol_at, is_there};
ghost use Rattle.merc_switch_choice.specs.Choosing.{chosen, AreLeft};
ghost use Rattle.merc_switch_choice.specs.Variables.{behind, all_behind};
ghost use Rattle.merc_switch.specs.declared.tasks.Task.{Task};
ghost use Rattle.merc_switch.specs.declared.tasks.Task.TheVariants.{Judge, Close};
ghost use Rattle.merc_switch.specs.Handing.{IsHanded};
ghost use Rattle.merc_switch.specs.Selections.{MayCount};
ghost use Rattle.merc_switch.specs.Tasks.{Performs};
ghost use Rattle.merc_switch.specs.Plans.{disjunction_plan, switch_plan, group_plan, finds, arm_plan, inner_group, outer_label, choice_left, AreNarrowed, HaveSymbol};

use crate::handing::{Handed, take_counts};
use crate::selection::Selection;
use crate::tasks::{Group, Task, Tasks};
use crate::whole::Whole;
use merc_base::{Category, NoMemory, Sequence, Span};
use merc_goal_tree::{Symbol, Var, Vars};
use merc_graded_tree::{Label, Root};
use merc_name_resolution::Known;
use merc_switch_choice::{Candidates, Disjunct, Disjuncts, VarCounts, VarSet};
use std::alloc::Global;
use std::mem;

/// Plans what disjuncts become: a switch, or else a disjunction. Where all of them go to one arm of the switch they are
/// looked at again at once, with the variables that are left.
///
/// # Errors
///
/// `NoMemory` where memory was refused, here and in the calls below.
pub(crate) fn judge<'a>(
    alloc: Global,
    known: &Known<'_>,
    bound: &VarSet,
    group: Group<'a>,
    tasks: &mut Tasks<'a>,
) -> Result<(), NoMemory>
    ensures { OnOk result ((goals : List Node) → Performs known.now.types (Judge group.entry ∷ tasks.old) goals bound.now tasks.new goals bound.now) }
{
    let mut group = group;
    match enter_arms(alloc, known, bound, &mut group, tasks) {
        Ok(choice) => plan_group(alloc, choice, group, tasks),
        Err(refused) => {
            // (a call, here and below, since it costs much to prove what is dropped)
            drop(group);
            Err(refused)
        }
    }
}

// Goes into the arm of a switch as long as all disjuncts go to one. Gives the variable on which those are a switch that it
// ends with, none where they are none.
fn enter_arms<'a>(
    alloc: Global,
    known: &Known<'_>,
    bound: &VarSet,
    group: &mut Group<'a>,
    tasks: &mut Tasks<'a>,
) -> Result<Option<Var>, NoMemory>
    ensures planned { OnOk result ((goals : List Node) (after : List Task) → Performs known.now.types (Judge group.new ∷ tasks.new) goals bound.now after goals bound.now → Performs known.now.types (Judge group.old ∷ tasks.old) goals bound.now after goals bound.now) }
    ensures choice { IfOk result (λ choice. choice ≡ choice_left group.new.left (chosen known.now.types (among bound.now) group.new.used group.new.selected.disjuncts)) }
{
    let mut candidates = Candidates::of(alloc, bound, &group.used, group.selected.disjuncts())?;
    let choice = enter_those(alloc, known, bound, group, &mut candidates, tasks);
    drop(candidates);
    choice
}

// Goes into arms as `enter_arms` does, over these candidates.
fn enter_those<'a>(
    alloc: Global,
    known: &Known<'_>,
    bound: &VarSet,
    group: &mut Group<'a>,
    candidates: &mut Candidates,
    tasks: &mut Tasks<'a>,
) -> Result<Option<Var>, NoMemory>
    requires { AreLeft known.now.types (among bound.now) group.old.used group.old.selected.disjuncts candidates.old.untried candidates.old.uncovered }
    ensures planned { OnOk result ((goals : List Node) (after : List Task) → Performs known.now.types (Judge group.new ∷ tasks.new) goals bound.now after goals bound.now → Performs known.now.types (Judge group.old ∷ tasks.old) goals bound.now after goals bound.now) }
    ensures choice { IfOk result (λ choice. choice ≡ choice_left group.new.left (chosen known.now.types (among bound.now) group.new.used group.new.selected.disjuncts)) }
{
    let mut narrowed = false;
    while group.left > 0 {
        let Some(variable) = group.selected.choose(alloc, known, candidates)? else {
            return Ok(None);
        };
        let disjuncts = group.selected.disjuncts().as_slice();
        let Some(symbol) = common_symbol(disjuncts, variable) else {
            return Ok(Some(variable));
        };
        step_in(alloc, variable, symbol, group, narrowed, tasks)?;
        narrowed = true;
    }
    Ok(None)
}

// The symbol by which several disjuncts split a variable, none where they do not all do so by one symbol.
fn common_symbol(disjuncts: &[Disjunct<'_>], variable: Var) -> Option<Symbol>
    ensures { IfSome result (λ symbol. HaveSymbol variable symbol disjuncts.now) }
{
    let [first, _, ..] = disjuncts else {
        return None;
    };
    let symbol = first.symbol(variable)?;
    if !all_have(disjuncts, variable, &symbol) {
        return None;
    }
    Some(symbol)
}

fn all_have(disjuncts: &[Disjunct<'_>], variable: Var, symbol: &Symbol) -> bool
    ensures { result ≡ true → AllByRecursion (λ disjunct. symbol_at variable disjunct ≡ Some symbol.now) disjuncts.now }
{
    for disjunct in disjuncts {
        let Some(other) = disjunct.symbol(variable) else {
            return false;
        };
        if other != *symbol {
            return false;
        }
    }
    true
}

// Goes into the one arm that a switch on a variable has. The outputs in it are known where they have been narrowed already
// to those that occur in the disjuncts.
fn step_in<'a>(
    alloc: Global,
    variable: Var,
    symbol: Symbol,
    group: &mut Group<'a>,
    narrowed: bool,
    tasks: &mut Tasks<'a>,
) -> Result<(), NoMemory>
    requires { narrowed ≡ true → AreNarrowed group.old }
    ensures group { OnOk result (group.new ≡ inner_group variable group.old) }
    ensures tasks { OnOk result (tasks.new ≡ Close (outer_label variable symbol group.old) ∷ tasks.old) }
{
    let span = group.selected.span();
    let inner = inner_outputs(alloc, &mut group.selected, &group.outputs, narrowed)?;
    let outputs = mem::replace(&mut group.outputs, inner);
    let label = one_arm(alloc, variable, symbol, outputs, group.category, span)?;
    tasks.push(Task::Close(label))?;
    group.used.add(variable)?;
    group.left = group.left.saturating_sub(1);
    group.category = None;
    Ok(())
}

// The label of a switch on a variable that has one arm.
fn one_arm(
    alloc: Global,
    variable: Var,
    symbol: Symbol,
    outputs: Vars,
    category: Option<Category>,
    span: Span,
) -> Result<Label, NoMemory>
    ensures { IfOk result (λ label. label ≡ record { root = Root.Switch variable (symbol ∷ []); outputs = outputs; category = category; span = span }) }
{
    match Vec::from_slice(alloc, &[symbol]) {
        Ok(symbols) => Ok(Label {
            root: Root::Switch(variable, Sequence::from_vec(symbols)),
            outputs,
            category,
            span,
        }),
        Err(_) => {
            drop(outputs);
            Err(NoMemory)
        }
    }
}

// The outputs of the whole that occur in the disjuncts, which may be known to be these.
fn inner_outputs(
    alloc: Global,
    selected: &mut Selection<'_>,
    outputs: &Vars,
    narrowed: bool,
) -> Result<Vars, NoMemory>
    requires { narrowed ≡ true → outputs.now ≡ filter (λ output. in_nodes (nodes_of selected.old.disjuncts) output) (outputs_of selected.old.whole) }
    ensures outputs { IfOk result (λ inner. inner ≡ filter (λ output. in_nodes (nodes_of selected.old.disjuncts) output) (outputs_of selected.old.whole)) }
    ensures selection { selected.new ≡ selected.old }
{
    if narrowed {
        return outputs.try_clone(alloc);
    }
    selected.outputs(alloc)
}

// Disjuncts as a switch on this variable, or else as a disjunction.
fn plan_group<'a>(
    alloc: Global,
    choice: Option<Var>,
    group: Group<'a>,
    tasks: &mut Tasks<'a>,
) -> Result<(), NoMemory>
    requires { IfSome choice (λ variable. list_all (λ disjunct. is_there (symbol_at variable disjunct)) group.selected.disjuncts ≡ true) }
    ensures { OnOk result (tasks.new ≡ group_plan choice group.entry ++ tasks.old) }
{
    match choice {
        Some(variable) => plan_switch(alloc, variable, group, tasks),
        None => plan_disjunction(group, tasks),
    }
}

// Disjuncts as a disjunction.
fn plan_disjunction<'a>(group: Group<'a>, tasks: &mut Tasks<'a>) -> Result<(), NoMemory>
    ensures { OnOk result (tasks.new ≡ disjunction_plan group.entry ++ tasks.old) }
{
    drop(group.used);
    let span = group.selected.span();
    let mut disjuncts = group.selected.into_vec();
    let label = Label {
        root: Root::Disjunction(disjuncts.len()),
        outputs: group.outputs,
        category: group.category,
        span,
    };
    let pushed = plan_joined(label, &mut disjuncts, tasks);
    drop(disjuncts);
    pushed
}

// Plans a goal that has this label and joins these disjuncts. Those that are not pushed for want of memory stay in the
// list.
fn plan_joined<'a>(
    label: Label,
    disjuncts: &mut Vec<Disjunct<'a>>,
    tasks: &mut Tasks<'a>,
) -> Result<(), NoMemory>
    ensures { OnOk result (tasks.new ≡ finds disjuncts.old.items ++ Close label ∷ tasks.old) }
{
    tasks.push(Task::Close(label))?;
    while let Some(last) = disjuncts.pop() {
        let goal = last.goal();
        drop(last);
        tasks.push(Task::Find(goal))?;
    }
    Ok(())
}

// What the arms of a switch on a variable have from the disjunction.
#[derive(Drop)]
struct Outer<'a> {
    whole: Whole<'a>,
    used: VarSet,
    left: usize,
    variable: Var,
}

// Disjuncts as a switch on a variable.
fn plan_switch<'a>(
    alloc: Global,
    variable: Var,
    group: Group<'a>,
    tasks: &mut Tasks<'a>,
) -> Result<(), NoMemory>
    requires { list_all (λ disjunct. is_there (symbol_at variable disjunct)) group.selected.disjuncts ≡ true }
    ensures { OnOk result (tasks.new ≡ switch_plan variable group.entry ++ tasks.old) }
{
    let span = group.selected.span();
    match group.selected.into_arms(alloc, variable) {
        Ok(arms) => {
            let label = Label {
                root: Root::Switch(variable, Sequence::from_vec(arms.symbols)),
                outputs: group.outputs,
                category: group.category,
                span,
            };
            let outer = Outer {
                whole: arms.whole,
                used: group.used,
                left: group.left,
                variable,
            };
            push_switch(alloc, label, outer, arms.groups, arms.handed, tasks)
        }
        Err(refused) => {
            drop(group.used);
            drop(group.outputs);
            Err(refused)
        }
    }
}

// Plans a switch that has this label and these arms. Given are the counts of one of them.
fn push_switch<'a>(
    alloc: Global,
    label: Label,
    outer: Outer<'a>,
    arms: Vec<Disjuncts<'a>>,
    handed: Option<Handed>,
    tasks: &mut Tasks<'a>,
) -> Result<(), NoMemory>
    requires { IsHanded outer.whole handed arms.items }
    ensures { OnOk result (tasks.new ≡ map (λ disjuncts. arm_plan outer.entry.whole outer.entry.used outer.entry.left outer.entry.variable disjuncts) arms.entry.items ++ Close label ∷ tasks.old) }
{
    let mut arms = arms;
    let mut handed = handed;
    let pushed = push_arms(alloc, label, &outer, &mut arms, &mut handed, tasks);
    drop(outer);
    drop(arms);
    drop(handed);
    pushed
}

// Pushes the arms as `push_switch` does. Those that are not pushed for want of memory stay in the list.
fn push_arms<'a>(
    alloc: Global,
    label: Label,
    outer: &Outer<'a>,
    arms: &mut Vec<Disjuncts<'a>>,
    handed: &mut Option<Handed>,
    tasks: &mut Tasks<'a>,
) -> Result<(), NoMemory>
    requires { IsHanded outer.now.whole handed.old arms.old.items }
    ensures { OnOk result (tasks.new ≡ map (λ disjuncts. arm_plan outer.now.whole outer.now.used outer.now.left outer.now.variable disjuncts) arms.old.items ++ Close label ∷ tasks.old) }
{
    tasks.push(Task::Close(label))?;
    while let Some(last) = arms.pop() {
        let counts = take_counts(handed, arms.len());
        push_arm(alloc, outer, last, counts, tasks)?;
    }
    Ok(())
}

// Plans the arm of these disjuncts, with their counts if there are any.
fn push_arm<'a>(
    alloc: Global,
    outer: &Outer<'a>,
    disjuncts: Disjuncts<'a>,
    counts: Option<VarCounts>,
    tasks: &mut Tasks<'a>,
) -> Result<(), NoMemory>
    requires { MayCount outer.now.whole counts disjuncts }
    ensures { OnOk result (tasks.new ≡ arm_plan outer.now.whole outer.now.used outer.now.left outer.now.variable disjuncts.entry ∷ tasks.old) }
{
    if let [only] = disjuncts.as_slice() {
        let goal = only.goal();
        drop(disjuncts);
        drop(counts);
        return tasks.push(Task::Find(goal));
    }
    match outer.whole.copy() {
        Ok(whole) => push_group(alloc, outer, Selection::of(whole, disjuncts, counts), tasks),
        Err(refused) => {
            drop(disjuncts);
            drop(counts);
            Err(refused)
        }
    }
}

// The arm of several disjuncts.
fn push_group<'a>(
    alloc: Global,
    outer: &Outer<'a>,
    selected: Selection<'a>,
    tasks: &mut Tasks<'a>,
) -> Result<(), NoMemory>
    ensures { OnOk result (tasks.new ≡ Judge (record { selected = selected.entry; used = behind (all_behind [] outer.now.used) outer.now.variable; left = outer.now.left - 1; outputs = filter (λ output. in_nodes (nodes_of selected.entry.disjuncts) output) (outputs_of selected.entry.whole); category = None }) ∷ tasks.old) }
{
    let mut selected = selected;
    match arm_variables(alloc, outer, &mut selected) {
        Ok((used, outputs)) => tasks.push(Task::Judge(Group {
            selected,
            used,
            left: outer.left.saturating_sub(1),
            outputs,
            category: None,
        })),
        Err(refused) => {
            drop(selected);
            Err(refused)
        }
    }
}

// The variables by which the disjuncts of an arm came together, and its outputs.
fn arm_variables(
    alloc: Global,
    outer: &Outer<'_>,
    selected: &mut Selection<'_>,
) -> Result<(VarSet, Vars), NoMemory>
    ensures used { IfOk result (λ made. made.0 ≡ behind (all_behind [] outer.now.used) outer.now.variable) }
    ensures outputs { IfOk result (λ made. made.1 ≡ filter (λ output. in_nodes (nodes_of selected.old.disjuncts) output) (outputs_of selected.old.whole)) }
    ensures selection { selected.new ≡ selected.old }
{
    let outputs = selected.outputs(alloc)?;
    Ok((outer.used.with(alloc, outer.variable)?, outputs))
}
