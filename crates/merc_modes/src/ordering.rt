//! The order of the goals of procedures.
ghost use Rattle.std.specs.Prelude.{◌≡◌, ◌<◌, ◌-◌, ℕ, List, [], ◌∷◌, ◌++◌, Some, length, take, IfOk, OnOk};
ghost use Rattle.merc_base.specs.FirstFault.{first_of_faults};
ghost use Rattle.merc_tree.specs.declared.declarations.ModeDecl.{ModeDecl};
ghost use Rattle.merc_goal_tree.specs.Nodes.{Node};
ghost use Rattle.merc_graded_tree.specs.Nodes.{Node as OrderedNode};
ghost use Rattle.merc_order.specs.Bound.{among};
ghost use Rattle.merc_order.specs.Procedures.{are_bound_behind, body_from, bound_at, fault_of, mode_faults, mode_trees, modes_of, numbers_below, order_fault, procedure_trees, query_from, total_of, tree_of, IsQuery};
ghost use Rattle.merc_goal_facts.specs.Facts.{AreFactsOf};
ghost use Rattle.merc_modes.specs.Bodies.{IsKnown, PutsTree, AreFound};
ghost use Rattle.merc_modes.specs.Told.{IsTold, fault_in};

use merc_base::{Fault, NoMemory, Refusal, Rule, Span};
use merc_goal_facts::{BoundSet, Facts, facts_of, occurrences_of};
use merc_goal_order::order_goal;
use merc_goal_tree::{NodeRef, Nodes as FlatNodes, Var};
use merc_graded_tree::Nodes;
use merc_simple_goals::{Places, Written, fault_at};
use merc_tree::{Arg, ModeDecl, PredDecl};
use std::alloc::Global;

/// A body, as it is known before it is ordered.
#[derive(Drop)]
struct Body {
    // the head variables, and behind them those of the goal as they occur in it
    all: Places,
    // of the goal's parts
    facts: Vec<Facts>,
    // the number of the first fresh variable
    fresh: usize,
}

/// What was found of procedures.
#[derive(Drop)]
struct Found {
    // room for what is bound
    bound: BoundSet,
    // their trees, as long as there is no fault
    written: Written,
    // the first of their faults
    fault: Option<Refusal>,
}

/// The trees of the procedures of predicates with these bodies: for each predicate one for each of its modes, both in
/// their order. In a body the arguments have the numbers from 0. Fresh variables are numbered on behind all others of
/// their body.
///
/// The order of a goal's parts is that of docs/LANGUAGE.md, “Modes and the order of goals”. With bodies of n parts and
/// occurrences of variables, nested d levels deep, this takes time of the order of d times n times the number of variables at
/// most.
///
/// # Errors
///
/// The first fault of the procedures by its place, then its rule, then the order of its predicate and mode: rule 10 for a
/// goal that is never ready, rule 11 for a negated goal or a condition that binds a variable from outside, rule 12 for
/// arms that bind different variables or an argument that is unbound at the end. `NoMemory` where memory was refused.
pub fn order(alloc: Global, predicates: &[PredDecl], bodies: &FlatNodes) -> Result<Nodes, Fault>
    requires { length predicates.now ≡ length bodies.now }
    ensures told { IsTold (order_fault predicates.now bodies.now) result }
    ensures trees { IfOk result (λ trees. trees ≡ procedure_trees (modes_of predicates.now) predicates.now bodies.now) }
{
    let mut found = nothing_found(alloc);
    for (index, declared) in predicates.iter().enumerate() {
        match bodies.get(index) {
            Some(goal) => order_modes(alloc, predicates, declared, &goal, &mut found)?,
            None => unreachable!(),
        }
    }
    let Found { written, fault, .. } = found;
    match fault {
        Some(refusal) => Err(Fault::Refused(refusal)),
        None => Ok(written.nodes),
    }
}

/// The tree of a goal that is asked, with these answer variables, over these predicates.
///
/// # Errors
///
/// The goal's fault, as for `order`: an answer variable that is unbound at the end stands at the goal's first token.
/// `NoMemory` where memory was refused.
pub fn order_query(
    alloc: Global,
    predicates: &[PredDecl],
    answers: &[Var],
    goal: &NodeRef<'_>,
) -> Result<Nodes, Fault>
    ensures told { IsTold (fault_in (query_from (modes_of predicates.now) answers.now goal.now)) result }
    ensures tree { IfOk result (λ trees. (tree : OrderedNode) × (trees ≡ tree ∷ []) × IsQuery (modes_of predicates.now) answers.now goal.now tree) }
{
    let body = body_of(alloc, predicates, answers, goal)?;
    let mut bound = BoundSet::new(alloc);
    let mut written = nothing_written(alloc);
    order_body(
        alloc,
        predicates,
        &body,
        answers,
        goal,
        goal.span(),
        &mut bound,
        &mut written,
    )?;
    Ok(written.nodes)
}

fn nothing_found(alloc: Global) -> Found
    ensures { AreFound [] [] result }
{
    Found {
        bound: BoundSet::new(alloc),
        written: nothing_written(alloc),
        fault: None,
    }
}

fn nothing_written(alloc: Global) -> Written
    ensures { result.nodes ≡ [] }
{
    Written {
        nodes: Nodes::new(alloc),
        fresh: 0,
        seen: BoundSet::new(alloc),
    }
}

// Orders a predicate's body in each of its modes.
fn order_modes(
    alloc: Global,
    predicates: &[PredDecl],
    declared: &PredDecl,
    goal: &NodeRef<'_>,
    found: &mut Found,
) -> Result<(), NoMemory>
    ensures { OnOk result ((faults : List Refusal) (trees : List OrderedNode) → AreFound faults trees found.old → AreFound (faults ++ mode_faults (modes_of predicates.now) (length declared.now.args) declared.now.modes goal.now) (trees ++ mode_trees (modes_of predicates.now) (length declared.now.args) declared.now.modes goal.now) found.new) }
{
    let heads = numbers_below(alloc, declared.args.len())?;
    let body = body_of(alloc, predicates, &heads, goal)?;
    for mode in declared.modes.as_slice() {
        order_mode(alloc, predicates, &body, &heads, goal, mode, found)?;
    }
    Ok(())
}

// Orders a predicate's body in one mode.
fn order_mode(
    alloc: Global,
    predicates: &[PredDecl],
    body: &Body,
    heads: &[Var],
    goal: &NodeRef<'_>,
    mode: &ModeDecl,
    found: &mut Found,
) -> Result<(), NoMemory>
    requires { IsKnown (modes_of predicates.now) heads.now goal.now body.now }
    ensures { OnOk result ((faults : List Refusal) (trees : List OrderedNode) → AreFound faults trees found.old → AreFound (faults ++ fault_of (body_from (modes_of predicates.now) heads.now (bound_at mode.now.args) mode.now.span goal.now)) (trees ++ tree_of (modes_of predicates.now) heads.now goal.now (body_from (modes_of predicates.now) heads.now (bound_at mode.now.args) mode.now.span goal.now)) found.new) }
{
    found.bound.undo(0);
    bind_inputs(mode.args.as_slice(), &mut found.bound)?;
    match order_body(
        alloc,
        predicates,
        body,
        heads,
        goal,
        mode.span,
        &mut found.bound,
        &mut found.written,
    ) {
        Ok(()) => Ok(()),
        Err(Fault::Refused(refusal)) => {
            found.fault = Some(first_fault(found.fault, refusal));
            Ok(())
        }
        Err(Fault::NoMemory) => Err(NoMemory),
    }
}

// Puts the tree of a body behind the others, from what is bound. Its head variables have to be bound at its end; where
// one is not the fault stands at `span`. What is bound behind it is not told.
fn order_body(
    alloc: Global,
    predicates: &[PredDecl],
    body: &Body,
    heads: &[Var],
    goal: &NodeRef<'_>,
    span: Span,
    bound: &mut BoundSet,
    written: &mut Written,
) -> Result<(), Fault>
    requires { IsKnown (modes_of predicates.now) heads.now goal.now body.now }
    ensures { PutsTree (modes_of predicates.now) heads.now goal.now (body_from (modes_of predicates.now) heads.now (among bound.old) span goal.now) written.old.nodes written.new.nodes result }
{
    written.seen.undo(0);
    written.fresh = body.fresh;
    order_goal(
        alloc,
        predicates,
        &body.all,
        goal,
        &body.facts,
        heads.len(),
        bound,
        written,
    )?;
    if are_bound_behind(own_facts(&body.facts), heads, bound)? {
        Ok(())
    } else {
        Err(fault_at(Rule::UnboundOutput, span))
    }
}

// Whether these are all bound behind a goal with these facts, if its end can be reached. It binds what the goal binds.
fn are_bound_behind(facts: &Facts, heads: &[Var], bound: &mut BoundSet) -> Result<bool, NoMemory>
    ensures { IfOk result (λ are_bound. (modes : ℕ → List ModeDecl) (goal : Node) → AreFactsOf (total_of heads.now goal) modes goal facts.now → are_bound ≡ are_bound_behind modes heads.now (among bound.old) goal) }
{
    if !facts.reached {
        return Ok(true);
    }
    bound.bind_all(facts.binds.as_slice())?;
    Ok(bound.are_bound(heads))
}

// The facts of a goal: they stand behind those of its parts.
fn own_facts(facts: &[Facts]) -> &Facts
    requires { 0 < length facts.now }
    ensures { facts.now ≡ take (length facts.now - 1) facts.now ++ result.now ∷ [] }
{
    &facts[facts.len() - 1]
}

// Binds those arguments that a mode has bound before.
fn bind_inputs(places: &[Arg], bound: &mut BoundSet) -> Result<(), NoMemory>
    requires { bound.old ≡ [] }
    ensures { OnOk result (among bound.new ≡ bound_at places.now) }
{
    for (index, place) in places.iter().enumerate() {
        match place {
            Arg::Input => bound.bind(Var::new(index))?,
            Arg::Output => {}
        }
    }
    Ok(())
}

// What is known of a body with these head variables.
fn body_of(
    alloc: Global,
    predicates: &[PredDecl],
    heads: &[Var],
    goal: &NodeRef<'_>,
) -> Result<Body, NoMemory>
    ensures { IfOk result (λ body. IsKnown (modes_of predicates.now) heads.now goal.now body) }
{
    let all = occurrences_of(alloc, heads, goal)?;
    let facts = facts_of(alloc, predicates, &all, heads.len(), goal)?;
    let fresh = all.number_beyond()?;
    let all = Places::of(alloc, all)?;
    Ok(Body { all, facts, fresh })
}

// The arguments of a predicate that has so many.
fn numbers_below(alloc: Global, count: usize) -> Result<Vec<Var>, NoMemory>
    ensures { IfOk result (λ heads. heads.items ≡ numbers_below count) }
{
    let mut heads = Vec::with_capacity(alloc, count)?;
    for number in 0..count {
        heads.push(Var::new(number))?;
    }
    Ok(heads)
}

// The first of the faults that were found, with one more behind them.
fn first_fault(found: Option<Refusal>, fault: Refusal) -> Refusal
    ensures { (faults : List Refusal) → found ≡ first_of_faults faults → first_of_faults (faults ++ fault ∷ []) ≡ Some result }
{
    match found {
        Some(other) => {
            if other.comes_first(&fault) {
                other
            } else {
                fault
            }
        }
        None => fault,
    }
}
