//! Goals that hold no others, written out with their tests, and the outputs of goals.
ghost use Rattle.std.specs.Prelude.{◌≡◌, ◌+◌, ◌≤◌, ◌&&◌, ◌∷◌, ℕ, List, [], None, length, take, drop, slice_get, IfOk, OnOk};
ghost use Rattle.std.specs.List.{filter};
ghost use Rattle.merc_tree.specs.declared.declarations.ModeDecl.{ModeDecl};
ghost use Rattle.merc_goal_tree.specs.Nodes.{Node};
ghost use Rattle.merc_goal_tree.specs.Variables.{variables};
ghost use Rattle.merc_graded_tree.specs.Nodes.{node, Basic};
ghost use Rattle.merc_order.specs.Bound.{among, each_once};
ghost use Rattle.merc_order.specs.Order.{outputs_of, simple_from};
ghost use Rattle.merc_order.specs.Procedures.{modes_of};
ghost use Rattle.merc_order.specs.Spelt.{inputs_in, replaced, tested_places, untested_places, with_tests, written as written_places};
ghost use Rattle.merc_goal_facts.specs.Facts.{AreFactsOf};
ghost use Rattle.merc_goal_facts.specs.Bounds.{all_behind};
ghost use Rattle.merc_goal_facts.specs.Outside.{IsStretch};
ghost use Rattle.merc_simple_goals.specs.Outputs.{is_output, kept, found_at};
ghost use Rattle.merc_simple_goals.specs.Places.{AreFirstPlaces};
ghost use Rattle.merc_simple_goals.specs.Putting.{IsPut, PutsIf};
ghost use Rattle.merc_goal_facts.specs.Reaches.{first_since};
ghost use Rattle.merc_simple_goals.specs.Writing.{Gives};

use crate::faults::fault_at;
use crate::places::Places;
use crate::testing::{
    call_tested, inner_outputs, push_tests, replaced, tested, tested_places, untested_places,
    writes_of,
};
use crate::written::Written;
use merc_base::{Fault, NoMemory, Rule, Span};
use merc_goal_facts::{BoundSet, Facts, Occurrences, modes_at, number_past};
use merc_goal_tree::{Operation, Predicate, SimpleGoal, Symbol, Var, Vars};
use merc_graded_tree::{BasicGoal, Procedure, Running};
use merc_readiness::mode_taken;
use merc_tree::{Arg, ModeDecl, PredDecl};
use std::alloc::Global;

/// The outputs of a goal with these facts from what is bound, in the order of the text: what it binds that is not bound
/// and occurs outside it. Its variables occur from `start` on. `seen` has no variables, before and after.
///
/// # Errors
///
/// `NoMemory` where memory was refused.
pub fn outputs_of(
    alloc: Global,
    all: &Places,
    facts: &Facts,
    start: usize,
    bound: &BoundSet,
    seen: &mut BoundSet,
) -> Result<Vars, NoMemory>
    requires { seen.old ≡ [] }
    ensures outputs { IfOk result (λ outputs. (total : ℕ → ℕ) (modes : ℕ → List ModeDecl) (goal : Node) → AreFactsOf total modes goal facts.now → IsStretch total all.now start (start + length (variables goal)) (variables goal) → outputs ≡ outputs_of total modes (among bound.now) goal) }
    ensures cleared { OnOk result (seen.new ≡ []) }
{
    let end = number_past(start, facts.occurrences)?;
    see_outputs(
        all.occurrences(),
        facts.binds.as_slice(),
        start,
        end,
        bound,
        seen,
    )?;
    let outputs = in_order(alloc, all, start, end, seen)?;
    seen.undo(0);
    Ok(outputs)
}

// Puts those of the variables into the set that are not bound and occur outside the stretch from one place to another.
fn see_outputs(
    all: &Occurrences,
    variables: &[Var],
    start: usize,
    end: usize,
    bound: &BoundSet,
    seen: &mut BoundSet,
) -> Result<(), NoMemory>
    ensures { OnOk result (seen.new ≡ all_behind seen.old (filter (λ variable. is_output (among bound.now) all.now start end variable) variables.now)) }
{
    for variable in variables {
        if !bound.is_bound(*variable) && all.is_outside(start, end, *variable) {
            seen.bind(*variable)?;
        }
    }
    Ok(())
}

// Those in the set that occur from one place to another, in the order in which they occur there first.
fn in_order(
    alloc: Global,
    all: &Places,
    start: usize,
    end: usize,
    seen: &BoundSet,
) -> Result<Vars, NoMemory>
    requires { start ≤ end }
    ensures { IfOk result (λ found. found ≡ each_once (filter (among seen.now) (drop start (take end all.now)))) }
{
    match seen.since(0) {
        [only] => {
            let places = first_alone(all, start, end, *only);
            found_at(alloc, all.occurrences(), start, places, seen)
        }
        variables => {
            let places = first_places(alloc, all, start, end, variables)?;
            found_at(alloc, all.occurrences(), start, &places, seen)
        }
    }
}

// Those in the set that stand at these places and occur nowhere from `start` on before them.
fn found_at(
    alloc: Global,
    all: &Occurrences,
    start: usize,
    places: &[usize],
    seen: &BoundSet,
) -> Result<Vars, NoMemory>
    ensures { IfOk result (λ found. found ≡ found_at start (among seen.now) all.now places.now) }
{
    let mut found = Vars::new(alloc);
    for place in places {
        if let Some(variable) = next_found(all, start, *place, seen) {
            found.push(variable)?;
        }
    }
    Ok(found)
}

// The place at which the variable occurs first from one place to another, if it does.
fn first_alone(all: &Places, start: usize, end: usize, variable: Var) -> &[usize]
    ensures { AreFirstPlaces start end (variable ∷ []) all.now result.now }
{
    let places = all.within(start, end, variable);
    if places.is_empty() {
        places
    } else {
        &places[..1]
    }
}

// The places at which these variables occur first from one place to another, in ascending order, each once.
fn first_places(
    alloc: Global,
    all: &Places,
    start: usize,
    end: usize,
    variables: &[Var],
) -> Result<Vec<usize>, NoMemory>
    ensures { IfOk result (λ places. AreFirstPlaces start end variables.now all.now places.items) }
{
    let mut places = Vec::with_capacity(alloc, variables.len())?;
    for variable in variables {
        if let Some(place) = all.within(start, end, *variable).first() {
            places.push(*place)?;
        }
    }
    places.sort_unstable();
    places.dedup();
    Ok(places)
}

// The variable at a place, if it is in the set and does not occur from `start` on before that place.
fn next_found(all: &Occurrences, start: usize, place: usize, seen: &BoundSet) -> Option<Var>
    ensures { result ≡ kept (among seen.now) (first_since start all.now place) }
{
    let variable = all.first_since(start, place)?;
    if seen.is_bound(variable) {
        Some(variable)
    } else {
        None
    }
}

/// What a goal has besides what it is.
#[derive(Drop)]
struct Frame {
    /// Its outputs.
    outputs: Vars,
    /// Where it stands in its text.
    span: Span,
}

/// Writes a goal that holds no others out, from what is bound, with these outputs: with a fresh variable in place of each
/// variable that it would write and that has a value by then, and a test for each of these behind it.
///
/// # Errors
///
/// What is wrong with a goal that is not ready; `NoMemory` where memory was refused, or the number of a fresh variable
/// would not fit into a word.
pub fn order_simple(
    alloc: Global,
    predicates: &[PredDecl],
    goal: &SimpleGoal,
    outputs: Vars,
    span: Span,
    bound: &BoundSet,
    written: &mut Written,
) -> Result<(), Fault>
    requires { written.old.seen ≡ [] }
    ensures { (total : ℕ → ℕ) → Gives (modes_of predicates.now) (simple_from total (modes_of predicates.now) goal.now outputs span (among bound.now)) written.old written.new result }
{
    let frame = Frame { outputs, span };
    match goal {
        SimpleGoal::True => put_if(true, BasicGoal::True, frame, written),
        SimpleGoal::Fail => put_if(true, BasicGoal::Fail, frame, written),
        SimpleGoal::Same(one, other) => order_same(*one, *other, frame, bound, written),
        SimpleGoal::Shape(whole, symbol, arguments) => {
            let arguments = arguments.as_slice();
            order_shape(alloc, *whole, *symbol, arguments, frame, bound, written)
        }
        SimpleGoal::Arithmetic(operation, target, left, right) => {
            let operands = (*left, *right);
            order_arithmetic(alloc, *operation, *target, operands, frame, bound, written)
        }
        SimpleGoal::Compare(comparison, left, right) => {
            let is_ready = are_both_bound(bound, *left, *right);
            let goal = BasicGoal::Compare(*comparison, *left, *right);
            put_if(is_ready, goal, frame, written)
        }
        SimpleGoal::Raise(text) => {
            let is_ready = bound.is_bound(*text);
            put_if(is_ready, BasicGoal::Raise(*text), frame, written)
        }
        SimpleGoal::Call(predicate, arguments) => {
            let modes = modes_at(predicates, *predicate);
            let arguments = arguments.as_slice();
            order_call(alloc, modes, *predicate, arguments, frame, bound, written)
        }
    }
}

fn are_both_bound(bound: &BoundSet, one: Var, other: Var) -> bool
    ensures { result ≡ (among bound.now one && among bound.now other) }
{
    bound.is_bound(one) && bound.is_bound(other)
}

// Two variables: a test where both are bound, an assignment where one is.
fn order_same(
    one: Var,
    other: Var,
    frame: Frame,
    bound: &BoundSet,
    written: &mut Written,
) -> Result<(), Fault>
    ensures { (total : ℕ → ℕ) (modes : ℕ → List ModeDecl) → Gives modes (simple_from total modes (SimpleGoal.Same one other) frame.outputs frame.span (among bound.now)) written.old written.new result }
{
    let is_bound = bound.is_bound(other);
    if !bound.is_bound(one) {
        return put_if(is_bound, BasicGoal::Assign(one, other), frame, written);
    }
    let goal = if is_bound {
        BasicGoal::Test(one, other)
    } else {
        BasicGoal::Assign(other, one)
    };
    put_if(true, goal, frame, written)
}

// A variable that has a symbol's value over others: a split where it is bound, or it is built.
fn order_shape(
    alloc: Global,
    whole: Var,
    symbol: Symbol,
    arguments: &[Var],
    frame: Frame,
    bound: &BoundSet,
    written: &mut Written,
) -> Result<(), Fault>
    requires { written.old.seen ≡ [] }
    ensures { (total : ℕ → ℕ) (modes : ℕ → List ModeDecl) → Gives modes (simple_from total modes (SimpleGoal.Shape whole symbol arguments.now) frame.outputs frame.span (among bound.now)) written.old written.new result }
{
    if !bound.is_bound(whole) {
        let parts = Vars::from_vec(Vec::from_slice(alloc, arguments)?);
        let goal = BasicGoal::Build(whole, symbol, parts);
        return put_if(bound.are_bound(arguments), goal, frame, written);
    }
    let tests = tested(alloc, arguments, bound, &mut written.seen)?;
    put_split(alloc, whole, symbol, arguments, &tests, frame, written)?;
    Ok(())
}

// Puts a split with these tests behind the others.
fn put_split(
    alloc: Global,
    whole: Var,
    symbol: Symbol,
    arguments: &[Var],
    tests: &[bool],
    frame: Frame,
    written: &mut Written,
) -> Result<(), NoMemory>
    requires { written.old.seen ≡ [] }
    ensures { OnOk result (IsPut (with_tests written.old.fresh (BasicGoal.Split whole symbol (replaced written.old.fresh arguments.now tests.now)) (untested_places arguments.now tests.now) (tested_places arguments.now tests.now) frame.outputs frame.span) (length (tested_places arguments.now tests.now)) written.old written.new) }
{
    let writes = untested_places(alloc, arguments, tests)?;
    let testing = tested_places(alloc, arguments, tests)?;
    let parts = replaced(alloc, written.fresh, arguments, tests)?;
    put_with_tests(
        alloc,
        BasicGoal::Split(whole, symbol, parts),
        writes.as_slice(),
        testing.as_slice(),
        frame,
        written,
    )
}

// Arithmetic, which gives its target the result for both operands.
fn order_arithmetic(
    alloc: Global,
    operation: Operation,
    target: Var,
    operands: (Var, Var),
    frame: Frame,
    bound: &BoundSet,
    written: &mut Written,
) -> Result<(), Fault>
    requires { written.old.seen ≡ [] }
    ensures { (total : ℕ → ℕ) (modes : ℕ → List ModeDecl) → Gives modes (simple_from total modes (SimpleGoal.Arithmetic operation target operands.0 operands.1) frame.outputs frame.span (among bound.now)) written.old written.new result }
{
    let (left, right) = operands;
    if !are_both_bound(bound, left, right) {
        return Err(fault_at(Rule::NeverReady, frame.span));
    }
    if !bound.is_bound(target) {
        let goal = BasicGoal::Arithmetic(operation, target, left, right);
        return put_if(true, goal, frame, written);
    }
    let fresh = Var::new(written.fresh);
    let goal = BasicGoal::Arithmetic(operation, fresh, left, right);
    put_with_tests(alloc, goal, &[], &[target], frame, written)?;
    Ok(())
}

// A call of a predicate with these modes.
fn order_call(
    alloc: Global,
    modes: &[ModeDecl],
    predicate: Predicate,
    arguments: &[Var],
    frame: Frame,
    bound: &BoundSet,
    written: &mut Written,
) -> Result<(), Fault>
    requires { written.old.seen ≡ [] }
    ensures { (total : ℕ → ℕ) (all : ℕ → List ModeDecl) → all predicate ≡ modes.now → Gives all (simple_from total all (SimpleGoal.Call predicate arguments.now) frame.outputs frame.span (among bound.now)) written.old written.new result }
{
    match mode_taken(modes, arguments, bound) {
        Some(mode) => {
            let places = places_at(modes, mode);
            let tests = call_tested(alloc, places, arguments, bound, &mut written.seen)?;
            let procedure = Procedure { predicate, mode };
            put_call(alloc, procedure, places, arguments, &tests, frame, written)?;
            Ok(())
        }
        None => Err(fault_at(Rule::NeverReady, frame.span)),
    }
}

// Puts a call with these tests behind the others.
fn put_call(
    alloc: Global,
    procedure: Procedure,
    places: &[Arg],
    arguments: &[Var],
    tests: &[bool],
    frame: Frame,
    written: &mut Written,
) -> Result<(), NoMemory>
    requires { written.old.seen ≡ [] }
    ensures { OnOk result (IsPut (with_tests written.old.fresh (BasicGoal.Call procedure (replaced written.old.fresh arguments.now tests.now)) (written_places places.now arguments.now tests.now) (tested_places arguments.now tests.now) frame.outputs frame.span) (length (tested_places arguments.now tests.now)) written.old written.new) }
{
    let writes = writes_of(alloc, places, arguments, tests)?;
    let testing = tested_places(alloc, arguments, tests)?;
    let operands = replaced(alloc, written.fresh, arguments, tests)?;
    put_with_tests(
        alloc,
        BasicGoal::Call(procedure, operands),
        writes.as_slice(),
        testing.as_slice(),
        frame,
        written,
    )
}

// The places of the mode of this number.
fn places_at(modes: &[ModeDecl], mode: usize) -> &[Arg]
    ensures { result.now ≡ inputs_in (slice_get modes.now mode) }
{
    match modes.get(mode) {
        Some(declared) => declared.args.as_slice(),
        None => &[],
    }
}

// Puts a goal behind the others that writes these variables, with a test behind it for each of those in `testing`: its
// fresh variables stand for them.
fn put_with_tests(
    alloc: Global,
    goal: BasicGoal,
    writes: &[Var],
    testing: &[Var],
    frame: Frame,
    written: &mut Written,
) -> Result<(), NoMemory>
    requires { written.old.seen ≡ [] }
    ensures { OnOk result (IsPut (with_tests written.old.fresh goal writes.now testing.now frame.outputs frame.span) (length testing.now) written.old written.new) }
{
    if testing.is_empty() {
        return written.nodes.push(goal, frame.outputs, frame.span);
    }
    let at = written.fresh;
    let outputs = frame.outputs.as_slice();
    let inner = inner_outputs(alloc, at, outputs, writes, testing, &mut written.seen)?;
    written.nodes.push(goal, inner, frame.span)?;
    push_tests(alloc, at, testing, frame.span, &mut written.nodes)?;
    let count = number_past(testing.len(), 1)?;
    written
        .nodes
        .conjoin(Running::Sequential, count, frame.outputs, frame.span)?;
    written.fresh = number_past(at, testing.len())?;
    Ok(())
}

// Puts a goal that is ready behind the others.
fn put_if(is_ready: bool, goal: BasicGoal, frame: Frame, written: &mut Written) -> Result<(), Fault>
    ensures { PutsIf is_ready (node (Basic goal) frame.outputs None frame.span) frame.span written.old written.new result }
{
    if !is_ready {
        return Err(fault_at(Rule::NeverReady, frame.span));
    }
    written.nodes.push(goal, frame.outputs, frame.span)?;
    Ok(())
}
