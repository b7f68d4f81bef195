//! The places of a goal that become tests.
ghost use Rattle.std.specs.Prelude.{◌≡◌, ◌∷◌, ◌++◌, ◌||◌, [], suc, false, slice_get, IfOk, OnOk, if◌then◌else◌};
ghost use Rattle.std.specs.List.{slice_index_or};
ghost use Rattle.std.specs.Option.{option_to_list};
ghost use Rattle.merc_graded_tree.specs.Nodes.{list_of};
ghost use Rattle.merc_order.specs.Bound.{among};
ghost use Rattle.merc_order.specs.CallModes.{tested, call_tested};
ghost use Rattle.merc_order.specs.Spelt.{replaced, tested_places, untested_places, written, numbered, tests_of, inner_outputs};
ghost use Rattle.merc_goal_facts.specs.Bounds.{behind};
ghost use Rattle.merc_simple_goals.specs.Testing.{written_here};

use merc_base::{NoMemory, Span};
use merc_goal_facts::{BoundSet, number_past, those_in};
use merc_goal_tree::{Var, Vars};
use merc_graded_tree::{BasicGoal, Nodes};
use merc_tree::Arg;
use std::alloc::Global;

/// Which of the variables that a goal writes are bound before, or by a place before them. The set has no variables,
/// before and after.
///
/// # Errors
///
/// `NoMemory` where memory was refused, here and in the calls below.
pub(crate) fn tested(
    alloc: Global,
    variables: &[Var],
    bound: &BoundSet,
    seen: &mut BoundSet,
) -> Result<Vec<bool>, NoMemory>
    requires { seen.old ≡ [] }
    ensures tests { IfOk result (λ tests. tests.items ≡ tested (among bound.now) variables.now) }
    ensures cleared { OnOk result (seen.new ≡ []) }
{
    let mut tests = Vec::new(alloc);
    for variable in variables {
        put_test(&mut tests, *variable, bound, seen)?;
    }
    seen.undo(0);
    Ok(tests)
}

/// Which of the arguments of a call are outputs that are bound before, or by a place before them: an input is no test. The
/// set has no variables, before and after.
pub(crate) fn call_tested(
    alloc: Global,
    places: &[Arg],
    arguments: &[Var],
    bound: &BoundSet,
    seen: &mut BoundSet,
) -> Result<Vec<bool>, NoMemory>
    requires { seen.old ≡ [] }
    ensures tests { IfOk result (λ tests. tests.items ≡ call_tested (among bound.now) places.now arguments.now) }
    ensures cleared { OnOk result (seen.new ≡ []) }
{
    let mut tests = Vec::new(alloc);
    let mut left = places;
    let mut rest = arguments;
    while let [place, others @ ..] = left {
        let [argument, later @ ..] = rest else {
            break;
        };
        match place {
            Arg::Input => tests.push(false)?,
            Arg::Output => put_test(&mut tests, *argument, bound, seen)?,
        }
        left = others;
        rest = later;
    }
    seen.undo(0);
    Ok(tests)
}

// Puts behind the others whether the variable is bound or was written before.
fn put_test(
    tests: &mut Vec<bool>,
    variable: Var,
    bound: &BoundSet,
    seen: &mut BoundSet,
) -> Result<(), NoMemory>
    ensures tests { OnOk result (tests.new.items ≡ tests.old.items ++ (among bound.now variable || among seen.old variable) ∷ []) }
    ensures seen { OnOk result (seen.new ≡ behind seen.old variable) }
{
    tests.push(bound.is_bound(variable) || seen.is_bound(variable))?;
    seen.bind(variable)
}

/// The variables, with a fresh one at each place with a test, numbered from `at` on.
pub(crate) fn replaced(
    alloc: Global,
    at: usize,
    variables: &[Var],
    tests: &[bool],
) -> Result<Vars, NoMemory>
    ensures { IfOk result (λ all. all ≡ replaced at variables.now tests.now) }
{
    let mut all = Vars::new(alloc);
    let mut next = at;
    for (index, variable) in variables.iter().enumerate() {
        next = put_replaced(&mut all, next, *variable, is_tested(tests, index))?;
    }
    Ok(all)
}

// Puts the variable behind the others, or the fresh one of this number in its place where it has a test. Gives the
// number of the next fresh one.
fn put_replaced(all: &mut Vars, next: usize, variable: Var, test: bool) -> Result<usize, NoMemory>
    ensures all { OnOk result (all.new ≡ all.old ++ (if test then next else variable) ∷ []) }
    ensures next { IfOk result (λ behind. behind ≡ (if test then suc next else next)) }
{
    if !test {
        all.push(variable)?;
        return Ok(next);
    }
    all.push(Var::new(next))?;
    number_past(next, 1)
}

/// The variables at places with a test.
pub(crate) fn tested_places(
    alloc: Global,
    variables: &[Var],
    tests: &[bool],
) -> Result<Vars, NoMemory>
    ensures { IfOk result (λ all. all ≡ tested_places variables.now tests.now) }
{
    let mut all = Vars::new(alloc);
    for (index, variable) in variables.iter().enumerate() {
        put_if(&mut all, *variable, is_tested(tests, index))?;
    }
    Ok(all)
}

/// The variables at places without a test.
pub(crate) fn untested_places(
    alloc: Global,
    variables: &[Var],
    tests: &[bool],
) -> Result<Vars, NoMemory>
    ensures { IfOk result (λ all. all ≡ untested_places variables.now tests.now) }
{
    let mut all = Vars::new(alloc);
    for (index, variable) in variables.iter().enumerate() {
        put_if(&mut all, *variable, !is_tested(tests, index))?;
    }
    Ok(all)
}

/// What a call writes: its outputs with no test.
pub(crate) fn writes_of(
    alloc: Global,
    places: &[Arg],
    arguments: &[Var],
    tests: &[bool],
) -> Result<Vars, NoMemory>
    ensures { IfOk result (λ all. all ≡ written places.now arguments.now tests.now) }
{
    let mut all = Vars::new(alloc);
    for (index, test) in tests.iter().enumerate() {
        put_some(&mut all, written_at(places, arguments, index, *test))?;
    }
    Ok(all)
}

// The argument at a place, if the call writes it there.
fn written_at(places: &[Arg], arguments: &[Var], index: usize, test: bool) -> Option<Var>
    ensures { result ≡ written_here test (slice_get places.now index) (slice_get arguments.now index) }
{
    match places.get(index)? {
        Arg::Input => None,
        Arg::Output => {
            let argument = *arguments.get(index)?;
            if test { None } else { Some(argument) }
        }
    }
}

// Puts the variable behind the others, if it is to be there.
fn put_if(all: &mut Vars, variable: Var, is_put: bool) -> Result<(), NoMemory>
    ensures { OnOk result (all.new ≡ all.old ++ (if is_put then variable ∷ [] else [])) }
{
    if is_put {
        all.push(variable)?;
    }
    Ok(())
}

// Puts the variable behind the others, if there is one.
fn put_some(all: &mut Vars, variable: Option<Var>) -> Result<(), NoMemory>
    ensures { OnOk result (all.new ≡ all.old ++ option_to_list variable) }
{
    match variable {
        Some(variable) => all.push(variable),
        None => Ok(()),
    }
}

// Whether the place has a test.
fn is_tested(tests: &[bool], index: usize) -> bool
    ensures { result ≡ slice_index_or tests.now index false }
{
    match tests.get(index) {
        Some(test) => *test,
        None => false,
    }
}

/// The outputs of a goal in front of its tests. The set has no variables, before and after.
pub(crate) fn inner_outputs(
    alloc: Global,
    at: usize,
    outputs: &[Var],
    writes: &[Var],
    tested: &[Var],
    seen: &mut BoundSet,
) -> Result<Vars, NoMemory>
    requires { seen.old ≡ [] }
    ensures outputs { IfOk result (λ all. all ≡ inner_outputs at outputs.now writes.now tested.now) }
    ensures cleared { OnOk result (seen.new ≡ []) }
{
    seen.bind_all(outputs)?;
    seen.bind_all(tested)?;
    let mut all = those_in(alloc, seen, writes)?;
    push_numbered(&mut all, at, tested)?;
    seen.undo(0);
    Ok(all)
}

// Puts as many fresh variables behind the others, numbered from `at` on.
fn push_numbered(all: &mut Vars, at: usize, tested: &[Var]) -> Result<(), NoMemory>
    ensures { OnOk result (all.new ≡ all.old ++ numbered at tested.now) }
{
    let mut next = at;
    for _variable in tested {
        all.push(Var::new(next))?;
        next = number_past(next, 1)?;
    }
    Ok(())
}

/// Puts a test behind the others for each of these variables, against fresh ones numbered from `at` on.
pub(crate) fn push_tests(
    alloc: Global,
    at: usize,
    tested: &[Var],
    span: Span,
    nodes: &mut Nodes,
) -> Result<(), NoMemory>
    ensures { OnOk result (nodes.new ≡ nodes.old ++ list_of (tests_of at tested.now span)) }
{
    let mut next = at;
    for variable in tested {
        nodes.push(
            BasicGoal::Test(Var::new(next), *variable),
            Vars::new(alloc),
            span,
        )?;
        next = number_past(next, 1)?;
    }
    Ok(())
}
