//! Whether a goal that holds no others can go.
ghost use Rattle.std.specs.Prelude.{◌≡◌, Some, if◌then◌else◌};
ghost use Rattle.std.specs.Option.{option_map};
ghost use Rattle.merc_order.specs.Bound.{among, are_bound};
ghost use Rattle.merc_order.specs.CallModes.{inputs_of, width, taken_from};
ghost use Rattle.merc_order.specs.Procedures.{modes_of};
ghost use Rattle.merc_goal_facts.specs.Ready.{can_go};
ghost use Rattle.merc_readiness.specs.CallModeCode.{wider_of};

use merc_goal_facts::{BoundSet, modes_at};
use merc_goal_tree::{SimpleGoal, Var};
use merc_tree::{Arg, ModeDecl, PredDecl};

/// Whether the goal can go where these variables are bound.
pub(crate) fn is_simple_ready(goal: &SimpleGoal, predicates: &[PredDecl], bound: &BoundSet) -> bool
    ensures { result ≡ can_go (modes_of predicates.now) goal.now (among bound.now) }
{
    match goal {
        SimpleGoal::True | SimpleGoal::Fail => true,
        SimpleGoal::Same(one, other) => bound.is_bound(*one) || bound.is_bound(*other),
        SimpleGoal::Shape(whole, _, arguments) => {
            bound.is_bound(*whole) || bound.are_bound(arguments.as_slice())
        }
        SimpleGoal::Arithmetic(_, _, left, right) | SimpleGoal::Compare(_, left, right) => {
            bound.is_bound(*left) && bound.is_bound(*right)
        }
        SimpleGoal::Raise(text) => bound.is_bound(*text),
        SimpleGoal::Call(predicate, arguments) => {
            let modes = modes_at(predicates, *predicate);
            mode_taken(modes, arguments.as_slice(), bound).is_some()
        }
    }
}

/// The number of the mode that a call with these arguments takes: of those whose inputs are bound the first with the most
/// inputs. None where there is no such mode.
pub fn mode_taken(modes: &[ModeDecl], arguments: &[Var], bound: &BoundSet) -> Option<usize>
    ensures { result ≡ option_map (λ taken. taken.0) (taken_from 0 (among bound.now) arguments.now modes.now) }
{
    let mut best: Option<(usize, usize)> = None;
    let mut index = modes.len();
    while 0 < index {
        index -= 1;
        best = better(index, &modes[index], arguments, bound, best);
    }
    match best {
        Some((number, _)) => Some(number),
        None => None,
    }
}

// The better one of the best mode so far and of one more, which stands to the left of those that were looked at.
fn better(
    number: usize,
    mode: &ModeDecl,
    arguments: &[Var],
    bound: &BoundSet,
    best: Option<(usize, usize)>,
) -> Option<(usize, usize)>
    ensures { result ≡ (if are_bound (among bound.now) (inputs_of mode.now.args arguments.now) then Some (wider_of number (width mode.now.args) best) else best) }
{
    let places = mode.args.as_slice();
    if are_inputs_bound(places, arguments, bound) {
        Some(wider(number, input_count(places), best))
    } else {
        best
    }
}

// Of two modes by their numbers and how many inputs they have, the one with more, the first where they have as many.
fn wider(number: usize, inputs: usize, best: Option<(usize, usize)>) -> (usize, usize)
    ensures { result ≡ wider_of number inputs best }
{
    match best {
        Some((other, others)) if inputs < others => (other, others),
        _ => (number, inputs),
    }
}

// How many inputs a mode has.
fn input_count(places: &[Arg]) -> usize
    ensures { result ≡ width places.now }
{
    let mut count = 0;
    for place in places {
        match place {
            Arg::Input => count += 1,
            Arg::Output => {}
        }
    }
    count
}

// Whether the arguments that a mode has bound before are bound.
fn are_inputs_bound(places: &[Arg], arguments: &[Var], bound: &BoundSet) -> bool
    ensures { result ≡ are_bound (among bound.now) (inputs_of places.now arguments.now) }
{
    let mut left = places;
    let mut rest = arguments;
    while let [place, others @ ..] = left {
        let [argument, later @ ..] = rest else {
            return true;
        };
        match place {
            Arg::Input => {
                if !bound.is_bound(*argument) {
                    return false;
                }
            }
            Arg::Output => {}
        }
        left = others;
        rest = later;
    }
    true
}
