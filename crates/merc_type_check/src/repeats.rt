//! Parts of a goal that stand in it before.
ghost use Rattle.std.specs.Prelude.{IfOk};
ghost use Rattle.merc_goal_tree.specs.Parts.{parts_of};
ghost use Rattle.merc_type_check.specs.Repeats.{IsEqualIf, IsRepeatedIf};

use merc_base::NoMemory;
use merc_goal_tree::{NodeRef, Root, SimpleGoal, Symbol, Var};
use std::alloc::Global;
use std::collections::BTreeMap;

/// The calls and constructions that were gone through: where the first of each stands, by their fingerprints. Such a goal
/// asks the same of types each time, and what it asks may be much larger than its text.
#[derive(Drop)]
pub(crate) struct Repeats {
    first: BTreeMap<u64, usize>,
}

impl Repeats {
    /// None was gone through.
    pub(crate) fn new(alloc: Global) -> Repeats {
        Repeats {
            first: BTreeMap::new(alloc),
        }
    }

    /// Whether a part of a goal, which stands at an index, stands before it too. It takes time of the order of the size of
    /// the part and of log n, with n parts that were gone through. A part may be taken for new where another has its
    /// fingerprint.
    ///
    /// # Errors
    ///
    /// `NoMemory` where memory was refused.
    pub(crate) fn is_repeated(
        &mut self,
        goal: &NodeRef<'_>,
        index: usize,
        part: &Root,
    ) -> Result<bool, NoMemory>
        ensures { IfOk result (λ repeated. IsRepeatedIf repeated (parts_of goal.now) index part.now) }
    {
        let print = match fingerprint(part) {
            Some(print) => print,
            None => return Ok(false),
        };
        match self.first.get(&print).copied() {
            Some(earlier) => Ok(stands_at(goal, earlier, index, part)),
            None => {
                self.first.insert(print, index)?;
                Ok(false)
            }
        }
    }
}

// Whether a part stands at an earlier index.
fn stands_at(goal: &NodeRef<'_>, earlier: usize, index: usize, part: &Root) -> bool
    ensures { IsRepeatedIf result (parts_of goal.now) index part.now }
{
    if index <= earlier {
        return false;
    }
    match goal.part(earlier) {
        Some((other, _)) => is_same_part(other, part),
        None => false,
    }
}

// Whether two parts are the same call or construction.
fn is_same_part(one: &Root, other: &Root) -> bool
    ensures { IsEqualIf result one.now other.now }
{
    match one {
        Root::Simple(goal) => match other {
            Root::Simple(other_goal) => is_same_goal(goal, other_goal),
            _ => false,
        },
        _ => false,
    }
}

// Whether two goals are the same call or construction.
fn is_same_goal(one: &SimpleGoal, other: &SimpleGoal) -> bool
    ensures { IsEqualIf result one.now other.now }
{
    match one {
        SimpleGoal::Call(predicate, arguments) => match other {
            SimpleGoal::Call(other_predicate, others) => {
                predicate.number() == other_predicate.number()
                    && are_same(arguments.as_slice(), others.as_slice())
            }
            _ => false,
        },
        SimpleGoal::Shape(variable, symbol, arguments) => match other {
            SimpleGoal::Shape(other_variable, other_symbol, others) => {
                variable.number() == other_variable.number()
                    && is_same_constructor(*symbol, *other_symbol)
                    && are_same(arguments.as_slice(), others.as_slice())
            }
            _ => false,
        },
        _ => false,
    }
}

// Whether two symbols are the same constructor.
fn is_same_constructor(one: Symbol, other: Symbol) -> bool
    ensures { IsEqualIf result one other }
{
    match one {
        Symbol::Constructor(name, arity) => match other {
            Symbol::Constructor(other_name, count) => name == other_name && arity == count,
            Symbol::Integer(_) | Symbol::Text(_) => false,
        },
        Symbol::Integer(_) | Symbol::Text(_) => false,
    }
}

// Whether two lists of variables are the same.
fn are_same(ones: &[Var], others: &[Var]) -> bool
    ensures { IsEqualIf result ones.now others.now }
{
    ones == others
}

// A number by which most calls and constructions are told apart, None for other parts.
fn fingerprint(part: &Root) -> Option<u64> {
    match part {
        Root::Simple(SimpleGoal::Call(predicate, arguments)) => {
            let start = mixed(1, predicate.number());
            Some(mixed_all(start, arguments.as_slice()))
        }
        Root::Simple(SimpleGoal::Shape(variable, Symbol::Constructor(_, _), arguments)) => {
            let start = mixed(2, variable.number());
            Some(mixed_all(start, arguments.as_slice()))
        }
        _ => None,
    }
}

fn mixed_all(start: u64, variables: &[Var]) -> u64 {
    let mut print = start;
    for variable in variables {
        print = mixed(print, variable.number());
    }
    print
}

// One more number in a fingerprint.
fn mixed(print: u64, number: usize) -> u64 {
    print.wrapping_mul(MULTIPLIER).wrapping_add(number as u64)
}

// It is odd, and its bits have no pattern.
const MULTIPLIER: u64 = 11400714819323198485;
