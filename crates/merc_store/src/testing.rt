//! Tests of values, and arithmetic.
ghost use Rattle.std.specs.Prelude.{◌≡◌, ◌<◌, length, IfOk};
ghost use Rattle.merc_store.specs.Performing.{Does, tested};

use crate::{Done, Store};
use merc_arithmetic::{compute, holds};
use merc_base::{Name, NoMemory};
use merc_code::Instruction;
use merc_goal_tree::{Comparison, Operation, Var};
use merc_value::Word;

impl Store {
    #[inline(always)]
    pub(crate) fn test(&self, one: Var, other: Var) -> Result<Done, NoMemory>
        requires { (one < length self.now.stacks.current) × (other < length self.now.stacks.current) }
        ensures { IfOk result (Does self.now self.now (Instruction.Test one other)) }
    {
        let Some(first) = self.word(one) else {
            return Ok(Done::Failed);
        };
        let Some(second) = self.word(other) else {
            return Ok(Done::Failed);
        };
        if self.heap.equal(first, second)? {
            Ok(Done::Bound)
        } else {
            Ok(Done::Failed)
        }
    }

    /// Computes from two variables' integers the value of `to`. Fails where one of them is no integer, and raises an exception
    /// where the operation divides by zero; then nothing changes.
    #[inline(always)]
    pub fn operate(&mut self, operation: Operation, to: Var, one: Var, other: Var) -> Done
        requires { (to < length self.old.stacks.current) × (one < length self.old.stacks.current) × (other < length self.old.stacks.current) }
        ensures { Does self.old self.new (Instruction.Arithmetic operation to one other) result }
    {
        let Some(left) = self.integer(one) else {
            return Done::Failed;
        };
        let Some(right) = self.integer(other) else {
            return Done::Failed;
        };
        match compute(operation, left, right) {
            Some(number) => self.give(to, Word::Int(number)),
            None => Done::Raised(Name::DIVISION_BY_ZERO),
        }
    }

    #[inline(always)]
    pub(crate) fn compare(&self, comparison: Comparison, one: Var, other: Var) -> Done
        requires { (one < length self.now.stacks.current) × (other < length self.now.stacks.current) }
        ensures { Does self.now self.now (Instruction.Compare comparison one other) result }
    {
        tested(self.compare_variables(comparison, one, other))
    }

    // Whether a comparison of two variables' integers holds. It does not where one of them is no integer.
    #[inline(always)]
    fn compare_variables(&self, comparison: Comparison, one: Var, other: Var) -> bool
        requires slots { (one < length self.now.stacks.current) × (other < length self.now.stacks.current) }
        ensures { Does self.now self.now (Instruction.Compare comparison one other) (tested result) }
    {
        let Some(left) = self.integer(one) else {
            return false;
        };
        let Some(right) = self.integer(other) else {
            return false;
        };
        holds(comparison, left, right)
    }
}

// How a test ends.
#[inline(always)]
pub(crate) fn tested(holds: bool) -> Done
    ensures { result ≡ tested holds }
{
    if holds { Done::Bound } else { Done::Failed }
}
