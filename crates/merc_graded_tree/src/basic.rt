//! Ordered goals that hold no others.
ghost use Rattle.std.specs.Prelude.{◌≡◌, IfOk};

use merc_base::NoMemory;
use merc_goal_tree::{Comparison, Operation, Predicate, Symbol, Var, Vars};
use std::alloc::Global;

/// A predicate with one of its modes, by its number from 0 in the order of declaration.
#[derive(Clone, Copy)]
pub struct Procedure {
    pub predicate: Predicate,
    pub mode: usize,
}

/// A place in a program at which conjuncts are forked, by its number.
#[derive(Clone, Copy)]
pub struct Site {
    pub number: usize,
}

/// An ordered goal that holds no others. Each has its inputs bound where it stands.
#[derive(Drop)]
pub enum BasicGoal {
    True,
    Fail,
    /// Gives the first variable the value of the second.
    Assign(Var, Var),
    /// Both variables have one value.
    Test(Var, Var),
    /// Gives the variable the value of the symbol over the others.
    Build(Var, Symbol, Vars),
    /// The variable has the value of the symbol over the others, which are given theirs.
    Split(Var, Symbol, Vars),
    /// Gives the first variable the operation's result for the other two.
    Arithmetic(Operation, Var, Var, Var),
    Compare(Comparison, Var, Var),
    /// An exception with the variable's text.
    Raise(Var),
    /// A call of the procedure with these arguments.
    Call(Procedure, Vars),
    /// Waits for the value that another conjunct gives the variable.
    Wait(Var, usize),
    /// Hands the variable's value to the conjunct of this number, 0 for the goals behind the conjunction.
    Signal(Var, usize),
}

impl BasicGoal {
    /// A copy of the goal. `NoMemory` where memory was refused.
    pub fn try_clone(&self, alloc: Global) -> Result<BasicGoal, NoMemory>
        ensures { IfOk result (λ copy. copy ≡ self.now) }
    {
        match self {
            BasicGoal::True => Ok(BasicGoal::True),
            BasicGoal::Fail => Ok(BasicGoal::Fail),
            BasicGoal::Assign(to, from) => Ok(BasicGoal::Assign(*to, *from)),
            BasicGoal::Test(one, other) => Ok(BasicGoal::Test(*one, *other)),
            BasicGoal::Build(whole, symbol, arguments) => {
                Ok(BasicGoal::Build(*whole, *symbol, arguments.try_clone(alloc)?))
            }
            BasicGoal::Split(whole, symbol, arguments) => {
                Ok(BasicGoal::Split(*whole, *symbol, arguments.try_clone(alloc)?))
            }
            BasicGoal::Arithmetic(operation, result, left, right) => {
                Ok(BasicGoal::Arithmetic(*operation, *result, *left, *right))
            }
            BasicGoal::Compare(comparison, left, right) => {
                Ok(BasicGoal::Compare(*comparison, *left, *right))
            }
            BasicGoal::Raise(text) => Ok(BasicGoal::Raise(*text)),
            BasicGoal::Call(procedure, arguments) => {
                Ok(BasicGoal::Call(*procedure, arguments.try_clone(alloc)?))
            }
            BasicGoal::Wait(variable, conjunct) => Ok(BasicGoal::Wait(*variable, *conjunct)),
            BasicGoal::Signal(variable, conjunct) => Ok(BasicGoal::Signal(*variable, *conjunct)),
        }
    }
}
