//! The instructions of compiled code.
ghost use Rattle.std.specs.Prelude.{◌≡◌};

use merc_base::{Name, Sequence};
use merc_goal_tree::{Comparison, Operation, Symbol, Var, Vars};
use merc_graded_tree::{Procedure, Site};
use std::marker::Model;

/// A mark of a frame, by its number from 0: a place that holds a number of choice points.
#[derive(Clone, Copy, PartialEq, Eq)]
pub struct Mark {
    number: usize,
}

impl Model for Mark {
    ghost use Rattle.std.specs.Prelude.{ℕ};

    ghost Value = { ℕ };

    ghost view = { λ m. m.number };

    ghost inverse = { λ n. record { number = n } };
}

impl Mark {
    /// The mark of this number.
    pub fn new(number: usize) -> Mark
        ensures { result ≡ number }
    {
        Mark { number }
    }

    /// The mark's number.
    pub fn number(self) -> usize
        ensures { result ≡ self }
    {
        self.number
    }
}

/// Where a switch goes on for a symbol: behind so many of the instructions that follow it.
#[derive(Clone, Copy)]
pub struct Target {
    pub symbol: Symbol,
    pub skipped: usize,
}

/// One instruction. Variables are the slots of the frame. A jump goes forward, over so many of the instructions that
/// follow it. An operand without a value fails. At a fork, a wait and a signal the code meets others: it goes on once it is
/// told to.
#[derive(Drop)]
pub enum Instruction {
    /// Gives the variable the integer.
    Integer(Var, i64),
    /// Gives the variable the text.
    Text(Var, Name),
    /// Gives the first variable the value of the second.
    Copy(Var, Var),
    /// Gives the variable the value of the symbol over the others.
    Build(Var, Symbol, Vars),
    /// Gives the others the arguments of the variable's value. Fails where it is not of the symbol.
    Split(Var, Symbol, Vars),
    /// Fails where the variable's value is not the literal.
    Literal(Var, Symbol),
    /// Fails where the variables have not the same value.
    Test(Var, Var),
    /// Gives the first variable the operation's result for the other two; an exception at a divisor of 0.
    Arithmetic(Operation, Var, Var, Var),
    /// Fails where the comparison does not hold.
    Compare(Comparison, Var, Var),
    /// An exception with the variable's text.
    Raise(Var),
    /// Skips so many instructions.
    Jump(usize),
    /// Goes on at the first target whose symbol the variable's value is of. Fails where there is none.
    Switch(Var, Sequence<Target>),
    /// Makes a choice point that goes on behind so many instructions.
    Try(usize),
    /// The mark becomes the number of choice points.
    Mark(Mark),
    /// Drops the choice points that were made since the mark was set.
    Commit(Mark),
    /// The choice point that was made next after the mark was set only fails from now on. Later ones stay.
    Soften(Mark),
    /// One step, then the procedure's code with these arguments. Fails where the procedure is not there.
    Call(Procedure, Vars),
    /// Goes back to the caller, with the outputs. Choice points stay.
    Return,
    /// Goes back to the last choice point, or ends.
    Fail,
    /// An answer with the values of the variables. Goes on as `Fail` does.
    Answer(Vars),
    /// Forks the conjuncts of the site. Goes on once all have ended well, with as many steps less as they made.
    Fork(Site),
    /// Gives the variable the value that it is given there.
    Wait(Var),
    /// Hands the variable's value on.
    Signal(Var),
    /// Ends a conjunct's code.
    Close,
}
