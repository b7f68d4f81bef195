//! Goals that hold no others.
ghost use Rattle.std.specs.Prelude.{◌≡◌};

use merc_base::{Name, Sequence};
use std::marker::Model;

/// A variable of a predicate or of a goal, by its number. The arguments of a predicate have the numbers from 0; those
/// behind them rise in the order of the text.
#[derive(Clone, Copy, PartialEq, Eq, PartialOrd, Ord)]
pub struct Var {
    number: usize,
}

impl Model for Var {
    ghost use Rattle.std.specs.Prelude.{ℕ};

    ghost Value = { ℕ };

    ghost view = { λ v. v.number };

    ghost inverse = { λ n. record { number = n } };
}

impl Var {
    /// The variable of this number.
    pub fn new(number: usize) -> Var
        ensures { result ≡ number }
    {
        Var { number }
    }

    /// The variable's number.
    pub fn number(self) -> usize
        ensures { result ≡ self }
    {
        self.number
    }
}

/// Variables in order.
pub type Vars = Sequence<Var>;

/// A predicate of the module, by its number from 0 in the order of declaration.
#[derive(Clone, Copy)]
pub struct Predicate {
    number: usize,
}

impl Model for Predicate {
    ghost use Rattle.std.specs.Prelude.{ℕ};

    ghost Value = { ℕ };

    ghost view = { λ p. p.number };

    ghost inverse = { λ n. record { number = n } };
}

impl Predicate {
    /// The predicate of this number.
    pub fn new(number: usize) -> Predicate
        ensures { result ≡ number }
    {
        Predicate { number }
    }

    /// The predicate's number.
    pub fn number(self) -> usize
        ensures { result ≡ self }
    {
        self.number
    }
}

/// What a unification with a symbol builds or splits.
#[derive(Clone, Copy, PartialEq, Eq)]
pub enum Symbol {
    /// A constructor with so many arguments.
    Constructor(Name, usize),
    Integer(i64),
    Text(Name),
}

/// An arithmetic operation: `+`, `-`, `*`, `//`, `div`, `mod` or `rem`.
#[derive(Clone, Copy)]
pub enum Operation {
    Add,
    Subtract,
    Multiply,
    Quotient,
    Div,
    Mod,
    Rem,
}

/// A comparison of integers: `<`, `>`, `=<` or `>=`.
#[derive(Clone, Copy)]
pub enum Comparison {
    Less,
    Greater,
    AtMost,
    AtLeast,
}

/// A goal that holds no others.
#[derive(Drop)]
pub enum SimpleGoal {
    True,
    Fail,
    /// Both variables have one value.
    Same(Var, Var),
    /// The variable has the value of the symbol over the others.
    Shape(Var, Symbol, Vars),
    /// The first variable has the operation's result for the other two.
    Arithmetic(Operation, Var, Var, Var),
    Compare(Comparison, Var, Var),
    /// An exception with the variable's text.
    Raise(Var),
    /// A call of the predicate with these arguments.
    Call(Predicate, Vars),
}
