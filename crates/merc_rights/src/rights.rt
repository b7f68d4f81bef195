//! Rights of parallel conjuncts to wait for values and to signal them.
use merc_goal_tree::Var;
use std::marker::Model;

/// A right to wait for a variable's value, or to signal it: to the conjunct of this number, or to the goals behind the
/// `&`, where it is 0.
#[derive(Clone, Copy)]
pub struct Right {
    pub variable: Var,
    pub conjunct: usize,
}

impl Model for Right {
    ghost use Rattle.merc_rights.specs.Rights.{Right as MeantRight};

    ghost Value = { MeantRight };

    ghost view = { λ r. record { variable = r.variable; conjunct = r.conjunct } };

    ghost inverse = { λ r. record { variable = r.variable; conjunct = r.conjunct } };
}

/// A right to wait, and whether the variable is also used behind the goal that has it, on the way through it.
#[derive(Clone, Copy)]
pub struct Awaited {
    pub right: Right,
    pub later: bool,
}
