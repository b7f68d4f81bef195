//! The code of whole programs.
ghost use Rattle.std.specs.Prelude.{◌≡◌};

use crate::Instruction;
use merc_base::Sequence;
use merc_goal_tree::Vars;
use merc_tree::Args;
use std::marker::Model;

/// The code of a procedure, with how it has each argument. The arguments are the first variables.
#[derive(Drop)]
pub struct CompiledProcedure {
    pub places: Args,
    pub code: Sequence<Instruction>,
}

/// The code of a conjunct that is forked, with the variables that it uses. It begins with their values.
#[derive(Drop)]
pub struct CompiledConjunct {
    pub used: Vars,
    pub code: Sequence<Instruction>,
}

/// The code of a whole program, and of a goal that is asked over it.
#[derive(Drop)]
pub struct Code {
    procedures: Sequence<Sequence<CompiledProcedure>>,
    conjuncts: Sequence<Sequence<CompiledConjunct>>,
    query: Sequence<Instruction>,
}

/// What the code of a whole program consists of.
#[derive(Drop)]
pub struct CodeParts {
    /// Of each predicate in each of its modes, both by number.
    pub procedures: Sequence<Sequence<CompiledProcedure>>,
    /// Of each site, by its number.
    pub conjuncts: Sequence<Sequence<CompiledConjunct>>,
    pub query: Sequence<Instruction>,
}

impl Model for Code {
    ghost use Rattle.merc_code.specs.ProgramCode.{ProgramCode};

    ghost Value = { ProgramCode };

    ghost view = { λ c. record { procedures = c.procedures; conjuncts = c.conjuncts; query = c.query } };
}

impl Code {
    /// The code of these procedures, of each predicate in each of its modes, both by number, of the conjuncts of each site by
    /// its number, and of this goal.
    pub fn new(
        procedures: Sequence<Sequence<CompiledProcedure>>,
        conjuncts: Sequence<Sequence<CompiledConjunct>>,
        query: Sequence<Instruction>,
    ) -> Code
        ensures procedures { result.procedures ≡ procedures }
        ensures conjuncts { result.conjuncts ≡ conjuncts }
        ensures query { result.query ≡ query }
    {
        Code {
            procedures,
            conjuncts,
            query,
        }
    }

    /// The procedures of each predicate in each of its modes, both by number.
    pub fn procedures(&self) -> &[Sequence<CompiledProcedure>]
        ensures { result.now ≡ self.now.procedures }
    {
        self.procedures.as_slice()
    }

    /// The conjuncts of each site, by its number.
    pub fn conjuncts(&self) -> &[Sequence<CompiledConjunct>]
        ensures { result.now ≡ self.now.conjuncts }
    {
        self.conjuncts.as_slice()
    }

    /// The goal's code.
    pub fn query(&self) -> &[Instruction]
        ensures { result.now ≡ self.now.query }
    {
        self.query.as_slice()
    }

    /// What the code consists of. It takes no memory.
    pub fn into_parts(self) -> CodeParts
        ensures procedures { result.procedures ≡ self.procedures }
        ensures conjuncts { result.conjuncts ≡ self.conjuncts }
        ensures query { result.query ≡ self.query }
    {
        CodeParts {
            procedures: self.procedures,
            conjuncts: self.conjuncts,
            query: self.query,
        }
    }
}
