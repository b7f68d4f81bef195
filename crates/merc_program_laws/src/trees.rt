//! What trees keep when they are given their switches, and then their categories.
ghost use Rattle.merc_program_laws.specs.ProgramLaws.{ProcedureIsOrdered, ProgramBecomesGood, QueryIsOrdered};
ghost use Rattle.merc_program_laws.specs.TreeLaws.{
  FoundEnds,
  FoundHasGuards,
  FoundHasLiterals,
  FoundIsGood,
  FoundIsTyped,
  FoundOutputs,
  FoundVariables,
  GradedEnds,
  GradedHasGuards,
  GradedHasLiterals,
  GradedIsGood,
  GradedIsTyped,
  GradedOutputs,
  GradedVariables,
  ProcedureBecomesGood,
  QueryBecomesGood,
  SpeltHasGuards,
};

/// A goal with its switches is good where the goal is: what each part writes is free before it and what it reads is bound,
/// and outputs are what is new and occurs outside. It has the same outputs and variables, and its end can be reached where
/// the goal's can.
pub fn switches_keep_goals_good()
    ensures good { FoundIsGood }
    ensures ends { FoundEnds }
    ensures outputs { FoundOutputs }
    ensures variables { FoundVariables }
{}

/// The arms of each switch that is found have different symbols, and each fails where the variable has another symbol than
/// its own.
pub fn switches_are_guarded()
    ensures found { FoundHasGuards }
    ensures ordered { SpeltHasGuards }
{}

/// Goals that hold no others are the same with switches: they are typed, and literals have no arguments.
pub fn switches_keep_types()
    ensures typed { FoundIsTyped }
    ensures literals { FoundHasLiterals }
{}

/// A goal with its categories keeps all of this.
pub fn categories_keep_goals_good()
    ensures good { GradedIsGood }
    ensures ends { GradedEnds }
    ensures outputs { GradedOutputs }
    ensures variables { GradedVariables }
    ensures guarded { GradedHasGuards }
    ensures typed { GradedIsTyped }
    ensures literals { GradedHasLiterals }
{}

/// An ordered body becomes a good procedure with its switches and categories, where the declared category allows the one
/// that it is given. A goal that is asked becomes a good one.
pub fn ordered_bodies_become_good()
    ensures procedure { ProcedureBecomesGood }
    ensures query { QueryBecomesGood }
{}

/// The order of a typed goal is such a body, of a predicate in a mode or of a goal that is asked: there are types for the
/// fresh variables that it was given.
pub fn orders_are_bodies()
    ensures procedure { ProcedureIsOrdered }
    ensures query { QueryIsOrdered }
{}

/// A module whose types are good, whose procedures have ordered bodies and no fault of categories is a good program, if the
/// categories that library units declare allow those of their bodies.
pub fn modules_become_good()
    ensures { ProgramBecomesGood }
{}
