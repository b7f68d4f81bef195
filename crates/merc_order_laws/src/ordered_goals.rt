//! What the parts of ordered goals keep to.
ghost use Rattle.merc_order_laws.specs.TypedTreeLaws.{TreeIsTyped, TypedIsSized};
ghost use Rattle.merc_order_laws.specs.Laws.{
  OrderedEnds,
  OrderedIsGood,
  OrderedKeepsVariables,
  ProcedureBindsHeads,
  ProcedureIsGood,
  ProcedureIsMadeFrom,
  QueryBindsAnswers,
  QueryIsGood,
  QueryIsMadeFrom,
  SpeltEnds,
  SpeltIsGood,
  SpeltIsMadeOf,
  SpeltOutputs,
  SpeltVariables,
};

/// The ordered form of a goal is good: inputs are bound where each goal stands, what it writes is free there, its outputs
/// are what it leaves bound of all that occurs outside it, negations and conditions bind nothing outside, and arms bind
/// the same. The same variables occur in it, and its end can be reached where the goal's can.
///
/// That each call has as many arguments as each mode of its predicate has places comes from the types of the goal, by the law `is_sized`. What
/// occurs outside is what is counted: in a body, its head variables or answer variables, where `total` counts each of
/// these once more.
pub fn ordered_is_good()
    ensures good { OrderedIsGood }
    ensures variables { OrderedKeepsVariables }
    ensures ends { OrderedEnds }
{}

/// A good goal is good with its fresh variables and tests written out. It has the same outputs, its end can be reached
/// where it could before, and of the variables in front of the fresh ones the same occur in it.
///
/// The fresh variables are behind all others where they begin at the first fresh variable of a body.
pub fn spelt_is_good()
    ensures good { SpeltIsGood }
    ensures outputs { SpeltOutputs }
    ensures ends { SpeltEnds }
    ensures variables { SpeltVariables }
{}

/// With fresh variables taken for those that they stand for, each part of an ordered goal that holds no others is a part
/// of the goal as it is written, a unification turned round, or a test of a variable against itself. So whatever holds of
/// the written parts, as their types, holds of the ordered ones.
///
/// The same of the bodies of procedures and of asked goals, where the variables of the written goal and the head variables
/// stand for themselves.
pub fn is_made_of_the_written()
    ensures spelt { SpeltIsMadeOf }
    ensures procedures { ProcedureIsMadeFrom }
    ensures queries { QueryIsMadeFrom }
{}

/// An ordered goal that is made of a typed goal is typed, where each variable has the type of the one that it stands for.
///
/// The bodies of procedures and asked goals are made of the goals as they are written, by the law before.
pub fn is_typed()
    ensures { TreeIsTyped }
{}

/// Each call of a typed goal has as many arguments as each mode of its predicate has places, where each mode has a place
/// for each argument of its predicate.
pub fn is_sized()
    ensures { TypedIsSized }
{}

/// A predicate's body in a mode is good where its head variables occur outside it and the mode's inputs are bound, and
/// each head variable is bound at its end, or the end cannot be reached.
///
/// That each call has as many arguments as each mode of its predicate has places comes from the types of the body, by the law `is_sized`, that
/// the mode has as many as the predicate from their declarations.
pub fn procedure_is_good()
    ensures good { ProcedureIsGood }
    ensures binds_heads { ProcedureBindsHeads }
{}

/// A goal that is asked is good where its answer variables occur outside it and nothing is bound, and each answer variable
/// is bound at its end, or the end cannot be reached.
///
/// That each call has as many arguments as each mode of its predicate has places comes from the types of the goal, by the law `is_sized`.
pub fn query_is_good()
    ensures good { QueryIsGood }
    ensures binds_answers { QueryBindsAnswers }
{}
