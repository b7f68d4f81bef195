//! What holds of the clauses and the types of a module that a text is, and that it becomes a good program.
ghost use Rattle.merc_program_laws.specs.TextLaws.{
  BodyHasLiterals,
  ClauseHasLiterals,
  ModuleHasGoodTypes,
  ModuleHasLiterals,
  ModuleHasWords,
  ModuleIsScoped,
  QueryHasLiterals,
};
ghost use Rattle.merc_program_laws.specs.ModuleLaws.{AskedBecomesGood, ModuleBecomesGood};

/// In the flat forms of a module's clauses, in the bodies of its predicates and in a goal that is asked, integers have 64
/// bits, and integers and texts have no arguments.
pub fn literals_are_as_written()
    ensures words { ModuleHasWords }
    ensures clauses { ClauseHasLiterals }
    ensures bodies { BodyHasLiterals }
    ensures predicates { ModuleHasLiterals }
    ensures query { QueryHasLiterals }
{}

/// The types of a module are told apart, and their constructors mention none but their types' parameters.
pub fn types_are_good()
    ensures scoped { ModuleIsScoped }
    ensures good { ModuleHasGoodTypes }
{}

/// A module without faults becomes a good program, if the categories that library units declare allow those of their
/// bodies; and a goal that is asked becomes a good one.
pub fn modules_become_good()
    ensures program { ModuleBecomesGood }
    ensures query { AskedBecomesGood }
{}
