//! Laws of the categories of library units: those that they declare allow those that are inferred, so that an accepted
//! module becomes a good program.
ghost use Rattle.merc_program_laws.specs.AllowedUnits.{UnitsAreAllowed};
ghost use Rattle.merc_program_laws.specs.GoodModules.{AcceptedBecomesGood, AcceptedGoalBecomesGood};

/// The category that a predicate of a library unit declares for a mode allows the one that is inferred of its body, in
/// any module that imports the unit.
pub fn units_are_allowed()
    ensures { UnitsAreAllowed }
{}

/// A text that is accepted as a module becomes a good program, and one that is accepted as a goal over it a good one.
pub fn accepted_texts_become_good()
    ensures program { AcceptedBecomesGood }
    ensures query { AcceptedGoalBecomesGood }
{}
