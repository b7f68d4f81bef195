//! When symbols in ordered goals fit the types of their variables.
ghost use Rattle.merc_order_laws.specs.Existence.{AskedBodyIsThere, BodiesAreThere, ModuleModesFit};
ghost use Rattle.merc_order_laws.specs.Fitting.{FoundFits, SpeltHasNoSwitch, TypedFits, TypesAreToldApart};

/// Where an ordered goal without switches is typed, its symbols fit the types of their variables: the declared type of a
/// variable's name and number of parameters is the one that has the constructor. The types of a module are told apart so.
pub fn typed_goals_fit()
    ensures spelt { SpeltHasNoSwitch }
    ensures fits { TypedFits }
    ensures apart { TypesAreToldApart }
{}

/// They fit as well once switches are found.
pub fn found_goals_fit()
    ensures { FoundFits }
{}

/// Each procedure of a module has a body with types, where each of its clauses is typed and no procedure has a fault of
/// order; and so has a goal that is asked.
pub fn bodies_are_there()
    ensures modes { ModuleModesFit }
    ensures procedures { BodiesAreThere }
    ensures asked { AskedBodyIsThere }
{}
