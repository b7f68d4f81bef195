//! Laws of the faults of clauses: which fault of a module's clauses is told.
ghost use Rattle.merc_program_laws.specs.ClauseFaults.{TellsFirstFault};
ghost use Rattle.merc_program_laws.specs.UnitClauses.{TellsFileFault, UnitsAreFaultless};

/// Of all faults of a file's clauses the one that is told comes first. Where there is none, what is told is the first
/// fault of the order of the procedures' goals or, where each has an order, the first fault of their categories.
pub fn tells_first_fault()
    ensures { TellsFirstFault }
{}

/// The clauses of the library units that a module imports have a form, keep the limits, name what is there and are typed.
pub fn units_are_faultless()
    ensures { UnitsAreFaultless }
{}

/// So what is told of the clauses of a module is a fault of a clause of its file, or one of its procedures: of their order
/// or of their categories.
pub fn tells_file_fault()
    ensures { TellsFileFault }
{}
