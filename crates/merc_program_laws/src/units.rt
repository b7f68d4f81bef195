//! Laws of the procedures of library units: each of them can be ordered, and none has a fault of categories.
ghost use Rattle.merc_program_laws.specs.UnitCategories.{TellsFileCategory, UnitsHaveNoCategoryFault};
ghost use Rattle.merc_program_laws.specs.UnitProcedures.{TellsFileOrder, UnitsAreOrdered};

/// The predicates of the library units that a module imports can be ordered in each of their modes.
pub fn units_are_ordered()
    ensures { UnitsAreOrdered }
{}

/// So what is told of the procedures of a module is a fault of the modes of a predicate of its file.
pub fn tells_file_order()
    ensures { TellsFileOrder }
{}

/// The procedures of the library units that a module imports have no fault of categories: those that they declare are
/// taken as they are, and their bodies have no parallel conjunction.
pub fn units_have_no_category_fault()
    ensures { UnitsHaveNoCategoryFault }
{}

/// So what is told of the categories of a module is a fault of a procedure of its file.
pub fn tells_file_category()
    ensures { TellsFileCategory }
{}
