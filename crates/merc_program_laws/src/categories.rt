//! What the traces of a good program keep to.
ghost use Rattle.merc_program_laws.specs.CategoryLaws.{CategoryLaw, ErroneousLaw, QueryCategoryLaw, QueryTypeLaw, TypeLaw};

/// The trace of each call of a good program, from inputs of their types and at every depth of calls, has no more answers
/// than the category of its mode allows: none where its maximum is 0, at most one where that is 1. Where it ends Done it
/// has at least one, unless the category can fail. So a call that is declared `erroneous` never ends Done.
///
/// At each answer all arguments have values of their types, where the type variables stand for the same types as before,
/// and inputs have kept theirs.
pub fn calls_keep_to_categories()
    ensures category { CategoryLaw }
    ensures erroneous { ErroneousLaw }
    ensures types { TypeLaw }
{}

/// The trace of a good goal that is asked over a good program keeps to the goal's category in the same way, at every depth
/// of calls, and each answer gives all answer variables values of their types.
pub fn queries_keep_to_categories()
    ensures category { QueryCategoryLaw }
    ensures types { QueryTypeLaw }
{}
