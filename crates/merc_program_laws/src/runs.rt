//! What holds of the runs of accepted modules and goals.
ghost use Rattle.merc_program_laws.specs.AcceptedLaws.{CallsAnswerInTypes, CallsAnswerTruly, CallsKeepToCategories, RunsAnswerInTypes, RunsAnswerTruly};
ghost use Rattle.merc_program_laws.specs.KeptTruth.{AcceptedCallsKeepTruth, AcceptedGoalsKeepTruth};

/// Each call of a procedure of an accepted module, from inputs of their types, has no more answers than the category of
/// its mode allows, and no fewer where it ends; each gives all arguments values of their types; each is true, and where the
/// call ends with no exception nothing else is.
///
/// The trees that are kept of the procedures are bodies with their categories, and over these bodies, which have an order
/// and switches, a call is yes, and no, exactly where it is over the clauses in flat form.
pub fn accepted_calls_keep()
    ensures categories { CallsKeepToCategories }
    ensures types { CallsAnswerInTypes }
    ensures truth { CallsAnswerTruly }
    ensures keeps_truth { AcceptedCallsKeepTruth }
{}

/// Each answer of the run of an accepted goal over an accepted module gives all answer variables values of their types, and
/// is true; and where the run ends freely the goal is true with no other values.
///
/// The goal that is asked keeps its truth in the same way, from its flat form over the clauses to its body over theirs.
pub fn accepted_goals_keep()
    ensures types { RunsAnswerInTypes }
    ensures truth { RunsAnswerTruly }
    ensures keeps_truth { AcceptedGoalsKeepTruth }
{}
