//! What the order of goals and switches keep of truth.
ghost use Rattle.merc_program_laws.specs.TruthLaws.{BodiesKeepTruth, CallsKeepTruth, QueriesKeepTruth};
ghost use Rattle.merc_program_laws.specs.Switches.{SwitchedCallsKeepTruth, SwitchedGoalsKeepTruth};

/// Ordering keeps truth: at every stage a call is yes, and no, in a program whose goals are ordered exactly where it is in
/// the program in flat form, for each mode that there is. The same of each procedure's body, and of a goal that is asked.
pub fn order_keeps_truth()
    ensures calls { CallsKeepTruth }
    ensures bodies { BodiesKeepTruth }
    ensures queries { QueriesKeepTruth }
{}

/// Switches keep truth: at every stage a call is yes, and no, in a program exactly where it is in the program with its
/// switches. The same of each good goal, where what is bound before it occurs outside it.
///
/// The bodies of procedures and asked goals are good by the laws of `merc_order_laws`.
pub fn switches_keep_truth()
    ensures calls { SwitchedCallsKeepTruth }
    ensures goals { SwitchedGoalsKeepTruth }
{}
