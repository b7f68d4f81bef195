//! What the answers of a good program say of truth.
ghost use Rattle.merc_program_laws.specs.AnswerLaws.{AnswersLaw, OthersLaw, RunAnswersLaw, RunOthersLaw, WholeAnswersLaw};

/// The answers of each call of a good program, from inputs of their types, are its truth. An answer of its trace up to a
/// depth of calls is yes, at the stage of that number and at each later one. Where the trace ends Done, every assignment
/// with these inputs that is no instance of an answer is no at the same stages. Assignments range over all values, of
/// whatever type.
pub fn calls_answer_truly()
    ensures answers { AnswersLaw }
    ensures others { OthersLaw }
{}

/// The same of each good goal that is asked over a good program. Each answer of its run gives all answer variables values
/// with which the goal is yes. Where the run ends freely, with all other values of these variables the goal is no. Both
/// hold at each stage that is greater than the run's limit.
pub fn runs_answer_truly()
    ensures whole { WholeAnswersLaw }
    ensures answers { RunAnswersLaw }
    ensures others { RunOthersLaw }
{}
