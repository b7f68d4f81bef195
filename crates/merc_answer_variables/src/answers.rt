//! The answer variables of a goal.
ghost use Rattle.std.specs.Prelude.{◌≡◌, IfOk};
ghost use Rattle.merc_answer_variables.specs.AnswerVariables.{answer_variables};

use crate::reader::Reader;
use merc_base::{Names, NoMemory};
use merc_goals::WrittenGoal;
use merc_scopes::Occurrence;
use std::alloc::Global;

/// The variables of a goal whose values are its answers, each where it first stands, in the order of the text: those
/// whose name does not begin with `_` and that occur outside every quantifier over them. A variable whose occurrences all
/// lie in one negated goal is none, nor one whose occurrences all lie in the condition and the then part of one
/// if-then-else with at least one in the condition.
///
/// With n occurrences of variables this takes time of the order of n (log n)².
///
/// # Errors
///
/// `NoMemory` where memory was refused.
pub fn answer_variables(
    alloc: Global,
    goal: &WrittenGoal<'_>,
    names: &Names,
) -> Result<Vec<Occurrence>, NoMemory>
    ensures { IfOk result (λ found. found.items ≡ answer_variables names.now goal.now) }
{
    let mut reader = Reader::new(alloc);
    let mut rest = goal.entries();
    while let [before @ .., entry] = rest {
        reader.read(alloc, names, entry)?;
        rest = before;
    }
    reader.answers(alloc, names)
}
