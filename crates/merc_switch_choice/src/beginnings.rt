//! What goals begin with.
ghost use Rattle.std.specs.Prelude.{◌≡◌, ◌++◌, [], IfOk, OnOk};
ghost use Rattle.merc_grading.specs.Switches.{beginning, basic_beginning};
ghost use Rattle.merc_switch_choice.specs.Beginnings.{Begins, left_with};

use merc_base::NoMemory;
use merc_goal_tree::{Symbol, Var};
use merc_graded_tree::{BasicGoal, NodeRef, NodeView, Parts, Running, push_all};
use std::alloc::Global;

/// The splits with which a goal begins.
///
/// # Errors
///
/// `NoMemory` where memory was refused, here and in the calls below.
pub(crate) fn splits_of(alloc: Global, goal: &NodeRef<'_>) -> Result<Vec<(Var, Symbol)>, NoMemory>
    ensures { IfOk result (λ splits. splits.items ≡ (beginning goal.now).splits) }
{
    let mut splits = Vec::new(alloc);
    let mut rest = Vec::new(alloc);
    let done = put_splits(goal, &mut rest, &mut splits);
    // (a call, since it costs much to prove what is dropped here)
    drop(rest);
    done.and(Ok(splits))
}

// Puts the splits with which a goal begins into an empty list. `rest` is room to work in, empty before and after.
fn put_splits<'a>(
    goal: &NodeRef<'a>,
    rest: &mut Vec<NodeRef<'a>>,
    splits: &mut Vec<(Var, Symbol)>,
) -> Result<(), NoMemory>
    requires rest { rest.old.items ≡ [] }
    requires splits { splits.old.items ≡ [] }
    ensures { OnOk result (splits.new.items ≡ (beginning goal.now).splits) }
{
    rest.push(goal.copy())?;
    while let Some(next) = rest.pop() {
        begin(&next, rest, splits)?;
    }
    Ok(())
}

// Goes on with the next goal: puts its split behind the others, or its goals before the rest, of which the last comes
// first. Where the beginning ends nothing is left.
fn begin<'a>(
    next: &NodeRef<'a>,
    rest: &mut Vec<NodeRef<'a>>,
    splits: &mut Vec<(Var, Symbol)>,
) -> Result<(), NoMemory>
    ensures { OnOk result (Begins next.now rest.old.items splits.old.items rest.new.items splits.new.items) }
{
    match next.view() {
        NodeView::Basic(goal) => {
            if !begin_basic(goal, splits)? {
                rest.clear();
            }
            Ok(())
        }
        NodeView::Conjunction(running, goals) => begin_conjunction(running, goals, rest),
        _ => {
            rest.clear();
            Ok(())
        }
    }
}

// Puts the splits of a goal that holds no others behind the others. Whether it is a unification.
fn begin_basic(goal: &BasicGoal, splits: &mut Vec<(Var, Symbol)>) -> Result<bool, NoMemory>
    ensures splits { OnOk result (splits.new.items ≡ splits.old.items ++ (basic_beginning goal.now).splits) }
    ensures goes_on { IfOk result (λ goes_on. goes_on ≡ (basic_beginning goal.now).goes_on) }
{
    match goal {
        BasicGoal::Assign(_, _) | BasicGoal::Test(_, _) | BasicGoal::Build(_, _, _) => Ok(true),
        BasicGoal::Split(variable, symbol, _) => {
            splits.push((*variable, *symbol))?;
            Ok(true)
        }
        _ => Ok(false),
    }
}

// Puts the goals of a conjunction before the rest, if they run one after the other; else nothing is left.
fn begin_conjunction<'a>(
    running: Running,
    goals: Parts<'a>,
    rest: &mut Vec<NodeRef<'a>>,
) -> Result<(), NoMemory>
    ensures { OnOk result (rest.new.items ≡ left_with running goals.entry rest.old.items) }
{
    match running {
        Running::Sequential => push_all(goals, rest),
        Running::Parallel(_) => {
            rest.clear();
            Ok(())
        }
    }
}
