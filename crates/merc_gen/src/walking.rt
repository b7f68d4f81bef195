//! Goals whose parts are looked at one after the other.
ghost use Rattle.std.specs.Prelude.{◌≡◌, ◌++◌, reverse, OnOk};
ghost use Rattle.merc_graded_tree.specs.Roots.{goals_of};

use crate::arms::with_symbols;
use merc_base::NoMemory;
use merc_graded_tree::{NodeRef, NodeView, push_all};

/// Puts the goals that a goal joins behind the others, from the last to the first.
///
/// # Errors
///
/// `NoMemory` where memory was refused.
pub(crate) fn push_parts<'a>(
    goal: &NodeRef<'a>,
    left: &mut Vec<NodeRef<'a>>,
) -> Result<(), NoMemory>
    ensures { OnOk result (left.new.items ≡ left.old.items ++ reverse (goals_of goal.now)) }
{
    match goal.view() {
        NodeView::Basic(_) => Ok(()),
        NodeView::Conjunction(_, goals) => push_all(goals, left),
        NodeView::Disjunction(goals) => push_all(goals, left),
        NodeView::Switch(_, symbols, arms) => {
            push_all(with_symbols(arms, symbols.as_slice().len()), left)
        }
        NodeView::Conditional(condition, then_part, else_part) => {
            left.push(else_part)?;
            left.push(then_part)?;
            left.push(condition)?;
            Ok(())
        }
        NodeView::Negation(inner) => {
            left.push(inner)?;
            Ok(())
        }
        NodeView::Quantified(_, inner) => {
            left.push(inner)?;
            Ok(())
        }
    }
}
