//! The arms of a switch that have symbols.
ghost use Rattle.std.specs.Prelude.{◌≡◌, ◌≤◌, List, length};
ghost use Rattle.merc_goal_tree.specs.declared.goal.Symbol.{Symbol};
ghost use Rattle.merc_graded_tree.specs.Roots.{arms_of};

use merc_graded_tree::Parts;

/// The arms that have symbols, where there are so many symbols.
pub(crate) fn with_symbols<'a>(arms: Parts<'a>, count: usize) -> Parts<'a>
    ensures short { length result ≤ count }
    ensures same { (symbols : List Symbol) → length symbols ≡ count → arms_of symbols result ≡ arms_of symbols arms.entry }
{
    let mut left = arms;
    while left.len() > count {
        left.take_last();
    }
    left
}
