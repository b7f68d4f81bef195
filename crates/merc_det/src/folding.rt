//! The category of goals that are joined, from theirs.
ghost use Rattle.std.specs.Prelude.{◌≡◌, ◌≤◌, List, [], ◌∷◌, drop, length, slice_get};
ghost use Rattle.merc_base.specs.declared.category.Category.{Category};
ghost use Rattle.merc_grading.specs.Grading.{categories, given};
ghost use Rattle.merc_det.specs.Folding.{category_in, joined_category};

use merc_base::Category;
use merc_graded_tree::Nodes;
use merc_grading::categories::{arm_category, or_category, then_category};

/// How goals are joined.
#[derive(Clone, Copy)]
pub(crate) enum Joint {
    /// They go one after the other.
    InTurn,
    /// They are to choose from.
    Choice,
    /// They are the arms of a switch.
    Arms,
}

/// The category of the goals from an index on, which are joined so, from theirs.
pub(crate) fn joined_category(joint: Joint, graded: &Nodes, start: usize) -> Category
    requires { start ≤ length graded.now }
    ensures { result ≡ joined_category joint (categories (drop start graded.now)) }
{
    let mut category = none_joined(joint);
    let mut index = graded.len();
    while start < index {
        index -= 1;
        category = one_more_joined(joint, category_at(graded, index), category);
    }
    category
}

/// The category of the goal at an index.
pub(crate) fn category_at(graded: &Nodes, index: usize) -> Category
    ensures { result ≡ category_in (slice_get graded.now index) }
{
    match graded.get(index) {
        Some(goal) => given(goal.category()),
        None => Category::Nondet,
    }
}

/// The category that a goal has, where it has one.
pub(crate) fn given(category: Option<Category>) -> Category
    ensures { result ≡ given category }
{
    match category {
        Some(category) => category,
        None => Category::Nondet,
    }
}

fn none_joined(joint: Joint) -> Category
    ensures { result ≡ joined_category joint [] }
{
    match joint {
        Joint::InTurn => Category::Det,
        Joint::Choice => Category::Failure,
        Joint::Arms => Category::Erroneous,
    }
}

// One goal in front of others, which are of this category together.
fn one_more_joined(joint: Joint, first: Category, rest: Category) -> Category
    ensures { (others : List Category) → rest ≡ joined_category joint others → result ≡ joined_category joint (first ∷ others) }
{
    match joint {
        Joint::InTurn => then_category(first, rest),
        Joint::Choice => or_category(first, rest),
        Joint::Arms => arm_category(first, rest),
    }
}
