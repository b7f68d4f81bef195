//! The category of a goal that joins others, from theirs.
ghost use Rattle.std.specs.Prelude.{◌≡◌, List};
ghost use Rattle.merc_base.specs.declared.category.Category.{Category};
ghost use Rattle.merc_grading.specs.Categories.{arm_category, arms_category, both_most, category, conditional_category, decision_most, greater_most, is_many, is_zero, negation_category, once, or_category, sum_most, switch_category, then_category};

use merc_base::{Category, Most};

/// The category of one goal and then another.
pub fn then_category(first: Category, next: Category) -> Category
    ensures { result ≡ then_category first next }
{
    let can_reach = !is_zero(first.most());
    let can_fail = first.can_fail() || (can_reach && next.can_fail());
    category(can_fail, both_most(first.most(), next.most()))
}

/// The category of one goal or another.
pub fn or_category(one: Category, other: Category) -> Category
    ensures { result ≡ or_category one other }
{
    let can_fail = one.can_fail() && other.can_fail();
    category(can_fail, sum_most(one.most(), other.most()))
}

/// The category of arms of a switch together: of one arm, and of others whose category together is `others`.
pub fn arm_category(arm: Category, others: Category) -> Category
    ensures { result ≡ arm_category arm others }
{
    let can_fail = arm.can_fail() || others.can_fail();
    category(can_fail, greater_most(arm.most(), others.most()))
}

/// The category of a switch whose arms are of this category together. It is complete if each symbol of the type has an arm.
pub fn switch_category(is_complete: bool, arms: Category) -> Category
    ensures { (all : List Category) → arms ≡ arms_category all → result ≡ switch_category is_complete all }
{
    category(!is_complete || arms.can_fail(), arms.most())
}

/// The category of an if-then-else.
pub fn conditional_category(
    condition: Category,
    then_part: Category,
    else_part: Category,
) -> Category
    ensures { result ≡ conditional_category condition then_part else_part }
{
    if !condition.can_fail() {
        return then_category(condition, then_part);
    }
    let can_fail = then_part.can_fail() || else_part.can_fail();
    let most = decision_most(condition.most(), then_part.most(), else_part.most());
    category(can_fail, most)
}

/// The category of the negation of a goal.
pub fn negation_category(inner: Category) -> Category
    ensures { result ≡ negation_category inner }
{
    match inner {
        Category::Erroneous => Category::Erroneous,
        Category::Failure => Category::Det,
        Category::Det | Category::Multi => Category::Failure,
        Category::Semidet | Category::Nondet => Category::Semidet,
    }
}

/// The category of a goal of which one solution is enough.
pub fn once(inner: Category) -> Category
    ensures { result ≡ once inner }
{
    let most = if is_zero(inner.most()) {
        Most::Zero
    } else {
        Most::One
    };
    category(inner.can_fail(), most)
}

// Whether a goal can fail, and its most solutions, as a category.
fn category(can_fail: bool, most: Most) -> Category
    ensures { result ≡ category can_fail most }
{
    match (can_fail, most) {
        (false, Most::Zero) => Category::Erroneous,
        (true, Most::Zero) => Category::Failure,
        (false, Most::One) => Category::Det,
        (true, Most::One) => Category::Semidet,
        (false, Most::Many) => Category::Multi,
        (true, Most::Many) => Category::Nondet,
    }
}

// The most solutions of two goals one after the other.
fn both_most(one: Most, other: Most) -> Most
    ensures { result ≡ both_most one other }
{
    if is_zero(one) || is_zero(other) {
        Most::Zero
    } else if is_many(one) || is_many(other) {
        Most::Many
    } else {
        Most::One
    }
}

// The most solutions of either of two goals.
fn sum_most(one: Most, other: Most) -> Most
    ensures { result ≡ sum_most one other }
{
    match (one, other) {
        (Most::Zero, other) => other,
        (Most::One, Most::Zero) => Most::One,
        (Most::One, Most::One | Most::Many) | (Most::Many, _) => Most::Many,
    }
}

// The greater of two maxima.
fn greater_most(one: Most, other: Most) -> Most
    ensures { result ≡ greater_most one other }
{
    if is_many(one) || is_many(other) {
        Most::Many
    } else if is_zero(one) && is_zero(other) {
        Most::Zero
    } else {
        Most::One
    }
}

// The most solutions of an if-then-else whose condition can fail.
fn decision_most(condition: Most, then_part: Most, else_part: Most) -> Most
    ensures { result ≡ decision_most condition then_part else_part }
{
    if is_zero(else_part) && (is_zero(condition) || is_zero(then_part)) {
        Most::Zero
    } else if is_many(condition) || is_many(then_part) || is_many(else_part) {
        Most::Many
    } else {
        Most::One
    }
}

/// Whether a goal that has at most so many solutions has none.
pub fn is_zero(most: Most) -> bool
    ensures { result ≡ is_zero most }
{
    match most {
        Most::Zero => true,
        Most::One | Most::Many => false,
    }
}

/// Whether a goal that has at most so many solutions can have more than one.
pub fn is_many(most: Most) -> bool
    ensures { result ≡ is_many most }
{
    match most {
        Most::Many => true,
        Most::Zero | Most::One => false,
    }
}
