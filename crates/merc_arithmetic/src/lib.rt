//! What arithmetic gives, and which comparisons hold.
#![tactic(auto)]

ghost use Rattle.std.specs.Prelude.{◌≡◌, ◌-ℤ◌, ◌*ℤ◌};
ghost use Rattle.std.specs.Int.{w64, IsNonZero};
ghost use Rattle.merc_meaning.specs.Arithmetic.{arithmetic, comparison, wrapped, is_rounded_up, rounded_down};
ghost use Rattle.merc_arithmetic.specs.Results.{result_of};

use merc_goal_tree::{Comparison, Operation};

/// The result of an operation on two integers, wrapped round at 64 bits, or `None` where the divisor is 0.
/// `Quotient` truncates, and `Rem` is what it leaves; `Div` rounds down, and `Mod` is what it leaves.
#[inline(always)]
pub fn compute(operation: Operation, left: i64, right: i64) -> Option<i64>
    ensures { arithmetic operation left right ≡ result_of result }
{
    // Most operations are one of these two, which are told from each other without a table of jumps.
    if matches!(operation, Operation::Add | Operation::Subtract) {
        let sum = left.wrapping_add(right);
        let difference = left.wrapping_sub(right);
        Some(if matches!(operation, Operation::Add) {
            sum
        } else {
            difference
        })
    } else {
        compute_other(operation, left, right)
    }
}

// The result of any operation.
#[inline(always)]
#[tactic(auto, using(crate::proofs::Wrapping::multiply_is))]
fn compute_other(operation: Operation, left: i64, right: i64) -> Option<i64>
    ensures { arithmetic operation left right ≡ result_of result }
{
    match operation {
        Operation::Add => Some(left.wrapping_add(right)),
        Operation::Subtract => Some(left.wrapping_sub(right)),
        Operation::Multiply => Some(left.wrapping_mul(right)),
        _ if right == 0 => None,
        Operation::Quotient => Some(left.wrapping_div(right)),
        Operation::Rem => Some(left.wrapping_rem(right)),
        Operation::Div => Some(div(left, right)),
        Operation::Mod => Some(modulo(left, right)),
    }
}

/// Whether a comparison of two integers holds.
#[inline(always)]
pub fn holds(test: Comparison, left: i64, right: i64) -> bool
    ensures { result ≡ comparison test left right }
{
    // The integers are compared first and the comparison is looked at behind that, for which no table of jumps is needed.
    if left < right {
        matches!(test, Comparison::Less | Comparison::AtMost)
    } else if left == right {
        matches!(test, Comparison::AtMost | Comparison::AtLeast)
    } else {
        matches!(test, Comparison::Greater | Comparison::AtLeast)
    }
}

// The quotient, rounded down.
#[inline(never)]
fn div(left: i64, right: i64) -> i64
    requires { IsNonZero w64 right }
    ensures { result ≡ wrapped (rounded_down left right) }
{
    let quotient = left.wrapping_div(right);
    if is_rounded_up(left, right) {
        quotient.wrapping_sub(1)
    } else {
        quotient
    }
}

// What the quotient, rounded down, leaves.
#[inline(never)]
fn modulo(left: i64, right: i64) -> i64
    requires { IsNonZero w64 right }
    ensures { result ≡ wrapped (left -ℤ (rounded_down left right *ℤ right)) }
{
    let remainder = left.wrapping_rem(right);
    if is_rounded_up(left, right) {
        remainder.wrapping_add(right)
    } else {
        remainder
    }
}

// Whether truncation rounds the quotient up.
fn is_rounded_up(left: i64, right: i64) -> bool
    requires { IsNonZero w64 right }
    ensures { result ≡ is_rounded_up left right }
{
    let remainder = left.wrapping_rem(right);
    remainder != 0 && (remainder < 0) != (right < 0)
}
