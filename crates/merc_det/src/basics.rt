//! Goals that hold no others.
ghost use Rattle.std.specs.Prelude.{◌≡◌, ℕ, slice_get, OnOk};
ghost use Rattle.merc_tree.specs.Types.{TypeExpr};
ghost use Rattle.merc_order.specs.Procedures.{modes_of};
ghost use Rattle.merc_grading.specs.Fitting.{fellows, FitsBasic};
ghost use Rattle.merc_grading.specs.Grading.{basic_category, declared_in, split_category};
ghost use Rattle.merc_grading.specs.Known.{is_single, known_behind_basic, known_of};

use crate::seen::SeenSymbols;
use crate::symbols::{is_single, same_symbol};
use merc_base::{Category, NoMemory};
use merc_goal_tree::{Symbol, Var};
use merc_graded_tree::{BasicGoal, Procedure};
use merc_name_resolution::Known;

/// The category of a goal that holds no others, from what is known before it.
pub(crate) fn basic_category(known: &Known<'_>, seen: &SeenSymbols, goal: &BasicGoal) -> Category
    ensures { (types : ℕ → TypeExpr) → FitsBasic known.now.types types goal.now → result ≡ basic_category known.now.types (modes_of known.now.preds) types seen.now goal.now }
{
    match goal {
        BasicGoal::True
        | BasicGoal::Assign(_, _)
        | BasicGoal::Build(_, _, _)
        | BasicGoal::Arithmetic(_, _, _, _)
        | BasicGoal::Wait(_, _)
        | BasicGoal::Signal(_, _) => Category::Det,
        BasicGoal::Fail => Category::Failure,
        BasicGoal::Test(_, _) | BasicGoal::Compare(_, _, _) => Category::Semidet,
        BasicGoal::Split(whole, symbol, _) => split_category(known, seen, *whole, *symbol),
        BasicGoal::Raise(_) => Category::Erroneous,
        BasicGoal::Call(procedure, _) => declared_category(known, *procedure),
    }
}

/// What a goal that holds no others tells of its variables is known from now on.
///
/// # Errors
///
/// `NoMemory` where memory was refused.
pub(crate) fn learn_from(goal: &BasicGoal, seen: &mut SeenSymbols) -> Result<(), NoMemory>
    ensures { OnOk result (seen.new ≡ known_behind_basic goal.now seen.old) }
{
    match goal {
        BasicGoal::Assign(to, from) => match seen.symbol_of(*from) {
            Some(symbol) => seen.learn(*to, symbol),
            None => Ok(()),
        },
        BasicGoal::Build(whole, symbol, _) | BasicGoal::Split(whole, symbol, _) => {
            seen.learn(*whole, *symbol)
        }
        BasicGoal::True
        | BasicGoal::Fail
        | BasicGoal::Test(_, _)
        | BasicGoal::Arithmetic(_, _, _, _)
        | BasicGoal::Compare(_, _, _)
        | BasicGoal::Raise(_)
        | BasicGoal::Call(_, _)
        | BasicGoal::Wait(_, _)
        | BasicGoal::Signal(_, _) => Ok(()),
    }
}

// A split of a variable by a symbol.
fn split_category(known: &Known<'_>, seen: &SeenSymbols, whole: Var, symbol: Symbol) -> Category
    ensures { result ≡ split_category (is_single (fellows known.now.types symbol)) symbol (known_of seen.now whole) }
{
    match seen.symbol_of(whole) {
        Some(other) => {
            if same_symbol(symbol, other) {
                Category::Det
            } else {
                Category::Failure
            }
        }
        None => {
            if is_single(known, symbol) {
                Category::Det
            } else {
                Category::Semidet
            }
        }
    }
}

// The category that a procedure's mode has declared.
fn declared_category(known: &Known<'_>, procedure: Procedure) -> Category
    ensures { result ≡ declared_in (slice_get (modes_of known.now.preds procedure.predicate) procedure.mode) }
{
    match known.predicate(procedure.predicate.number()) {
        Some(declared) => match declared.modes.as_slice().get(procedure.mode) {
            Some(mode) => mode.category,
            None => Category::Nondet,
        },
        None => Category::Nondet,
    }
}
