//! Variables in the order of a goal's outputs.
ghost use Rattle.std.specs.Prelude.{◌≡◌, ◌<◌, ℕ, nat_eq, length, get_or, filter, IfOk};
ghost use Rattle.std.specs.List.{IsDistinct};
ghost use Rattle.merc_order.specs.Bound.{among};
ghost use Rattle.merc_switch.specs.Ordering.{is_kept};

use merc_base::NoMemory;
use merc_goal_tree::{Var, Vars};
use merc_switch_choice::VarSet;
use std::alloc::Global;
use std::collections::BTreeSet;

/// Those of the outputs that are among the variables.
///
/// # Errors
///
/// `NoMemory` where memory was refused, here and in the calls below.
pub(crate) fn those_among(
    alloc: Global,
    outputs: &[Var],
    variables: &VarSet,
) -> Result<Vars, NoMemory>
    ensures { IfOk result (λ kept. kept ≡ filter (λ output. among variables.now output) outputs.now) }
{
    let mut kept = Vars::new(alloc);
    for output in outputs {
        if variables.contains(*output) {
            kept.push(*output)?;
        }
    }
    Ok(kept)
}

/// Those of the outputs that are among the variables, in the order of the outputs, each of which is there once. Only the
/// variables are gone through.
pub(crate) fn in_order(
    alloc: Global,
    variables: &VarSet,
    outputs: &VarSet,
) -> Result<Vars, NoMemory>
    ensures { IfOk result (λ kept. kept ≡ filter (λ output. among variables.now output) outputs.now) }
{
    let numbers = outputs.numbers();
    let mut places = places_of(alloc, variables, outputs)?;
    let mut kept = Vars::new(alloc);
    while let Some(place) = places.pop_first() {
        kept.push(variable_at(numbers, place))?;
    }
    Ok(kept)
}

// The variable at a place.
fn variable_at(numbers: &[usize], place: usize) -> Var
    requires { place < length numbers.now }
    ensures { result ≡ get_or numbers.now place 0 }
{
    Var::new(numbers[place])
}

// The places of those of the outputs that are among the variables.
fn places_of(
    alloc: Global,
    variables: &VarSet,
    outputs: &VarSet,
) -> Result<BTreeSet<usize>, NoMemory>
    requires { IsDistinct nat_eq outputs.now }
    ensures { IfOk result (λ places. (place : ℕ) → among places.keys place ≡ is_kept variables.now outputs.now place) }
{
    let mut places = BTreeSet::new(alloc);
    for number in variables.numbers() {
        if let Some(place) = outputs.place(Var::new(*number)) {
            places.insert(place)?;
        }
    }
    Ok(places)
}
