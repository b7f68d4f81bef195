//! The variables on which disjuncts can be a switch.
ghost use Rattle.std.specs.Prelude.{◌≡◌, ℕ, ◌&&◌, [], List, IfOk, OnOk};
ghost use Rattle.merc_tree.specs.declared.declarations.TypeDef.{TypeDef};
ghost use Rattle.merc_order.specs.Bound.{among};
ghost use Rattle.merc_switch_choice.specs.Choosing.{is_open, AreLeft, Takes};

use crate::counted::Disjuncts;
use crate::covering::is_covered;
use crate::ordered::OrderedVars;
use crate::variables::VarSet;
use merc_base::NoMemory;
use merc_goal_tree::Var;
use merc_name_resolution::Known;
use std::alloc::Global;

/// The variables on which disjuncts can still be a switch. They can be one on a variable that is bound, none of those that
/// were used, and split by each of them at its beginning.
#[derive(Drop)]
pub struct Candidates {
    // Those of which it is not yet known whether their symbols are all of the type. That is looked at only once they are
    // the least.
    untried: OrderedVars,
    // those whose symbols are not all of the type
    uncovered: OrderedVars,
}

impl Candidates {
    /// Those of the disjuncts. They are looked for among the variables that one of the disjuncts splits.
    ///
    /// # Errors
    ///
    /// `NoMemory` where memory was refused, here and in the calls below.
    pub fn of(
        alloc: Global,
        bound: &VarSet,
        used: &VarSet,
        disjuncts: &Disjuncts<'_>,
    ) -> Result<Candidates, NoMemory>
        ensures { IfOk result (λ left. (declared : List TypeDef) → AreLeft declared (among bound.now) used.now disjuncts.now left.untried left.uncovered) }
    {
        let untried = match disjuncts.as_slice().get(disjuncts.fewest()) {
            Some(fewest) => open_among(alloc, bound, used, disjuncts, fewest.variables())?,
            None => OrderedVars::new(alloc),
        };
        Ok(Candidates {
            untried,
            uncovered: OrderedVars::new(alloc),
        })
    }

    /// Takes out the variable on which the disjuncts are a switch, none where they are none.
    pub fn next(
        &mut self,
        alloc: Global,
        known: &Known<'_>,
        disjuncts: &mut Disjuncts<'_>,
    ) -> Result<Option<Var>, NoMemory>
        ensures choice { IfOk result (λ choice. Takes known.now.types disjuncts.old self.old self.new choice) }
        ensures disjuncts { disjuncts.new ≡ disjuncts.old }
    {
        while let Some(variable) = self.untried.pop_least() {
            if is_covered(alloc, known, disjuncts, variable)? {
                return Ok(Some(variable));
            }
            self.uncovered.add(variable)?;
        }
        Ok(self.uncovered.pop_least())
    }
}

// Those of the variables of these numbers on which disjuncts can be a switch.
fn open_among(
    alloc: Global,
    bound: &VarSet,
    used: &VarSet,
    disjuncts: &Disjuncts<'_>,
    numbers: &[usize],
) -> Result<OrderedVars, NoMemory>
    ensures { IfOk result (λ opened. (variable : ℕ) → among opened variable ≡ (is_open (among bound.now) used.now disjuncts.now variable && among numbers.now variable)) }
{
    let mut opened = OrderedVars::new(alloc);
    add_open(bound, used, disjuncts, numbers, &mut opened).and(Ok(opened))
}

// Adds to an empty list those of the variables of these numbers on which disjuncts can be a switch.
fn add_open(
    bound: &VarSet,
    used: &VarSet,
    disjuncts: &Disjuncts<'_>,
    numbers: &[usize],
    opened: &mut OrderedVars,
) -> Result<(), NoMemory>
    requires { opened.old ≡ [] }
    ensures { OnOk result ((variable : ℕ) → among opened.new variable ≡ (is_open (among bound.now) used.now disjuncts.now variable && among numbers.now variable)) }
{
    for number in numbers {
        let variable = Var::new(*number);
        if is_open(bound, used, disjuncts, variable) {
            opened.add(variable)?;
        }
    }
    Ok(())
}

// Whether disjuncts can be a switch on the variable.
fn is_open(bound: &VarSet, used: &VarSet, disjuncts: &Disjuncts<'_>, variable: Var) -> bool
    ensures { result ≡ is_open (among bound.now) used.now disjuncts.now variable }
{
    !used.contains(variable) && bound.contains(variable) && disjuncts.all_split(variable)
}
