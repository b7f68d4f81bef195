//! A disjunction that is taken apart, with its outputs.
ghost use Rattle.std.specs.Prelude.{◌≡◌, [], filter, IfOk};
ghost use Rattle.merc_graded_tree.specs.Nodes.{outputs_of, span_of};
ghost use Rattle.merc_order.specs.Bound.{among};
ghost use Rattle.merc_switch_choice.specs.Variables.{all_behind};

use crate::ordering::{in_order, those_among};
use merc_base::{NoMemory, Span};
use merc_goal_tree::{Var, Vars};
use merc_graded_tree::NodeRef;
use merc_switch_choice::VarSet;
use std::alloc::Global;
use std::marker::Model;
use std::rc::Rc;

/// A disjunction, whose outputs can be found by their numbers. Contracts see the goal that it is.
#[derive(Drop)]
pub(crate) struct Whole<'a> {
    goal: NodeRef<'a>,
    // the outputs, each once
    outputs: Rc<VarSet>,
}

impl<'a> Model for Whole<'a> {
    ghost use Rattle.std.specs.Prelude.{◌≡◌, []};
    ghost use Rattle.merc_graded_tree.specs.Nodes.{Node, outputs_of};
    ghost use Rattle.merc_graded_tree.specs.LabelCode.{node_code};
    ghost use Rattle.merc_switch_choice.specs.Variables.{all_behind};

    ghost Value = { Node };

    ghost coded = { node_code };

    ghost view = { λ w. w.goal };

    ghost invariant = { λ w. w.outputs.value ≡ all_behind [] (outputs_of w.goal) };
}

impl<'a> Whole<'a> {
    /// The disjunction that a goal is.
    ///
    /// # Errors
    ///
    /// `NoMemory` where memory was refused, here and in the calls below.
    pub(crate) fn of(alloc: Global, goal: NodeRef<'a>) -> Result<Whole<'a>, NoMemory>
        ensures { IfOk result (λ whole. whole ≡ goal.entry) }
    {
        let outputs = Rc::new(alloc, each_once(alloc, goal.outputs())?)?;
        Ok(Whole { goal, outputs })
    }

    /// A second reference to the disjunction, which shares its outputs.
    pub(crate) fn copy(&self) -> Result<Whole<'a>, NoMemory>
        ensures { IfOk result (λ whole. whole ≡ self.now) }
    {
        Ok(Whole {
            goal: self.goal.copy(),
            outputs: self.outputs.clone()?,
        })
    }

    /// Where it stands.
    pub(crate) fn span(&self) -> Span
        ensures { result ≡ span_of self.now }
    {
        self.goal.span()
    }

    /// Its outputs.
    pub(crate) fn outputs(&self) -> &[Var]
        ensures { result.now ≡ outputs_of self.now }
    {
        self.goal.outputs().as_slice()
    }

    /// Whether the variable is one of its outputs.
    pub(crate) fn has_output(&self, variable: Var) -> bool
        ensures { result ≡ among (outputs_of self.now) variable }
    {
        self.outputs.contains(variable)
    }

    /// Its outputs that are among the variables. Where the variables are fewer it goes through them alone.
    pub(crate) fn outputs_among(&self, alloc: Global, variables: &VarSet) -> Result<Vars, NoMemory>
        ensures { IfOk result (λ kept. kept ≡ filter (λ output. among variables.now output) (outputs_of self.now)) }
    {
        let outputs = self.outputs();
        let once = self.outputs.as_ref();
        if variables.len() < outputs.len() && once.len() == outputs.len() {
            return in_order(alloc, variables, once);
        }
        those_among(alloc, outputs, variables)
    }
}

// The variables, each once.
fn each_once(alloc: Global, variables: &Vars) -> Result<VarSet, NoMemory>
    ensures { IfOk result (λ set. set ≡ all_behind [] variables.now) }
{
    let mut set = VarSet::new(alloc);
    match set.add_all(variables.as_slice()) {
        Ok(()) => Ok(set),
        Err(refused) => {
            // (a call, since it costs much to prove what is dropped here)
            drop(set);
            Err(refused)
        }
    }
}
