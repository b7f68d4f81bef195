//! Sets of variables.
ghost use Rattle.std.specs.Prelude.{◌≡◌, ℕ, [], nat_eq, length, take, position, IfOk, OnOk};
ghost use Rattle.std.specs.List.{IsDistinct};
ghost use Rattle.merc_order.specs.Bound.{among};
ghost use Rattle.merc_order.specs.Procedures.{bound_at};
ghost use Rattle.merc_switch_choice.specs.Counting.{one_if, occurrences};
ghost use Rattle.merc_switch_choice.specs.Variables.{behind, all_behind};

use indexmap::IndexSet;
use merc_base::NoMemory;
use merc_goal_tree::Var;
use merc_tree::Arg;
use std::alloc::Global;
use std::marker::Model;

/// Variables in the order in which they came, each once.
#[derive(Drop)]
pub struct VarSet {
    numbers: IndexSet<usize>,
}

impl Model for VarSet {
    ghost use Rattle.std.specs.Prelude.{ℕ, List};

    ghost Value = { List ℕ };

    ghost view = { λ s. s.numbers.keys };
}

impl VarSet {
    /// No variables. It takes no memory.
    pub fn new(alloc: Global) -> VarSet
        ensures { result ≡ [] }
    {
        VarSet {
            numbers: IndexSet::new(alloc),
        }
    }

    /// How many there are.
    pub fn len(&self) -> usize
        ensures { result ≡ length self.now }
    {
        self.numbers.len()
    }

    /// Whether the variable is one of them.
    pub fn contains(&self, variable: Var) -> bool
        ensures { result ≡ among self.now variable }
    {
        let number = variable.number();
        self.numbers.contains(&number)
    }

    /// Their numbers.
    pub fn numbers(&self) -> &[usize]
        ensures numbers { result.now ≡ self.now }
        ensures distinct { IsDistinct nat_eq self.now }
        ensures once { (variable : ℕ) → occurrences result.now variable ≡ one_if (among self.now variable) }
    {
        self.numbers.as_slice()
    }

    /// How many stand before the variable, none where it is none of them.
    pub fn place(&self, variable: Var) -> Option<usize>
        ensures { result ≡ position (nat_eq variable) self.now }
    {
        let number = variable.number();
        self.numbers.get_index_of(&number)
    }

    /// Puts the variable behind the others, unless it is one of them.
    ///
    /// # Errors
    ///
    /// `NoMemory` where memory was refused, here and in the calls below.
    pub fn add(&mut self, variable: Var) -> Result<(), NoMemory>
        ensures { OnOk result (self.new ≡ behind self.old variable) }
    {
        self.numbers.insert(variable.number())?;
        Ok(())
    }

    /// Puts those of the variables behind the others that are none of them, in their order.
    pub fn add_all(&mut self, variables: &[Var]) -> Result<(), NoMemory>
        ensures { OnOk result (self.new ≡ all_behind self.old variables.now) }
    {
        for variable in variables {
            self.add(*variable)?;
        }
        Ok(())
    }

    /// Keeps the first ones, so many.
    pub fn truncate(&mut self, count: usize)
        ensures { self.new ≡ take count self.old }
    {
        self.numbers.truncate(count);
    }

    /// These and the variable.
    pub fn with(&self, alloc: Global, variable: Var) -> Result<VarSet, NoMemory>
        ensures { IfOk result (λ more. more ≡ behind (all_behind [] self.now) variable) }
    {
        let mut more = VarSet::new(alloc);
        more.add_both(self, variable).and(Ok(more))
    }

    // Puts those of a set and the variable behind these, unless they are some of them.
    fn add_both(&mut self, others: &VarSet, variable: Var) -> Result<(), NoMemory>
        ensures { OnOk result (self.new ≡ behind (all_behind self.old others.now) variable) }
    {
        for number in others.numbers() {
            self.add(Var::new(*number))?;
        }
        self.add(variable)
    }
}

/// The arguments that a mode has bound before.
///
/// # Errors
///
/// `NoMemory` where memory was refused.
pub fn bound_inputs(alloc: Global, inputs: &[Arg]) -> Result<VarSet, NoMemory>
    ensures { IfOk result (λ bound. among bound ≡ bound_at inputs.now) }
{
    let mut bound = VarSet::new(alloc);
    add_inputs(inputs, &mut bound).and(Ok(bound))
}

// Adds the arguments that a mode has bound before the call to an empty set.
fn add_inputs(inputs: &[Arg], bound: &mut VarSet) -> Result<(), NoMemory>
    requires { bound.old ≡ [] }
    ensures { OnOk result ((variable : ℕ) → among bound.new variable ≡ bound_at inputs.now variable) }
{
    for (index, place) in inputs.iter().enumerate() {
        match place {
            Arg::Input => bound.add(Var::new(index))?,
            Arg::Output => {}
        }
    }
    Ok(())
}
