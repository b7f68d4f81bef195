//! A count for each variable.
ghost use Rattle.std.specs.Prelude.{◌≡◌, ◌==◌, ◌<◌, ◌+◌, ◌-◌, ℕ, [], nat_lt, if◌then◌else◌, IfOk, OnOk};
ghost use Rattle.indexmap.specs.IndexMap.{index_map_len};
ghost use Rattle.merc_order.specs.Bound.{among};
ghost use Rattle.merc_switch_choice.specs.Counting.{occurrences, count_of};

use crate::variables::VarSet;
use indexmap::IndexMap;
use merc_base::NoMemory;
use merc_goal_tree::Var;
use std::alloc::Global;

/// A count for each variable.
#[derive(Drop)]
pub struct VarCounts {
    // By the variable's number. A variable that is not there has the count 0, and only such a one.
    by_number: IndexMap<usize, usize>,
}

impl VarCounts {
    /// Each variable has the count 0. It takes no memory.
    pub fn new(alloc: Global) -> VarCounts
        ensures { (variable : ℕ) → count_of result variable ≡ 0 }
    {
        VarCounts {
            by_number: IndexMap::new(alloc),
        }
    }

    /// How many variables have a count above 0.
    pub fn len(&self) -> usize
        ensures { result ≡ index_map_len self.now.by_number }
    {
        self.by_number.len()
    }

    /// The count of the variable.
    pub fn of(&self, variable: Var) -> usize
        ensures { result ≡ count_of self.now variable }
    {
        let number = variable.number();
        self.by_number.get(&number).copied().unwrap_or(0)
    }

    /// The variables whose count is above 0.
    ///
    /// # Errors
    ///
    /// `NoMemory` where memory was refused.
    pub fn variables(&self, alloc: Global) -> Result<VarSet, NoMemory>
        ensures { IfOk result (λ variables. (variable : ℕ) → among variables variable ≡ nat_lt 0 (count_of self.now variable)) }
    {
        let mut variables = VarSet::new(alloc);
        self.add_counted(&mut variables).and(Ok(variables))
    }

    // Adds the variables whose count is above 0 to an empty set.
    fn add_counted(&self, variables: &mut VarSet) -> Result<(), NoMemory>
        requires { variables.old ≡ [] }
        ensures { OnOk result ((variable : ℕ) → among variables.new variable ≡ nat_lt 0 (count_of self.now variable)) }
    {
        for number in self.by_number.keys().as_slice() {
            let variable = Var::new(*number);
            if self.of(variable) > 0 {
                variables.add(variable)?;
            }
        }
        Ok(())
    }

    /// Counts each variable of these numbers once more.
    ///
    /// # Errors
    ///
    /// `NoMemory` where memory was refused, or a count passes the greatest `usize`; no goals that lie in memory have so many
    /// variables.
    pub fn add_each(&mut self, numbers: &[usize]) -> Result<(), NoMemory>
        ensures { OnOk result ((variable : ℕ) → count_of self.new variable ≡ count_of self.old variable + occurrences numbers.now variable) }
    {
        for number in numbers {
            let variable = Var::new(*number);
            match self.of(variable).checked_add(1) {
                Some(more) => self.put(variable, more)?,
                None => return Err(NoMemory),
            }
        }
        Ok(())
    }

    /// Counts each variable of these numbers once less, unless its count is 0.
    ///
    /// # Errors
    ///
    /// `NoMemory` where memory was refused.
    pub fn remove_each(&mut self, numbers: &[usize]) -> Result<(), NoMemory>
        ensures { OnOk result ((variable : ℕ) → count_of self.new variable ≡ count_of self.old variable - occurrences numbers.now variable) }
    {
        for number in numbers {
            let variable = Var::new(*number);
            let fewer = self.of(variable).saturating_sub(1);
            self.put(variable, fewer)?;
        }
        Ok(())
    }

    // Gives a variable this count.
    fn put(&mut self, variable: Var, count: usize) -> Result<(), NoMemory>
        ensures { OnOk result ((other : ℕ) → count_of self.new other ≡ (if other == variable then count else count_of self.old other)) }
    {
        let number = variable.number();
        if count == 0 {
            self.by_number.swap_remove(&number);
            return Ok(());
        }
        self.by_number.insert(number, count)?;
        Ok(())
    }
}
