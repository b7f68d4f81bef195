//! The rights to signal one variable.
ghost use Rattle.std.specs.Prelude.{◌≡◌, ◌≤◌, ◌∷◌, ◌++◌, [], nat_lt, nat_le, length, map, take, drop, IfOk, OnOk};
ghost use Rattle.std.specs.List.{filter};
ghost use Rattle.std.specs.List.Sorted.{IsNonDecreasing};
ghost use Rattle.merc_rights.specs.Groups.{rights_in, AllFor, AreBoth};
ghost use Rattle.merc_rights.specs.Rights.{right_to, with_rights};

use merc_base::NoMemory;
use merc_goal_tree::Var;
use std::alloc::Global;

/// The rights to signal one variable.
#[derive(Drop)]
pub struct Group {
    pub variable: Var,
    /// The numbers of the conjuncts that are signalled, in any order.
    pub conjuncts: Vec<usize>,
}

/// A group and a number: that of the goal which has the rights.
#[derive(Drop)]
pub struct NumberedGroup {
    pub number: usize,
    pub group: Group,
}

impl Group {
    /// A copy.
    ///
    /// # Errors
    ///
    /// `NoMemory` where memory was refused.
    pub fn try_clone(&self, alloc: Global) -> Result<Group, NoMemory>
        ensures { IfOk result (λ copy. rights_in copy ≡ rights_in self.now) }
    {
        Ok(Group {
            variable: self.variable,
            conjuncts: Vec::from_slice(alloc, &self.conjuncts)?,
        })
    }

    /// These rights and others for the same variable. It takes time of the order of the number of the fewer ones, on
    /// the whole.
    ///
    /// # Errors
    ///
    /// `NoMemory` where memory was refused.
    pub fn joined(self, other: Group) -> Result<Group, NoMemory>
        ensures variable { IfOk result (λ both. both.variable ≡ self.variable) }
        ensures rights { IfOk result (λ both. AllFor self.variable (rights_in other) → rights_in both ≡ with_rights (rights_in other) (rights_in self)) }
    {
        let conjuncts = chained(self.conjuncts, other.conjuncts)?;
        Ok(Group {
            variable: self.variable,
            conjuncts,
        })
    }

    /// The conjuncts in order.
    ///
    /// # Errors
    ///
    /// `NoMemory` where memory was refused.
    pub fn in_order(self) -> Result<Vec<usize>, NoMemory>
        ensures { IfOk result (λ conjuncts. map (λ conjunct. right_to conjunct self.variable) conjuncts.items ≡ rights_in self) }
    {
        let mut conjuncts = self.conjuncts;
        conjuncts.sort()?;
        let count = zeros(&conjuncts);
        conjuncts.rotate_left(count);
        Ok(conjuncts)
    }
}

/// Puts a group with a number behind the others.
///
/// # Errors
///
/// `NoMemory` where memory was refused.
pub fn put_group(
    number: usize,
    group: Group,
    groups: &mut Vec<NumberedGroup>,
) -> Result<(), NoMemory>
    ensures { OnOk result (groups.new.items ≡ groups.old.items ++ record { number = number; group = group } ∷ []) }
{
    groups.push(NumberedGroup { number, group })?;
    Ok(())
}

// The numbers of both lists: the fewer are put behind the others.
fn chained(one: Vec<usize>, other: Vec<usize>) -> Result<Vec<usize>, NoMemory>
    ensures { IfOk result (λ both. AreBoth one.items other.items both.items) }
{
    if one.len() < other.len() {
        return with_behind(other, &one);
    }
    with_behind(one, &other)
}

// Numbers with others behind them.
fn with_behind(numbers: Vec<usize>, others: &[usize]) -> Result<Vec<usize>, NoMemory>
    ensures { IfOk result (λ all. all.items ≡ numbers.items ++ others.now) }
{
    let mut all = numbers;
    all.extend_from_slice(others)?;
    Ok(all)
}

// How many of these numbers, which rise, are 0.
fn zeros(numbers: &[usize]) -> usize
    requires { IsNonDecreasing numbers.now }
    ensures within { result ≤ length numbers.now }
    ensures front { take result numbers.now ≡ filter (λ number. nat_lt number 1) numbers.now }
    ensures back { drop result numbers.now ≡ filter (λ number. nat_le 1 number) numbers.now }
{
    numbers.partition_point(|number| *number < 1)
}
