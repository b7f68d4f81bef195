//! Rights to signal, of which those for one variable are taken together.
ghost use Rattle.std.specs.Prelude.{◌≡◌, ◌≤◌, ◌<◌, ◌++◌, nat_le, nat_lt, ℕ, [], ◌∷◌, length, take, drop, IfOk, OnOk, if◌then◌else◌};
ghost use Rattle.std.specs.List.{filter};
ghost use Rattle.std.specs.List.Sorted.{IsNonDecreasingBy};
ghost use Rattle.merc_rights.specs.Groups.{all_rights, groups_of, numbered, rights_in, AllFor};
ghost use Rattle.merc_rights.specs.Rights.{with_rights};
ghost use Rattle.merc_rights.specs.Rows.{row_of};

use crate::groups::{Group, NumberedGroup};
use crate::rights::Right;
use crate::sums::sum;
use merc_base::{NoMemory, Sequence};
use std::alloc::Global;
use std::marker::Model;

/// Rights to signal, in order.
#[derive(Drop)]
pub struct Signals {
    groups: Vec<Group>,
}

impl Model for Signals {
    ghost use Rattle.std.specs.Prelude.{List};
    ghost use Rattle.merc_rights.specs.Rights.{Right as MeantRight};
    ghost use Rattle.merc_rights.specs.Groups.{all_rights};

    ghost Value = { List MeantRight };

    ghost view = { λ s. all_rights s.groups.items };
}

impl Signals {
    /// No rights. It takes no memory.
    pub fn none(alloc: Global) -> Signals
        ensures { result ≡ [] }
    {
        Signals {
            groups: Vec::new(alloc),
        }
    }

    /// The rights of these groups.
    pub fn of(groups: Vec<Group>) -> Signals
        ensures { result ≡ all_rights groups.items }
    {
        Signals { groups }
    }

    /// Gives the groups back.
    pub fn into_groups(self) -> Vec<Group>
        ensures { all_rights result.items ≡ self }
    {
        self.groups
    }

    /// The groups.
    pub fn groups(&self) -> &[Group]
        ensures { all_rights result.now ≡ self.now }
    {
        &self.groups
    }

    /// How many rights there are.
    ///
    /// # Errors
    ///
    /// `NoMemory` where so many need more memory than there is.
    pub fn len(&self) -> Result<usize, NoMemory>
        ensures { IfOk result (λ count. count ≡ length self.now) }
    {
        count_of(&self.groups)
    }

    /// A list of the rights. It takes time of the order of their number times its logarithm.
    ///
    /// # Errors
    ///
    /// `NoMemory` where memory was refused.
    pub fn listed(self, alloc: Global) -> Result<Sequence<Right>, NoMemory>
        ensures { IfOk result (λ rights. rights ≡ self) }
    {
        let mut rights = Sequence::new(alloc);
        for group in self.groups {
            put_rights(group, &mut rights)?;
        }
        Ok(rights)
    }
}

// How many rights groups have.
fn count_of(groups: &[Group]) -> Result<usize, NoMemory>
    ensures { IfOk result (λ count. count ≡ length (all_rights groups.now)) }
{
    let mut count = 0;
    for group in groups {
        count = sum(count, group.conjuncts.len())?;
    }
    Ok(count)
}

// Puts the rights of a group behind the others.
fn put_rights(group: Group, rights: &mut Sequence<Right>) -> Result<(), NoMemory>
    ensures { OnOk result (rights.new ≡ rights.old ++ rights_in group) }
{
    let variable = group.variable;
    let conjuncts = group.in_order()?;
    for conjunct in &conjuncts {
        rights.push(Right {
            variable,
            conjunct: *conjunct,
        })?;
    }
    Ok(())
}

/// A group with the rights of others for its variable.
///
/// # Errors
///
/// `NoMemory` where memory was refused.
pub fn with_others(own: Group, others: Signals) -> Result<Group, NoMemory>
    ensures { IfOk result (λ group. AllFor own.variable others → rights_in group ≡ with_rights others (rights_in own)) }
{
    let mut group = own;
    for other in others.into_groups() {
        group = group.joined(other)?;
    }
    Ok(group)
}

/// Groups in the order of their numbers. It takes time of the order of how many there are times its logarithm.
///
/// # Errors
///
/// `NoMemory` where memory was refused.
pub fn by_number(groups: Vec<NumberedGroup>) -> Result<Vec<NumberedGroup>, NoMemory>
    ensures in_order { IfOk result (λ rows. IsNonDecreasingBy (λ item. item.number) rows.items) }
    ensures same { IfOk result (λ rows. (number : ℕ) → row_of number (numbered rows.items) ≡ row_of number (numbered groups.items)) }
{
    let mut groups = groups;
    groups.sort_by_key(|item| item.number)?;
    Ok(groups)
}

/// Takes the rights of a number out of groups in the order of their numbers, and drops those of numbers behind it.
///
/// # Errors
///
/// `NoMemory` where memory was refused.
pub fn take_row(
    alloc: Global,
    number: usize,
    rows: &mut Vec<NumberedGroup>,
) -> Result<Signals, NoMemory>
    requires { IsNonDecreasingBy (λ item. item.number) rows.old.items }
    ensures row { IfOk result (λ signals. signals ≡ row_of number (numbered rows.old.items)) }
    ensures rest { OnOk result ((other : ℕ) → other < number → row_of other (numbered rows.new.items) ≡ row_of other (numbered rows.old.items)) }
    ensures in_order { OnOk result (IsNonDecreasingBy (λ item. item.number) rows.new.items) }
{
    let from = count_below(rows, number);
    let taken = rows.split_off(from)?;
    signals_of(alloc, number, taken)
}

// How many of these groups have numbers below one.
fn count_below(groups: &[NumberedGroup], number: usize) -> usize
    requires { IsNonDecreasingBy (λ item. item.number) groups.now }
    ensures within { result ≤ length groups.now }
    ensures front { take result groups.now ≡ filter (λ item. nat_lt item.number number) groups.now }
    ensures back { drop result groups.now ≡ filter (λ item. nat_le number item.number) groups.now }
{
    groups.partition_point(|item| item.number < number)
}

// The rights of a number.
fn signals_of(alloc: Global, number: usize, groups: Vec<NumberedGroup>) -> Result<Signals, NoMemory>
    ensures { IfOk result (λ signals. signals ≡ all_rights (groups_of number groups.items)) }
{
    let mut found = Vec::new(alloc);
    for item in groups {
        put_if(item.number == number, item.group, &mut found)?;
    }
    Ok(Signals::of(found))
}

// Puts a group behind the others where it is to be put.
fn put_if(is: bool, group: Group, groups: &mut Vec<Group>) -> Result<(), NoMemory>
    ensures { OnOk result (groups.new.items ≡ groups.old.items ++ (if is then group ∷ [] else [])) }
{
    if !is {
        return Ok(());
    }
    groups.push(group)?;
    Ok(())
}
