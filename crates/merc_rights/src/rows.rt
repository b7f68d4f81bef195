//! Items by number.
ghost use Rattle.std.specs.Prelude.{◌≡◌, ◌≤◌, nat_le, ℕ, [], map, length, take, drop, IfOk};
ghost use Rattle.std.specs.List.{filter};
ghost use Rattle.std.specs.List.Sorted.{IsNonDecreasingBy};
ghost use Rattle.merc_rights.specs.Rows.{row_of};

use merc_base::{NoMemory, Sequence};
use std::alloc::Global;
use std::marker::Model;

/// Items by number, so that those of one number stand together, in the order in which they were given.
#[derive(Drop)]
pub struct Rows<T> {
    items: Vec<(usize, T)>,
}

impl<T> Model for Rows<T> {
    ghost use Rattle.std.specs.Prelude.{ℕ, List};
    ghost use Rattle.std.specs.List.Sorted.{IsNonDecreasingBy};

    ghost Value = { List (ℕ × T) };

    ghost view = { λ r. r.items.items };

    ghost invariant = { λ r. IsNonDecreasingBy (λ item. item.0) r.items.items };
}

impl<T: Copy + Drop> Rows<T> {
    /// No items. It takes no memory.
    pub fn none(alloc: Global) -> Rows<T>
        ensures { result ≡ [] }
    {
        Rows {
            items: Vec::new(alloc),
        }
    }

    /// These items. It takes time of the order of their number times its logarithm.
    ///
    /// # Errors
    ///
    /// `NoMemory` where memory was refused.
    pub fn of(items: Vec<(usize, T)>) -> Result<Rows<T>, NoMemory>
        ensures { IfOk result (λ rows. (number : ℕ) → row_of number rows ≡ row_of number items.items) }
    {
        let mut items = items;
        items.sort_by_key(|item| item.0)?;
        Ok(Rows { items })
    }

    /// The items of a number.
    pub(crate) fn row(&self, number: usize) -> &[(usize, T)]
        ensures { map (λ item. item.1) result.now ≡ row_of number self.now }
    {
        let from = count_before(&self.items, number);
        let later = &self.items[from..];
        let count = count_up_to(later, number);
        &later[..count]
    }

    /// A list of the items of a number.
    ///
    /// # Errors
    ///
    /// `NoMemory` where memory was refused.
    pub fn listed(&self, alloc: Global, number: usize) -> Result<Sequence<T>, NoMemory>
        ensures { IfOk result (λ row. row ≡ row_of number self.now) }
    {
        let mut list = Sequence::new(alloc);
        for item in self.row(number) {
            list.push(item.1)?;
        }
        Ok(list)
    }
}

// How many of these items have numbers before one.
fn count_before<T>(items: &[(usize, T)], number: usize) -> usize
    requires { IsNonDecreasingBy (λ item. item.0) items.now }
    ensures within { result ≤ length items.now }
    ensures behind { drop result items.now ≡ filter (λ item. nat_le number item.0) items.now }
{
    items.partition_point(|item| item.0 < number)
}

// How many of these items have numbers up to one.
fn count_up_to<T>(items: &[(usize, T)], number: usize) -> usize
    requires { IsNonDecreasingBy (λ item. item.0) items.now }
    ensures within { result ≤ length items.now }
    ensures front { take result items.now ≡ filter (λ item. nat_le item.0 number) items.now }
{
    items.partition_point(|item| item.0 <= number)
}
