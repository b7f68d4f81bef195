//! Where each variable of a body occurs in it.
ghost use Rattle.std.specs.Prelude.{◌≡◌, ◌+◌, ◌<◌, ◌≤◌, ◌++◌, ◌==◌, ◌∷◌, nat_le, nat_lt, [], ℕ, length, take, drop, IfOk, OnOk, if◌then◌else◌};
ghost use Rattle.std.specs.List.{filter};
ghost use Rattle.std.specs.List.Sorted.{IsNonDecreasing};
ghost use Rattle.merc_simple_goals.specs.Places.{places_within, table_at, TellsPlaces};

use merc_base::NoMemory;
use merc_goal_facts::Occurrences;
use merc_goal_tree::Var;
use std::alloc::Global;
use std::marker::Model;

/// The variables of a body as they occur in it, and at which places each of them does.
#[derive(Drop)]
pub struct Places {
    occurrences: Occurrences,
    // by the variable's number, the places in ascending order; those past its end do not occur
    by_variable: Vec<Vec<usize>>,
}

impl Model for Places {
    ghost use Rattle.std.specs.Prelude.{ℕ, List};
    ghost use Rattle.merc_simple_goals.specs.Places.{TellsPlaces};

    ghost Value = { List ℕ };

    ghost view = { λ p. p.occurrences };

    ghost invariant = { λ p. TellsPlaces p.by_variable.items p.occurrences };
}

impl Places {
    /// The places of these variables.
    ///
    /// # Errors
    ///
    /// `NoMemory` where memory was refused.
    pub fn of(alloc: Global, occurrences: Occurrences) -> Result<Places, NoMemory>
        ensures { IfOk result (λ places. places ≡ occurrences) }
    {
        let by_variable = by_variable(alloc, &occurrences)?;
        Ok(Places {
            occurrences,
            by_variable,
        })
    }

    // The variables in the order in which they occur.
    pub(crate) fn occurrences(&self) -> &Occurrences
        ensures { result.now ≡ self.now }
    {
        &self.occurrences
    }

    /// The places of the variable from `start` on and before `end`, in ascending order.
    pub fn within(&self, start: usize, end: usize, variable: Var) -> &[usize]
        ensures { result.now ≡ places_within start end variable self.now }
    {
        let places = places_at(&self.by_variable, variable.number());
        let from = count_before(places, start);
        let later = &places[from..];
        let count = count_before(later, end);
        &later[..count]
    }

    /// The place behind so many occurrences from `start` on, or that behind the last where there are not so many.
    pub fn place_behind(&self, start: usize, count: usize) -> usize
        ensures within { start + count ≤ length self.now → result ≡ start + count }
        ensures beyond { length self.now < start + count → result ≡ length self.now }
    {
        let end = self.occurrences.len();
        if start <= end && count <= end - start {
            start + count
        } else {
            end
        }
    }
}

// The places of each variable, by its number.
fn by_variable(alloc: Global, all: &Occurrences) -> Result<Vec<Vec<usize>>, NoMemory>
    ensures { IfOk result (λ table. TellsPlaces table.items all.now) }
{
    let mut table = Vec::new(alloc);
    for place in 0..all.len() {
        if let Some(variable) = all.first_since(place, place) {
            put_place(alloc, &mut table, variable.number(), place)?;
        }
    }
    Ok(table)
}

// Puts a place behind the others of the variable with this number.
fn put_place(
    alloc: Global,
    table: &mut Vec<Vec<usize>>,
    number: usize,
    place: usize,
) -> Result<(), NoMemory>
    ensures { OnOk result ((variable : ℕ) → table_at table.new.items variable ≡ table_at table.old.items variable ++ (if variable == number then place ∷ [] else [])) }
{
    make_room(alloc, table, number)?;
    table[number].push(place)?;
    Ok(())
}

// Makes the table long enough for the number.
fn make_room(alloc: Global, table: &mut Vec<Vec<usize>>, number: usize) -> Result<(), NoMemory>
    ensures same { (variable : ℕ) → table_at table.new.items variable ≡ table_at table.old.items variable }
    ensures room { OnOk result (number < length table.new.items) }
{
    while table.len() <= number {
        table.push(Vec::new(alloc))?;
    }
    Ok(())
}

// The places of the variable with this number.
fn places_at(table: &[Vec<usize>], number: usize) -> &[usize]
    ensures { result.now ≡ table_at table.now number }
{
    match table.get(number) {
        Some(places) => places,
        None => &[],
    }
}

// How many of these places stand before one.
fn count_before(places: &[usize], place: usize) -> usize
    requires { IsNonDecreasing places.now }
    ensures within { result ≤ length places.now }
    ensures before { take result places.now ≡ filter (λ other. nat_lt other place) places.now }
    ensures behind { drop result places.now ≡ filter (λ other. nat_le place other) places.now }
{
    places.partition_point(|other| *other < place)
}
