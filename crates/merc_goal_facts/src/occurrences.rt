//! Where the variables of a body occur.
ghost use Rattle.std.specs.Prelude.{◌≡◌, ◌<◌, ◌≤◌, ◌+◌, ◌++◌, ◌∷◌, [], ◌||◌, ℕ, false, Some, None, length, take, drop, slice_get, IfOk, OnOk, OnErr};
ghost use Rattle.std.specs.List.{slice_index_or};
ghost use Rattle.merc_goal_tree.specs.Variables.{variables};
ghost use Rattle.merc_order.specs.Bound.{among};
ghost use Rattle.merc_order.specs.Procedures.{beyond};
ghost use Rattle.merc_goal_facts.specs.Reaches.{reaching, end_of, first_since};

use merc_base::NoMemory;
use merc_goal_tree::Var;
use std::alloc::Global;
use std::marker::Model;

/// From where to where a variable occurs.
#[derive(Clone, Copy)]
pub(crate) struct Reach {
    // the place where it occurs first
    pub(crate) first: usize,
    // the place behind that where it occurs last
    pub(crate) end: usize,
}

/// Variables in the order in which they occur, each as often as it occurs.
#[derive(Drop)]
pub struct Occurrences {
    all: Vec<Var>,
    // by the place, the place behind that where its variable occurs last before it, 0 where it does not
    earlier: Vec<usize>,
    // by the variable's number; those past its end do not occur
    reaches: Vec<Option<Reach>>,
}

impl Model for Occurrences {
    ghost use Rattle.std.specs.Prelude.{ℕ, List};
    ghost use Rattle.merc_goal_facts.specs.Reaches.{TellsReaches, TellsEarlier};

    ghost Value = { List ℕ };

    ghost view = { λ o. o.all.items };

    ghost invariant = { λ o. TellsReaches o.reaches.items o.all.items × TellsEarlier o.earlier.items o.all.items };
}

impl Occurrences {
    /// No variable occurs. It takes no memory.
    pub(crate) fn new(alloc: Global) -> Occurrences
        ensures { result ≡ [] }
    {
        Occurrences {
            all: Vec::new(alloc),
            earlier: Vec::new(alloc),
            reaches: Vec::new(alloc),
        }
    }

    /// How many there are.
    pub fn len(&self) -> usize
        ensures { result ≡ length self.now }
    {
        self.all.len()
    }

    /// Whether the variable occurs outside the stretch from one place to another: before it or behind it.
    pub fn is_outside(&self, start: usize, end: usize, variable: Var) -> bool
        ensures { result ≡ (among (take start self.now) variable || among (drop end self.now) variable) }
    {
        match reach_at(&self.reaches, variable.number()) {
            Some(reach) => reach.first < start || end < reach.end,
            None => false,
        }
    }

    /// The variable at a place, if it does not occur from `start` on before that place.
    pub fn first_since(&self, start: usize, place: usize) -> Option<Var>
        ensures { result ≡ first_since start self.now place }
    {
        let variable = *self.all.get(place)?;
        if start < earlier_at(&self.earlier, place) {
            return None;
        }
        Some(variable)
    }

    /// The number behind those of all variables that occur.
    ///
    /// # Errors
    ///
    /// `NoMemory` where that would pass the greatest `usize`. The numbers of no text that lies in memory do.
    pub fn number_beyond(&self) -> Result<usize, NoMemory>
        ensures { IfOk result (λ number. number ≡ beyond self.now) }
    {
        let mut number = 0;
        let mut index = self.all.len();
        while 0 < index {
            index -= 1;
            let behind = number_past(self.all[index].number(), 1)?;
            number = number.max(behind);
        }
        Ok(number)
    }

    /// Puts an occurrence behind the others.
    ///
    /// # Errors
    ///
    /// `NoMemory` where memory was refused; then nothing changes.
    pub(crate) fn push(&mut self, variable: Var) -> Result<(), NoMemory>
        ensures ok { OnOk result (self.new ≡ self.old ++ variable ∷ []) }
        ensures err { OnErr result (self.new ≡ self.old) }
    {
        make_room(&mut self.reaches, variable.number())?;
        let reach = reach_at(&self.reaches, variable.number());
        put(&mut self.all, &mut self.earlier, variable, end_of(reach))?;
        self.reaches[variable.number()] = Some(extended(reach, self.all.len()));
        Ok(())
    }

    /// Puts occurrences behind the others.
    ///
    /// # Errors
    ///
    /// `NoMemory` where memory was refused.
    pub(crate) fn push_all(&mut self, variables: &[Var]) -> Result<(), NoMemory>
        ensures { OnOk result (self.new ≡ self.old ++ variables.now) }
    {
        for variable in variables {
            self.push(*variable)?;
        }
        Ok(())
    }
}

/// A number so much further on.
///
/// # Errors
///
/// `NoMemory` where it would pass the greatest `usize`. The numbers of no text that lies in memory do.
pub fn number_past(at: usize, more: usize) -> Result<usize, NoMemory>
    ensures { IfOk result (λ number. number ≡ at + more) }
{
    match at.checked_add(more) {
        Some(number) => Ok(number),
        None => Err(NoMemory),
    }
}

// How the variable of this number reaches, None where it does not occur.
fn reach_at(reaches: &[Option<Reach>], number: usize) -> Option<Reach>
    ensures { result ≡ slice_index_or reaches.now number None }
{
    match reaches.get(number) {
        Some(reach) => *reach,
        None => None,
    }
}

// Behind which place the variable at this place occurs last before it.
fn earlier_at(earlier: &[usize], place: usize) -> usize
    ensures { result ≡ slice_index_or earlier.now place 0 }
{
    match earlier.get(place) {
        Some(end) => *end,
        None => 0,
    }
}

// The place behind that where a variable that reaches so occurs last, 0 where it does not occur.
fn end_of(reach: Option<Reach>) -> usize
    ensures { result ≡ end_of reach }
{
    match reach {
        Some(reach) => reach.end,
        None => 0,
    }
}

// How a variable reaches that occurs once more, at the last place before this one.
fn extended(reach: Option<Reach>, end: usize) -> Reach
    requires { 0 < end }
    ensures { result ≡ reaching reach end }
{
    match reach {
        Some(reach) => Reach {
            first: reach.first,
            end,
        },
        None => Reach {
            first: end - 1,
            end,
        },
    }
}

// Puts a variable behind the others, and behind which place it occurs last. Where memory is refused nothing changes.
fn put(
    all: &mut Vec<Var>,
    earlier: &mut Vec<usize>,
    variable: Var,
    end: usize,
) -> Result<(), NoMemory>
    ensures all { OnOk result (all.new.items ≡ all.old.items ++ variable ∷ []) }
    ensures earlier { OnOk result (earlier.new.items ≡ earlier.old.items ++ end ∷ []) }
    ensures err { OnErr result ((all.new.items ≡ all.old.items) × (earlier.new.items ≡ earlier.old.items)) }
{
    earlier.reserve(1)?;
    all.push(variable)?;
    earlier.push(end).unwrap();
    Ok(())
}

// Makes the table long enough for the number.
fn make_room(reaches: &mut Vec<Option<Reach>>, number: usize) -> Result<(), NoMemory>
    ensures same { (variable : ℕ) → slice_index_or reaches.new.items variable None ≡ slice_index_or reaches.old.items variable None }
    ensures room { OnOk result (number < length reaches.new.items) }
{
    while reaches.len() <= number {
        reaches.push(None)?;
    }
    Ok(())
}
