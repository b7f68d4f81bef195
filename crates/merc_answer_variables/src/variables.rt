//! The variables of a goal while it is read.
ghost use Rattle.std.specs.Prelude.{◌≡◌, ◌==◌, ◌&&◌, ◌||◌, ℕ, not, Some, is_some, OnOk, if◌then◌else◌};
ghost use Rattle.std.specs.Ordering.{nat_cmp};
ghost use Rattle.std.specs.Option.{option_or};
ghost use Rattle.std.specs.BTreeMap.{get};
ghost use Rattle.std.specs.BTreeSet.{contains};
ghost use Rattle.merc_answer_variables.specs.Statuses.{unseen, joined, hidden, decided, bound};
ghost use Rattle.merc_answer_variables.specs.Reading.{status};

use merc_base::{Name, NoMemory};
use std::alloc::Global;
use std::collections::{BTreeMap, BTreeSet};
use std::mem::swap;

/// The variables that occur in a goal outside every quantifier over them.
#[derive(Drop)]
pub(crate) struct Variables {
    // How many occurrences stand behind the first one of each variable.
    places: BTreeMap<Name, usize>,
    // Those that are answer variables of the goal, their names aside.
    shown: BTreeSet<Name>,
}

impl Variables {
    /// No variables.
    pub(crate) fn new(alloc: Global) -> Variables
        ensures { (name : ℕ) → status result name ≡ unseen }
    {
        Variables {
            places: BTreeMap::new(alloc),
            shown: BTreeSet::new(alloc),
        }
    }

    /// Adds a variable that stands before so many others.
    pub(crate) fn put(&mut self, name: Name, place: usize) -> Result<(), NoMemory>
        ensures places { OnOk result ((other : ℕ) → (status self.new other).place ≡ (if name == other then Some place else (status self.old other).place)) }
        ensures shown { OnOk result ((other : ℕ) → (status self.new other).shown ≡ ((name == other) || (status self.old other).shown)) }
    {
        self.places.insert(name, place)?;
        self.shown.insert(name)?;
        Ok(())
    }

    /// Where a variable first stands, None where it does not occur.
    pub(crate) fn place(&self, name: Name) -> Option<usize>
        ensures { result ≡ (status self.now name).place }
    {
        self.places.get(&name).copied()
    }

    /// Whether a variable is an answer variable, its name aside.
    pub(crate) fn shows(&self, name: Name) -> bool
        ensures { result ≡ (status self.now name).shown }
    {
        self.shown.contains(&name)
    }

    /// Adds the variables of a goal that stands behind this one, beside it.
    pub(crate) fn join(&mut self, second: Variables) -> Result<(), NoMemory>
        ensures { OnOk result ((name : ℕ) → status self.new name ≡ joined (status self.old name) (status second name)) }
    {
        let mut second = second;
        self.take_in(&mut second)
    }

    // Moves the variables of a goal behind this one here. What is left of them is not said.
    fn take_in(&mut self, second: &mut Variables) -> Result<(), NoMemory>
        ensures { OnOk result ((name : ℕ) → status self.new name ≡ joined (status self.old name) (status second.old name)) }
    {
        add(&mut self.shown, &mut second.shown)?;
        show_common(&self.places, &second.places, &mut self.shown)?;
        put_behind(&mut self.places, &mut second.places)
    }

    /// Makes the variables of a condition those of its if-then-else.
    pub(crate) fn decide(
        &mut self,
        then_part: Variables,
        else_part: Variables,
    ) -> Result<(), NoMemory>
        ensures { OnOk result ((name : ℕ) → status self.new name ≡ decided (status self.old name) (status then_part name) (status else_part name)) }
    {
        let mut then_part = then_part;
        let mut else_part = else_part;
        self.decide_over(&mut then_part, &mut else_part)
    }

    // Moves the variables of the other parts here. What is left of them is not said.
    fn decide_over(
        &mut self,
        then_part: &mut Variables,
        else_part: &mut Variables,
    ) -> Result<(), NoMemory>
        ensures { OnOk result ((name : ℕ) → status self.new name ≡ decided (status self.old name) (status then_part.old name) (status else_part.old name)) }
    {
        self.shown.clear();
        show_common(&self.places, &else_part.places, &mut self.shown)?;
        then_part.take_in(else_part)?;
        hide_common(&self.places, &then_part.places, &mut then_part.shown);
        add(&mut then_part.shown, &mut self.shown)?;
        swap(&mut self.shown, &mut then_part.shown);
        put_behind(&mut self.places, &mut then_part.places)
    }

    /// Makes none of the variables an answer variable.
    pub(crate) fn hide(&mut self)
        ensures { (name : ℕ) → status self.new name ≡ hidden (status self.old name) }
    {
        self.shown.clear();
    }

    /// Takes out the variables of a quantifier.
    pub(crate) fn bind(&mut self, variables: &[Name])
        ensures { (name : ℕ) → status self.new name ≡ bound variables.now name (status self.old name) }
    {
        for variable in variables {
            self.places.remove(variable);
            self.shown.remove(variable);
        }
    }
}

// Adds the names that both have. Only the fewer of them are gone through.
fn show_common(
    one: &BTreeMap<Name, usize>,
    other: &BTreeMap<Name, usize>,
    shown: &mut BTreeSet<Name>,
) -> Result<(), NoMemory>
    ensures { OnOk result ((name : ℕ) → contains nat_cmp shown.new name ≡ (contains nat_cmp shown.old name || (is_some (get nat_cmp one.now name) && is_some (get nat_cmp other.now name)))) }
{
    if one.len() < other.len() {
        show_among(one, other, shown)
    } else {
        show_among(other, one, shown)
    }
}

// Adds the names of the first that the second has too.
fn show_among(
    few: &BTreeMap<Name, usize>,
    many: &BTreeMap<Name, usize>,
    shown: &mut BTreeSet<Name>,
) -> Result<(), NoMemory>
    ensures { OnOk result ((name : ℕ) → contains nat_cmp shown.new name ≡ (contains nat_cmp shown.old name || (is_some (get nat_cmp few.now name) && is_some (get nat_cmp many.now name)))) }
{
    for (name, _) in few {
        if many.contains_key(name) {
            shown.insert(*name)?;
        }
    }
    Ok(())
}

// Takes out the names that both have. Only the fewer of them are gone through.
fn hide_common(
    one: &BTreeMap<Name, usize>,
    other: &BTreeMap<Name, usize>,
    shown: &mut BTreeSet<Name>,
)
    ensures { (name : ℕ) → contains nat_cmp shown.new name ≡ (contains nat_cmp shown.old name && not (is_some (get nat_cmp one.now name) && is_some (get nat_cmp other.now name))) }
{
    if one.len() < other.len() {
        hide_among(one, other, shown);
    } else {
        hide_among(other, one, shown);
    }
}

// Takes out the names of the first that the second has too.
fn hide_among(few: &BTreeMap<Name, usize>, many: &BTreeMap<Name, usize>, shown: &mut BTreeSet<Name>)
    ensures { (name : ℕ) → contains nat_cmp shown.new name ≡ (contains nat_cmp shown.old name && not (is_some (get nat_cmp few.now name) && is_some (get nat_cmp many.now name))) }
{
    for (name, _) in few {
        if many.contains_key(name) {
            shown.remove(name);
        }
    }
}

// Adds other names. The fewer of both are added to the others.
fn add(names: &mut BTreeSet<Name>, others: &mut BTreeSet<Name>) -> Result<(), NoMemory>
    ensures { OnOk result ((name : ℕ) → contains nat_cmp names.new name ≡ (contains nat_cmp names.old name || contains nat_cmp others.old name)) }
{
    if names.len() < others.len() {
        swap(names, others);
    }
    add_each(names, others)
}

// Adds each of some other names.
fn add_each(many: &mut BTreeSet<Name>, few: &BTreeSet<Name>) -> Result<(), NoMemory>
    ensures { OnOk result ((name : ℕ) → contains nat_cmp many.new name ≡ (contains nat_cmp many.old name || contains nat_cmp few.now name)) }
{
    for name in few {
        many.insert(*name)?;
    }
    Ok(())
}

// Adds places of names that have none. The fewer of both are moved.
fn put_behind(
    first: &mut BTreeMap<Name, usize>,
    second: &mut BTreeMap<Name, usize>,
) -> Result<(), NoMemory>
    ensures { OnOk result ((name : ℕ) → get nat_cmp first.new name ≡ option_or (get nat_cmp first.old name) (get nat_cmp second.old name)) }
{
    if first.len() < second.len() {
        put_over(first, second)
    } else {
        put_under(first, second)
    }
}

// Moves the first into the second, whose places count no more, and makes them the first.
fn put_over(
    first: &mut BTreeMap<Name, usize>,
    second: &mut BTreeMap<Name, usize>,
) -> Result<(), NoMemory>
    ensures { OnOk result ((name : ℕ) → get nat_cmp first.new name ≡ option_or (get nat_cmp first.old name) (get nat_cmp second.old name)) }
{
    second.append(first)?;
    swap(first, second);
    Ok(())
}

// Adds to the first what it lacks of the second.
fn put_under(
    first: &mut BTreeMap<Name, usize>,
    second: &BTreeMap<Name, usize>,
) -> Result<(), NoMemory>
    ensures { OnOk result ((name : ℕ) → get nat_cmp first.new name ≡ option_or (get nat_cmp first.old name) (get nat_cmp second.now name)) }
{
    for (name, place) in second {
        if !first.contains_key(name) {
            first.insert(*name, *place)?;
        }
    }
    Ok(())
}
