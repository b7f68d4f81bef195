//! What the names of variables stand for, goal within goal.
ghost use Rattle.std.specs.Prelude.{◌≡◌, ◌<◌, [], ◌∷◌, length, drop, ℕ, IfOk, OnOk, IsSome, if◌then◌else◌, ◌==◌};
ghost use Rattle.std.specs.Ordering.{nat_cmp};
ghost use Rattle.std.specs.BTreeMap.{get};
ghost use Rattle.merc_scopes.specs.Scopes.{at_of, occurrence};
ghost use Rattle.merc_flat_form.specs.Levels.{shown, or_else, onto};

use merc_base::{Name, NoMemory};
use merc_scopes::Occurrence;
use std::alloc::Global;
use std::collections::BTreeMap;
use std::marker::Model;

// A step that leaving a level undoes.
#[derive(Clone, Copy, Drop)]
enum Change {
    // a level was put on top
    Entered,
    // a name was given a meaning; `before` is what it meant until then
    Given {
        name: Name,
        at: usize,
        before: Option<usize>,
    },
}

/// What the names of variables stand for in a goal and in those around it. Each level has the names that it gave a
/// meaning; what is at the top hides what is below it. A look-up takes time of the order of log n, and what a level
/// gave is undone when it is left.
#[derive(Drop)]
pub struct ScopeStack {
    // what each name stands for now
    current: BTreeMap<Name, usize>,
    // how that came about, the last change at the end
    changes: Vec<Change>,
}

impl Model for ScopeStack {
    ghost use Rattle.std.specs.Prelude.{List, reverse};
    ghost use Rattle.merc_scopes.specs.declared.occurrence.Occurrence.{Occurrence};
    ghost use Rattle.merc_flat_form.specs.Levels.{levels_of, AreLevels};

    // the levels from the top, and in each its names, the last one first
    ghost Value = { List (List Occurrence) };

    ghost view = { λ s. levels_of (reverse s.changes.items) };

    ghost invariant = { λ s. AreLevels s.current (reverse s.changes.items) };
}

impl ScopeStack {
    /// No level.
    pub(crate) fn new(alloc: Global) -> ScopeStack
        ensures { result ≡ [] }
    {
        ScopeStack {
            current: BTreeMap::new(alloc),
            changes: Vec::new(alloc),
        }
    }

    /// One level, in which these names stand for the numbers beside them. The first of a name counts.
    pub(crate) fn of(alloc: Global, scope: &[Occurrence]) -> Result<ScopeStack, NoMemory>
        ensures { IfOk result (λ stack. (name : ℕ) → shown name stack ≡ at_of name scope.now) }
    {
        let mut stack = ScopeStack::new(alloc);
        stack.enter()?;
        stack.bind_over(scope)?;
        Ok(stack)
    }

    /// What a name stands for, None where no level gives it a meaning.
    pub(crate) fn variable(&self, name: Name) -> Option<usize>
        ensures { result ≡ shown name self.now }
    {
        self.current.get(&name).copied()
    }

    /// Puts a level without names on top of the others. Where memory is refused, here and in the calls below, the stack
    /// is of no use any more.
    pub(crate) fn enter(&mut self) -> Result<(), NoMemory>
        ensures { OnOk result (self.new ≡ [] ∷ self.old) }
    {
        self.changes.push(Change::Entered)?;
        Ok(())
    }

    /// Takes the top level away.
    pub(crate) fn leave(&mut self)
        ensures { self.new ≡ drop 1 self.old }
    {
        while let Some(change) = self.changes.pop() {
            match change {
                Change::Entered => return,
                Change::Given { name, before, .. } => put_back(&mut self.current, name, before),
            }
        }
    }

    /// Gives those of these names a meaning at the top level that have none yet.
    pub(crate) fn bind(&mut self, found: &[Occurrence]) -> Result<(), NoMemory>
        requires { 0 < length self.old }
        ensures below { OnOk result (drop 1 self.new ≡ drop 1 self.old) }
        ensures shown { OnOk result ((name : ℕ) → shown name self.new ≡ or_else (shown name self.old) (at_of name found.now)) }
    {
        for one in found {
            if self.variable(one.name).is_none() {
                self.give(one.name, one.at)?;
            }
        }
        Ok(())
    }

    /// Gives these names a meaning at the top level, whatever they meant before. The first of a name counts.
    pub(crate) fn bind_over(&mut self, found: &[Occurrence]) -> Result<(), NoMemory>
        requires { 0 < length self.old }
        ensures below { OnOk result (drop 1 self.new ≡ drop 1 self.old) }
        ensures shown { OnOk result ((name : ℕ) → shown name self.new ≡ or_else (at_of name found.now) (shown name self.old)) }
    {
        // from the back, so that the first of a name hides the others
        for one in found.iter().rev() {
            self.give(one.name, one.at)?;
        }
        Ok(())
    }

    // Gives a name a meaning at the top level.
    fn give(&mut self, name: Name, at: usize) -> Result<(), NoMemory>
        ensures { OnOk result (self.new ≡ onto (occurrence name at) self.old) }
    {
        // the room first, so that a meaning is never without the change that undoes it
        self.changes.reserve(1)?;
        let before = self.current.insert(name, at)?;
        self.changes
            .push(Change::Given { name, at, before })
            .unwrap();
        Ok(())
    }
}

// Gives a name back what it meant before. It takes no memory.
fn put_back(current: &mut BTreeMap<Name, usize>, name: Name, before: Option<usize>)
    requires { IsSome (get nat_cmp current.old name) }
    ensures { (other : ℕ) → get nat_cmp current.new other ≡ (if name == other then before else get nat_cmp current.old other) }
{
    match before {
        Some(before) => {
            if let Some(meaning) = current.get_mut(&name) {
                *meaning = before;
            }
        }
        None => {
            current.remove(&name);
        }
    }
}
