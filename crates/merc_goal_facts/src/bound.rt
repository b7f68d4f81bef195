//! Which variables are bound while goals are looked at.
ghost use Rattle.std.specs.Prelude.{◌≡◌, ◌<◌, ◌≤◌, ◌-◌, ℕ, false, [], length, take, drop, OnOk, OnErr};
ghost use Rattle.std.specs.List.{slice_index_or};
ghost use Rattle.merc_order.specs.Bound.{among, are_bound};
ghost use Rattle.merc_goal_facts.specs.Bounds.{behind, all_behind, Tells, AreApart};

use merc_base::NoMemory;
use merc_goal_tree::Var;
use std::alloc::Global;
use std::marker::Model;

/// How many goals that hold each other the passes over ordered goals may be in at once. They call themselves for each: of
/// the 8 MiB of stack that a system gives they take some 4.5 then.
const DEPTH_LIMIT: usize = 4_000;

/// The variables that are bound, in the order in which they were bound, each once. It goes with a pass into the goals that
/// a goal holds, and so it also knows in how many the pass is.
#[derive(Drop)]
pub struct BoundSet {
    // by the variable's number; those past its end are not bound
    table: Vec<bool>,
    trail: Vec<Var>,
    // how many goals were entered and not left; no contract speaks of it
    depth: usize,
}

impl Model for BoundSet {
    ghost use Rattle.std.specs.Prelude.{ℕ, List};
    ghost use Rattle.merc_goal_facts.specs.Bounds.{Tells, AreApart};

    ghost Value = { List ℕ };

    ghost view = { λ s. s.trail.items };

    ghost invariant = { λ s. Tells s.table.items s.trail.items × AreApart s.trail.items };
}

impl BoundSet {
    /// Nothing is bound. It takes no memory.
    pub fn new(alloc: Global) -> BoundSet
        ensures { result ≡ [] }
    {
        BoundSet {
            table: Vec::new(alloc),
            trail: Vec::new(alloc),
            depth: 0,
        }
    }

    /// Goes into a goal, which `leave` leaves. What is bound stays.
    ///
    /// # Errors
    ///
    /// `NoMemory` where it would be in more goals at once than the stack surely has room for. The limit of nesting bounds
    /// how deep written goals stand in each other; but an if-then-else that is a disjunct holds all disjuncts behind it, so
    /// that a chain of `;` in which `C -> T` comes again and again is as deep as it is long.
    pub fn enter(&mut self) -> Result<(), NoMemory>
        ensures { self.new ≡ self.old }
    {
        if self.depth >= DEPTH_LIMIT {
            return Err(NoMemory);
        }
        self.depth += 1;
        Ok(())
    }

    /// Leaves the goal that was entered last. What is bound stays.
    pub fn leave(&mut self)
        ensures { self.new ≡ self.old }
    {
        self.depth = self.depth.saturating_sub(1);
    }

    /// Whether the variable is bound.
    pub fn is_bound(&self, variable: Var) -> bool
        ensures { result ≡ among self.now variable }
    {
        flag_at(&self.table, variable.number())
    }

    /// Whether all of these are bound.
    pub fn are_bound(&self, variables: &[Var]) -> bool
        ensures { result ≡ are_bound (among self.now) variables.now }
    {
        for variable in variables {
            if !self.is_bound(*variable) {
                return false;
            }
        }
        true
    }

    /// Binds the variable, if it is not bound.
    ///
    /// # Errors
    ///
    /// `NoMemory` where memory was refused; then the same variables are bound as before.
    pub fn bind(&mut self, variable: Var) -> Result<(), NoMemory>
        ensures ok { OnOk result (self.new ≡ behind self.old variable) }
        ensures err { OnErr result (self.new ≡ self.old) }
    {
        if self.is_bound(variable) {
            return Ok(());
        }
        make_room(&mut self.table, variable.number())?;
        self.trail.push(variable)?;
        self.table[variable.number()] = true;
        Ok(())
    }

    /// Binds those of the variables that are not bound, in their order.
    ///
    /// # Errors
    ///
    /// `NoMemory` where memory was refused.
    pub fn bind_all(&mut self, variables: &[Var]) -> Result<(), NoMemory>
        ensures { OnOk result (self.new ≡ all_behind self.old variables.now) }
    {
        for variable in variables {
            self.bind(*variable)?;
        }
        Ok(())
    }

    /// How many are bound: a mark to which `undo` goes back.
    pub fn mark(&self) -> usize
        ensures { result ≡ length self.now }
    {
        self.trail.len()
    }

    /// Those that were bound since the mark, in their order.
    pub fn since(&self, mark: usize) -> &[Var]
        requires { mark ≤ length self.now }
        ensures { result.now ≡ drop mark self.now }
    {
        &self.trail[mark..]
    }

    /// Makes those unbound that were bound since the mark.
    pub fn undo(&mut self, mark: usize)
        ensures { self.new ≡ take mark self.old }
    {
        unbind(&mut self.table, &mut self.trail, mark);
    }
}

// Whether the table has the number.
fn flag_at(table: &[bool], number: usize) -> bool
    ensures { result ≡ slice_index_or table.now number false }
{
    match table.get(number) {
        Some(flag) => *flag,
        None => false,
    }
}

// Makes the table long enough for the number.
fn make_room(table: &mut Vec<bool>, number: usize) -> Result<(), NoMemory>
    ensures same { (variable : ℕ) → slice_index_or table.new.items variable false ≡ slice_index_or table.old.items variable false }
    ensures room { OnOk result (number < length table.new.items) }
{
    while table.len() <= number {
        table.push(false)?;
    }
    Ok(())
}

// Unbinds the variables that stand in the trail behind the mark.
fn unbind(table: &mut [bool], trail: &mut Vec<Var>, mark: usize)
    requires tells { Tells table.old trail.old.items }
    requires apart { AreApart trail.old.items }
    ensures tells { Tells table.new trail.new.items }
    ensures apart { AreApart trail.new.items }
    ensures trail { trail.new.items ≡ take mark trail.old.items }
{
    while mark < trail.len() {
        unbind_last(table, trail);
    }
}

// Unbinds the last variable of the trail, if there is one.
fn unbind_last(table: &mut [bool], trail: &mut Vec<Var>)
    requires tells { Tells table.old trail.old.items }
    requires apart { AreApart trail.old.items }
    ensures tells { Tells table.new trail.new.items }
    ensures apart { AreApart trail.new.items }
    ensures trail { trail.new.items ≡ take (length trail.old.items - 1) trail.old.items }
{
    if let Some(last) = trail.pop() {
        table[last.number()] = false;
    }
}
