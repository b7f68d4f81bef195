//! Goals that are not ready, and variables of which one has to be bound before they are.
ghost use Rattle.std.specs.Prelude.{◌≡◌, ◌≤◌, ◌<◌, ℕ, true, length, OnOk, IfOk, IfSome};
ghost use Rattle.std.specs.List.{slice_range};
ghost use Rattle.merc_goal_tree.specs.Parts.{parts_of};
ghost use Rattle.merc_order.specs.Bound.{among};
ghost use Rattle.merc_goal_order.specs.Watching.{none_bound, is_shut, watched_at, LiesIn, AreFree, TellsWatch, KeepsWatch};

use crate::parallel::is_ready;
use crate::walking::{PlacedGoal, Setting};
use merc_base::NoMemory;
use merc_goal_facts::{BoundSet, Facts};
use merc_goal_tree::{NodeView, Var, Vars};
use std::alloc::Global;

/// So often a variable of a goal is bound before it is looked which of them are to be watched: so looking adds little to what
/// asking takes. It is twice as often each time that watching did not pay.
const PRICE: usize = 128;

/// So often it is tried at most to leave some of the variables out that are watched.
const MOST_CUTS: usize = 64;

/// For goals of a conjunction, by their index, variables of which one has to be bound before the goal is ready. A goal for
/// which there are none may be ready at any time.
#[derive(Drop)]
pub(crate) struct Watches {
    variables: Vec<Vars>,
    // by the goal's index too; no contract speaks of it
    accounts: Vec<Account>,
}

// What became of a goal each time that one of its variables was bound, since it was looked which are to be watched.
#[derive(Clone, Copy)]
struct Account {
    asked: usize,
    // It was not asked, since none of those was bound that are watched.
    passed: usize,
    // It is looked again once both are so many.
    price: usize,
}

// Some of a list of variables: those from one index on and before another.
#[derive(Clone, Copy)]
pub(crate) struct Stretch {
    pub(crate) low: usize,
    pub(crate) high: usize,
}

impl Watches {
    /// No goal is watched. It takes no memory.
    pub(crate) fn new(alloc: Global) -> Watches
        ensures { length result.variables.items ≡ 0 }
    {
        Watches {
            variables: Vec::new(alloc),
            accounts: Vec::new(alloc),
        }
    }

    /// Whether the goal of an index is surely not ready, since none of the variables is bound of which one has to be.
    pub(crate) fn is_shut(&mut self, index: usize, bound: &BoundSet) -> bool
        ensures same { self.new.variables ≡ self.old.variables }
        ensures shut { result ≡ is_shut (watched_at self.old.variables.items index) (among bound.now) }
    {
        let shut = is_watch_shut(&self.variables, index, bound);
        if shut && index < self.accounts.len() {
            let account = self.accounts[index];
            self.accounts[index] = Account {
                asked: account.asked,
                passed: account.passed.saturating_add(1),
                price: account.price,
            };
        }
        shut
    }

    /// Looks for few variables of which one has to be bound before the goal of an index is ready, which was asked.
    ///
    /// # Errors
    ///
    /// `NoMemory` where memory was refused, or goals stand in each other deeper than `BoundSet::enter` lets them.
    pub(crate) fn watch(
        &mut self,
        setting: &Setting<'_>,
        placed: &PlacedGoal<'_>,
        index: usize,
        bound: &mut BoundSet,
    ) -> Result<(), NoMemory>
        requires known { length placed.now.facts.now ≡ length (parts_of placed.now.goal.now) }
        ensures same { OnOk result (bound.new ≡ bound.old) }
        ensures keeps { OnOk result (KeepsWatch setting.now.predicates.now placed.now.goal.now placed.now.facts.now index self.old.variables.items self.new.variables.items) }
    {
        if !is_dear(placed, bound) {
            return Ok(());
        }
        if !is_due(&mut self.accounts, index)? {
            return Ok(());
        }
        let free = unbound_in(setting.alloc, placed.facts, bound)?;
        let watched = narrowed(setting, placed, free.as_slice(), bound)?;
        make_room(setting.alloc, &mut self.variables, index)?;
        self.variables[index] = watched;
        Ok(())
    }
}

// Whether the goal of an index is watched and none of its variables that are watched is bound.
fn is_watch_shut(watched: &[Vars], index: usize, bound: &BoundSet) -> bool
    ensures { result ≡ is_shut (watched_at watched.now index) (among bound.now) }
{
    match watched.get(index) {
        Some(variables) => {
            !variables.as_slice().is_empty() && are_unbound(variables.as_slice(), bound)
        }
        None => false,
    }
}

// Whether none of these is bound.
fn are_unbound(variables: &[Var], bound: &BoundSet) -> bool
    ensures { result ≡ none_bound variables.now (among bound.now) }
{
    for variable in variables {
        if bound.is_bound(*variable) {
            return false;
        }
    }
    true
}

// Whether it takes long to ask the goal: it joins others, and has what is looked at before these are asked.
fn is_dear(placed: &PlacedGoal<'_>, bound: &BoundSet) -> bool
    requires known { length placed.now.facts.now ≡ length (parts_of placed.now.goal.now) }
    ensures { result ≡ true → 1 < length (parts_of placed.now.goal.now) }
{
    let facts = placed.facts;
    let count = facts.len();
    if count < 2 {
        return false;
    }
    let own = &facts[count - 1];
    if !bound.are_bound(own.needs.as_slice()) {
        return false;
    }
    match placed.goal.view() {
        NodeView::Disjunction(_) | NodeView::Conditional(_, _, _) => {
            bound.are_bound(own.owed.as_slice())
        }
        _ => true,
    }
}

// Whether it is to be looked which variables of the goal of an index are watched, which was asked once more.
fn is_due(accounts: &mut Vec<Account>, index: usize) -> Result<bool, NoMemory>
    ensures { OnOk result (index < length accounts.new.items) }
{
    while accounts.len() <= index {
        accounts.push(opened(PRICE))?;
    }
    let account = accounts[index];
    let asked = account.asked.saturating_add(1);
    let due = account.price <= asked.saturating_add(account.passed);
    accounts[index] = if !due {
        Account {
            asked,
            passed: account.passed,
            price: account.price,
        }
    } else if asked <= account.passed {
        opened(PRICE)
    } else {
        opened(account.price.saturating_add(account.price))
    };
    Ok(due)
}

// What is known of a goal that has this price.
fn opened(price: usize) -> Account
    ensures { result.price ≡ price }
{
    Account {
        asked: 0,
        passed: 0,
        price,
    }
}

// Makes the list long enough for the index.
fn make_room(alloc: Global, watched: &mut Vec<Vars>, index: usize) -> Result<(), NoMemory>
    ensures same { (other : ℕ) → watched_at watched.new.items other ≡ watched_at watched.old.items other }
    ensures room { OnOk result (index < length watched.new.items) }
{
    while watched.len() <= index {
        watched.push(Vars::new(alloc))?;
    }
    Ok(())
}

// The variables of a goal that are not bound, by what is known of its parts.
fn unbound_in(alloc: Global, facts: &[Facts], bound: &mut BoundSet) -> Result<Vars, NoMemory>
    ensures same { OnOk result (bound.new ≡ bound.old) }
    ensures all { IfOk result (λ free. AreFree facts.now (among bound.old) free) }
{
    let known = bound.mark();
    for found in facts {
        bound.bind_all(found.binds.as_slice())?;
    }
    let free = Vars::from_vec(Vec::from_slice(alloc, bound.since(known))?);
    bound.undo(known);
    Ok(free)
}

// Few of a goal's variables that are not bound, of which one has to be bound before it is ready; none where the goal is.
fn narrowed(
    setting: &Setting<'_>,
    placed: &PlacedGoal<'_>,
    free: &[Var],
    bound: &mut BoundSet,
) -> Result<Vars, NoMemory>
    requires known { length placed.now.facts.now ≡ length (parts_of placed.now.goal.now) }
    ensures same { OnOk result (bound.new ≡ bound.old) }
    ensures tells { IfOk result (λ watched. TellsWatch setting.now.predicates.now placed.now.goal.now placed.now.facts.now free.now (among bound.old) watched) }
{
    let mut watched = Stretch {
        low: 0,
        high: free.len(),
    };
    if !is_stuck(setting, placed, free, watched, bound)? {
        return Ok(Vars::new(setting.alloc));
    }
    let mut cut = free.len() / 2;
    for round in 0..MOST_CUTS {
        if cut == 0 {
            return taken(setting.alloc, free, watched);
        }
        match shorter(setting, placed, free, watched, cut, round, bound)? {
            Some(part) => {
                watched = part;
                cut = cut.min(part.high.saturating_sub(part.low) / 2);
            }
            None => cut /= 2,
        }
    }
    taken(setting.alloc, free, watched)
}

// These of the variables.
fn taken(alloc: Global, free: &[Var], watched: Stretch) -> Result<Vars, NoMemory>
    requires lies { LiesIn watched free.now }
    ensures { IfOk result (λ variables. variables ≡ slice_range free.now watched.low watched.high) }
{
    let variables = &free[watched.low..watched.high];
    Ok(Vars::from_vec(Vec::from_slice(alloc, variables)?))
}

// Fewer of these variables of which one has to be bound, too: so many are left out, in turn the first are tried before the
// last and behind them.
fn shorter(
    setting: &Setting<'_>,
    placed: &PlacedGoal<'_>,
    free: &[Var],
    watched: Stretch,
    cut: usize,
    round: usize,
    bound: &mut BoundSet,
) -> Result<Option<Stretch>, NoMemory>
    requires known { length placed.now.facts.now ≡ length (parts_of placed.now.goal.now) }
    requires lies { LiesIn watched free.now }
    ensures same { OnOk result (bound.new ≡ bound.old) }
    ensures part { IfOk result (λ part. IfSome part (λ part. LiesIn part free.now × TellsWatch setting.now.predicates.now placed.now.goal.now placed.now.facts.now free.now (among bound.old) (slice_range free.now part.low part.high))) }
{
    let first = round % 2 == 0;
    let one = without(watched, cut, first);
    if is_stuck(setting, placed, free, one, bound)? {
        return Ok(Some(one));
    }
    let other = without(watched, cut, !first);
    if is_stuck(setting, placed, free, other, bound)? {
        return Ok(Some(other));
    }
    Ok(None)
}

// A stretch without so many of its items, the first or the last.
fn without(whole: Stretch, count: usize, first: bool) -> Stretch
    requires { whole.low ≤ whole.high }
    ensures { (result.low ≤ result.high) × (result.high ≤ whole.high) }
{
    if whole.high - whole.low < count {
        whole
    } else if first {
        Stretch {
            low: whole.low + count,
            high: whole.high,
        }
    } else {
        Stretch {
            low: whole.low,
            high: whole.high - count,
        }
    }
}

// Whether the goal is not ready even where all but some of these variables are bound.
fn is_stuck(
    setting: &Setting<'_>,
    placed: &PlacedGoal<'_>,
    free: &[Var],
    watched: Stretch,
    bound: &mut BoundSet,
) -> Result<bool, NoMemory>
    requires known { length placed.now.facts.now ≡ length (parts_of placed.now.goal.now) }
    requires placed { LiesIn watched free.now }
    ensures same { OnOk result (bound.new ≡ bound.old) }
    ensures stuck { IfOk result (λ stuck. stuck ≡ true → TellsWatch setting.now.predicates.now placed.now.goal.now placed.now.facts.now free.now (among bound.old) (slice_range free.now watched.low watched.high)) }
{
    let mut marks = vec![in setting.alloc; false; placed.facts.len()]?;
    let known = bound.mark();
    bound.bind_all(&free[..watched.low])?;
    bound.bind_all(&free[watched.high..])?;
    let ready = is_ready(setting, placed.goal, placed.facts, &mut marks, bound)?;
    bound.undo(known);
    Ok(!ready)
}
