//! Machines that meet others, run by hand on one thread: each conjunct of a fork to its end before the next one, with the
//! values that they hand on in cells.
ghost use Rattle.std.specs.Prelude.{◌≡◌, ◌≤◌, not, IfNone, IfOk, IfSome, OnOk, Some};
ghost use Rattle.std.specs.Option.{is_some};
ghost use Rattle.merc_value.specs.Value.{Value};
ghost use Rattle.merc_meaning.specs.Trace.{RunEnd};
ghost use Rattle.merc_course.specs.Course.{AtFork, AtSignal, AtWait, Courses, Meets, Reply, RunCourse};
ghost use Rattle.merc_code.specs.declared.instruction.Instruction.TheVariants.{Fork, Wait, Signal};
ghost use Rattle.merc_machine.specs.Coming.{MeetsAt, all_left};
ghost use Rattle.merc_machine.specs.Running.{Means, steps_in, stop_by};
ghost use Rattle.merc_machine.specs.declared.running.Stop.TheVariants.{Answer, NoMemory as RefusedMemory};

use crate::rights::Rights;
use merc_base::NoMemory;
use merc_goal_tree::Var;
use merc_graded_tree::Site;
use merc_machine::{Machine, Stop, Ticks};
use merc_plan::Plan;
use merc_rights::SiteInfo;
use merc_script::Outcome;
use merc_script::joining::join_next;
use merc_value::Block;
use std::alloc::Global;

// The most steps that a machine makes at once: few, so that machines are often run on.
const SLICE: u32 = 7;

/// What machines share that are run by hand.
#[derive(Drop)]
pub struct Driver<'a> {
    alloc: Global,
    plan: &'a Plan,
    cells: Vec<Option<Block>>,
    /// The steps that all of them made.
    pub ticks: Ticks,
}

impl<'a> Driver<'a> {
    /// One without cells, for a program with this plan.
    pub fn new(alloc: Global, plan: &'a Plan) -> Driver<'a> {
        Driver {
            alloc,
            plan,
            cells: Vec::new(alloc),
            ticks: Ticks::new(),
        }
    }

    // Makes cells for a fork, and gives the number of the first one.
    fn lay(&mut self, info: &SiteInfo) -> Result<usize, NoMemory> {
        let first = self.cells.len();
        for _cell in info.cells.as_slice() {
            self.cells.push(None)?;
        }
        Ok(first)
    }

    // Takes the value of the cell at which a branch waits for a variable.
    fn take_value(&mut self, rights: &mut Rights, variable: Var) -> Option<Block> {
        let cell = rights.take_wait(variable)?;
        match self.cells.get_mut(cell) {
            Some(cell) => cell.take(),
            None => None,
        }
    }

    // Puts a value into the cell at which a branch signals a variable.
    fn put_value(
        &mut self,
        rights: &mut Rights,
        variable: Var,
        value: Block,
    ) -> Result<(), NoMemory> {
        let Some(number) = rights.take_signal(variable) else {
            return Err(NoMemory);
        };
        match self.cells.get_mut(number) {
            Some(cell) => {
                *cell = Some(value);
                Ok(())
            }
            None => Err(NoMemory),
        }
    }
}

/// Runs a machine up to its next answer or its end, and all conjuncts that are forked on the way, which may fork others up to
/// this depth. A right that is not there, or a conjunct that answers, is told as if memory had been refused.
#[cycle(going)]
pub fn run_on(
    driver: &mut Driver<'_>,
    machine: &mut Machine<'_>,
    rights: &mut Rights,
    depth: u32,
) -> Result<Stop, NoMemory>
    requires means { (course : RunCourse) × Means machine.old course }
    requires fits { all_left machine.old ≤ 18446744073709551615 }
    ensures means { IfOk result (λ stop. stop ≡ Answer → (course : RunCourse) × Means machine.new course) }
    ensures fits { IfOk result (λ stop. (stop ≡ RefusedMemory → ⊥) → all_left machine.new ≤ 18446744073709551615) }
{
    for _ in 0..u64::MAX {
        if let Some(stop) = go_on(driver, machine, rights, depth)? {
            return Ok(stop);
        }
    }
    Err(NoMemory)
}

// Runs a machine up to its next stop, and past it where it meets others there or the slice is over. Gives the stop where it is
// an answer or the end.
#[cycle(going)]
fn go_on(
    driver: &mut Driver<'_>,
    machine: &mut Machine<'_>,
    rights: &mut Rights,
    depth: u32,
) -> Result<Option<Stop>, NoMemory>
    requires means { (course : RunCourse) × Means machine.old course }
    requires fits { all_left machine.old ≤ 18446744073709551615 }
    ensures goes_on { IfOk result (λ stop. IfNone stop ((course : RunCourse) × Means machine.new course)) }
    ensures means { IfOk result (λ stop. stop ≡ Some Answer → (course : RunCourse) × Means machine.new course) }
    ensures fits { IfOk result (λ stop. (stop ≡ Some RefusedMemory → ⊥) → all_left machine.new ≤ 18446744073709551615) }
{
    match machine.run(SLICE, &mut driver.ticks) {
        Stop::SliceOver => Ok(None),
        Stop::AtFork(site) => run_fork(driver, machine, rights, site, depth),
        Stop::AtWait(variable) => wait(driver, machine, rights, variable),
        Stop::AtSignal(variable) => signal(driver, machine, rights, variable),
        stop => Ok(Some(stop)),
    }
}

// Runs the conjuncts of the fork at which a machine stands, and goes on behind it. Gives the stop where that ends the machine.
#[cycle(going)]
fn run_fork(
    driver: &mut Driver<'_>,
    machine: &mut Machine<'_>,
    rights: &mut Rights,
    site: Site,
    depth: u32,
) -> Result<Option<Stop>, NoMemory>
    requires at { MeetsAt machine.old (Fork site) }
    requires means { (forked : Courses RunEnd) × (next : Reply → RunCourse) × Means machine.old (Meets (AtFork site.number) forked next) }
    requires fits { all_left machine.old ≤ 18446744073709551615 }
    ensures goes_on { IfOk result (λ stop. IfNone stop ((course : RunCourse) × Means machine.new course)) }
    ensures means { IfOk result (λ stop. stop ≡ Some Answer → (course : RunCourse) × Means machine.new course) }
    ensures fits { IfOk result (λ stop. (stop ≡ Some RefusedMemory → ⊥) → all_left machine.new ≤ 18446744073709551615) }
{
    let outcome = run_conjuncts(driver, machine, rights, site, depth)?;
    Ok(join_at(machine, site, outcome, &mut driver.ticks))
}

// Goes on behind a fork whose conjuncts are joined to this outcome. Gives the stop where that ends the machine.
fn join_at(
    machine: &mut Machine<'_>,
    site: Site,
    outcome: Outcome,
    ticks: &mut Ticks,
) -> Option<Stop>
    requires at { MeetsAt machine.old (Fork site) }
    requires means { (forked : Courses RunEnd) × (next : Reply → RunCourse) × Means machine.old (Meets (AtFork site.number) forked next) }
    requires within { steps_in outcome ≤ all_left machine.old }
    ensures goes_on { IfNone result ((course : RunCourse) × Means machine.new course) }
    ensures ends { result ≡ Some Answer → ⊥ }
    ensures spends { all_left machine.new ≤ all_left machine.old }
{
    let is_fine = is_fine(&outcome);
    machine.rejoin(site, outcome);
    if is_fine {
        return None;
    }
    Some(machine.run(SLICE, ticks))
}

// Whether a machine goes on behind a fork of this outcome.
fn is_fine(outcome: &Outcome) -> bool
    ensures { is_some (stop_by outcome.now) ≡ not result }
{
    match outcome {
        Outcome::Ok(_) => true,
        Outcome::Raise(..) | Outcome::Limit | Outcome::Starved | Outcome::NoMemory => false,
    }
}

// The outcome to which the conjuncts of the fork at which a machine stands are joined.
#[cycle(going)]
fn run_conjuncts(
    driver: &mut Driver<'_>,
    machine: &Machine<'_>,
    rights: &mut Rights,
    site: Site,
    depth: u32,
) -> Result<Outcome, NoMemory>
    requires at { MeetsAt machine.now (Fork site) }
    requires means { (forked : Courses RunEnd) × (next : Reply → RunCourse) × Means machine.now (Meets (AtFork site.number) forked next) }
    requires fits { all_left machine.now ≤ 18446744073709551615 }
    ensures within { IfOk result (λ outcome. steps_in outcome ≤ all_left machine.now) }
{
    let Some(info) = driver.plan.site(site) else {
        return Err(NoMemory);
    };
    let first = driver.lay(info)?;
    let mut outcome = Outcome::Ok(0);
    for number in 0..info.children {
        let next = run_conjunct(driver, machine, rights, info, site, first, number, depth)?;
        outcome = join_next(machine.left(), outcome, next);
    }
    keep_rights(driver.alloc, rights, info, first)?;
    Ok(outcome)
}

// Leaves a branch behind a fork the rights that it did not hand out, and those to the fork's cells.
fn keep_rights(
    alloc: Global,
    rights: &mut Rights,
    info: &SiteInfo,
    first: usize,
) -> Result<(), NoMemory> {
    *rights = rights_of(alloc, rights, info, first, 0)?;
    Ok(())
}

// The rights of a conjunct of a fork, or, for 0, of what goes on behind it.
fn rights_of(
    alloc: Global,
    parent: &Rights,
    info: &SiteInfo,
    first: usize,
    conjunct: usize,
) -> Result<Rights, NoMemory> {
    let mut rights = Rights::new(alloc);
    rights.add(info, first, conjunct)?;
    rights.add_moved(info.moves.as_slice(), parent, conjunct)?;
    Ok(rights)
}

// The outcome of a conjunct, by its number from 0, of the fork at which a machine stands.
#[cycle(going)]
fn run_conjunct(
    driver: &mut Driver<'_>,
    parent: &Machine<'_>,
    rights: &Rights,
    info: &SiteInfo,
    site: Site,
    first: usize,
    number: usize,
    depth: u32,
) -> Result<Outcome, NoMemory>
    requires at { MeetsAt parent.now (Fork site) }
    requires means { (forked : Courses RunEnd) × (next : Reply → RunCourse) × Means parent.now (Meets (AtFork site.number) forked next) }
    requires fits { all_left parent.now ≤ 18446744073709551615 }
{
    if depth == 0 || !parent.has_child(site, number) {
        return Err(NoMemory);
    }
    let mut own = rights_of(driver.alloc, rights, info, first, number.wrapping_add(1))?;
    let mut child = parent.child(driver.alloc, site, number)?;
    let outcome = match run_on(driver, &mut child, &mut own, depth - 1) {
        Ok(stop) => Ok(outcome_of(stop, &child)),
        Err(NoMemory) => Err(NoMemory),
    };
    // (calls, since it costs much to prove what is dropped)
    drop(child);
    drop(own);
    outcome
}

/// The outcome of a conjunct whose machine came to this stop.
pub fn outcome_of(stop: Stop, machine: &Machine<'_>) -> Outcome
    requires fits { (stop ≡ RefusedMemory → ⊥) → all_left machine.now ≤ 18446744073709551615 }
{
    match stop {
        Stop::Ended => Outcome::Ok(machine.used()),
        Stop::Raised(text) => Outcome::Raise(text, machine.used()),
        Stop::LimitPassed => Outcome::Limit,
        Stop::Starved => Outcome::Starved,
        _ => Outcome::NoMemory,
    }
}

// Gives a machine the value for which it waits, and goes on behind the wait. Where no value comes, it ends, and this gives the
// stop.
fn wait(
    driver: &mut Driver<'_>,
    machine: &mut Machine<'_>,
    rights: &mut Rights,
    variable: Var,
) -> Result<Option<Stop>, NoMemory>
    requires at { MeetsAt machine.old (Wait variable) }
    requires means { (forked : Courses RunEnd) × (next : Reply → RunCourse) × Means machine.old (Meets (AtWait variable) forked next) }
    ensures goes_on { IfOk result (λ stop. IfNone stop ((course : RunCourse) × Means machine.new course)) }
    ensures ends { IfOk result (λ stop. stop ≡ Some Answer → ⊥) }
    ensures spends { IfOk result (λ stop. all_left machine.new ≡ all_left machine.old) }
{
    match driver.take_value(rights, variable) {
        Some(value) => {
            let given = give(machine, variable, &value);
            drop(value);
            given.and(Ok(None))
        }
        None => {
            machine.starve();
            Ok(Some(machine.run(SLICE, &mut driver.ticks)))
        }
    }
}

// Gives a machine a value for which it waits, and goes on behind the wait.
fn give(machine: &mut Machine<'_>, variable: Var, value: &Block) -> Result<(), NoMemory>
    requires at { MeetsAt machine.old (Wait variable) }
    requires means { (forked : Courses RunEnd) × (next : Reply → RunCourse) × Means machine.old (Meets (AtWait variable) forked next) }
    ensures goes_on { OnOk result ((course : RunCourse) × Means machine.new course) }
    ensures spends { OnOk result (all_left machine.new ≡ all_left machine.old) }
{
    if value.roots().len() != 1 {
        return Err(NoMemory);
    }
    machine.give(variable, value)
}

// Hands on the value that a machine signals, and goes on behind the signal.
fn signal(
    driver: &mut Driver<'_>,
    machine: &mut Machine<'_>,
    rights: &mut Rights,
    variable: Var,
) -> Result<Option<Stop>, NoMemory>
    requires at { MeetsAt machine.old (Signal variable) }
    requires means { (value : Value) × (forked : Courses RunEnd) × (next : Reply → RunCourse) × Means machine.old (Meets (AtSignal variable value) forked next) }
    ensures goes_on { IfOk result (λ stop. (course : RunCourse) × Means machine.new course) }
    ensures ends { IfOk result (λ stop. IfSome stop (λ last. ⊥)) }
    ensures spends { IfOk result (λ stop. all_left machine.new ≡ all_left machine.old) }
{
    let value = machine.value_of(driver.alloc, variable)?;
    driver.put_value(rights, variable, value)?;
    Ok(None)
}
