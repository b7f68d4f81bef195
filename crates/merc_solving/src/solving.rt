//! Runs of goals, whose lines are written as the answers come.
ghost use Rattle.std.specs.Prelude.{◌≡◌, ◌<◌, ℕ, List, [], ◌∷◌, suc, IfOk};
ghost use Rattle.merc_meaning.specs.Trace.{Env, Run, RunDone};
ghost use Rattle.merc_course.specs.Course.{whole};
ghost use Rattle.merc_machine.specs.Running.{HasAnswered, Means};
ghost use Rattle.merc_transfer.specs.Writing.{Writes};
ghost use Rattle.merc_solving.specs.Ready.{Makes};
ghost use Rattle.merc_solving.specs.RunLines.{end_status, solution_line};
ghost use Rattle.merc_solving.specs.Solving.{PutsStop, Solves, StopsAlone};

use crate::lines::{exception_line, solution_line, solutions_line, step_limit_line, stopped_line};
use merc_base::{Name, Names, NoMemory, Sequence, Sink, Text};
use merc_load::Loaded;
use merc_machine::{Machine, Stop, Ticks};
use merc_transfer::{Cut, put_line, statuses};
use std::alloc::Global;

// The most steps that a machine makes at once.
const SLICE: u32 = u32::MAX;

/// What is ready to run.
#[derive(Drop)]
pub struct Ready {
    /// The texts of names.
    pub names: Names,
    /// The names of the variables that the answers give values.
    pub variables: Sequence<Name>,
    /// The code of the module and of the goal.
    pub program: Loaded,
    /// The steps that the run may take.
    pub steps: u64,
    /// The answers behind which the run is stopped, where a number of them is given.
    pub most: Option<u64>,
}

/// Runs a goal, and writes the line of each answer as it comes, and the end line last. Behind the last answer that is wanted
/// nothing further is looked for. Answers the status of the run. The sink's count of faults can still rise.
///
/// # Errors
///
/// Why the lines were not all written: a write failed, or memory was refused. A front of the text was written.
pub fn run<K: Sink>(
    alloc: Global,
    ready: &Ready,
    sink: &mut K,
    ticks: &mut Ticks,
) -> Result<u8, Cut>
    requires sink { (K.sink_state sink.old).faults < 18446744073709551615 }
    requires makes { (asked : Run) × Makes ready.now asked }
    ensures { (asked : Run) → Makes ready.now asked → Solves ready.now.names ready.now.variables ready.now.most asked (K.sink_state sink.old) (K.sink_state sink.new) ticks.old ticks.new result }
{
    let mut machine = Machine::start(alloc, &ready.program, ready.steps)?;
    put_run(alloc, ready, &mut machine, sink, ticks)
}

// Writes the lines of the run that a machine has before it, with those names and up to that bound. It meets nobody.
fn put_run<K: Sink>(
    alloc: Global,
    ready: &Ready,
    machine: &mut Machine<'_>,
    sink: &mut K,
    ticks: &mut Ticks,
) -> Result<u8, Cut>
    requires sink { (K.sink_state sink.old).faults < 18446744073709551615 }
    requires means { (asked : Run) × Means machine.old (whole asked) }
    ensures { (asked : Run) → Means machine.old (whole asked) → Solves ready.now.names ready.now.variables ready.now.most asked (K.sink_state sink.old) (K.sink_state sink.new) ticks.old ticks.new result }
{
    let mut count = 0;
    for _ in 0..u64::MAX {
        if ready.most == Some(count) {
            return put_end(sink, statuses::SOLVED, stopped_line(alloc, count));
        }
        match machine.run(SLICE, ticks) {
            Stop::Answer => {
                put_answer(alloc, ready, machine, sink)?;
                count = next_count(count)?;
            }
            Stop::SliceOver => continue,
            stop => return put_stop(alloc, &ready.names, stop, count, sink),
        }
    }
    Err(Cut::NoMemory)
}

// Writes the line of the answer that a machine stands at.
fn put_answer<K: Sink>(
    alloc: Global,
    ready: &Ready,
    machine: &Machine<'_>,
    sink: &mut K,
) -> Result<(), Cut>
    requires { (K.sink_state sink.old).faults < 18446744073709551615 }
    ensures { (values : Env) → HasAnswered machine.now values → Writes (solution_line ready.now.names ready.now.variables values ∷ []) (K.sink_state sink.old) (K.sink_state sink.new) result }
{
    let values = machine.answer(alloc)?;
    let line = solution_line(alloc, &ready.names, ready.variables.as_slice(), &values)?;
    put_line(sink, &line)
}

// Writes the line of a stop behind which the run does not go on, where it has so many answers and meets nobody.
fn put_stop<K: Sink>(
    alloc: Global,
    names: &Names,
    stop: Stop,
    count: u64,
    sink: &mut K,
) -> Result<u8, Cut>
    requires sink { (K.sink_state sink.old).faults < 18446744073709551615 }
    requires alone { StopsAlone stop }
    ensures { PutsStop names.now count stop (K.sink_state sink.old) (K.sink_state sink.new) result }
{
    match stop {
        Stop::Ended => put_end(sink, ended_status(count), solutions_line(alloc, count)),
        Stop::Raised(text) => put_end(sink, statuses::RAISED, exception_line(alloc, names, text)),
        Stop::LimitPassed => put_end(sink, statuses::LIMIT_PASSED, step_limit_line(alloc)),
        Stop::Answer | Stop::SliceOver | Stop::NoMemory => Err(Cut::NoMemory),
        Stop::Starved | Stop::AtFork(_) | Stop::AtWait(_) | Stop::AtSignal(_) => unreachable!(),
    }
}

// Writes the line that ends a run of this status, where there was memory for it.
fn put_end<K: Sink>(sink: &mut K, status: u8, line: Result<Text, NoMemory>) -> Result<u8, Cut>
    requires { (K.sink_state sink.old).faults < 18446744073709551615 }
    ensures writes { (text : List ℕ) → IfOk line (λ made. made ≡ text) → Writes (text ∷ []) (K.sink_state sink.old) (K.sink_state sink.new) result }
    ensures status { IfOk result (λ told. told ≡ status) }
{
    put_line(sink, &line?)?;
    Ok(status)
}

// The status of a run with so many answers and no further one.
fn ended_status(count: u64) -> u8
    ensures { result ≡ end_status count RunDone }
{
    if count == 0 {
        statuses::UNSOLVED
    } else {
        statuses::SOLVED
    }
}

// The number of answers with one more.
fn next_count(count: u64) -> Result<u64, NoMemory>
    ensures { IfOk result (λ next. next ≡ suc count) }
{
    match count.checked_add(1) {
        Some(next) => Ok(next),
        // no run comes to so many
        None => Err(NoMemory),
    }
}
