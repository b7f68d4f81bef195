//! Goals over a module, made ready to be run with their forks, and the lines to which they come.
ghost use Rattle.std.specs.Prelude.{◌≡◌, ◌≤◌, ◌<◌, ◌∷◌, [], ℕ, List, IfOk, length};
ghost use Rattle.merc_graded_tree.specs.Nodes.{Node};
ghost use Rattle.merc_course.specs.Course.{RunCourse};
ghost use Rattle.merc_par_split.specs.Split.{split, all_split};
ghost use Rattle.merc_par_split.specs.Sites.{all_sites};
ghost use Rattle.merc_code.specs.Meaning.{start};
ghost use Rattle.merc_code.specs.Steps.{Code, Codes};
ghost use Rattle.merc_last_calls.specs.LeanMeaning.{YieldsLean};
ghost use Rattle.merc_load.specs.Loaded.{IsProgram};
ghost use Rattle.merc_machine.specs.Coming.{all_left};
ghost use Rattle.merc_machine.specs.Running.{Means};

use crate::driving::{Driver, run_on};
use crate::rights::Rights;
use merc_base::{Name, Names, NoMemory, Sequence, Text};
use merc_check::{Checked, Query, check, check_query};
use merc_gen::generate;
use merc_goal_tree::Vars;
use merc_graded_tree::Nodes;
use merc_load::{Loaded, load};
use merc_machine::{Machine, Stop};
use merc_par_split::{Split, split};
use merc_plan::Plan;
use merc_value::{Block, text_of, write_text};
use std::alloc::Global;
use std::test::Fail;

// Forks are nested up to this depth.
const DEPTH: u32 = 100;

/// A goal over a module.
#[derive(Drop)]
pub struct Question {
    names: Names,
    // the names of the variables that the answers give values
    variables: Sequence<Name>,
    /// What stands at the sites of the module and of the goal.
    pub plan: Plan,
    /// The code of both.
    pub program: Loaded,
}

/// A goal over a module, of these texts.
pub fn asked(alloc: Global, text: &[u8], goal: &[u8]) -> Result<Question, Fail>
    requires { length text.now ≤ 300000000 }
    ensures { IfOk result (λ question. (codes : Codes) × (query : Code) × IsProgram question.program codes query × ((limit : ℕ) → (course : RunCourse) × YieldsLean codes (start query limit) course)) }
{
    let text = Text::of(alloc, text)?;
    let mut names = Names::new(alloc);
    let checked = check(alloc, &text, &mut names);
    // (calls, here and below, since it costs much to prove what is dropped)
    drop(text);
    match checked {
        Ok(checked) => {
            let asked = asked_over(alloc, names, &checked, goal);
            drop(checked);
            asked
        }
        Err(_) => {
            drop(names);
            Err(Fail::new("the module is refused"))
        }
    }
}

// The same over a module that is accepted.
fn asked_over(
    alloc: Global,
    mut names: Names,
    checked: &Checked,
    goal: &[u8],
) -> Result<Question, Fail>
    ensures { IfOk result (λ question. (codes : Codes) × (query : Code) × IsProgram question.program codes query × ((limit : ℕ) → (course : RunCourse) × YieldsLean codes (start query limit) course)) }
{
    let goal = Text::of(alloc, goal)?;
    let query = check_query(alloc, checked, &goal, &mut names);
    drop(goal);
    match query {
        Ok(query) => Ok(ready(alloc, names, checked, query)?),
        Err(_) => {
            drop(names);
            Err(Fail::new("the goal is refused"))
        }
    }
}

// The same of a goal that is accepted.
fn ready(alloc: Global, names: Names, checked: &Checked, query: Query) -> Result<Question, NoMemory>
    ensures { IfOk result (λ question. (codes : Codes) × (query : Code) × IsProgram question.program codes query × ((limit : ℕ) → (course : RunCourse) × YieldsLean codes (start query limit) course)) }
{
    let Query {
        goal,
        trees,
        answers,
        names: variables,
    } = query;
    drop(goal);
    let planned = planned(alloc, checked, &trees, answers);
    drop(trees);
    match planned {
        Ok((plan, program)) => Ok(Question {
            names,
            variables,
            plan,
            program,
        }),
        Err(refused) => {
            drop(variables);
            drop(names);
            Err(refused)
        }
    }
}

// What stands at the sites of a module and of a goal whose tree is alone in its list, and the code of both.
fn planned(
    alloc: Global,
    checked: &Checked,
    trees: &Nodes,
    answers: Vars,
) -> Result<(Plan, Loaded), NoMemory>
    ensures { IfOk result (λ planned. (codes : Codes) × (query : Code) × IsProgram planned.1 codes query × ((limit : ℕ) → (course : RunCourse) × YieldsLean codes (start query limit) course)) }
{
    let (all, goals) = split_with(alloc, checked.trees(), trees)?;
    let plan = Plan::of(alloc, &all)?;
    let program = loaded(alloc, checked, &all.trees, &goals, answers)?;
    Ok((plan, program))
}

// The split trees of procedures, and of a goal whose tree is alone in its list, with the sites of both.
fn split_with(alloc: Global, procedures: &Nodes, goals: &Nodes) -> Result<(Split, Nodes), NoMemory>
    ensures procedures { IfOk result (λ both. both.0.trees ≡ all_split 0 procedures.now) }
    ensures goal { IfOk result (λ both. (goal : Node) × (both.1 ≡ split (length (all_sites procedures.now)) goal ∷ [])) }
{
    let Some(goal) = goals.get(0) else {
        return Err(NoMemory);
    };
    let Split { trees, sites } = Split::of(alloc, procedures)?;
    let mut sites = sites.into_vec();
    let mut split_goals = Nodes::new(alloc);
    split(alloc, &goal, &mut split_goals, &mut sites)?;
    let sites = Sequence::from_vec(sites);
    Ok((Split { trees, sites }, split_goals))
}

// The code of split trees, and of a split goal whose tree is alone in its list.
fn loaded(
    alloc: Global,
    checked: &Checked,
    procedures: &Nodes,
    goals: &Nodes,
    answers: Vars,
) -> Result<Loaded, NoMemory>
    ensures { IfOk result (λ program. (trees : List Node) (goal : Node) → procedures.now ≡ all_split 0 trees → goals.now ≡ split (length (all_sites trees)) goal ∷ []
        → (codes : Codes) × (query : Code) × IsProgram program codes query × ((limit : ℕ) → (course : RunCourse) × YieldsLean codes (start query limit) course)) }
{
    let goal = match goals.get(0) {
        Some(goal) => goal,
        None => return Err(NoMemory),
    };
    let preds = checked.module().preds.as_slice();
    let code = generate(alloc, preds, procedures, &goal, answers)?;
    load(alloc, code)
}

/// What a goal comes to.
#[derive(Drop)]
pub struct Found {
    /// The line of each answer, and the end line.
    pub lines: Text,
    /// The steps that the goal's machine counts, those of its conjuncts among them.
    pub steps: u64,
    /// The steps that all machines made.
    pub ticks: u64,
}

/// What a goal comes to in at most so many steps.
pub fn told(alloc: Global, question: &Question, limit: u64) -> Result<Found, NoMemory>
    requires { (codes : Codes) × (query : Code) × IsProgram question.now.program codes query × ((limit : ℕ) → (course : RunCourse) × YieldsLean codes (start query limit) course) }
{
    let mut machine = Machine::start(alloc, &question.program, limit)?;
    let told = told_of(alloc, question, &mut machine);
    drop(machine);
    told
}

// What a goal comes to whose machine is this one.
fn told_of(alloc: Global, question: &Question, machine: &mut Machine<'_>) -> Result<Found, NoMemory>
    requires means { (course : RunCourse) × Means machine.old course }
    requires fits { all_left machine.old ≤ 18446744073709551615 }
{
    let mut driver = Driver::new(alloc, &question.plan);
    let told = told_by(alloc, question, machine, &mut driver);
    drop(driver);
    told
}

// The same with a driver that has done nothing yet.
fn told_by(
    alloc: Global,
    question: &Question,
    machine: &mut Machine<'_>,
    driver: &mut Driver<'_>,
) -> Result<Found, NoMemory>
    requires means { (course : RunCourse) × Means machine.old course }
    requires fits { all_left machine.old ≤ 18446744073709551615 }
{
    let mut lines = Text::new(alloc);
    let mut rights = Rights::new(alloc);
    let steps = put_lines(alloc, question, machine, driver, &mut rights, &mut lines);
    drop(rights);
    match steps {
        Ok(steps) => Ok(Found {
            lines,
            steps,
            ticks: driver.ticks.count(),
        }),
        Err(refused) => {
            drop(lines);
            Err(refused)
        }
    }
}

// Puts the line of each answer to which a machine comes, and the end line. Gives the steps that it counts then.
fn put_lines(
    alloc: Global,
    question: &Question,
    machine: &mut Machine<'_>,
    driver: &mut Driver<'_>,
    rights: &mut Rights,
    lines: &mut Text,
) -> Result<u64, NoMemory>
    requires means { (course : RunCourse) × Means machine.old course }
    requires fits { all_left machine.old ≤ 18446744073709551615 }
{
    let mut count = 0u64;
    for _ in 0..u64::MAX {
        match run_on(driver, machine, rights, DEPTH)? {
            Stop::Answer => {
                put_answer(alloc, question, machine, lines)?;
                count = count.wrapping_add(1);
            }
            Stop::NoMemory => return Err(NoMemory),
            stop => {
                put_end(alloc, question, stop, count, lines)?;
                return Ok(machine.used());
            }
        }
    }
    Err(NoMemory)
}

// Puts the line of the answer at which a machine stands.
fn put_answer(
    alloc: Global,
    question: &Question,
    machine: &Machine<'_>,
    lines: &mut Text,
) -> Result<(), NoMemory> {
    let values = machine.answer(alloc)?;
    let mut separator: &[u8] = b"";
    for (root, _word) in values.roots().iter().enumerate() {
        lines.push(separator)?;
        put_value(alloc, question, &values, root, lines)?;
        separator = b", ";
    }
    lines.push(b"\n")
}

// Puts `V = value` for the variable of this number among those of the answers.
fn put_value(
    alloc: Global,
    question: &Question,
    values: &Block,
    number: usize,
    lines: &mut Text,
) -> Result<(), NoMemory>
    requires { number < length values.now.roots }
{
    let (Some(name), Ok(root)) = (
        question.variables.as_slice().get(number),
        u32::try_from(number),
    ) else {
        return Err(NoMemory);
    };
    lines.push(text_of(&question.names, *name))?;
    lines.push(b" = ")?;
    write_text(alloc, values, root, &question.names, lines)
}

// Puts the end line of a run with so many answers.
fn put_end(
    alloc: Global,
    question: &Question,
    stop: Stop,
    count: u64,
    lines: &mut Text,
) -> Result<(), NoMemory> {
    match stop {
        Stop::Ended => {
            lines.push(b"solutions ")?;
            lines.push(count.to_string(alloc)?.as_bytes())?;
        }
        Stop::Raised(text) => {
            lines.push(b"uncaught exception: ")?;
            lines.push(text_of(&question.names, text))?;
        }
        Stop::LimitPassed => lines.push(b"step limit passed")?,
        Stop::Starved => lines.push(b"starved")?,
        _ => return Err(NoMemory),
    }
    lines.push(b"\n")
}
