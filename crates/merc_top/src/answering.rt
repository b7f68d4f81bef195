//! The top call.
ghost use Rattle.std.specs.Prelude.{◌≡◌, ◌<◌, ◌≤◌, All, ℕ, List, IfOk, false, [], ◌∷◌, length, Option};
ghost use Rattle.merc_base.specs.Names.{fixed_names};
ghost use Rattle.merc_check.specs.Accepted.{AreGraded};
ghost use Rattle.merc_check.specs.Checked.{IsAccepted};
ghost use Rattle.merc_transfer.specs.Loading.{file_limit};
ghost use Rattle.merc_grading.specs.Faults.{procedures_of};
ghost use Rattle.merc_top.specs.Checking.{check_lines};
ghost use Rattle.merc_top.specs.Output.{IsCheckDue, too_long_line};
ghost use Rattle.merc_transfer.specs.Statuses.{accepted_status, too_long_status, usage_status};
ghost use Rattle.merc_words.specs.Words.{IsRequest as AsksFor};
ghost use Rattle.merc_top.specs.Words.{IsNoRequest, IsRequest, usage_line};
ghost use Rattle.merc_base.specs.Outside.{Files};
ghost use Rattle.merc_top.specs.Due.{Finds, IsFaultDue, IsRequestFound, IsSolveFound};
ghost use Rattle.merc_top.specs.Answer.{Answers};

use crate::checking::check_lines;
use crate::lines::{refusal_line, too_long_line};
use crate::preparing::prepare;
use crate::words::{Request, answered};
use merc_base::{Fault, Gate, Names, NoMemory, Sequence, Shelf, Sink, Tap, Text};
use merc_check::{Checked, check, check_query};
use merc_machine::Ticks;
use merc_solving::{Ready, run};
use merc_transfer::{Due, LoadFault, load, put_due, status_told, statuses};
use merc_words::{WordsFault, read_words};
use std::alloc::Global;
use std::sync::Wait;
use std::thread::Threads;

const USAGE: &[u8] =
    b"usage: merc solve FILE GOAL [--workers N] [--steps N] [--max N] | check FILE | code FILE | grow N [--workers N]\n";

/// What is due: lines, or a run.
#[derive(Drop)]
pub enum Found {
    Lines(Due),
    Run(Ready),
}

fn one_line(alloc: Global, status: u8, line: Text) -> Result<Due, NoMemory>
    ensures { IfOk result (λ due. (due.lines ≡ line ∷ []) × (due.status ≡ status)) }
{
    let mut lines = Sequence::new(alloc);
    lines.push(line)?;
    Ok(Due { status, lines })
}

// What is due where a fault of a file of this name, or of a goal, was found.
fn fault_due(alloc: Global, status: u8, name: &[u8], fault: Fault) -> Result<Due, NoMemory>
    ensures { IfOk result (IsFaultDue status name.now fault) }
{
    match fault {
        Fault::Refused(refusal) => one_line(alloc, status, refusal_line(alloc, name, &refusal)?),
        Fault::NoMemory => Err(NoMemory),
    }
}

// What is due for words that ask for nothing that there is.
#[tactic(auto, unfolding(crate::specs::Words::usage_line))]
fn usage_due(alloc: Global) -> Result<Due, NoMemory>
    ensures { IfOk result (λ due. (due.lines ≡ usage_line ∷ []) × (due.status ≡ usage_status)) }
{
    one_line(alloc, statuses::USAGE, Text::of(alloc, USAGE)?)
}

// What is due for a file of this name that is longer than the limit.
fn too_long_due(alloc: Global, name: &[u8]) -> Result<Due, NoMemory>
    ensures { IfOk result (λ due. (due.lines ≡ too_long_line name.now ∷ []) × (due.status ≡ too_long_status)) }
{
    one_line(alloc, statuses::TOO_LONG, too_long_line(alloc, name)?)
}

// What is due for a file of this name and text, and a goal, in at most so many steps and with so many answers at most.
fn find_run(
    alloc: Global,
    name: &Text,
    text: &Text,
    goal: &Text,
    steps: u64,
    most: &Option<u64>,
) -> Result<Found, NoMemory>
    requires { length text.now ≤ file_limit }
    ensures { IfOk result (λ found. IsSolveFound name.now text.now goal.now steps most.now found) }
{
    let mut names = Names::new(alloc);
    match check(alloc, text, &mut names) {
        Ok(checked) => {
            let found = find_goal(alloc, names, &checked, goal, steps, *most);
            drop(checked);
            found
        }
        Err(fault) => {
            drop(names);
            let due = fault_due(alloc, statuses::MODULE_REFUSED, name.bytes(), fault)?;
            Ok(Found::Lines(due))
        }
    }
}

// What is due for a goal over a file that is accepted, in at most so many steps and with so many answers at most.
fn find_goal(
    alloc: Global,
    mut names: Names,
    checked: &Checked,
    goal: &Text,
    steps: u64,
    most: Option<u64>,
) -> Result<Found, NoMemory>
    requires { (text : List ℕ) × IsAccepted fixed_names names text checked.now.items checked.now.module }
    ensures { (name text : List ℕ) → IsAccepted fixed_names names text checked.now.items checked.now.module → AreGraded names checked.now.module checked.now.trees → IfOk result (λ found. IsSolveFound name text goal.now steps most found) }
{
    match check_query(alloc, checked, goal, &mut names) {
        Ok(query) => {
            let ready = prepare(alloc, names, checked, query, steps, most)?;
            Ok(Found::Run(ready))
        }
        Err(fault) => {
            drop(names);
            let due = fault_due(alloc, statuses::GOAL_REFUSED, b"goal", fault)?;
            Ok(Found::Lines(due))
        }
    }
}

/// Why nothing can be said of what is due.
#[derive(Clone, Copy)]
pub enum Trouble {
    /// A read failed, or the named file is not there.
    Unread,
    /// Memory was refused.
    NoMemory,
}

impl From<NoMemory> for Trouble {
    ghost use Rattle.std.specs.Prelude.{◌≡◌};
    ghost use Rattle.merc_top.specs.declared.answering.Trouble.TheVariants.{NoMemory};

    ghost from_gives = { λ _ e. e ≡ NoMemory };

    fn from(_: NoMemory) -> Self {
        Trouble::NoMemory
    }
}

// What is due for the check of a file of this name and text.
fn check_due(alloc: Global, name: &Text, text: &Text) -> Result<Due, NoMemory>
    requires { length text.now ≤ file_limit }
    ensures { IfOk result (λ due. IsCheckDue name.now text.now due.lines due.status) }
{
    let mut names = Names::new(alloc);
    match check(alloc, text, &mut names) {
        Ok(checked) => {
            let due = accepted_due(alloc, &names, &checked);
            drop(checked);
            drop(names);
            due
        }
        Err(fault) => {
            drop(names);
            fault_due(alloc, statuses::MODULE_REFUSED, name.bytes(), fault)
        }
    }
}

// What is due for the check of a file that is accepted.
fn accepted_due(alloc: Global, names: &Names, checked: &Checked) -> Result<Due, NoMemory>
    ensures { IfOk result (λ due. (length (procedures_of checked.now.module.preds) ≤ length checked.now.trees → due.lines ≡ check_lines names.now checked.now.module checked.now.trees) × (due.status ≡ accepted_status)) }
{
    Ok(Due {
        status: statuses::ACCEPTED,
        lines: check_lines(alloc, names, checked.module(), checked.trees())?,
    })
}

// What is due for a request whose file has this text.
fn find_requested(alloc: Global, request: &Request<'_>, text: &Text) -> Result<Found, NoMemory>
    requires { length text.now ≤ file_limit }
    ensures { IfOk result (λ found. IsRequestFound request.now text.now found) }
{
    match request {
        Request::Solve {
            file,
            goal,
            steps,
            most,
        } => find_run(alloc, file, text, goal, *steps, most),
        Request::Check { file } => Ok(Found::Lines(check_due(alloc, file, text)?)),
    }
}

// What is due for a request over a shelf.
fn find_answer<S: Shelf>(
    alloc: Global,
    request: &Request<'_>,
    shelf: &mut S,
) -> Result<Found, Trouble>
    requires { S.read_faults shelf.old < 18446744073709551615 }
    ensures same { S.files shelf.new ≡ S.files shelf.old }
    ensures finds { (words : List (List ℕ)) → IsRequest words request.now → Finds words (S.files shelf.old) (S.read_faults shelf.old) (S.read_faults shelf.new) result }
{
    let file = request.file();
    match load(alloc, shelf, file) {
        Ok(text) => Ok(find_requested(alloc, request, &text)?),
        Err(LoadFault::TooLong) => Ok(Found::Lines(too_long_due(alloc, file.bytes())?)),
        Err(LoadFault::Unread) => Err(Trouble::Unread),
        Err(LoadFault::NoMemory) => Err(Trouble::NoMemory),
    }
}

// What is due for that which the words ask for, over a shelf. What is not answered yet is answered as words are that ask for
// nothing.
fn find_asked<S: Shelf>(
    alloc: Global,
    asked: &merc_words::Request,
    shelf: &mut S,
) -> Result<Found, Trouble>
    requires { S.read_faults shelf.old < 18446744073709551615 }
    ensures same { S.files shelf.new ≡ S.files shelf.old }
    ensures finds { (words : List (List ℕ)) → AsksFor words asked.now → Finds words (S.files shelf.old) (S.read_faults shelf.old) (S.read_faults shelf.new) result }
{
    match answered(asked) {
        Some(request) => find_answer(alloc, &request, shelf),
        None => find_usage(alloc),
    }
}

// What is due for words over a shelf.
fn find_due<S: Shelf>(alloc: Global, words: &[Text], shelf: &mut S) -> Result<Found, Trouble>
    requires { S.read_faults shelf.old < 18446744073709551615 }
    ensures same { S.files shelf.new ≡ S.files shelf.old }
    ensures finds { Finds words.now (S.files shelf.old) (S.read_faults shelf.old) (S.read_faults shelf.new) result }
{
    match read_words(alloc, words) {
        Ok(asked) => {
            let found = find_asked(alloc, &asked, shelf);
            drop(asked);
            found
        }
        Err(WordsFault::Usage) => find_usage(alloc),
        Err(WordsFault::NoMemory) => Err(Trouble::NoMemory),
    }
}

// What is found for words that ask for nothing that is answered.
fn find_usage(alloc: Global) -> Result<Found, Trouble>
    ensures { (words : List (List ℕ)) (told : Option Files) (before : ℕ) → IsNoRequest words → Finds words told before before result }
{
    Ok(Found::Lines(usage_due(alloc)?))
}

/// Does all that the program does, and answers the status that it ends with.
///
/// The words, without the program's own name, are `solve FILE GOAL` with the options `--workers N`, `--steps N` and `--max N`, or
/// `check FILE`; `code FILE` and `grow N` are answered as words that ask for nothing, as long as they are not built.
/// The whole file is read from the shelf before anything is written. Then the lines that are due go to the sink in order, each
/// as one piece, and the rest of it again where less was taken; after a write that failed there is no other. The line of an
/// answer is written before the next answer is looked for, and no line is kept. The text of each line and the meaning of each
/// status stand in docs/COMMANDS.md, and what is due in specs/Output.antt:
///
/// - 0, 1, 2 and 3 are the statuses of a run: it has solutions, or is stopped behind as many as are wanted; it has none; an
///   exception; the step limit. 0 is that of a module that is checked and accepted as well.
/// - 4 refuses the module and 5 the goal, and the line says why.
/// - 6 refuses the words.
/// - 7: a read failed or no such file is there. Nothing was written.
/// - 8: a write failed. A front of the text that is due was written.
/// - 9: memory was refused. A front of the text that is due was written. No clause says when this comes.
/// - 10: the file has more than 1,048,576 bytes.
///
/// The counter, which is at 0 before, counts the steps of the run: where no read and no write failed and the status is
/// that of a run, all of them up to its last answer that is told where it is stopped there, as specs/Answer.antt says.
///
/// The taps get no event yet, and no conjunct enters the gate. One worker runs, whatever their number; the runtime is for runs
/// with several. Under its bounds the call need not return.
pub fn answer<R: Threads + Wait, S: Shelf, K: Sink, G: Gate + Sync>(
    rt: &R,
    alloc: Global,
    words: &[Text],
    shelf: &mut S,
    sink: &mut K,
    taps: &mut Vec<Box<dyn Tap>>,
    gate: &G,
    ticks: &mut Ticks,
) -> u8
    requires shelf { S.read_faults shelf.old < 18446744073709551615 }
    requires sink { (K.sink_state sink.old).faults < 18446744073709551615 }
    requires taps { All (λ tap. is_over tap ≡ false → tap_faults tap < 18446744073709551615) taps.old.items }
    requires ticks { ticks.old ≡ 0 }
    ensures same_files { S.files shelf.new ≡ S.files shelf.old }
    ensures same_taps { taps.new.items ≡ taps.old.items }
    ensures answers { Answers words.now (S.files shelf.old) (S.read_faults shelf.old) (S.read_faults shelf.new) (K.sink_state sink.old) (K.sink_state sink.new) ticks.new result }
{
    match find_due(alloc, words, shelf) {
        Ok(Found::Lines(due)) => {
            let told = put_due(sink, &due);
            drop(due);
            status_told(told)
        }
        Ok(Found::Run(ready)) => {
            let told = run(alloc, &ready, sink, ticks);
            drop(ready);
            status_told(told)
        }
        Err(Trouble::Unread) => statuses::UNREAD,
        Err(Trouble::NoMemory) => statuses::NO_MEMORY,
    }
}
