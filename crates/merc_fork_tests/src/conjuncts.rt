//! Goals with `&` whose conjuncts are run by machines of their own: they come to what the goals are said to come to.
ghost use Rattle.std.specs.Prelude.{◌≤◌, ℕ};
ghost use Rattle.merc_meaning.specs.Trace.{RunEnd};
ghost use Rattle.merc_course.specs.Course.{AtFork, Courses, Meets, Reply, RunCourse};
ghost use Rattle.merc_code.specs.Meaning.{start};
ghost use Rattle.merc_code.specs.Steps.{Code, Codes};
ghost use Rattle.merc_code.specs.declared.instruction.Instruction.TheVariants.{Fork};
ghost use Rattle.merc_last_calls.specs.LeanMeaning.{YieldsLean};
ghost use Rattle.merc_load.specs.Loaded.{IsProgram};
ghost use Rattle.merc_machine.specs.Coming.{MeetsAt, all_left};
ghost use Rattle.merc_machine.specs.Running.{Means};

use crate::asking::{Question, asked, told};
use merc_base::NoMemory;
use merc_graded_tree::Site;
use merc_machine::{Machine, Stop, Ticks};
use std::alloc::Global;
use std::test::Fail;
use std::thread;
use std::thread::Threads;

const ROWS: &[u8] = b":- module rows.
:- import_module int, list, require.
:- pred f(int::in, int::out) is det.
f(X, Y) :- Y = X + 1.
:- pred g(int::in, int::out) is det.
g(X, Y) :- Y = X * 10.
:- pred spin(int::in, int::out) is det.
spin(X, Y) :- spin(X + 1, Y).
:- pred count(int::in, int::out) is det.
count(N, Y) :- ( if N =< 1 then Y = 0 else count(N - 1, Y) ).
:- pred late(int::in, int::out) is det.
late(N, Y) :- ( if N =< 1 then error(\"late\") else late(N - 1, Y) ).
:- pred mix(int::in, int::in, int::out) is det.
mix(A, N, B) :- count(N, C), B = A + C.
:- pred deep(int::in, int::out) is det.
deep(X, D) :- f(X, A) & ( g(X, B), ( f(A, C) & f(B, E) ), D = C + E ).
:- pred sum(int::in, int::out) is det.
sum(N, S) :- ( if N =< 0 then S = 0 else f(N, A) & ( sum(N - 1, B), S = A + B ) ).
:- pred pick(list(int)::in, int::out) is det.
pick(L, Y) :- f(1, A) & ( L = [], Y = 0 ; L = [H | T], g(A, B), Y = B + H ).
";

// A goal, the most steps that it may take, and the lines to which it comes then.
#[derive(Clone, Copy)]
struct Row {
    goal: &'static [u8],
    limit: u64,
    lines: &'static [u8],
}

// Waits and signals in conjunctions, in arms of a switch and in parts of a condition, and behind what is none of these. An arm that
// does not use the value leaves it in its cell.
const VALUES: [Row; 10] = [
    Row {
        goal: b"( X = 1, fail ; X = 2 ) & Y = X + 1",
        limit: 100,
        lines: b"X = 2, Y = 3\nsolutions 1\n",
    },
    Row {
        goal: b"f(1, A) & f(A, B) & g(A, C) & D = A + B",
        limit: 100,
        lines: b"A = 2, B = 3, C = 20, D = 5\nsolutions 1\n",
    },
    Row {
        goal: b"L = [1, 2] & ( L = [H | T], f(H, A) )",
        limit: 100,
        lines: b"L = [1, 2], H = 1, T = [2], A = 2\nsolutions 1\n",
    },
    Row {
        goal: b"( Y = 1, X = Y ) & f(X, A)",
        limit: 100,
        lines: b"Y = 1, X = 1, A = 2\nsolutions 1\n",
    },
    Row {
        goal: b"some [Y] ( Y = 1, X = Y ) & f(X, A)",
        limit: 100,
        lines: b"X = 1, A = 2\nsolutions 1\n",
    },
    Row {
        goal: b"( X = 1, fail ; X = 2 ) & f(X, A)",
        limit: 100,
        lines: b"X = 2, A = 3\nsolutions 1\n",
    },
    Row {
        goal: b"X = 1 & ( if f(5, 7) then f(X, A) else f(5, A) ), f(X, B)",
        limit: 100,
        lines: b"X = 1, A = 6, B = 2\nsolutions 1\n",
    },
    Row {
        goal: b"X = 1 & ( if f(5, 6) then f(X, A) else f(5, A) ), f(X, B)",
        limit: 100,
        lines: b"X = 1, A = 2, B = 2\nsolutions 1\n",
    },
    Row {
        goal: b"pick([], Y)",
        limit: 100,
        lines: b"Y = 0\nsolutions 1\n",
    },
    Row {
        goal: b"pick([5], Y) & pick([Y], Z)",
        limit: 100,
        lines: b"Y = 25, Z = 45\nsolutions 1\n",
    },
];

// Behind an answer the machine goes back to the choice point before its fork, and forks again.
const AGAIN: [Row; 1] = [Row {
    goal: b"member(Z, [1, 2]), ( f(Z, A) & g(A, B) )",
    limit: 100,
    lines: b"Z = 1, A = 2, B = 20\nZ = 2, A = 3, B = 30\nsolutions 2\n",
}];

// In the first goal the rights to wait for A and to signal B and C move into the inner conjuncts; in the second one, whose
// conjuncts stand in a procedure, the right to wait for A does.
const MOVES: [Row; 4] = [
    Row {
        goal: b"f(1, A) & ( g(A, B) & f(B, C) )",
        limit: 100,
        lines: b"A = 2, B = 20, C = 21\nsolutions 1\n",
    },
    Row {
        goal: b"deep(1, D)",
        limit: 100,
        lines: b"D = 14\nsolutions 1\n",
    },
    Row {
        goal: b"sum(3, S)",
        limit: 100,
        lines: b"S = 9\nsolutions 1\n",
    },
    Row {
        goal: b"deep(1, D) & sum(D, S)",
        limit: 100,
        lines: b"D = 14, S = 119\nsolutions 1\n",
    },
];

// The first of the ends that are not good decides. In the third goal a value comes, in the last two none does.
const ENDS: [Row; 6] = [
    Row {
        goal: b"error(\"a\") & error(\"b\")",
        limit: 100,
        lines: b"uncaught exception: a\n",
    },
    Row {
        goal: b"late(3, A) & spin(0, B)",
        limit: 100,
        lines: b"uncaught exception: late\n",
    },
    Row {
        goal: b"spin(0, A) & error(\"b\")",
        limit: 100,
        lines: b"step limit passed\n",
    },
    Row {
        goal: b"( f(1, A), error(\"x\") ) & g(A, B)",
        limit: 100,
        lines: b"uncaught exception: x\n",
    },
    Row {
        goal: b"late(3, A) & f(A, B)",
        limit: 100,
        lines: b"uncaught exception: late\n",
    },
    Row {
        goal: b"spin(0, A) & f(A, B)",
        limit: 100,
        lines: b"step limit passed\n",
    },
];

// The steps of conjuncts are added up from the left: 60 and 40 do not pass a limit of 100, one more does.
const SUMS: [Row; 4] = [
    Row {
        goal: b"count(60, A) & late(40, B)",
        limit: 100,
        lines: b"uncaught exception: late\n",
    },
    Row {
        goal: b"count(60, A) & late(41, B)",
        limit: 100,
        lines: b"step limit passed\n",
    },
    Row {
        goal: b"count(60, A) & mix(A, 40, B)",
        limit: 101,
        lines: b"A = 0, B = 0\nsolutions 1\n",
    },
    Row {
        goal: b"count(60, A) & mix(A, 40, B)",
        limit: 100,
        lines: b"step limit passed\n",
    },
];

// Whether a goal over the module comes to these lines in at most so many steps.
fn comes_to(alloc: Global, goal: &[u8], limit: u64, lines: &[u8]) -> Result<bool, Fail> {
    let asked = asked(alloc, ROWS, goal)?;
    let told = told(alloc, &asked, limit);
    // (calls, here and below, since it costs much to prove what is dropped)
    drop(asked);
    let told = told?;
    let is_so = told.lines.bytes() == lines;
    drop(told);
    Ok(is_so)
}

// How many steps a goal's machine counts, and how many all machines make, in at most so many.
fn steps_of(alloc: Global, goal: &[u8], limit: u64) -> Result<(u64, u64), Fail> {
    let asked = asked(alloc, ROWS, goal)?;
    let told = told(alloc, &asked, limit);
    drop(asked);
    let told = told?;
    let steps = (told.steps, told.ticks);
    drop(told);
    Ok(steps)
}

// The number of the first row that does not come to its lines.
fn first_wrong(alloc: Global, rows: &[Row]) -> Result<Option<usize>, Fail> {
    for (number, row) in rows.iter().enumerate() {
        if !comes_to(alloc, row.goal, row.limit, row.lines)? {
            return Ok(Some(number));
        }
    }
    Ok(None)
}

#[test]
fn values_go_from_one_conjunct_to_another(rt: HostRuntime) -> Result<(), Fail> {
    assert_eq!(rt; first_wrong(rt.alloc(), &VALUES)?, None);
    Ok(())
}

#[test]
fn a_fork_is_come_to_again(rt: HostRuntime) -> Result<(), Fail> {
    assert_eq!(rt; first_wrong(rt.alloc(), &AGAIN)?, None);
    Ok(())
}

#[test]
fn rights_move_into_inner_conjuncts(rt: HostRuntime) -> Result<(), Fail> {
    assert_eq!(rt; first_wrong(rt.alloc(), &MOVES)?, None);
    Ok(())
}

#[test]
fn the_leftmost_end_decides(rt: HostRuntime) -> Result<(), Fail> {
    assert_eq!(rt; first_wrong(rt.alloc(), &ENDS)?, None);
    Ok(())
}

#[test]
fn a_sum_of_steps_passes_the_limit(rt: HostRuntime) -> Result<(), Fail> {
    assert_eq!(rt; first_wrong(rt.alloc(), &SUMS)?, None);
    Ok(())
}

// In the last goal each conjunct may make as many steps as are left at the fork, and what the second one makes does not count.
#[test]
fn steps_are_added_up(rt: HostRuntime) -> Result<(), Fail> {
    let alloc = rt.alloc();
    assert!(rt; steps_of(alloc, b"count(60, A) & mix(A, 40, B)", 101)? == (101, 101));
    assert!(rt; steps_of(alloc, b"deep(1, D)", 100)? == (5, 5));
    assert!(rt; steps_of(alloc, b"sum(3, S)", 100)? == (7, 7));
    assert!(rt; steps_of(alloc, b"late(3, A) & spin(0, B)", 100)? == (3, 103));
    Ok(())
}

// The steps after which a machine first waits or signals.
fn steps_before_meeting(mut machine: Machine<'_>) -> Option<u64>
    requires means { (course : RunCourse) × Means machine course }
    requires fits { all_left machine ≤ 18446744073709551615 }
{
    let mut ticks = Ticks::new();
    match machine.run(255, &mut ticks) {
        Stop::AtWait(_) => Some(machine.used()),
        Stop::AtSignal(_) => Some(machine.used()),
        _ => None,
    }
}

// The same of two machines in two threads.
fn steps_in_threads<R: Threads>(
    rt: &R,
    one: Machine<'_>,
    other: Machine<'_>,
) -> (Option<u64>, Option<u64>)
    requires one { (course : RunCourse) × Means one course × (all_left one ≤ 18446744073709551615) }
    requires other { (course : RunCourse) × Means other course × (all_left other ≤ 18446744073709551615) }
{
    thread::join(
        rt,
        move || -> Option<u64>
            requires { (course : RunCourse) × Means one course × (all_left one ≤ 18446744073709551615) }
        { steps_before_meeting(one) },
        move || -> Option<u64>
            requires { (course : RunCourse) × Means other course × (all_left other ≤ 18446744073709551615) }
        { steps_before_meeting(other) },
    )
}

// The same of the first two conjuncts of the fork at which a machine stands.
fn conjuncts_in_threads<R: Threads>(
    rt: &R,
    alloc: Global,
    parent: &Machine<'_>,
    site: Site,
) -> Result<(Option<u64>, Option<u64>), NoMemory>
    requires at { MeetsAt parent.now (Fork site) }
    requires means { (forked : Courses RunEnd) × (next : Reply → RunCourse) × Means parent.now (Meets (AtFork site.number) forked next) }
    requires fits { all_left parent.now ≤ 18446744073709551615 }
{
    if !parent.has_child(site, 0) || !parent.has_child(site, 1) {
        return Err(NoMemory);
    }
    let one = parent.child(alloc, site, 0)?;
    let other = parent.child(alloc, site, 1)?;
    Ok(steps_in_threads(rt, one, other))
}

// The same of the first two conjuncts of the fork to which a goal comes.
fn first_conjuncts<R: Threads>(
    rt: &R,
    alloc: Global,
    question: &Question,
) -> Result<(Option<u64>, Option<u64>), NoMemory>
    requires { (codes : Codes) × (query : Code) × IsProgram question.now.program codes query × ((limit : ℕ) → (course : RunCourse) × YieldsLean codes (start query limit) course) }
{
    let mut ticks = Ticks::new();
    let mut machine = Machine::start(alloc, &question.program, 1000)?;
    let steps = match machine.run(255, &mut ticks) {
        Stop::AtFork(site) => conjuncts_in_threads(rt, alloc, &machine, site),
        _ => Ok((None, None)),
    };
    drop(machine);
    steps
}

// The same of a goal over the module.
fn meetings_of<R: Threads>(
    rt: &R,
    alloc: Global,
    goal: &[u8],
) -> Result<(Option<u64>, Option<u64>), Fail> {
    let asked = asked(alloc, ROWS, goal)?;
    let steps = first_conjuncts(rt, alloc, &asked);
    drop(asked);
    Ok(steps?)
}

// The first conjunct signals behind its call. The wait stands before the call of `mix`, which would be the first step.
#[test]
fn machines_run_in_threads(rt: HostRuntime) -> Result<(), Fail> {
    let alloc = rt.alloc();
    assert!(rt; meetings_of(&rt, alloc, b"count(60, A) & count(50, B)")? == (Some(60), Some(50)));
    assert!(rt; meetings_of(&rt, alloc, b"count(60, A) & mix(A, 40, B)")? == (Some(60), Some(0)));
    Ok(())
}
