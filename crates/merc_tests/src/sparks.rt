//! What comes out of one deque that four thieves rob while its worker pushes and pops.
ghost use Rattle.crossbeam_deque.specs.Handles.{IsPassOf, stealer_deque};

use merc_deque::{Pass, Sparks, Stolen, Thief, new_sparks};
use std::sync::Wait;
use std::sync::atomic::{AtomicU64, Ordering};
use std::test::Fail;
use std::thread;
use std::thread::Threads;

const SPARKS: u64 = 100_000;

// How many sparks came out, and the sum of their numbers.
#[derive(Clone, Copy)]
struct Counts {
    sparks: u64,
    sum: u64,
}

impl Counts {
    fn with(self, other: Counts) -> Counts {
        Counts {
            sparks: self.sparks.wrapping_add(other.sparks),
            sum: self.sum.wrapping_add(other.sum),
        }
    }
}

fn one(number: u64) -> Counts {
    Counts {
        sparks: 1,
        sum: number,
    }
}

// Pushes all sparks, pops after each third, and pops what is left. A refused spark counts as taken.
fn work(mut sparks: Sparks<u64>, done: &AtomicU64) -> Counts {
    let mut counts = Counts { sparks: 0, sum: 0 };
    for i in 0..SPARKS {
        if let Err(back) = sparks.push(i) {
            counts = counts.with(one(back));
        }
        if i % 3 == 0 {
            if let Some(spark) = sparks.pop() {
                counts = counts.with(one(spark));
            }
        }
    }
    for i in 0..SPARKS {
        match sparks.pop() {
            Some(spark) => counts = counts.with(one(spark)),
            None => break,
        }
    }
    done.store(1, Ordering::SeqCst);
    counts
}

fn rob<R: Wait>(rt: &R, thief: &Thief<u64>, mut pass: Pass<u64>, done: &AtomicU64) -> Counts
    requires { IsPassOf (stealer_deque thief.now.stealer) pass }
{
    let mut counts = Counts { sparks: 0, sum: 0 };
    for i in rt.forever() {
        let is_over = done.load(Ordering::SeqCst) == 1;
        match thief.steal(&mut pass) {
            Stolen::Got(spark) => counts = counts.with(one(spark)),
            Stolen::Few if is_over => break,
            Stolen::Few | Stolen::Again => thread::yield_now(),
        }
    }
    counts
}

fn rob_twice<R: Threads + Wait + Sync>(rt: &R, thief: &Thief<u64>, done: &AtomicU64) -> Counts {
    let first = thief.pass();
    let second = thief.pass();
    let (a, b) = thread::join(
        rt,
        move || -> Counts
            requires { IsPassOf (stealer_deque thief.now.stealer) first }
        { rob(rt, thief, first, done) },
        move || -> Counts
            requires { IsPassOf (stealer_deque thief.now.stealer) second }
        { rob(rt, thief, second, done) },
    );
    a.with(b)
}

fn rob_four_times<R: Threads + Wait + Sync>(
    rt: &R,
    thief: &Thief<u64>,
    done: &AtomicU64,
) -> Counts {
    let (a, b) = thread::join(
        rt,
        || rob_twice(rt, thief, done),
        || rob_twice(rt, thief, done),
    );
    a.with(b)
}

// No clause counts what several threads took.
#[test]
fn each_spark_comes_out_once(rt: HostRuntime) -> Result<(), Fail> {
    for round in 0..2 {
        let (sparks, thief, passes) = new_sparks::<u64>(rt.alloc(), 4)?;
        let done = AtomicU64::new(0);
        let (worked, robbed) = thread::join(
            &rt,
            || work(sparks, &done),
            || rob_four_times(&rt, &thief, &done),
        );
        let all = worked.with(robbed);
        let are_all_out = all.sparks == SPARKS && all.sum == 4_999_950_000;
        assert!(rt; are_all_out);
    }
    Ok(())
}
