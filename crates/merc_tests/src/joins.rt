//! What comes out of many joins whose tickets are done in four threads, in whatever order.

use merc_base::NoMemory;
use merc_join::{Finished, Forked, Ticket, new_join};
use merc_script::Outcome;
use std::alloc::Global;
use std::test::Fail;
use std::thread;
use std::thread::Threads;

// What forked: its children may end in any way.
#[derive(Clone, Copy)]
struct Parent(u64);

impl Forked for Parent {
    ghost ends = { λ parent child outcome. Unit {0} };
}

const CHILDREN: u32 = 8;

const JOINS: u64 = 2_000;

// A ticket with the number of steps that its child is to end with.
type Job = (Ticket<Parent>, u64);

// What each of four threads is to do.
#[derive(Drop)]
struct Hands {
    first: Vec<Job>,
    second: Vec<Job>,
    third: Vec<Job>,
    fourth: Vec<Job>,
}

// How many joins were finished, the sum of their parents, and how many outcomes were those of their children.
#[derive(Clone, Copy)]
struct Counts {
    finished: u64,
    parent_sum: u64,
    outcomes: u64,
}

impl Counts {
    fn with(self, other: Counts) -> Counts {
        Counts {
            finished: self.finished.wrapping_add(other.finished),
            parent_sum: self.parent_sum.wrapping_add(other.parent_sum),
            outcomes: self.outcomes.wrapping_add(other.outcomes),
        }
    }
}

fn steps_of(parent: u64, child: u64) -> u64 {
    parent.wrapping_mul(100).wrapping_add(child)
}

impl Hands {
    // Gives the job of a child to the thread whose turn it is.
    fn give(&mut self, child: u64, job: Job) -> Result<(), NoMemory> {
        let hand = match child % 4 {
            0 => &mut self.first,
            1 => &mut self.second,
            2 => &mut self.third,
            _ => &mut self.fourth,
        };
        hand.push(job)?;
        Ok(())
    }

    // Gives each thread two tickets of a join.
    fn deal(&mut self, alloc: Global, parent: u64) -> Result<(), NoMemory> {
        let Ok(tickets) = new_join(alloc, CHILDREN, Parent(parent)) else {
            return Err(NoMemory);
        };
        let mut child = 0;
        for ticket in tickets {
            self.give(child, (ticket, steps_of(parent, child)))?;
            child = child.wrapping_add(1);
        }
        Ok(())
    }
}

// The tickets of many joins, each thread having two of each.
fn deal_out(alloc: Global) -> Result<Hands, NoMemory> {
    let mut hands = Hands {
        first: Vec::new(alloc),
        second: Vec::new(alloc),
        third: Vec::new(alloc),
        fourth: Vec::new(alloc),
    };
    for parent in 0..JOINS {
        hands.deal(alloc, parent)?;
    }
    Ok(hands)
}

fn count_outcomes(outcomes: &[Outcome], parent: u64) -> u64 {
    let mut count = 0u64;
    let mut child = 0;
    for outcome in outcomes {
        if *outcome == Outcome::Ok(steps_of(parent, child)) {
            count = count.wrapping_add(1);
        }
        child = child.wrapping_add(1);
    }
    count
}

fn do_all(mut jobs: Vec<Job>) -> Counts {
    let mut counts = Counts {
        finished: 0,
        parent_sum: 0,
        outcomes: 0,
    };
    for i in 0..jobs.len() {
        if let Some((ticket, steps)) = jobs.pop() {
            let (given, _) = ticket.done(Outcome::Ok(steps));
            if let Some(finished) = given {
                let Parent(parent) = finished.parent;
                counts = counts.with(Counts {
                    finished: 1,
                    parent_sum: parent,
                    outcomes: count_outcomes(finished.outcomes.as_slice(), parent),
                });
            }
        }
    }
    counts
}

fn do_two<R: Threads + Sync>(rt: &R, one: Vec<Job>, other: Vec<Job>) -> Counts {
    let (a, b) = thread::join(rt, move || do_all(one), move || do_all(other));
    a.with(b)
}

// What the jobs of all hands come to, done in four threads.
fn do_four<R: Threads + Sync>(rt: &R, hands: Hands) -> Counts {
    let Hands {
        first,
        second,
        third,
        fourth,
    } = hands;
    let (a, b) = thread::join(
        rt,
        move || do_two(rt, first, second),
        move || do_two(rt, third, fourth),
    );
    a.with(b)
}

// No clause speaks of several threads at once.
#[test]
fn each_join_ends_once(rt: HostRuntime) -> Result<(), Fail> {
    for round in 0..20 {
        let all = do_four(&rt, deal_out(rt.alloc())?);
        let are_parents_out = all.finished == JOINS && all.parent_sum == 1_999_000;
        assert!(rt; are_parents_out && all.outcomes == 16_000);
    }
    Ok(())
}

fn two_tickets(alloc: Global) -> Result<(Ticket<Parent>, Ticket<Parent>), NoMemory> {
    let Ok(mut tickets) = new_join(alloc, 2, Parent(7)) else {
        return Err(NoMemory);
    };
    match (tickets.pop(), tickets.pop()) {
        (Some(second), Some(first)) => Ok((first, second)),
        _ => Err(NoMemory),
    }
}

// Whether both outcomes came out, in order, with the parent.
fn has_both(finished: Option<Finished<Parent>>) -> bool {
    match finished {
        Some(finished) => {
            finished.parent.0 == 7
                && finished.outcomes.as_slice() == [Outcome::Ok(3), Outcome::Limit].as_slice()
        }
        None => false,
    }
}

// Whether the second of two tickets gets both outcomes, and the first nothing.
fn gets_both(earlier: (Ticket<Parent>, Outcome), later: (Ticket<Parent>, Outcome)) -> bool {
    let (first, its_outcome) = earlier;
    let (second, other_outcome) = later;
    let (nothing, _) = first.done(its_outcome);
    let (both, _) = second.done(other_outcome);
    nothing.is_none() && has_both(both)
}

// No clause speaks of what was done before with the other ticket.
#[test]
fn the_second_of_two_gets_both(rt: HostRuntime) -> Result<(), Fail> {
    let (first, second) = two_tickets(rt.alloc())?;
    let is_in_order = gets_both((first, Outcome::Ok(3)), (second, Outcome::Limit));
    assert!(rt; is_in_order);
    let (first, second) = two_tickets(rt.alloc())?;
    let is_in_order = gets_both((second, Outcome::Limit), (first, Outcome::Ok(3)));
    assert!(rt; is_in_order);
    Ok(())
}
