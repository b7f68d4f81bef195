//! What comes out of many cells at which two threads meet, in whatever order.

use merc_base::NoMemory;
use merc_cell::{CellWait, Consumer, Fits, Producer, new_cell};
use std::alloc::Global;
use std::marker::Brand;
use std::test::Fail;
use std::thread;
use std::thread::Threads;

// A value or a waiter, which fits each cell.
#[derive(Clone, Copy)]
struct Number(u64);

impl Fits for Number {
    ghost fits = { λ name number. Unit {0} };
}

type Ends = (Vec<Producer<Number, Number>>, Vec<Consumer<Number, Number>>);

// How many waiters and values came out of some cells, and their sums.
#[derive(Clone, Copy)]
struct Counts {
    waiters: u64,
    waiter_sum: u64,
    values: u64,
    value_sum: u64,
}

impl Counts {
    fn none() -> Counts {
        Counts {
            waiters: 0,
            waiter_sum: 0,
            values: 0,
            value_sum: 0,
        }
    }

    fn add(self, waiter: u64, value: Option<u64>) -> Counts {
        let (values, value) = match value {
            Some(value) => (1, value),
            None => (0, 0),
        };
        Counts {
            waiters: self.waiters.wrapping_add(1),
            waiter_sum: self.waiter_sum.wrapping_add(waiter),
            values: self.values.wrapping_add(values),
            value_sum: self.value_sum.wrapping_add(value),
        }
    }

    fn with(self, other: Counts) -> Counts {
        Counts {
            waiters: self.waiters.wrapping_add(other.waiters),
            waiter_sum: self.waiter_sum.wrapping_add(other.waiter_sum),
            values: self.values.wrapping_add(other.values),
            value_sum: self.value_sum.wrapping_add(other.value_sum),
        }
    }
}

fn cells(alloc: Global, count: usize) -> Result<Ends, NoMemory> {
    let mut producers = Vec::new(alloc);
    let mut consumers = Vec::new(alloc);
    for i in 0..count {
        let (producer, consumer) = new_cell::<Number, Number, Brand>(alloc)?;
        producers.push(producer)?;
        consumers.push(consumer)?;
    }
    Ok((producers, consumers))
}

// Waits at each cell, with its number as the waiter.
fn wait_all(mut consumers: Vec<Consumer<Number, Number>>) -> Counts {
    let mut counts = Counts::none();
    for i in 0..consumers.len() {
        if let Some(consumer) = consumers.pop() {
            let (answer, _) = consumer.wait(Number(consumers.len() as u64));
            match answer {
                CellWait::Ready(Number(waiter), Number(value)) => {
                    counts = counts.add(waiter, Some(value))
                }
                CellWait::Starved(Number(waiter)) => counts = counts.add(waiter, None),
                CellWait::Parked => {}
            }
        }
    }
    counts
}

// Signals each cell of an even number, with twice the number as the value, and poisons the others.
fn end_all(mut producers: Vec<Producer<Number, Number>>) -> Counts {
    let mut counts = Counts::none();
    for i in 0..producers.len() {
        if let Some(producer) = producers.pop() {
            let number = producers.len() as u64;
            if number % 2 == 0 {
                let (given, _) = producer.signal(Number(number.wrapping_mul(2)));
                if let Some((Number(waiter), Number(value))) = given {
                    counts = counts.add(waiter, Some(value));
                }
            } else {
                let (given, _) = producer.poison();
                if let Some(Number(waiter)) = given {
                    counts = counts.add(waiter, None);
                }
            }
        }
    }
    counts
}

// What comes out of cells at which two threads meet.
fn meet<R: Threads + Sync>(rt: &R, ends: Ends) -> Counts {
    let (producers, consumers) = ends;
    let (waited, ended) = thread::join(rt, move || wait_all(consumers), move || end_all(producers));
    waited.with(ended)
}

// Whether a wait at a cell that was poisoned before starves.
fn starves(producer: Producer<Number, Number>, consumer: Consumer<Number, Number>) -> bool {
    let (given, _) = producer.poison();
    let (answer, _) = consumer.wait(Number(7));
    given.is_none() && matches!(answer, CellWait::Starved(Number(7)))
}

// Whether a wait at a cell that was signalled before has the value.
fn is_ready(producer: Producer<Number, Number>, consumer: Consumer<Number, Number>) -> bool {
    let (given, _) = producer.signal(Number(8));
    let (answer, _) = consumer.wait(Number(7));
    given.is_none() && matches!(answer, CellWait::Ready(Number(7), Number(8)))
}

// No clause speaks of two threads at once, nor of what the producer did before a wait on the same thread.
#[test]
fn each_waiter_comes_out_once(rt: HostRuntime) -> Result<(), Fail> {
    for round in 0..20 {
        let all = meet(&rt, cells(rt.alloc(), 10_000)?);
        let are_waiters_out = all.waiters == 10_000 && all.waiter_sum == 49_995_000;
        let are_values_out = all.values == 5_000 && all.value_sum == 49_990_000;
        assert!(rt; are_waiters_out && are_values_out);
    }
    let (producer, consumer) = new_cell::<Number, Number, Brand>(rt.alloc())?;
    assert!(rt; starves(producer, consumer));
    let (producer, consumer) = new_cell::<Number, Number, Brand>(rt.alloc())?;
    assert!(rt; is_ready(producer, consumer));
    Ok(())
}
