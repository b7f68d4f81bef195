//! A tap in memory.
ghost use Rattle.std.specs.Prelude.{◌≡◌, ◌≢◌, ◌+◌, ◌<◌, ◌++◌, [], ◌∷◌, false, length, Some, IfOk, OnOk, OnErr};
ghost use Rattle.merc_base.specs.Outside.{AnswersTake};
ghost use Rattle.merc_io.specs.Taps.{answer_at, list_tap_after};

use merc_base::{NoMemory, Tap, TapAnswer, TapEvent, Text};
use std::alloc::Global;
use std::marker::Model;
use std::sync::Arc;
use std::sync::atomic::{AtomicU64, Ordering};

/// Which event is a tap's last, by its number from 1.
#[derive(Clone, Copy)]
pub enum LastEvent {
    /// None is: the tap keeps each.
    Never,
    /// The tap answers this one with Done.
    DoneAt(u64),
    /// The tap fails at this one.
    FailsAt(u64),
}

/// A tap that keeps the events that it sees.
#[derive(Drop)]
pub struct ListTap {
    alloc: Global,
    events: Vec<TapEvent>,
    last: LastEvent,
    // How many events were seen, for who holds the tap no more. No clause speaks of it.
    seen: Arc<AtomicU64>,
    is_over: bool,
    faults: u64,
}

impl Model for ListTap {
    ghost use Rattle.merc_io.specs.Taps.{ListTapState};

    ghost Value = { ListTapState };

    ghost view = { λ s. record { events = s.events.items; last = s.last; is_over = s.is_over; faults = s.faults } };
}

impl ListTap {
    /// A tap that has seen nothing, and whose last event this is. The number of events that it sees is counted in `seen` too.
    /// It takes no memory before it sees an event.
    pub fn new(alloc: Global, last: LastEvent, seen: Arc<AtomicU64>) -> ListTap
        ensures { result ≡ record { events = []; last = last; is_over = false; faults = 0 } }
    {
        ListTap {
            alloc,
            events: Vec::new(alloc),
            last,
            seen,
            is_over: false,
            faults: 0,
        }
    }

    /// The events that it has seen, in order.
    pub fn events(&self) -> &[TapEvent]
        ensures { result.now ≡ self.now.events }
    {
        &self.events
    }
}

impl Tap for ListTap {
    ghost seen = { λ s. Some s.events };

    ghost seen_count = { λ s. Some (length s.events) };

    ghost is_over = { λ s. s.is_over };

    ghost tap_faults = { λ s. s.faults };

    /// Keeps the event, and answers as is said for its number; where memory is refused it answers so.
    fn take(&mut self, event: &TapEvent) -> TapAnswer
        requires listens { self.old.is_over ≡ false }
        requires room { self.old.faults < 18446744073709551615 }
        ensures answer { AnswersTake event.now (Some self.old.events) (Some self.new.events) (Some (length self.old.events)) (Some (length self.new.events)) self.new.is_over self.old.faults self.new.faults result }
        ensures due { result ≢ TapAnswer.NoMemory → result ≡ answer_at self.old.last (length self.old.events + 1) }
        ensures state { self.new ≡ list_tap_after event.now result self.old }
    {
        if let Err(NoMemory) = keep(self.alloc, event, &mut self.events) {
            self.is_over = true;
            return TapAnswer::NoMemory;
        }
        self.seen.fetch_add(1, Ordering::SeqCst);
        let answer = answer_at(self.last, self.events.len() as u64);
        match answer {
            TapAnswer::Keep => {}
            TapAnswer::Failed => {
                self.is_over = true;
                self.faults += 1;
            }
            _ => self.is_over = true,
        }
        answer
    }

    fn over(&self) -> bool
        ensures { result ≡ self.now.is_over }
    {
        self.is_over
    }
}

// The answer to the event of this number.
fn answer_at(last: LastEvent, number: u64) -> TapAnswer
    ensures { result ≡ answer_at last number }
{
    match last {
        LastEvent::DoneAt(place) if place == number => TapAnswer::Done,
        LastEvent::FailsAt(place) if place == number => TapAnswer::Failed,
        _ => TapAnswer::Keep,
    }
}

// Puts a copy of an event behind the others.
fn keep(alloc: Global, event: &TapEvent, events: &mut Vec<TapEvent>) -> Result<(), NoMemory>
    ensures ok { OnOk result (events.new.items ≡ events.old.items ++ event.now ∷ []) }
    ensures err { OnErr result (events.new.items ≡ events.old.items) }
{
    events.push(copy_of(alloc, event)?)?;
    Ok(())
}

fn copy_of(alloc: Global, event: &TapEvent) -> Result<TapEvent, NoMemory>
    ensures { IfOk result (λ copy. copy ≡ event.now) }
{
    match event {
        TapEvent::Answer { number, line } => Ok(TapEvent::Answer {
            number: *number,
            line: Text::of(alloc, line.bytes())?,
        }),
        TapEvent::Finish { status, answers } => Ok(TapEvent::Finish {
            status: *status,
            answers: *answers,
        }),
    }
}
