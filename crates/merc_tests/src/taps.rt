//! What taps behind a trait object are told, as they count it themselves.
ghost use Rattle.std.specs.Prelude.{◌≡◌, ◌<◌, [], ◌∷◌, All, IfOk, false};
ghost use Rattle.merc_answers.specs.Taps.{TapsSaw};

use merc_answers::tell;
use merc_base::{NoMemory, Tap, TapEvent, Text};
use merc_io::{LastEvent, ListTap, TallyTap};
use std::alloc::Global;
use std::sync::Arc;
use std::sync::atomic::{AtomicU64, Ordering};
use std::test::Fail;

fn tell_all(taps: &mut Vec<Box<dyn Tap>>, events: &[TapEvent])
    requires room { All (λ tap. is_over tap ≡ false → tap_faults tap < 18446744073709551615) taps.old.items }
    ensures { TapsSaw (λ tap. tap.vtable) (λ tap. record { seen = seen tap; count = seen_count tap; is_over = is_over tap; faults = tap_faults tap }) events.now taps.old.items taps.new.items }
{
    for event in events {
        tell(taps, event);
    }
}

// The events of a run with three answers.
fn events(alloc: Global) -> Result<Vec<TapEvent>, NoMemory> {
    let mut events = Vec::new(alloc);
    for number in 1..4u64 {
        events.push(TapEvent::Answer {
            number,
            line: Text::of(alloc, b"true")?,
        })?;
    }
    events.push(TapEvent::Finish {
        status: 0,
        answers: 3,
    })?;
    Ok(events)
}

fn one_tap(alloc: Global, tap: Box<dyn Tap>) -> Result<Vec<Box<dyn Tap>>, NoMemory>
    ensures { IfOk result (λ taps. taps.items ≡ tap ∷ []) }
{
    let mut taps = Vec::new(alloc);
    taps.push(tap)?;
    Ok(taps)
}

fn two_taps(
    alloc: Global,
    first: Box<dyn Tap>,
    second: Box<dyn Tap>,
) -> Result<Vec<Box<dyn Tap>>, NoMemory>
    ensures { IfOk result (λ taps. taps.items ≡ first ∷ second ∷ []) }
{
    let mut taps = Vec::new(alloc);
    taps.push(first)?;
    taps.push(second)?;
    Ok(taps)
}

// Whether there is a tap at this place that is over.
fn is_over_at(taps: &[Box<dyn Tap>], place: usize) -> bool {
    match taps.get(place) {
        Some(tap) => tap.over(),
        None => false,
    }
}

#[test]
fn a_tap_that_failed_is_told_no_more(rt: HostRuntime) -> Result<(), Fail> {
    let alloc = rt.alloc();
    let few = Arc::new(alloc, AtomicU64::new(0))?;
    let all = Arc::new(alloc, AtomicU64::new(0))?;
    let first = ListTap::new(alloc, LastEvent::FailsAt(2), Arc::try_clone(&few)?);
    let second = ListTap::new(alloc, LastEvent::Never, Arc::try_clone(&all)?);
    let events = events(alloc)?;
    let mut taps = two_taps(alloc, Box::new(alloc, first)?, Box::new(alloc, second)?)?;
    tell_all(&mut taps, &events);
    assert!(rt; is_over_at(&taps, 0) && !is_over_at(&taps, 1));
    assert_eq!(rt; few.load(Ordering::SeqCst), 2);
    assert_eq!(rt; all.load(Ordering::SeqCst), 4);
    Ok(())
}

#[test]
fn standard_error_has_the_number_of_answers(rt: HostRuntime) -> Result<(), Fail> {
    let alloc = rt.alloc();
    let events = events(alloc)?;
    let mut taps = one_tap(alloc, Box::new(alloc, TallyTap::new(rt.stderr()))?)?;
    tell_all(&mut taps, &events);
    assert!(rt; !is_over_at(&taps, 0));
    Ok(())
}
