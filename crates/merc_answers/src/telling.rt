//! Tells an event to each tap that still listens.
ghost use Rattle.std.specs.Prelude.{◌≡◌, ◌<◌, [], ◌∷◌, All, false};
ghost use Rattle.merc_base.specs.Outside.{AnswersTake};
ghost use Rattle.merc_answers.specs.Taps.{TapSaw, TapsSaw};

use merc_base::{Tap, TapAnswer, TapEvent};

/// Tells this event to each tap that is not over, in order. Taps that are over are left alone. It takes no memory.
pub fn tell(taps: &mut Vec<Box<dyn Tap>>, event: &TapEvent)
    requires room { All (λ tap. is_over tap ≡ false → tap_faults tap < 18446744073709551615) taps.old.items }
    ensures { TapsSaw (λ tap. tap.vtable) (λ tap. record { seen = seen tap; count = seen_count tap; is_over = is_over tap; faults = tap_faults tap }) (event.now ∷ []) taps.old.items taps.new.items }
{
    for tap in taps.iter_mut() {
        tell_one(tap, event);
    }
}

// Tells this event to a tap if it is not over.
fn tell_one(tap: &mut Box<dyn Tap>, event: &TapEvent)
    requires room { is_over tap.old ≡ false → tap_faults tap.old < 18446744073709551615 }
    ensures { TapSaw (λ tap. tap.vtable) (λ tap. record { seen = seen tap; count = seen_count tap; is_over = is_over tap; faults = tap_faults tap }) (event.now ∷ []) tap.old tap.new }
{
    if !is_over(tap) {
        let _answer = take_event(tap, event);
    }
}

fn is_over(tap: &Box<dyn Tap>) -> bool
    ensures { result ≡ is_over tap.now }
{
    tap.over()
}

fn take_event(tap: &mut Box<dyn Tap>, event: &TapEvent) -> TapAnswer
    requires listens { is_over tap.old ≡ false }
    requires room { tap_faults tap.old < 18446744073709551615 }
    ensures kind { tap.new.vtable ≡ tap.old.vtable }
    ensures taken { AnswersTake event.now (seen tap.old) (seen tap.new) (seen_count tap.old) (seen_count tap.new) (is_over tap.new) (tap_faults tap.old) (tap_faults tap.new) result }
{
    tap.take(event)
}
