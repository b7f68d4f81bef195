//! What is true of what a tap has seen.
ghost use Rattle.merc_answers.specs.TapsLaws.{FailsLast, SeesBoth, SeesNothing};

/// What a tap has seen adds up from no event to all of them, and one that is not over has not failed at them.
pub fn taps_see_in_order()
    ensures nothing { SeesNothing }
    ensures both { SeesBoth }
    ensures faults { FailsLast }
{}
