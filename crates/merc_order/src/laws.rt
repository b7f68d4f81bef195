//! Laws of the order of goals.
ghost use Rattle.merc_order.specs.Laws.{AnyWay, LeftmostFirst, StaysReady};

/// A goal that can be ordered can be ordered where more is bound.
pub fn stays_ready()
    ensures { StaysReady }
{}

/// The goals of a conjunction can be ordered exactly where they can go in any order at all, and then the leftmost that is
/// ready always goes next.
pub fn order_of_conjunction()
    ensures any_way { AnyWay }
    ensures leftmost_first { LeftmostFirst }
{}
