//! Laws of the bodies of predicates.
ghost use Rattle.merc_order_laws.specs.BodyNumbers.{AskedHasNoGaps, AreBelow, HasNoGaps};
ghost use Rattle.merc_order_laws.specs.BodyTyping.{AskedIsTyped, BodyIsTyped};

/// Clauses that are typed one by one, each by types of its own, are typed as one body; and a goal that is asked is typed
/// with its new variables as with its old ones.
pub fn bodies_are_typed()
    ensures predicate { BodyIsTyped }
    ensures asked { AskedIsTyped }
{}

/// The variables of a body that are no arguments have the numbers behind the arguments, without gaps, and so many as its
/// clauses have of their own; so each variable is below the number behind them. A goal that is asked has them from 0 on.
pub fn bodies_have_no_gaps()
    ensures predicate { HasNoGaps }
    ensures below { AreBelow }
    ensures asked { AskedHasNoGaps }
{}
