//! Laws of what the parts of ordered goals keep to, of the bodies of predicates, and of symbols and the types of their variables.
#![tactic(auto)]

pub mod fitting;
pub mod ordered_goals;
pub mod predicate_bodies;
