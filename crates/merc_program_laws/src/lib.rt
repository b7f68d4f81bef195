//! Laws of programs: what traces keep to and answers say of truth, what switches and categories keep, that modules without
//! faults are good programs, which faults are told, and what so holds of the runs of accepted modules and goals.
#![tactic(auto)]

pub mod answers;
pub mod categories;
pub mod clauses;
pub mod good_programs;
pub mod modules;
pub mod runs;
pub mod trees;
pub mod truth;
pub mod units;
