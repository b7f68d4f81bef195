//! The statuses that the program ends with.

/// The run has solutions and no further one, or is stopped behind as many as are wanted.
pub const SOLVED: u8 = 0;
/// The module that is checked breaks no rule.
pub const ACCEPTED: u8 = 0;
/// The run has no solution.
pub const UNSOLVED: u8 = 1;
/// The run ended with an exception.
pub const RAISED: u8 = 2;
/// The run passed its step limit.
pub const LIMIT_PASSED: u8 = 3;
/// The module breaks a rule.
pub const MODULE_REFUSED: u8 = 4;
/// The goal breaks a rule.
pub const GOAL_REFUSED: u8 = 5;
/// The words ask for nothing that there is.
pub const USAGE: u8 = 6;
/// The file was not read.
pub const UNREAD: u8 = 7;
/// A write failed.
pub const UNWRITTEN: u8 = 8;
/// Memory was refused.
pub const NO_MEMORY: u8 = 9;
/// The file is longer than the limit.
pub const TOO_LONG: u8 = 10;
