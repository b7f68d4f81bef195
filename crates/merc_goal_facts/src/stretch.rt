//! Stretches of the variables of a body.

use crate::occurrences::Occurrences;

/// The occurrences of variables from one place to another.
#[derive(Clone, Copy)]
pub(crate) struct Stretch<'a> {
    /// Those of the whole body.
    pub(crate) all: &'a Occurrences,
    /// The place of the first.
    pub(crate) start: usize,
    /// The place behind the last.
    pub(crate) end: usize,
}
