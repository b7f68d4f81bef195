//! Goals that are complete: those of the parts that were looked at that no part joins yet.

/// A goal that is complete.
#[derive(Clone, Copy)]
pub(crate) struct Complete {
    /// The part that it is, by its index.
    pub(crate) part: usize,
    /// The place from which on its variables occur.
    pub(crate) start: usize,
}
