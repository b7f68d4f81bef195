//! What a wait is answered.

/// What `Consumer::wait` answers.
#[derive(Drop)]
pub enum CellWait<V, W> {
    /// The cell was full: the waiter, and the value.
    Ready(W, V),
    /// The producer had ended without a value: the waiter.
    Starved(W),
    /// Neither. The producer will be handed the waiter.
    Parked,
}
