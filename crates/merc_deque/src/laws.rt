//! What the history of a deque implies.
ghost use Rattle.std.specs.Prelude.{List};
ghost use Rattle.merc_deque.specs.declared.moves.Move.{Move};
ghost use Rattle.merc_deque.specs.History.{Leaves, NothingIsLost};

/// Whatever the moves were, the sparks that were pushed are those that were taken and those that lie in the deque,
/// each as often: however they are weighed, the weights are the same.
pub fn nothing_is_lost<T>()
    ensures { (log : List (Move T)) (sparks : List T) → Leaves log sparks → NothingIsLost log sparks }
{}
