//! What a session answers.
ghost use Rattle.std.specs.Prelude.{◌≡◌};
ghost use Rattle.merc_pool.specs.Telling.{last_of};

use merc_base::Name;
use merc_machine::Stop;
use merc_value::Block;

/// What comes next of a run.
#[derive(Drop)]
pub enum Next {
    /// An answer: one root for each answer variable.
    Answer(Block),
    /// There is no further answer.
    Done,
    /// An exception of this text.
    Raised(Name),
    /// One step more than the limit would have come.
    LimitPassed,
    /// Memory was refused.
    NoMemory,
}

impl Next {
    // The stop that each further call tells; none behind an answer.
    pub(crate) fn last(&self) -> Option<Stop>
        ensures { result ≡ last_of self.now }
    {
        match *self {
            Next::Answer(_) => None,
            Next::Done => Some(Stop::Ended),
            Next::Raised(text) => Some(Stop::Raised(text)),
            Next::LimitPassed => Some(Stop::LimitPassed),
            Next::NoMemory => Some(Stop::NoMemory),
        }
    }
}
