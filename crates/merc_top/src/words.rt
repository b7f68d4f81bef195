//! What is answered of that which the words ask for.
ghost use Rattle.std.specs.Prelude.{◌≡◌, List, ℕ, MatchOption};
ghost use Rattle.merc_words.specs.Words.{IsRequest as AsksFor};
ghost use Rattle.merc_top.specs.Words.{IsNoRequest, IsRequest, file_of};

use merc_base::Text;

/// What is answered.
#[derive(Clone, Copy)]
pub enum Request<'a> {
    /// A goal, of which this is the text, over the module of a file of this name, in at most so many steps; the run is
    /// stopped behind so many answers where a number of them is given.
    Solve {
        file: &'a Text,
        goal: &'a Text,
        steps: u64,
        most: Option<u64>,
    },
    /// The check of the module of a file of this name.
    Check {
        file: &'a Text,
    },
}

impl<'a> Request<'a> {
    /// The name of the file.
    pub fn file(&self) -> &'a Text
        ensures { result.now ≡ file_of self.now }
    {
        match self {
            Request::Solve { file, .. } | Request::Check { file } => file,
        }
    }
}

/// What is answered of that which is asked for, or `None` where it is not answered yet.
pub fn answered(asked: &merc_words::Request) -> Option<Request<'_>>
    ensures { MatchOption result ((words : List (List ℕ)) → AsksFor words asked.now → IsNoRequest words) (λ request. (words : List (List ℕ)) → AsksFor words asked.now → IsRequest words request) }
{
    match asked {
        merc_words::Request::Solve {
            file,
            goal,
            steps,
            most,
            ..
        } => Some(Request::Solve {
            file,
            goal,
            steps: *steps,
            most: *most,
        }),
        merc_words::Request::Check { file } => Some(Request::Check { file }),
        merc_words::Request::Code { .. } | merc_words::Request::Grow { .. } => None,
    }
}
