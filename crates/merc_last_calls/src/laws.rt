//! Laws of last calls.
ghost use Rattle.std.specs.Prelude.{◌≡◌, ◌<◌, ℕ, List};
ghost use Rattle.merc_meaning.specs.Trace.{Env, RunEnd};
ghost use Rattle.merc_course.specs.Course.{Meeting, Reply, RunCourse};
ghost use Rattle.merc_code.specs.Steps.{Code, Codes, State, Stops, Moves, Answers, Asks};
ghost use Rattle.merc_code.specs.Meaning.{Yields, start};
ghost use Rattle.merc_code.specs.Weight.{weight};
ghost use Rattle.merc_last_calls.specs.LastCalls.{step_lean};
ghost use Rattle.merc_last_calls.specs.LeanMeaning.{YieldsLean, GoesLean};
ghost use Rattle.merc_last_calls.specs.Standing.{Matches, Follows, FollowsAnswer, FollowsAsk, FollowsStop};

/// States that match yield the same courses, with last calls and without.
pub fn last_calls_change_no_course()
    ensures with_last_calls { (codes : Codes) (lean state : State) (course : RunCourse) → Matches lean state → Yields codes state course → YieldsLean codes lean course }
    ensures without { (codes : Codes) (lean state : State) (course : RunCourse) → Matches lean state → YieldsLean codes lean course → Yields codes state course }
{}

/// From the start state on the courses are the same.
pub fn last_calls_change_no_course_from_the_start()
    ensures with_last_calls { (codes : Codes) (code : Code) (limit : ℕ) (course : RunCourse) → Yields codes (start code limit) course → YieldsLean codes (start code limit) course }
    ensures without { (codes : Codes) (code : Code) (limit : ℕ) (course : RunCourse) → YieldsLean codes (start code limit) course → Yields codes (start code limit) course }
{}

/// A piece of a course with last calls is one without them, from each state that the first state stands for.
pub fn pieces_are_pieces_without_last_calls()
    ensures goes { (codes : Codes) (count : ℕ) (lean last state : State) → GoesLean codes count lean last → Matches lean state → Follows codes count last state }
    ensures answers { (codes : Codes) (lean next state : State) (values : Env) → step_lean codes lean ≡ Answers values next → Matches lean state → FollowsAnswer codes values next state }
    ensures asks { (codes : Codes) (lean state : State) (what : Meeting) (forked : List State) (next : Reply → State) → step_lean codes lean ≡ Asks what forked next → Matches lean state → FollowsAsk codes what forked next state }
    ensures stops { (codes : Codes) (lean state : State) (end : RunEnd) → step_lean codes lean ≡ Stops end → Matches lean state → FollowsStop codes end state }
{}

/// A step that only moves makes the weight less.
pub fn moves_are_lighter()
    ensures { (codes : Codes) (lean next : State) → step_lean codes lean ≡ Moves next → weight next < weight lean }
{}
