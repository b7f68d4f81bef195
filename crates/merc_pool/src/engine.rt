//! What makes the steps of a branch.
ghost use Rattle.std.specs.Prelude.{◌≡◌, ℕ, ◌+◌, ◌-◌, ◌≤◌, [], ◌∷◌, length, true, IfOk, OnOk, OnErr, None, Some};
ghost use Rattle.std.specs.Option.{is_some};
ghost use Rattle.merc_code.specs.declared.instruction.Instruction.TheVariants.{Fork, Signal, Wait};
ghost use Rattle.merc_course.specs.Course.{AtFork, AtSignal, Courses, Meets, Passed, Reply, RunCourse};
ghost use Rattle.merc_layout.specs.KnownConjuncts.{conjunct_at};
ghost use Rattle.merc_machine.specs.Coming.{MeetsAt, all_left};
ghost use Rattle.merc_machine.specs.Meetings.{IsConjunctOf, IsGiven, IsRejoined};
ghost use Rattle.merc_machine.specs.Running.{HasAnswered, Means, Ran, course_at, last_stop, steps_in, stop_by};
ghost use Rattle.merc_machine.specs.declared.running.Stop.{Stop};
ghost use Rattle.merc_meaning.specs.Trace.{Env, RunEnd};
ghost use Rattle.merc_pool.specs.Telling.{ShowsAnswer};
ghost use Rattle.merc_value.specs.Block.{root_values};
ghost use Rattle.merc_value.specs.Value.{Value};

use merc_base::NoMemory;
use merc_goal_tree::Var;
use merc_graded_tree::Site;
use merc_machine::{Machine, Stop, Ticks};
use merc_script::Outcome;
use merc_value::Block;
use std::alloc::Global;

/// What makes the steps of a branch: a machine, with its calls as they are. It is a trait so that the types of a session name
/// no lifetime.
pub trait Engine: Drop + Send {
    ghost use Rattle.merc_machine.specs.declared.machine.Machine.{Machine};

    // the machine that it is
    ghost seen: { Self → Machine };

    /// Runs up to the next answer, the end, a meeting with others, or so many steps. Behind an end it gives the same stop again.
    fn run(&mut self, slice: u32, ticks: &mut Ticks) -> Stop
        requires slice { 1 ≤ slice }
        requires means { (seen self.old).over ≡ None → (course : RunCourse) × Means (seen self.old) course }
        ensures ran { (course : RunCourse) → Means (seen self.old) course → Ran result course (seen self.old) (seen self.new) ticks.old ticks.new slice }
        ensures again { (stop : Stop) → (seen self.old).over ≡ Some stop → (result ≡ stop) × (seen self.new ≡ seen self.old) × (ticks.new ≡ ticks.old) }
        ensures over { (seen self.old).over ≡ None → (seen self.new).over ≡ last_stop result };

    /// Whether a conjunct of this number, from 0, is forked at the site.
    fn has_child(&self, site: Site, number: usize) -> bool
        ensures { result ≡ is_some (conjunct_at (seen self.now).program.now.conjuncts site.number number) };

    /// The machine of a conjunct of the fork at which this one stands.
    ///
    /// # Errors
    ///
    /// `NoMemory` where memory was refused.
    fn child(&self, alloc: Global, site: Site, number: usize) -> Result<Self, NoMemory>
        requires at { MeetsAt (seen self.now) (Fork site) }
        requires means { (course : RunCourse) × Means (seen self.now) course }
        requires there { is_some (conjunct_at (seen self.now).program.now.conjuncts site.number number) ≡ true }
        ensures means { IfOk result (λ child. IsConjunctOf (seen self.now) site number (seen child)) }
        ensures forked { (forked : Courses RunEnd) (next : Reply → RunCourse) → Means (seen self.now) (Meets (AtFork site.number) forked next)
            → (course : RunCourse) × (course_at forked number ≡ Some course) }
        ensures limit { IfOk result (λ child. ((seen child).limit ≡ all_left (seen self.now)) × (all_left (seen child) ≡ all_left (seen self.now))) };

    /// Goes on behind the fork at which it stands, or ends as the outcome says.
    fn rejoin(&mut self, site: Site, outcome: Outcome)
        requires at { MeetsAt (seen self.old) (Fork site) }
        requires means { (course : RunCourse) × Means (seen self.old) course }
        requires within { steps_in outcome ≤ all_left (seen self.old) }
        ensures goes_on { (steps : ℕ) → outcome ≡ Outcome.Ok steps → IsRejoined (seen self.old) site steps (seen self.new) }
        ensures ends { (stop : Stop) → stop_by outcome ≡ Some stop → seen self.new ≡ record (seen self.old) { later = all_left (seen self.old) - steps_in outcome; over = Some stop } }
        ensures spends { (all_left (seen self.new) + steps_in outcome ≡ all_left (seen self.old)) × ((seen self.new).limit ≡ (seen self.old).limit) };

    /// Gives the variable for which it waits a value, and goes on behind the wait.
    ///
    /// # Errors
    ///
    /// `NoMemory` where memory was refused, and nothing changes.
    fn give(&mut self, variable: Var, value: &Block) -> Result<(), NoMemory>
        requires at { MeetsAt (seen self.old) (Wait variable) }
        requires means { (course : RunCourse) × Means (seen self.old) course }
        requires root { length value.now.roots ≡ 1 }
        ensures goes_on { OnOk result ((given : Value) → root_values value.now ≡ given ∷ [] → IsGiven (seen self.old) variable given (seen self.new)) }
        ensures same_steps { OnOk result ((all_left (seen self.new) ≡ all_left (seen self.old)) × ((seen self.new).limit ≡ (seen self.old).limit)) }
        ensures err { OnErr result (seen self.new ≡ seen self.old) };

    /// The value that it hands on. Goes on behind the signal.
    ///
    /// # Errors
    ///
    /// `NoMemory` where memory was refused, and nothing changes.
    fn value_of(&mut self, alloc: Global, variable: Var) -> Result<Block, NoMemory>
        requires at { MeetsAt (seen self.old) (Signal variable) }
        requires means { (course : RunCourse) × Means (seen self.old) course }
        ensures goes_on { IfOk result (λ block. (value : Value) (forked : Courses RunEnd) (next : Reply → RunCourse) → Means (seen self.old) (Meets (AtSignal variable value) forked next)
            → (root_values block ≡ value ∷ []) × Means (seen self.new) (next Passed)) }
        ensures same_steps { OnOk result ((all_left (seen self.new) ≡ all_left (seen self.old)) × ((seen self.new).limit ≡ (seen self.old).limit)) }
        ensures err { OnErr result (seen self.new ≡ seen self.old) };

    /// The values of the answer at which it stands.
    ///
    /// # Errors
    ///
    /// `NoMemory` where memory was refused.
    fn answer(&self, alloc: Global) -> Result<Block, NoMemory>
        ensures { IfOk result (λ block. (values : Env) → HasAnswered (seen self.now) values → ShowsAnswer values block) };

    /// How many more steps it may make.
    fn left(&self) -> u64
        requires fits { all_left (seen self.now) ≤ 18446744073709551615 }
        ensures { result ≡ all_left (seen self.now) };

    /// The steps so far.
    fn used(&self) -> u64
        requires fits { all_left (seen self.now) ≤ 18446744073709551615 }
        ensures { result ≡ (seen self.now).limit - all_left (seen self.now) };
}

impl<'a> Engine for Machine<'a> {
    ghost seen = { λ machine. machine };

    fn run(&mut self, slice: u32, ticks: &mut Ticks) -> Stop {
        Machine::run(self, slice, ticks)
    }

    fn has_child(&self, site: Site, number: usize) -> bool {
        Machine::has_child(self, site, number)
    }

    fn child(&self, alloc: Global, site: Site, number: usize) -> Result<Machine<'a>, NoMemory> {
        Machine::child(self, alloc, site, number)
    }

    fn rejoin(&mut self, site: Site, outcome: Outcome) {
        Machine::rejoin(self, site, outcome);
    }

    fn give(&mut self, variable: Var, value: &Block) -> Result<(), NoMemory> {
        Machine::give(self, variable, value)
    }

    fn value_of(&mut self, alloc: Global, variable: Var) -> Result<Block, NoMemory> {
        Machine::value_of(self, alloc, variable)
    }

    fn answer(&self, alloc: Global) -> Result<Block, NoMemory> {
        Machine::answer(self, alloc)
    }

    fn left(&self) -> u64 {
        Machine::left(self)
    }

    fn used(&self) -> u64 {
        Machine::used(self)
    }
}
