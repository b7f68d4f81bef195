//! Where a machine meets others: what it hands on and what it is given between two runs.
ghost use Rattle.std.specs.Prelude.{◌≡◌, ℕ, suc, ◌+◌, ◌-◌, ◌≤◌, [], ◌∷◌, length, IfOk, OnOk, OnErr, Option, Some, true, slice_get};
ghost use Rattle.std.specs.Option.{is_some};
ghost use Rattle.merc_value.specs.Value.{Value};
ghost use Rattle.merc_store.specs.Fitting.{slot_value};
ghost use Rattle.merc_value.specs.Block.{root_values};
ghost use Rattle.merc_code.specs.declared.instruction.Instruction.{Instruction};
ghost use Rattle.merc_code.specs.declared.instruction.Instruction.TheVariants.{Fork, Wait, Signal};
ghost use Rattle.merc_course.specs.Course.{AtFork, AtWait, AtSignal, Course, Courses, Given, Joined, Meets, Passed, Reply, RunCourse};
ghost use Rattle.merc_layout.specs.KnownConjuncts.{conjunct_at};
ghost use Rattle.merc_meaning.specs.Trace.{RunEnd};
ghost use Rattle.merc_machine.specs.Coming.{IsReady, MeetsAt, ProceedsFrom, all_left};
ghost use Rattle.merc_load.specs.declared.loaded.Op.TheVariants.{Meet as MeetOp};
ghost use Rattle.merc_machine.specs.declared.machine.Phase.TheVariants.{Running};
ghost use Rattle.merc_machine.specs.Meetings.{IsConjunctOf, IsGiven, IsRejoined};
ghost use Rattle.merc_machine.specs.Running.{Means, course_at, steps_in, stop_at, stop_by};
ghost use Rattle.merc_machine.specs.declared.running.Stop.{Stop};
ghost use Rattle.merc_machine.specs.declared.running.Stop.TheVariants.{Starved};

use crate::machine::{Machine, Next, Phase};
use crate::running::Stop;
use merc_base::NoMemory;
use merc_code::Instruction;
use merc_goal_tree::Var;
use merc_graded_tree::Site;
use merc_load::Op;
use merc_script::Outcome;
use merc_store::Store;
use merc_value::Block;
use std::alloc::Global;

impl<'a> Machine<'a> {
    /// The machine of a conjunct, by its number from 0, of the fork at which this one stands: before the conjunct's first instruction,
    /// with copies of the values of those variables that the conjunct uses, and with as many steps left as here.
    ///
    /// # Errors
    ///
    /// `NoMemory` where memory was refused.
    pub fn child(&self, alloc: Global, site: Site, number: usize) -> Result<Machine<'a>, NoMemory>
        requires at { MeetsAt self.now (Fork site) }
        requires means { (course : RunCourse) × Means self.now course }
        requires there { is_some (conjunct_at self.now.program.now.conjuncts site.number number) ≡ true }
        ensures means { IfOk result (λ child. IsConjunctOf self.now site number child) }
        ensures forked { (forked : Courses RunEnd) (next : Reply → RunCourse) → Means self.now (Meets (AtFork site.number) forked next)
            → (course : RunCourse) × (course_at forked number ≡ Some course) }
        ensures limit { IfOk result (λ child. (child.limit ≡ all_left self.now) × (all_left child ≡ all_left self.now)) }
    {
        match self.program.conjunct(site, number) {
            Some(known) => {
                let frozen = self.store.freeze(alloc, known.used.as_slice())?;
                let mut store = Store::new(alloc);
                store.open_with(known.entry.size, &frozen)?;
                Ok(Machine {
                    program: self.program,
                    store,
                    phase: Phase::Running(known.entry.place),
                    left: 0,
                    later: self.later,
                    limit: self.later,
                    over: None,
                })
            }
            None => unreachable!(),
        }
    }

    /// Whether a conjunct of this number, from 0, is forked at the site.
    pub fn has_child(&self, site: Site, number: usize) -> bool
        ensures { result ≡ is_some (conjunct_at self.now.program.now.conjuncts site.number number) }
    {
        self.program.conjunct(site, number).is_some()
    }

    /// Goes on behind the fork at which the machine stands, with as many steps less left as its conjuncts made, or ends as their
    /// outcome says. Takes no memory.
    pub fn rejoin(&mut self, site: Site, outcome: Outcome)
        requires at { MeetsAt self.old (Fork site) }
        requires means { (course : RunCourse) × Means self.old course }
        requires within { steps_in outcome ≤ all_left self.old }
        ensures goes_on { (steps : ℕ) → outcome ≡ Outcome.Ok steps → IsRejoined self.old site steps self.new }
        ensures ends { (stop : Stop) → stop_by outcome ≡ Some stop → self.new ≡ record self.old { later = all_left self.old - steps_in outcome; over = Some stop } }
        ensures spends { (all_left self.new + steps_in outcome ≡ all_left self.old) × (self.new.limit ≡ self.old.limit) }
    {
        let there = self.place_behind_meeting();
        match outcome {
            Outcome::Ok(steps) => {
                self.later -= steps;
                self.phase = Phase::Running(there);
            }
            Outcome::Raise(text, steps) => {
                self.later -= steps;
                self.over = Some(Stop::Raised(text));
            }
            Outcome::Limit => self.over = Some(Stop::LimitPassed),
            Outcome::Starved => self.over = Some(Stop::Starved),
            Outcome::NoMemory => self.over = Some(Stop::NoMemory),
        }
    }

    /// Gives the variable for which the machine waits the value of a block's only root, and goes on behind the wait.
    ///
    /// # Errors
    ///
    /// `NoMemory` where memory was refused, and nothing changes.
    pub fn give(&mut self, variable: Var, value: &Block) -> Result<(), NoMemory>
        requires at { MeetsAt self.old (Wait variable) }
        requires means { (course : RunCourse) × Means self.old course }
        requires root { length value.now.roots ≡ 1 }
        ensures goes_on { OnOk result ((given : Value) → root_values value.now ≡ given ∷ [] → IsGiven self.old variable given self.new) }
        ensures same_steps { OnOk result ((all_left self.new ≡ all_left self.old) × (self.new.limit ≡ self.old.limit)) }
        ensures err { OnErr result (self.new ≡ self.old) }
    {
        let there = self.place_behind_meeting();
        self.store.sound();
        self.store.give_value(variable, value)?;
        self.phase = Phase::Running(there);
        Ok(())
    }

    /// Ends the machine, which waits for a value that does not come. Takes no memory.
    pub fn starve(&mut self)
        ensures { self.new ≡ record self.old { over = Some Starved } }
    {
        self.over = Some(Stop::Starved);
    }

    /// The value of the variable that the machine hands on, as the only root of a block. Goes on behind the signal.
    ///
    /// # Errors
    ///
    /// `NoMemory` where memory was refused, and nothing changes.
    pub fn value_of(&mut self, alloc: Global, variable: Var) -> Result<Block, NoMemory>
        requires at { MeetsAt self.old (Signal variable) }
        requires means { (course : RunCourse) × Means self.old course }
        ensures goes_on { IfOk result (λ block. (value : Value) (forked : Courses RunEnd) (next : Reply → RunCourse) → Means self.old (Meets (AtSignal variable value) forked next)
            → (root_values block ≡ value ∷ []) × Means self.new (next Passed)) }
        ensures same_steps { OnOk result ((all_left self.new ≡ all_left self.old) × (self.new.limit ≡ self.old.limit)) }
        ensures err { OnErr result (self.new ≡ self.old) }
    {
        let there = self.place_behind_meeting();
        let block = self.store.freeze_one(alloc, variable)?;
        self.phase = Phase::Running(there);
        Ok(block)
    }

    /// How many more steps it may make.
    pub fn left(&self) -> u64
        requires fits { all_left self.now ≤ 18446744073709551615 }
        ensures { result ≡ all_left self.now }
    {
        u64::from(self.left) + self.later
    }

    /// The steps so far, those that joins brought among them.
    pub fn used(&self) -> u64
        requires fits { all_left self.now ≤ 18446744073709551615 }
        ensures { result ≡ self.now.limit - all_left self.now }
    {
        self.limit.saturating_sub(self.left())
    }

    // The place behind the instruction at which it meets others.
    fn place_behind_meeting(&self) -> usize
        requires { (instruction : Instruction) × MeetsAt self.now instruction }
        ensures { (place : ℕ) → self.now.phase ≡ Running place → result ≡ suc place }
    {
        // The length tells that the place behind is a number.
        let _ = self.program.len();
        match self.phase {
            Phase::Running(place) => place + 1,
            Phase::GoingBack | Phase::Answered(_) => unreachable!(),
        }
    }

    // The stop at the instruction at which the machine meets others; `None` where it stands at none.
    pub(crate) fn meeting(&self) -> Option<Stop>
        ensures some { (stop : Stop) → result ≡ Some stop → (instruction : Instruction) × MeetsAt self.now instruction × (stop ≡ stop_at instruction) }
        ensures at { (instruction : Instruction) → MeetsAt self.now instruction → result ≡ Some (stop_at instruction) }
    {
        match self.phase {
            Phase::Running(place) => match self.program.op(place) {
                Some(op) => self.stop_at_op(op),
                None => None,
            },
            Phase::GoingBack | Phase::Answered(_) => None,
        }
    }

    // The stop at an instruction of the machine, where it meets others there.
    fn stop_at_op(&self, op: &Op) -> Option<Stop>
        ensures some { (stop : Stop) → result ≡ Some stop → (instruction : Instruction) × (op.now ≡ MeetOp instruction) × IsReady self.now.store instruction × (stop ≡ stop_at instruction) }
        ensures at { (instruction : Instruction) → op.now ≡ MeetOp instruction → IsReady self.now.store instruction → result ≡ Some (stop_at instruction) }
    {
        match op {
            Op::Meet(instruction) => self.stop_before(instruction),
            _ => None,
        }
    }

    // The stop before an instruction, where the machine meets others there.
    fn stop_before(&self, instruction: &Instruction) -> Option<Stop>
        ensures some { (stop : Stop) → result ≡ Some stop → IsReady self.now.store instruction.now × (stop ≡ stop_at instruction.now) }
        ensures ready { IsReady self.now.store instruction.now → result ≡ Some (stop_at instruction.now) }
    {
        match instruction {
            Instruction::Fork(site) => Some(Stop::AtFork(*site)),
            Instruction::Wait(variable) => Some(Stop::AtWait(*variable)),
            Instruction::Signal(variable) => {
                if self.has_word(*variable) {
                    Some(Stop::AtSignal(*variable))
                } else {
                    None
                }
            }
            _ => None,
        }
    }

    // Whether a variable has a value; one of which the frame has no slot has none.
    fn has_word(&self, variable: Var) -> bool
        ensures { result ≡ is_some (slot_value self.now.store.cells (slice_get self.now.store.stacks.current variable)) }
    {
        match self.store.slot_if_there(variable) {
            Some(slot) => slot.word().is_some(),
            None => false,
        }
    }

    // Stops before a fork, a wait or a signal; a signal whose variable has no value goes back.
    pub(crate) fn meet(&self, place: usize, instruction: &Instruction) -> Next
        requires op { slice_get self.now.program.now.ops.items place ≡ Some (MeetOp instruction.now) }
        ensures { ProceedsFrom self.now (Running place) result self.now }
    {
        match instruction {
            Instruction::Signal(variable) => {
                if self.has_word(*variable) {
                    Next::Meet(place)
                } else {
                    Next::Back
                }
            }
            _ => Next::Meet(place),
        }
    }
}
