//! How many cases passed and failed.
ghost use Rattle.std.specs.Prelude.{◌≡◌, ◌<◌, ◌≤◌, ◌+◌, ◌-◌, ◌^◌, min, true, false};

/// The cases so far. A fault of a table counts as a case that failed.
#[derive(Clone, Copy)]
pub struct Tally {
    /// Those that passed.
    pub passed: u32,
    /// Those that failed.
    pub failed: u32,
}

impl Tally {
    /// Counts a case.
    pub(crate) fn count(&mut self, passed: bool)
        ensures failed { passed ≡ false → (self.new.failed ≡ min (self.old.failed + 1) (2 ^ 32 - 1)) × (self.new.passed ≡ self.old.passed) }
        ensures passed { passed ≡ true → (self.new.passed ≡ min (self.old.passed + 1) (2 ^ 32 - 1)) × (self.new.failed ≡ self.old.failed) }
        ensures some { passed ≡ false → 0 < self.new.failed }
        ensures kept { self.old.failed ≤ self.new.failed }
    {
        if passed {
            self.passed = self.passed.saturating_add(1);
        } else {
            self.failed = self.failed.saturating_add(1);
        }
    }
}
