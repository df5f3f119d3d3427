//! How many cases pass.

/// How many cases there are, and how many of them pass.
#[derive(Clone, Copy, Default, PartialEq, Eq)]
pub struct Tally {
    /// The cases.
    pub cases: u64,
    /// Those that pass.
    pub passed: u64,
}

impl Tally {
    /// Counts a case.
    pub fn count(&mut self, passes: bool) {
        self.cases = self.cases.saturating_add(1);
        if passes {
            self.passed = self.passed.saturating_add(1);
        }
    }

    /// Whether all cases pass.
    pub fn is_full(self) -> bool {
        self.passed == self.cases
    }
}
