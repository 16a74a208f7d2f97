//! How many children and tests there are of each kind.

/// What has become of children and tests so far.
#[derive(Clone, Copy)]
pub struct Counts {
    /// Children that may be started in all.
    pub due: u64,
    pub ended: u64,
    pub passed: u64,
    pub failed: u64,
    /// Tests whose run has been started.
    pub tests_started: u64,
    pub tests_passed: u64,
    pub tests_failed: u64,
    /// Tests of runs that ended without a result.
    pub tests_lost: u64,
    /// Whether the program itself was started as a compiler.
    pub has_own_compiler: bool,
    /// Whether the program itself was started as a simulator.
    pub has_own_simulator: bool,
}

impl Counts {
    /// Nothing is due, and nothing has happened.
    pub fn new() -> Counts {
        Counts {
            due: 0,
            ended: 0,
            passed: 0,
            failed: 0,
            tests_started: 0,
            tests_passed: 0,
            tests_failed: 0,
            tests_lost: 0,
            has_own_compiler: false,
            has_own_simulator: false,
        }
    }
}

/// One more, of any that can be counted.
pub fn add(count: &mut u64, more: u64) {
    *count = count.saturating_add(more);
}
