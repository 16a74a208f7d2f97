//! How runs go.

/// Past all calls.
pub(super) const NEVER: u32 = 1000;

/// How runs go: their slots, whether the first that fails ends them, which child each wait takes, and the calls that fail.
#[derive(Clone, Copy)]
pub(super) struct Way {
    pub limit: u32,
    pub fail_fast: bool,
    /// Four bits a wait, the low ones first: the index among the running children, in order of their starts.
    pub picks: u32,
    /// The starts and waits that fail, counted from 0.
    pub failing: [u32; 2],
}

/// No call fails, and each wait takes the oldest child.
pub(super) fn way_of(limit: u32, fail_fast: bool) -> Way {
    Way {
        limit,
        fail_fast,
        picks: 0,
        failing: [NEVER, NEVER],
    }
}
