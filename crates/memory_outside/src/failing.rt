//! The calls of an object: which calls fail, how many were made, and how many faults they counted.
ghost use Rattle.std.specs.Prelude.{◌≡◌};
ghost use Rattle.outside.specs.Counts.{Counted};
ghost use Rattle.memory_outside.specs.Failing.{fails_next, next_call, no_calls};

use base::Numbers;
use outside::count_fault;

/// The calls of an object. `failing` has the numbers of the calls that fail, counted from 0.
#[derive(Drop)]
pub struct Calls {
    pub failing: Numbers,
    pub made: u64,
    pub failed: u64,
}

impl Calls {
    /// No call was made.
    pub fn new(failing: Numbers) -> Calls
        ensures { result ≡ no_calls failing }
    {
        Calls {
            failing,
            made: 0,
            failed: 0,
        }
    }

    /// Whether the next call is to fail.
    pub fn fails(&self) -> bool
        ensures { result ≡ fails_next self.now }
    {
        self.failing.as_slice().contains(&self.made)
    }

    /// One call more begins. Answers whether it is to fail.
    pub fn begin(&mut self) -> bool
        ensures fails { result ≡ fails_next self.old }
        ensures made { self.new ≡ record self.old { made = next_call self.old.made } }
    {
        let fails = self.fails();
        self.made = call_after(self.made);
        fails
    }

    /// The call that was begun last counts a fault.
    pub fn fail(&mut self)
        ensures failing { self.new.failing ≡ self.old.failing }
        ensures made { self.new.made ≡ self.old.made }
        ensures failed { Counted self.old.failed self.new.failed }
    {
        self.failed = count_fault(self.failed);
    }
}

/// The number of the call after a call. It stays at the last number.
pub fn call_after(call: u64) -> u64
    ensures { result ≡ next_call call }
{
    call.saturating_add(1)
}
