//! Children that answer as those of the program do, but for one that ends with another code.

ghost use Rattle.std.specs.Prelude.{◌≡◌};
ghost use Rattle.outside.specs.Children.{FitsExit};
ghost use Rattle.memory_children.specs.OneAnswer.{answer_in};

use base::{Exit, Numbers, Positions, Request};
use memory_children::LoopProcs;
use outside::{Ended, Procs, StartFault, WaitFault};
use std::alloc::Global;

/// Children that answer as those of the program do, where the end of a number, counted from 0, has the code 1. They tell
/// nothing.
#[derive(Drop)]
pub struct CodedProcs {
    procs: LoopProcs,
    bad: u64,
    ended: u64,
}

impl CodedProcs {
    /// Children of which none was started. The calls of the numbers in `failing` fail.
    pub fn new(alloc: Global, bad: u64, failing: Numbers) -> CodedProcs {
        CodedProcs {
            procs: LoopProcs::new(alloc, Positions::new(alloc), failing),
            bad,
            ended: 0,
        }
    }

    /// How many children have ended.
    pub fn ended_count(&self) -> u64 {
        self.ended
    }

    /// The tickets of the running children.
    pub fn running_tickets(&self) -> &[u64]
        ensures { result.now ≡ self.now.procs.child_log.running }
    {
        self.procs.running_tickets()
    }

    /// The exit that is told, and one end more.
    fn encode_exit(&mut self, exit: Exit) -> Exit
        requires { FitsExit exit }
        ensures fits { FitsExit result }
        ensures procs { self.new.procs ≡ self.old.procs }
    {
        let Exit {
            code,
            output,
            results,
        } = exit;
        let is_bad = self.ended == self.bad;
        self.ended = self.ended.saturating_add(1);
        Exit {
            code: if is_bad { 1 } else { code },
            output,
            results,
        }
    }
}

impl Procs for CodedProcs {
    ghost tells = { ⊥ };

    ghost running = { λ p. p.procs.child_log.running };

    ghost journal = { λ p. p.procs.child_log.journal };

    ghost answer = { λ p. answer_in p.procs.known };

    ghost failed_starts = { λ p. p.procs.child_log.calls.failed };

    ghost lost_children = { λ p. p.procs.child_log.lost_children };

    fn start(&mut self, alloc: Global, request: &Request) -> Result<u64, StartFault> {
        self.procs.start(alloc, request)
    }

    fn wait_any(&mut self, alloc: Global) -> Result<Ended, WaitFault> {
        match self.procs.wait_any(alloc) {
            Ok(Ended { ticket, exit }) => {
                let exit = self.encode_exit(exit);
                Ok(Ended { ticket, exit })
            }
            Err(fault) => Err(fault),
        }
    }
}
