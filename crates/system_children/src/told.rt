//! A wrapper of children, which hands on each answer unchanged.

ghost use Rattle.std.specs.Prelude.{◌≡◌};

use crate::Turns;
use crate::teller::Teller;
use base::Request;
use outside::{Ended, Procs, StartFault, WaitFault};
use std::alloc::Global;
use std::rt::Clock;

/// Children, with lines about them on standard error. It hands on their answers. A failure to write a line is ignored.
#[derive(Drop)]
pub struct ToldProcs<P: Turns + Drop, R: Clock + Drop> {
    /// The children themselves.
    pub procs: P,
    /// Writes the lines about them.
    pub teller: Teller<R>,
}

impl<P: Turns + Drop, R: Clock + Drop> ToldProcs<P, R> {
    /// Writes the lines that become due until a child has ended. It returns at once if no line will be due.
    fn wait_telling(&mut self, alloc: Global)
        ensures running { P.running self.new.procs ≡ P.running self.old.procs }
        ensures journal { P.journal self.new.procs ≡ P.journal self.old.procs }
        ensures same { P.answer self.new.procs ≡ P.answer self.old.procs }
        ensures starts { P.failed_starts self.new.procs ≡ P.failed_starts self.old.procs }
        ensures children { P.lost_children self.new.procs ≡ P.lost_children self.old.procs }
    {
        for _ in 0..u64::MAX {
            let Some(millis) = self.teller.pause() else {
                return;
            };
            if self.procs.has_end_within(millis) {
                return;
            }
            self.teller.tick(alloc);
        }
    }

    /// Tells of the end that a wait gave.
    fn note_end(&mut self, alloc: Global, end: &Result<Ended, WaitFault>)
        ensures { self.new.procs ≡ self.old.procs }
    {
        let signal = self.procs.last_signal();
        match end {
            Ok(end) => self.teller.note_exit(alloc, end.ticket, &end.exit, signal),
            Err(WaitFault::NoMemory { ticket }) => self.teller.note_loss(alloc, *ticket),
            Err(WaitFault::Lost { ticket }) => self.teller.note_loss(alloc, *ticket),
        }
    }
}

impl<P: Turns + Drop, R: Clock + Drop> Procs for ToldProcs<P, R> {
    ghost tells = { P.tells };

    ghost running = { λ a. P.running a.procs };

    ghost journal = { λ a. P.journal a.procs };

    ghost answer = { λ a. P.answer a.procs };

    ghost failed_starts = { λ a. P.failed_starts a.procs };

    ghost lost_children = { λ a. P.lost_children a.procs };

    fn start(&mut self, alloc: Global, request: &Request) -> Result<u64, StartFault> {
        let started = self.procs.start(alloc, request);
        if let Ok(ticket) = started {
            self.teller.note_start(alloc, ticket, request);
        }
        started
    }

    fn wait_any(&mut self, alloc: Global) -> Result<Ended, WaitFault> {
        self.wait_telling(alloc);
        let end = self.procs.wait_any(alloc);
        self.note_end(alloc, &end);
        end
    }

    fn announce_starts(&mut self, starts: u64) {
        self.procs.announce_starts(starts);
        self.teller.note_due(starts);
    }

    fn skip_start(&mut self) {
        self.procs.skip_start();
        self.teller.note_spared();
    }

    fn announce_results(&mut self, alloc: Global, path: &[u8]) {
        self.procs.announce_results(alloc, path);
        self.teller.note_results(alloc, path);
    }
}
