//! Children that are waited for in turns, so that something can be done meanwhile.

ghost use Rattle.std.specs.Prelude.{◌≡◌};

use outside::Procs;

/// Children that can be looked at without waiting for an end.
pub trait Turns: Procs {
    /// Whether a child has ended, so that its end can be taken without a wait. It may look for `millis` milliseconds, and stops
    /// looking once a child has printed. It answers true if it can't look at the children.
    fn has_end_within(&mut self, millis: i32) -> bool
        ensures running { Self.running self.new ≡ Self.running self.old }
        ensures journal { Self.journal self.new ≡ Self.journal self.old }
        ensures same { Self.answer self.new ≡ Self.answer self.old }
        ensures starts { Self.failed_starts self.new ≡ Self.failed_starts self.old }
        ensures children { Self.lost_children self.new ≡ Self.lost_children self.old };

    /// The signal that ended the child whose end was taken last, if one did.
    fn last_signal(&self) -> Option<i32>;
}
