//! Whether a journal needs compaction.

ghost use Rattle.std.specs.Prelude.{◌≡◌, ◌↔◌, false, IsTrue};
ghost use Rattle.store_journal.specs.DeadBytes.{AsksAt, HasManyDead};

use crate::Journal;

/// How many dead bytes a side may have, whatever its live ones.
pub const DEAD_LIMIT: u64 = 1_048_576;

impl Journal {
    /// Whether the journal needs compaction if this many of its bytes are live: its dead bytes are more than `DEAD_LIMIT` and more
    /// than the live ones, and there is a next generation.
    pub fn asks_compaction(&self, live: u64) -> bool
        requires { self.now.broken ≡ false }
        ensures { IsTrue result ↔ AsksAt self.now.generation self.now.len live }
    {
        if self.generation() == u64::MAX {
            return false;
        }
        has_many_dead(self.length(), live)
    }
}

/// Whether `len` bytes, with `live` live ones, need compaction: the dead bytes are more than `DEAD_LIMIT` and more than the live
/// ones.
fn has_many_dead(len: u64, live: u64) -> bool
    ensures { IsTrue result ↔ HasManyDead len live }
{
    let dead = len.saturating_sub(live);
    if dead <= DEAD_LIMIT {
        return false;
    }
    live < dead
}
