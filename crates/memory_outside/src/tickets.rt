//! Running tickets: which one a wait takes, and how it leaves.
ghost use Rattle.std.specs.Prelude.{◌≡◌, ◌<◌};
ghost use Rattle.outside.specs.Children.{without};
ghost use Rattle.memory_outside.specs.ChildLogs.{pick as index_of};

/// The index of the ticket that a wait takes.
pub fn pick(picks: &[u32], wait: u64, running: usize) -> usize
    requires { 0 < running }
    ensures item_index { result ≡ index_of picks.now wait running }
    ensures within { result < running }
{
    if wait < picks.len() as u64 {
        picks[wait as usize] as usize % running
    } else {
        0
    }
}

/// Takes a ticket out, at its first index.
pub fn leave(running: &mut Vec<u64>, ticket: u64)
    ensures { running.new.items ≡ without ticket running.old.items }
{
    for i in 0..running.len() {
        if running[i] == ticket {
            running.remove(i);
            return;
        }
    }
}
