//! Running tickets.
ghost use Rattle.std.specs.Prelude.{◌≡◌, ◌+◌, ◌<◌, length, Contains};
ghost use Rattle.outside.specs.Children.{without};

/// Takes a ticket out, at its first index, and gives the index.
pub fn leave(running: &mut Vec<u64>, ticket: u64) -> usize
    requires { Contains running.old.items ticket }
    ensures items { running.new.items ≡ without ticket running.old.items }
    ensures index { result < length running.old.items }
    ensures one_less { length running.new.items + 1 ≡ length running.old.items }
{
    for i in 0..running.len() {
        if running[i] == ticket {
            running.remove(i);
            return i;
        }
    }
    unreachable!()
}
