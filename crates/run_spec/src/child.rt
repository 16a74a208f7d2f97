//! The running children of a build or of runs of tests.

ghost use Rattle.std.specs.Prelude.{◌≡◌, ◌≢◌, ◌↔◌, IsTrue, ℕ, ◌<◌, length, map, Contains, slice_index_or};

/// A running child, with its ticket and the position of its file or of its run.
#[derive(Drop)]
pub struct Child {
    pub ticket: u64,
    pub position: u32,
}

/// The index of the first child with a ticket.
pub fn index_of(children: &[Child], ticket: u64) -> usize
    requires { Contains (map (λ child. child.ticket) children.now) ticket }
    ensures within { result < length children.now }
    ensures found { (other : Child) → (slice_index_or children.now result other).ticket ≡ ticket }
    ensures first { (k : ℕ) (other : Child) → k < result →
        (slice_index_or children.now k other).ticket ≢ ticket }
{
    for at in 0..children.len() {
        if children[at].ticket == ticket {
            return at;
        }
    }
    0
}

/// Some child has a ticket.
pub fn has_ticket(children: &[Child], ticket: u64) -> bool
    ensures { IsTrue result ↔ Contains (map (λ child. child.ticket) children.now) ticket }
{
    for at in 0..children.len() {
        if children[at].ticket == ticket {
            return true;
        }
    }
    false
}
