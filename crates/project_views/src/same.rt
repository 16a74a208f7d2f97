//! Whether two lists of words are the same.

ghost use Rattle.std.specs.Prelude.{◌≡◌, ◌↔◌, IsTrue};

use base::TextList;

/// Whether two lists have the same words in the same order.
pub fn same_words(a: &TextList, b: &TextList) -> bool
    ensures { IsTrue result ↔ (a.now ≡ b.now) }
{
    let a = a.as_slice();
    let b = b.as_slice();
    if a.len() != b.len() {
        return false;
    }
    for i in 0..a.len() {
        if !a[i].same(&b[i]) {
            return false;
        }
    }
    true
}
