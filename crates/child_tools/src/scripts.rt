//! The script lines of a file.

ghost use Rattle.std.specs.Prelude.{◌≡◌, ◌≤◌, length, MatchOption, None, Some};
ghost use Rattle.vhdl_spec.specs.Units.{AreTokensOf};
ghost use Rattle.child_tools.specs.Scripts.{first_refusal, refusal_at, script_at};

use base::{Span, Tokens};
use child_lines::after_word;

/// The script line of the comment at some bytes of a text, if it is one.
pub fn script_at(text: &[u8], span: Span) -> Option<&[u8]>
    requires ordered { span.start ≤ span.end }
    requires within { span.end ≤ length text.now }
    ensures { MatchOption result
        (script_at text.now span ≡ None)
        (λ line. script_at text.now span ≡ Some line.now) }
{
    after_word(b"-- child: ", &text[span.start as usize..span.end as usize])
}

/// What the comment at some bytes of a text says after `refuse `, if it is a script line that begins so.
fn refusal_at(text: &[u8], span: Span) -> Option<&[u8]>
    requires ordered { span.start ≤ span.end }
    requires within { span.end ≤ length text.now }
    ensures { MatchOption result
        (refusal_at text.now span ≡ None)
        (λ line. refusal_at text.now span ≡ Some line.now) }
{
    let Some(line) = script_at(text, span) else {
        return None;
    };
    after_word(b"refuse ", line)
}

/// What the first script line that begins with `refuse ` says after it; `None` if a text has no such line.
pub fn first_refusal<'a>(text: &'a [u8], tokens: &Tokens) -> Option<&'a [u8]>
    requires { AreTokensOf text.now tokens.now }
    ensures { MatchOption result
        (first_refusal text.now tokens.now.comments ≡ None)
        (λ line. first_refusal text.now tokens.now.comments ≡ Some line.now) }
{
    for span in tokens.comments.as_slice() {
        match refusal_at(text, *span) {
            Some(line) => return Some(line),
            None => {}
        }
    }
    None
}
