//! A table of answers to requests.
ghost use Rattle.std.specs.Prelude.{◌≡◌, IfOk};
ghost use Rattle.memory_outside.specs.Scripts.{same_maybe as same_maybe_of, same_request as same_request_of, same_texts as same_texts_of, answer_of, unknown_exit};

use crate::Answer;
use base::{Exit, MaybeText, NoMemory, Request, Text};
use std::alloc::Global;

/// The exit of a request, by a table.
pub fn exit_of(alloc: Global, answers: &[Answer], request: &Request) -> Result<Exit, NoMemory>
    ensures { IfOk result (λ exit. exit ≡ answer_of answers.now request.now) }
{
    for answer in answers {
        if same_request(&answer.request, request) {
            return answer.exit.copy(alloc);
        }
    }
    Ok(unknown(alloc))
}

/// The exit of a request that the table doesn't have.
pub fn unknown(alloc: Global) -> Exit
    ensures { result ≡ unknown_exit }
{
    Exit {
        code: 127,
        output: Text::new(alloc),
        results: MaybeText::Nothing,
    }
}

fn same_request(request: &Request, other: &Request) -> bool
    ensures { result ≡ same_request_of request.now other.now }
{
    same_texts(request.command.as_slice(), other.command.as_slice())
        && request.input.bytes() == other.input.bytes()
        && same_maybe(&request.results, &other.results)
}

fn same_texts(texts: &[Text], others: &[Text]) -> bool
    ensures { result ≡ same_texts_of texts.now others.now }
{
    if texts.len() != others.len() {
        return false;
    }
    for i in 0..texts.len() {
        if texts[i].bytes() != others[i].bytes() {
            return false;
        }
    }
    true
}

fn same_maybe(maybe: &MaybeText, other: &MaybeText) -> bool
    ensures { result ≡ same_maybe_of maybe.now other.now }
{
    match (maybe, other) {
        (MaybeText::Nothing, MaybeText::Nothing) => true,
        (MaybeText::Given(text), MaybeText::Given(other)) => text.bytes() == other.bytes(),
        _ => false,
    }
}
