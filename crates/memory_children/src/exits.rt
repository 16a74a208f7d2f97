//! How a child ends that was started with a request.

ghost use Rattle.std.specs.Prelude.{◌≡◌, ◌≤◌, [], ℕ, List, IfOk, length, take};
ghost use Rattle.base.specs.declared.limits.TheConstants.{ARTEFACT_LIMIT, RESULTS_LIMIT};
ghost use Rattle.outside.specs.Children.{AnswersPath, FitsExit, IsShort};
ghost use Rattle.vhdl_spec.specs.Scans.{Finding, IsScanner};
ghost use Rattle.child_lines.specs.Ends.{ends_with};
ghost use Rattle.system_children.specs.Codes.{cut_code};
ghost use Rattle.memory_children.specs.Answers.{child_end, is_cut, loop_answer, second_word, short_text, taken_exit, taken_results};

use base::{ARTEFACT_LIMIT, Exit, MaybeText, NoMemory, RESULTS_LIMIT, Request, Text};
use child_lines::ends_with;
use child_tools::{analyse, bench};
use std::alloc::Global;

/// The exit code of an unknown command.
const UNKNOWN_CODE: u32 = 127;

/// The exit code of a child that ended with code 0 but printed more than is kept, if its request names no path for results.
const CUT_CODE: u32 = 257;

/// The second word of a command, or no bytes if the command is shorter.
fn second_word(command: &[Text]) -> &[u8]
    ensures { result.now ≡ second_word command.now }
{
    match command.get(1) {
        Some(word) => word.bytes(),
        None => &[],
    }
}

/// How a child with this second word ends, before its output and its results are limited.
#[tactic(auto, unfolding(crate::specs::Answers::child_end))]
fn child_end(alloc: Global, word: &[u8], input: &[u8]) -> Result<Exit, NoMemory>
    ensures { (scan : List ℕ → Finding) → IsScanner scan →
        IfOk result (λ exit. exit ≡ child_end scan word.now input.now) }
{
    if word == b"child-analyse".as_slice() {
        return analyse(alloc, input);
    }
    if word == b"child-bench".as_slice() {
        return bench(alloc, input);
    }
    Ok(unknown_exit(alloc))
}

fn is_cut(output: &Text) -> bool
    ensures { result ≡ is_cut output.now }
{
    output.bytes().len() > ARTEFACT_LIMIT
}

/// The code of an exit, by whether the output was cut and whether the request names a path for results.
fn taken_code(code: u32, more: bool, path: &MaybeText) -> u32
    ensures { result ≡ cut_code code more path.now }
{
    match path {
        MaybeText::Nothing if more && code == 0 => CUT_CODE,
        _ => code,
    }
}

fn taken_output(output: Text) -> Text
    ensures is { result ≡ take ARTEFACT_LIMIT output }
    ensures short { length result ≤ ARTEFACT_LIMIT }
{
    let mut bytes = output.into_vec();
    bytes.truncate(ARTEFACT_LIMIT);
    Text::from_vec(bytes)
}

fn short_text(text: Text) -> MaybeText
    ensures is { result ≡ short_text text }
    ensures short { IsShort RESULTS_LIMIT result }
{
    if text.bytes().len() <= RESULTS_LIMIT {
        return MaybeText::Given(text);
    }
    MaybeText::Nothing
}

fn taken_results(path: &MaybeText, left: MaybeText) -> MaybeText
    ensures is { result ≡ taken_results path.now left }
    ensures short { IsShort RESULTS_LIMIT result }
    ensures named { AnswersPath path.now result }
{
    match path {
        MaybeText::Nothing => MaybeText::Nothing,
        MaybeText::Given(_) => match left {
            MaybeText::Nothing => MaybeText::Nothing,
            MaybeText::Given(text) => short_text(text),
        },
    }
}

/// The exit that is made of an end, by the path that the request names for results.
#[tactic(auto, unfolding(crate::specs::Answers::taken_exit))]
fn take_exit(path: &MaybeText, end: Exit) -> Exit
    ensures is { result ≡ taken_exit path.now end }
    ensures sizes { FitsExit result }
    ensures results { AnswersPath path.now result.results }
{
    let Exit {
        code,
        output,
        results,
    } = end;
    let more = is_cut(&output);
    Exit {
        code: taken_code(code, more, path),
        output: taken_output(output),
        results: taken_results(path, results),
    }
}

/// How a child ends that was started with a request.
fn exit_of(alloc: Global, request: &Request) -> Result<Exit, NoMemory>
    ensures answer { (scan : List ℕ → Finding) → IsScanner scan →
        IfOk result (λ exit. exit ≡ loop_answer scan request.now) }
    ensures sizes { IfOk result FitsExit }
    ensures results { IfOk result (λ exit. AnswersPath request.now.results exit.results) }
{
    let word = second_word(request.command.as_slice());
    let end = child_end(alloc, word, request.input.bytes())?;
    Ok(take_exit(&request.results, end))
}

/// Two copies of the exit of a child that was started with a request.
pub fn two_exits(alloc: Global, request: &Request) -> Result<(Exit, Exit), NoMemory>
    ensures same { IfOk result (λ exits. exits.1 ≡ exits.0) }
    ensures answer { (scan : List ℕ → Finding) → IsScanner scan →
        IfOk result (λ exits. exits.0 ≡ loop_answer scan request.now) }
    ensures sizes { IfOk result (λ exits. FitsExit exits.0) }
    ensures results { IfOk result (λ exits. AnswersPath request.now.results exits.0.results) }
{
    let exit = exit_of(alloc, request)?;
    let copy = exit.copy(alloc)?;
    Ok((exit, copy))
}

/// How a command ends that isn't there.
pub fn unknown_exit(alloc: Global) -> Exit
    ensures { result ≡ ends_with 127 [] }
{
    ends_with(UNKNOWN_CODE, Text::new(alloc))
}
