//! What objects over memory ask of what they are made from, as tests.
ghost use Rattle.std.specs.Prelude.{◌↔◌, IsTrue};
ghost use Rattle.outside.specs.Children.{IsShort, FitsExit, AnswersPath};
ghost use Rattle.memory_outside.specs.Trees.{IsPath, HavePaths};
ghost use Rattle.memory_outside.specs.Scripts.{CanBeGiven, CanAnswer};

use crate::{Answer, AnswerList};
use base::{ARTEFACT_LIMIT, Exit, MaybeText, NamedTextList, RESULTS_LIMIT};
use std::str;

/// Whether each path of the files is a text and not empty, as a tree asks.
pub fn have_paths(files: &NamedTextList) -> bool
    ensures { IsTrue result ↔ HavePaths files.now }
{
    for file in files.as_slice() {
        if !is_path(file.path.bytes()) {
            return false;
        }
    }
    true
}

fn is_path(path: &[u8]) -> bool
    ensures { IsTrue result ↔ IsPath path.now }
{
    !path.is_empty() && str::from_utf8(path).is_ok()
}

/// Whether each exit of a table has its size, and results only where its request names a path for them, as children
/// that answer by it ask.
pub fn can_answer(answers: &AnswerList) -> bool
    ensures { IsTrue result ↔ CanAnswer answers.now }
{
    for answer in answers.as_slice() {
        if !can_be_given(answer) {
            return false;
        }
    }
    true
}

fn can_be_given(answer: &Answer) -> bool
    ensures { IsTrue result ↔ CanBeGiven answer.now }
{
    fits(&answer.exit) && answers_path(&answer.request.results, &answer.exit.results)
}

fn answers_path(path: &MaybeText, results: &MaybeText) -> bool
    ensures { IsTrue result ↔ AnswersPath path.now results.now }
{
    match (path, results) {
        (MaybeText::Nothing, MaybeText::Given(_)) => false,
        _ => true,
    }
}

fn fits(exit: &Exit) -> bool
    ensures { IsTrue result ↔ FitsExit exit.now }
{
    exit.output.bytes().len() <= ARTEFACT_LIMIT && is_short(RESULTS_LIMIT, &exit.results)
}

fn is_short(limit: usize, maybe: &MaybeText) -> bool
    ensures { IsTrue result ↔ IsShort limit maybe.now }
{
    match maybe {
        MaybeText::Nothing => true,
        MaybeText::Given(text) => text.bytes().len() <= limit,
    }
}
