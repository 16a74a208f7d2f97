//! The texts of the files of a project.

ghost use Rattle.std.specs.Prelude.{◌≡◌, ◌+◌, ◌≤◌, ◌∷◌, [], length, ℕ, IfOk};
ghost use Rattle.outside.specs.Trees.{read_end};
ghost use Rattle.order.specs.LinkedGraph.{FitTexts};
ghost use Rattle.project_reading.specs.Reading.{text_after, text_of, texts_of};
ghost use Rattle.project_reading.specs.Sources.{Gives, ReadCounts};
ghost use Rattle.project_reading.specs.Asked.{file_paths, AsksInOrder};

use crate::asking::read_file;
use crate::stops::ReadStop;
use base::{FileName, GRAPH_TEXT_LIMIT, NoMemory, ProjectFile, TEXT_LIMIT, Text, TextList};
use base_outcomes::{Limit, Refusal};
use outside::{ReadEnd, Tree};
use std::alloc::Global;

/// The most bytes of a file.
const MOST_TEXT: u64 = TEXT_LIMIT as u64;

/// The most bytes of all files of a project together.
const MOST_TOTAL: u64 = GRAPH_TEXT_LIMIT as u64;

/// A text after texts of `before` bytes, if together they are within the limit on the text of a project.
fn text_after(before: u64, text: Text) -> Result<Text, ReadStop>
    requires before { before ≤ GRAPH_TEXT_LIMIT }
    requires short { length text ≤ TEXT_LIMIT }
    ensures text { Gives (text_after before text) result }
    ensures size { IfOk result (λ text. before + length text ≤ GRAPH_TEXT_LIMIT) }
    ensures short { IfOk result (λ text. length text ≤ TEXT_LIMIT) }
    ensures cause { (count : ℕ) → ReadCounts result count count }
{
    if text.bytes().len() as u64 > MOST_TOTAL - before {
        return Err(ReadStop::Over(Limit::TotalBytes, MOST_TOTAL));
    }
    Ok(text)
}

/// The refusal for a file that doesn't exist.
fn absent_file(alloc: Global, name: &FileName) -> Result<Refusal, NoMemory>
    ensures { IfOk result (λ reason. reason ≡ Refusal.AbsentFile name.now) }
{
    Ok(Refusal::AbsentFile {
        file: name.copy(alloc)?,
    })
}

/// The text of a file after texts of `before` bytes, or why the reading stops.
fn text_of<T: Tree>(
    alloc: Global,
    tree: &mut T,
    name: &FileName,
    before: u64,
) -> Result<Text, ReadStop>
    requires { before ≤ GRAPH_TEXT_LIMIT }
    ensures text { T.tells →
        let read = read_end (T.file tree.old name.now.path) TEXT_LIMIT in
        Gives (text_of name.now before read) result }
    ensures size { IfOk result (λ text. before + length text ≤ GRAPH_TEXT_LIMIT) }
    ensures short { IfOk result (λ text. length text ≤ TEXT_LIMIT) }
    ensures same { T.file tree.new ≡ T.file tree.old }
    ensures same_list { T.listed tree.new ≡ T.listed tree.old }
    ensures kept { T.kept tree.new ≡ T.kept tree.old }
    ensures asked { AsksInOrder result (name.now.path ∷ []) (T.asked tree.old) (T.asked tree.new) }
    ensures cause { ReadCounts result (T.failed_reads tree.old) (T.failed_reads tree.new) }
{
    match read_file(alloc, tree, &name.path, MOST_TEXT)? {
        ReadEnd::Absent => Err(ReadStop::Refused(absent_file(alloc, name)?)),
        ReadEnd::TooLong => Err(ReadStop::Over(Limit::TextBytes, MOST_TEXT)),
        ReadEnd::Got(text) => text_after(before, text),
    }
}

/// The texts of the files, or why the reading stops at the first file that gives no text. The files are asked for in
/// order, each at most once.
pub(crate) fn texts_of<T: Tree>(
    alloc: Global,
    tree: &mut T,
    files: &[ProjectFile],
) -> Result<TextList, ReadStop>
    ensures texts { T.tells → Gives (texts_of (T.file tree.old) 0 files.now) result }
    ensures size { IfOk result (FitTexts files.now) }
    ensures same { T.file tree.new ≡ T.file tree.old }
    ensures same_list { T.listed tree.new ≡ T.listed tree.old }
    ensures kept { T.kept tree.new ≡ T.kept tree.old }
    ensures asked { AsksInOrder result (file_paths files.now)
        (T.asked tree.old) (T.asked tree.new) }
    ensures cause { ReadCounts result (T.failed_reads tree.old) (T.failed_reads tree.new) }
{
    let mut texts = TextList::new(alloc);
    let mut total = 0;
    for file in files {
        let text = text_of(alloc, tree, &file.name, total)?;
        total += text.bytes().len() as u64;
        texts.push(text)?;
    }
    Ok(texts)
}
