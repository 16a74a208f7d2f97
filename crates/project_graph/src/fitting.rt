//! Whether texts are those of a project, within the limits of a graph.

ghost use Rattle.std.specs.Prelude.{◌↔◌, ◌≤◌, IsTrue, length, All, sum_by};
ghost use Rattle.order.specs.LinkedGraph.{FitTexts, AreSmall};

use base::{GRAPH_TEXT_LIMIT, Project, TEXT_LIMIT, Text, TextList};

/// Whether texts are within the limits of a graph, each and together.
fn are_small(texts: &[Text]) -> bool
    ensures { IsTrue result ↔ AreSmall texts.now }
{
    let mut total = 0;
    for i in 0..texts.len() {
        let size = texts[i].bytes().len();
        if size > TEXT_LIMIT {
            return false;
        }
        if size > GRAPH_TEXT_LIMIT - total {
            return false;
        }
        total += size;
    }
    true
}

/// Whether there is one text for each file of a project, within the limits of a graph: 4,194,304 bytes each, and
/// 67,108,864 together.
pub fn fit_texts(project: &Project, texts: &TextList) -> bool
    ensures { IsTrue result ↔ FitTexts project.now.files texts.now }
{
    if texts.len() != project.files.len() {
        return false;
    }
    are_small(texts.as_slice())
}
