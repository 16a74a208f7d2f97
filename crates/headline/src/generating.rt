//! A run of the program that generates a project.

ghost use Rattle.std.specs.Prelude.{◌≡◌, [], Err};
ghost use Rattle.memory_children.specs.OneAnswer.{IsLoopAnswer};
ghost use Rattle.vunit_top.specs.Reading.{Generates, words_task};
ghost use Rattle.generated_runs.specs.declared.options.GenerateOptions.{GenerateOptions};
ghost use Rattle.headline.specs.SaidOfSizes.{IsAnsweredInFull};

use crate::laws_of_generated_projects;
use base::TextList;
use base_outcomes::Outcome;
use outside::{Disk, Procs, Reports, Sink, Source, Tree};
use std::alloc::Global;
use vhdl_spec::some_scanner;
use vunit_top::run_vunit;

/// Runs the program. Suppose that its arguments generate a project, and that its children answer as the built-in compiler and
/// simulator do. Then the answer is `Done` and the four lines for the size of the project are put, unless memory runs out or
/// something outside fails.
pub fn generate_project<I: Source, T: Tree, D: Disk, P: Procs, O: Sink, R: Reports>(
    alloc: Global,
    words: &TextList,
    input: &mut I,
    tree: &mut T,
    disk: &mut D,
    procs: &mut P,
    out: &mut O,
    reports: &mut R,
) -> Outcome
    requires { P.running procs.old ≡ [] }
    ensures running { P.running procs.new ≡ [] }
    ensures ran { P.tells → IsLoopAnswer (P.answer procs.old) → (options : GenerateOptions) →
        words_task words.now ≡ Err (Generates options) →
        IsAnsweredInFull options.packages result O.tells (O.contents out.old) (O.contents out.new) }
{
    some_scanner();
    laws_of_generated_projects::<O>();
    run_vunit(alloc, words, input, tree, disk, procs, out, reports)
}
