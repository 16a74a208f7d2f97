//! The last pass of the same tests, and whether it is current for a run.

ghost use Rattle.std.specs.Prelude.{◌≡◌, ◌↔◌, ◌<◌, ◌≤◌, ℕ, [], List, length, slice_index_or, IfSome, IsTrue, option_map};
ghost use Rattle.base.specs.declared.graph.BuiltFile.{BuiltFile};
ghost use Rattle.base_bytes.specs.Ranges.{ranged};
ghost use Rattle.testbench_runs.specs.declared.ends.TheConstants.{SHOWN_LIMIT};
ghost use Rattle.store_table.specs.Located.{located_texts};
ghost use Rattle.passes_spec.specs.KnownRuns.{recalled};
ghost use Rattle.passes_table.specs.Located.{ArePassesLocated, located_passes, row_pass};
ghost use Rattle.passes_table.specs.Pending.{IsPending, pending_files};
ghost use Rattle.passes_table.specs.States.{HasRest, HasTests, IsLastRow};

use crate::fingerprints::fingerprint_of_run;
use crate::sizes::are_words;
use crate::{LocatedPasses, PassRow, PendingList};
use base::{Text, TextList};
use base_bytes::{ByteRange, bytes_in};
use store_table::HeldPayloads;
use testbench_runs::TestRun;

/// Whether the bytes of a range are a text.
fn is_text(bytes: &[u8], range: ByteRange, text: &Text) -> bool
    ensures { IsTrue result ↔ (ranged bytes.now range ≡ text.now) }
{
    bytes_in(bytes, range) == text.bytes()
}

/// Whether a pass is of the same tests as a run with a simulator.
pub fn is_of_tests(
    held: &HeldPayloads<'_>,
    row: PassRow,
    run: &TestRun,
    simulator: &TextList,
) -> bool
    requires { row.payload < length held.now.segments }
    ensures { (lists : List (List BuiltFile)) →
        IsTrue result ↔ HasTests run.now simulator.now (row_pass held.now.segments lists row) }
{
    let bytes = held.get(row.payload);
    is_text(bytes, row.run.library, &run.library)
        && is_text(bytes, row.run.bench, &run.bench)
        && are_words(bytes, row.run.cases, &run.cases)
        && are_words(bytes, row.simulator, simulator)
}

/// The number of the last pass of the same tests as a run with a simulator. It takes no memory.
pub fn last_row(
    held: &HeldPayloads<'_>,
    table: &LocatedPasses,
    run: &TestRun,
    simulator: &TextList,
) -> Option<usize>
    requires { ArePassesLocated held.now.segments table.now }
    ensures { IsLastRow (located_passes held.now.segments table.now).passes run.now simulator.now
        result }
{
    let mut candidate = table.latest.last(fingerprint_of_run(run, simulator));
    while let Some(number) = candidate {
        if is_of_tests(held, table.rows[number], run, simulator) {
            return Some(number);
        }
        candidate = table.latest.earlier(number);
    }
    None
}

/// Whether a pass has the architecture, the path and the flags of a run.
fn is_of_run(held: &HeldPayloads<'_>, row: PassRow, run: &TestRun) -> bool
    requires { row.payload < length held.now.segments }
    ensures { (lists : List (List BuiltFile)) →
        IsTrue result ↔ HasRest run.now (row_pass held.now.segments lists row) }
{
    let bytes = held.get(row.payload);
    is_text(bytes, row.run.architecture, &run.architecture)
        && is_text(bytes, row.run.path, &run.path)
        && row.run.whole == run.whole
        && row.run.same_sim == run.same_sim
}

/// Whether the list of a number is that of the files that tests run over.
fn is_list(table: &LocatedPasses, number: usize, list: &PendingList) -> bool
    requires { number < length table.now.lists.keys }
    ensures { (segments : List (List ℕ)) → ArePassesLocated segments table.now →
        IsPending table.now.names.keys (located_texts segments table.now.texts) list.now →
        IsTrue result
        ↔ (slice_index_or (located_passes segments table.now).lists number []
        ≡ pending_files table.now.names.keys (located_texts segments table.now.texts) list.now) }
{
    *table.lists.key(number) == list.row
}

/// What a run printed by the last pass of the same tests, if that is over the files of the list and of the same run. It takes no
/// memory.
pub fn recalled_output<'a>(
    held: &'a HeldPayloads<'_>,
    table: &'a LocatedPasses,
    list: &'a PendingList,
    run: &TestRun,
    simulator: &TextList,
) -> Option<&'a [u8]>
    requires table { ArePassesLocated held.now.segments table.now }
    requires list { IsPending table.now.names.keys (located_texts held.now.segments table.now.texts)
        list.now }
    ensures output { option_map (λ bytes. bytes.now) result
        ≡ recalled (located_passes held.now.segments table.now).passes simulator.now
        (pending_files table.now.names.keys (located_texts held.now.segments table.now.texts)
        list.now) run.now }
    ensures small { IfSome result (λ bytes. length bytes.now ≤ SHOWN_LIMIT) }
{
    let Some(number) = last_row(held, table, run, simulator) else {
        return None;
    };
    let row = table.rows[number];
    if !is_of_run(held, row, run) {
        return None;
    }
    if !is_list(table, row.list, list) {
        return None;
    }
    Some(bytes_in(held.get(row.payload), row.output))
}
