//! Writing what a simulator is asked.

ghost use Rattle.std.specs.Prelude.{◌≡◌, ◌<◌, ◌^◌, ◌++◌, All, length, IfOk, OnOk};
ghost use Rattle.testbench_runs.specs.Runs.{FitsRun};
ghost use Rattle.testbench_runs.specs.BenchJobs.{texts_bytes};
ghost use Rattle.child_test_request.specs.Written.{begun_run};

use crate::configuring::runner_cfg;
use crate::paths::results_path;
use base::{MaybeText, NoMemory, Request, Text, TextList};
use base_bytes::ByteWriter;
use std::alloc::Global;
use std::marker::Model;
use testbench_runs::TestRun;

/// What a simulator is to be started with, while the files that were built are added. Contracts see the words, the
/// input so far, and the results path.
#[derive(Drop)]
pub struct BenchWriter {
    command: TextList,
    out: ByteWriter,
    results: Text,
}

impl Model for BenchWriter {
    ghost use Rattle.child_test_request.specs.Written.{WrittenRun};

    ghost Value = { WrittenRun };

    ghost view = { λ a. record { command = a.command; input = a.out; results = a.results } };
}

/// Writes texts, after their number.
#[tactic(auto, unfolding(testbench_runs::specs::BenchJobs::texts_bytes))]
fn put_texts(out: &mut ByteWriter, texts: &[Text]) -> Result<(), NoMemory>
    requires count { length texts.now < 2 ^ 32 }
    requires short { All (λ text. length text < 2 ^ 32) texts.now }
    ensures { OnOk result (out.new ≡ out.old ++ texts_bytes texts.now) }
{
    out.u32(texts.len() as u32)?;
    for text in texts {
        out.text(text.bytes())?;
    }
    Ok(())
}

impl BenchWriter {
    /// Begins with a run, the words of its simulator, and the number of the files that were built.
    #[tactic(auto, unfolding(crate::specs::Written::begun_run_input))]
    pub fn new(
        alloc: Global,
        run: &TestRun,
        simulator: &TextList,
        count: u32,
    ) -> Result<BenchWriter, NoMemory>
        requires { FitsRun run.now }
        ensures { IfOk result (λ writer. writer ≡ begun_run run.now simulator.now count) }
    {
        let configuration = runner_cfg(alloc, run)?;
        let results = results_path(alloc, run)?;
        let mut out = ByteWriter::new(alloc);
        out.plain(b"VRB1")?;
        out.text(run.library.bytes())?;
        out.text(run.bench.bytes())?;
        out.text(run.architecture.bytes())?;
        put_texts(&mut out, run.cases.as_slice())?;
        out.text(configuration.bytes())?;
        out.text(results.bytes())?;
        out.u32(count)?;
        Ok(BenchWriter {
            command: simulator.copy(alloc)?,
            out,
            results,
        })
    }

    /// Adds the bytes of files that were built, all at once.
    pub fn add_all(&mut self, built: &[u8]) -> Result<(), NoMemory>
        ensures words { OnOk result (self.new.command ≡ self.old.command) }
        ensures results { OnOk result (self.new.results ≡ self.old.results) }
        ensures input { OnOk result (self.new.input ≡ self.old.input ++ built.now) }
    {
        self.out.plain(built)?;
        Ok(())
    }

    /// The request. Its path for results is that of the run.
    pub fn finish(self) -> Request
        ensures words { result.command ≡ self.command }
        ensures input { result.input ≡ self.input }
        ensures results { result.results ≡ MaybeText.Given self.results }
    {
        let BenchWriter {
            command,
            out,
            results,
        } = self;
        Request {
            command,
            input: out.into_text(),
            results: MaybeText::Given(results),
        }
    }
}
