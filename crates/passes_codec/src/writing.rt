//! Writing the payload of a pass, part by part.

ghost use Rattle.std.specs.Prelude.{◌≡◌, ◌<◌, ◌≤◌, ◌^◌, [], ◌∷◌, ◌++◌, length, All, IfOk, OnOk};
ghost use Rattle.std.specs.Int.{w64, to_le_bytes};
ghost use Rattle.base.specs.Bytes.{number_bytes, text_bytes};
ghost use Rattle.base.specs.Names.{FitsCommand, FitsName};
ghost use Rattle.testbench_runs.specs.BenchJobs.{texts_bytes};
ghost use Rattle.testbench_runs.specs.Runs.{FitsRun};
ghost use Rattle.store_codec.specs.Writing.{HasPartSizes, part_ref};
ghost use Rattle.passes_codec.specs.Forms.{file_bytes, flag_byte, list_ref_bytes, pass_bytes, run_bytes};
ghost use Rattle.passes_codec.specs.Forms.ListRef.{KnownList};

use base::{FileName, NoMemory, Text, TextList};
use base_bytes::ByteWriter;
use std::alloc::Global;
use store_codec::{TextPart, put_part};
use testbench_runs::{SHOWN_LIMIT, TestRun};

/// Writes texts after their count.
#[tactic(auto, unfolding(testbench_runs::specs::BenchJobs::texts_bytes))]
fn put_texts(out: &mut ByteWriter, texts: &[Text]) -> Result<(), NoMemory>
    requires count { length texts.now < 2 ^ 32 }
    requires short { All (λ text. length text < 2 ^ 32) texts.now }
    ensures { OnOk result (out.new ≡ out.old ++ texts_bytes texts.now) }
{
    out.u32(texts.len() as u32)?;
    for text in texts {
        out.text(text.bytes())?;
    }
    Ok(())
}

/// The byte of a flag.
fn byte_of(flag: bool) -> u8
    ensures { result ≡ flag_byte flag }
{
    if flag { 1 } else { 0 }
}

/// Writes a run, with which a payload begins.
#[tactic(auto, unfolding(crate::specs::Forms::run_bytes))]
pub fn put_run(out: &mut ByteWriter, run: &TestRun) -> Result<(), NoMemory>
    requires { FitsRun run.now }
    ensures { OnOk result (out.new ≡ out.old ++ run_bytes run.now) }
{
    out.text(run.library.bytes())?;
    out.text(run.bench.bytes())?;
    out.text(run.architecture.bytes())?;
    out.text(run.path.bytes())?;
    put_texts(out, run.cases.as_slice())?;
    out.plain(&[byte_of(run.whole), byte_of(run.same_sim)])?;
    Ok(())
}

/// Writes the words of a simulator, which follow its run.
pub fn put_simulator(out: &mut ByteWriter, simulator: &TextList) -> Result<(), NoMemory>
    requires { FitsCommand simulator.now }
    ensures { OnOk result (out.new ≡ out.old ++ texts_bytes simulator.now) }
{
    put_texts(out, simulator.as_slice())
}

/// Writes an earlier list of built files, by its number.
#[tactic(auto, unfolding(crate::specs::Forms::list_ref_bytes))]
pub fn put_known_list(out: &mut ByteWriter, number: u64) -> Result<(), NoMemory>
    ensures { OnOk result (out.new ≡ out.old ++ list_ref_bytes (KnownList number)) }
{
    out.plain(&[0])?;
    out.u64(number)?;
    Ok(())
}

/// Writes the start of a new list: its tag, and the number of the files that follow.
pub fn put_list_start(out: &mut ByteWriter, count: u32) -> Result<(), NoMemory>
    ensures { OnOk result (out.new ≡ out.old ++ 1 ∷ number_bytes count) }
{
    out.plain(&[1])?;
    out.u32(count)?;
    Ok(())
}

/// Writes a file of a new list, with its artefact by number or in full.
#[tactic(auto, unfolding(crate::specs::Forms::file_bytes))]
pub fn put_file(
    out: &mut ByteWriter,
    name: &FileName,
    artefact: TextPart<'_>,
) -> Result<(), NoMemory>
    requires name { FitsName name.now }
    requires artefact { HasPartSizes artefact }
    ensures { OnOk result
        (out.new
        ≡ out.old
        ++ file_bytes (record { name = name.now; artefact = part_ref artefact.entry })) }
{
    out.name(name)?;
    put_part(out, artefact)?;
    Ok(())
}

/// Writes the output of a run, with which a payload ends.
pub fn put_output(out: &mut ByteWriter, output: &[u8]) -> Result<(), NoMemory>
    requires { length output.now ≤ SHOWN_LIMIT }
    ensures { OnOk result (out.new ≡ out.old ++ text_bytes output.now) }
{
    out.text(output)
}

/// The payload of a pass over an earlier list of built files.
#[tactic(auto, unfolding(crate::specs::Forms::pass_bytes))]
pub fn known_pass_payload(
    alloc: Global,
    run: &TestRun,
    simulator: &TextList,
    number: u64,
    output: &[u8],
) -> Result<Text, NoMemory>
    requires run { FitsRun run.now }
    requires simulator { FitsCommand simulator.now }
    requires output { length output.now ≤ SHOWN_LIMIT }
    ensures { IfOk result
        (λ bytes.
        bytes
        ≡ pass_bytes
        (record {
          run = run.now;
          simulator = simulator.now;
          list = KnownList number;
          output = output.now;
        })) }
{
    let mut out = ByteWriter::new(alloc);
    put_run(&mut out, run)?;
    put_simulator(&mut out, simulator)?;
    put_known_list(&mut out, number)?;
    put_output(&mut out, output)?;
    Ok(out.into_text())
}
