//! Reading what a compiler is asked.

ghost use Rattle.std.specs.Prelude.{◌≡◌, ◌≤◌, length, IfOk, IfSome, IsSome};
ghost use Rattle.base.specs.Names.{FitsName};
ghost use Rattle.base.specs.Graphs.{IsBuiltFile};
ghost use Rattle.base_bytes.specs.Reading.{Reads, ReadsAll, many_at};
ghost use Rattle.child_compile_request.specs.declared.reading.CompileJob.{CompileJob};
ghost use Rattle.child_compile_request.specs.Jobs.{IsJob, job_bytes};
ghost use Rattle.child_compile_request.specs.Reading.{fitting_name_at, short_text_at, built_at, all_built_at, after_magic_at, fields_at, job_at};

use base::{ARTEFACT_LIMIT, Built, BuiltFile, FILE_LIMIT, FileName, NoMemory, TEXT_LIMIT, Text};
use base_bytes::ByteReader;
use std::alloc::Global;

/// What a compiler is asked: a file, its text, and the files that it depends on, in compile order.
#[derive(Drop)]
pub struct CompileJob {
    pub name: FileName,
    pub text: Text,
    pub deps: Built,
}

/// A name of the sizes of one.
fn fitting_name(alloc: Global, reader: &mut ByteReader<'_>) -> Result<Option<FileName>, NoMemory>
    ensures read { IfOk result
        (λ name. Reads (λ same. same) name reader.new (fitting_name_at reader.old)) }
    ensures fits { IfOk result (λ name. IfSome name FitsName) }
{
    let Some(name) = reader.name(alloc)? else {
        return Ok(None);
    };
    if !name.is_within_limits() {
        return Ok(None);
    }
    Ok(Some(name))
}

/// A text of at most `limit` bytes. A longer text isn't copied, and gives `None`.
fn short_text(
    alloc: Global,
    limit: usize,
    reader: &mut ByteReader<'_>,
) -> Result<Option<Text>, NoMemory>
    ensures read { IfOk result
        (λ text. Reads (λ bytes. bytes) text reader.new (short_text_at limit reader.old)) }
    ensures short { IfOk result (λ text. IfSome text (λ bytes. length bytes ≤ limit)) }
{
    let Some(bytes) = reader.text() else {
        return Ok(None);
    };
    if bytes.len() > limit {
        return Ok(None);
    }
    Ok(Some(Text::from_slice(alloc, bytes)?))
}

#[tactic(auto, unfolding(crate::specs::Reading::built_at))]
fn built_file(alloc: Global, reader: &mut ByteReader<'_>) -> Result<Option<BuiltFile>, NoMemory>
    ensures read { IfOk result
        (λ file. Reads (λ same. same) file reader.new (built_at reader.old)) }
    ensures built { IfOk result (λ file. IfSome file IsBuiltFile) }
{
    let Some(name) = fitting_name(alloc, reader)? else {
        return Ok(None);
    };
    let Some(artefact) = short_text(alloc, ARTEFACT_LIMIT, reader)? else {
        return Ok(None);
    };
    Ok(Some(BuiltFile { name, artefact }))
}

fn built_files(
    alloc: Global,
    count: u32,
    reader: &mut ByteReader<'_>,
) -> Result<Option<Built>, NoMemory>
    requires { count ≤ FILE_LIMIT }
    ensures { IfOk result
        (λ files. Reads (λ same. same) files reader.new (many_at built_at count reader.old)) }
{
    let mut files = Built::new(alloc);
    for _ in 0..count {
        let Some(file) = built_file(alloc, reader)? else {
            return Ok(None);
        };
        files.push(file)?;
    }
    Ok(Some(files))
}

/// The files that were built, after their number, which is at most 4,096. Each file has a library of 1 to 64 bytes, a
/// path of 1 to 1,024 bytes and an artefact of at most 262,144 bytes. `None` if the remaining bytes don't begin with
/// such files.
#[tactic(auto, unfolding(crate::specs::Reading::all_built_at))]
pub fn all_built(alloc: Global, reader: &mut ByteReader<'_>) -> Result<Option<Built>, NoMemory>
    ensures { IfOk result
        (λ files. Reads (λ same. same) files reader.new (all_built_at reader.old)) }
{
    let Some(count) = reader.u32() else {
        return Ok(None);
    };
    if count as usize > FILE_LIMIT {
        return Ok(None);
    }
    built_files(alloc, count, reader)
}

/// What comes after the magic of a request, to its end.
#[tactic(auto, unfolding(crate::specs::Reading::fields_at))]
fn fields(alloc: Global, reader: &mut ByteReader<'_>) -> Result<Option<CompileJob>, NoMemory>
    ensures { IfOk result (λ job. ReadsAll (λ same. same) job (fields_at reader.old)) }
{
    let Some(name) = fitting_name(alloc, reader)? else {
        return Ok(None);
    };
    let Some(text) = short_text(alloc, TEXT_LIMIT, reader)? else {
        return Ok(None);
    };
    let Some(deps) = all_built(alloc, reader)? else {
        return Ok(None);
    };
    if !reader.is_at_end() {
        return Ok(None);
    }
    Ok(Some(CompileJob { name, text, deps }))
}

/// The bytes after a magic, where they begin with it.
#[tactic(auto, unfolding(crate::specs::Reading::after_magic_at))]
pub fn after_magic<'a>(bytes: &'a [u8], magic: &[u8]) -> Option<ByteReader<'a>>
    ensures { ReadsAll (λ rest. rest) result (after_magic_at magic.now bytes.now) }
{
    let mut reader = ByteReader::new(bytes);
    let Some(taken) = reader.take(magic.len()) else {
        return None;
    };
    if taken != magic {
        return None;
    }
    Some(reader)
}

/// The job that all of the bytes spell, if they do.
#[tactic(auto, unfolding(crate::specs::Reading::job_at))]
fn job_of(alloc: Global, bytes: &[u8]) -> Result<Option<CompileJob>, NoMemory>
    ensures { IfOk result (λ job. ReadsAll (λ same. same) job (job_at bytes.now)) }
{
    let Some(mut reader) = after_magic(bytes, b"VRC1".as_slice()) else {
        return Ok(None);
    };
    fields(alloc, &mut reader)
}

/// The job whose request has these bytes as its input; `None` exactly where no job has these bytes.
pub fn read_compile_request(alloc: Global, bytes: &[u8]) -> Result<Option<CompileJob>, NoMemory>
    // What is given is a job with these bytes,
    ensures found { IfOk result
        (λ given. IfSome given (λ job. IsJob job × (bytes.now ≡ job_bytes job))) }
    // and where a job has these bytes, there is an answer, and it is that one.
    ensures some { (job : CompileJob) → IsJob job → bytes.now ≡ job_bytes job →
        IfOk result (λ given. IsSome given) }
    ensures only { (job : CompileJob) → IsJob job → bytes.now ≡ job_bytes job →
        IfOk result (λ given. IfSome given (λ other. other ≡ job)) }
{
    job_of(alloc, bytes)
}
