//! Reading a payload of a pass as ranges of its bytes: nothing is copied.

ghost use Rattle.std.specs.Prelude.{◌≡◌, ◌≤◌, length, drop, IfSome};
ghost use Rattle.base_bytes.specs.Reading.{ReadsAll, counted_at};
ghost use Rattle.base_bytes.specs.Ranges.{IsRangeAt, IsReadAt};
ghost use Rattle.passes_codec.specs.Forms.{file_at, flag_at, list_ref_at, new_list_at, known_list_at, pass_in, run_at};
ghost use Rattle.passes_codec.specs.Ranges.{HasFilesAt, counted_files, file_in_ranges, list_in_range, pass_in_ranges, run_in_ranges};

use base_bytes::{
    ByteRange, TextRange, byte_range, count_range, number_range, ref_range, text_range, words_range,
};

/// A run: its library, bench, architecture and path, its cases with their count, and its two flags.
#[derive(Clone, Copy)]
pub struct RunRanges {
    pub library: ByteRange,
    pub bench: ByteRange,
    pub architecture: ByteRange,
    pub path: ByteRange,
    pub cases: ByteRange,
    pub whole: bool,
    pub same_sim: bool,
}

/// A file of a list: its library and path, and its artefact.
#[derive(Clone, Copy)]
pub struct FileRanges {
    pub library: ByteRange,
    pub path: ByteRange,
    pub artefact: TextRange,
}

/// A list of built files: an earlier one by its number, or the files of a new one with their count.
#[derive(Clone, Copy)]
pub enum ListRange {
    Known(u64),
    New(ByteRange),
}

/// A pass: its run, the words of its simulator with their count, its list of built files, and its output.
#[derive(Clone, Copy)]
pub struct PassRanges {
    pub run: RunRanges,
    pub simulator: ByteRange,
    pub list: ListRange,
    pub output: ByteRange,
}

/// A byte 0 or 1 at an offset.
#[tactic(auto, unfolding(crate::specs::Forms::flag_at))]
fn flag_range(bytes: &[u8], at: usize) -> Option<(bool, usize)>
    requires { at ≤ length bytes.now }
    ensures { IsReadAt at (λ flag. flag) bytes.now result (flag_at (drop at bytes.now)) }
{
    let (byte, next) = byte_range(bytes, at)?;
    match byte {
        0 => Some((false, next)),
        1 => Some((true, next)),
        _ => None,
    }
}

/// A run, from an offset on.
#[tactic(auto, unfolding(crate::specs::Forms::run_at))]
fn run_range(bytes: &[u8], at: usize) -> Option<(RunRanges, usize)>
    requires { at ≤ length bytes.now }
    ensures { IsReadAt at (run_in_ranges bytes.now) bytes.now result
        (run_at (drop at bytes.now)) }
{
    let library = text_range(bytes, at)?;
    let bench = text_range(bytes, library.start + library.count)?;
    let architecture = text_range(bytes, bench.start + bench.count)?;
    let path = text_range(bytes, architecture.start + architecture.count)?;
    let cases = words_range(bytes, path.start + path.count)?;
    let (whole, next) = flag_range(bytes, cases.start + cases.count)?;
    let (same_sim, end) = flag_range(bytes, next)?;
    Some((
        RunRanges {
            library,
            bench,
            architecture,
            path,
            cases,
            whole,
            same_sim,
        },
        end,
    ))
}

/// A file of a list, from an offset on.
#[tactic(auto, unfolding(crate::specs::Forms::file_at, base_bytes::specs::Names::name_at))]
pub fn file_range(bytes: &[u8], at: usize) -> Option<(FileRanges, usize)>
    requires { at ≤ length bytes.now }
    ensures { IsReadAt at (file_in_ranges bytes.now) bytes.now result
        (file_at (drop at bytes.now)) }
{
    let library = text_range(bytes, at)?;
    let path = text_range(bytes, library.start + library.count)?;
    let (artefact, end) = ref_range(bytes, path.start + path.count)?;
    Some((
        FileRanges {
            library,
            path,
            artefact,
        },
        end,
    ))
}

/// The files of a new list after their count, from an offset on.
fn files_range(bytes: &[u8], at: usize) -> Option<ByteRange>
    requires { at ≤ length bytes.now }
    ensures is { IsRangeAt at (counted_files bytes.now) bytes.now result
        (counted_at file_at (drop at bytes.now)) }
    ensures start { IfSome result (λ range. range.start ≡ at) }
{
    let Some((count, first)) = count_range(bytes, at) else {
        return None;
    };
    let mut next = first;
    for _ in 0..count {
        let Some((_file, end)) = file_range(bytes, next) else {
            return None;
        };
        next = end;
    }
    Some(ByteRange {
        start: at,
        count: next - at,
    })
}

/// A list by its number, from an offset on.
#[tactic(auto, unfolding(crate::specs::Forms::known_list_at))]
fn known_list_range(bytes: &[u8], at: usize) -> Option<(ListRange, usize)>
    requires { at ≤ length bytes.now }
    ensures is { IsReadAt at (list_in_range bytes.now) bytes.now result
        (known_list_at (drop at bytes.now)) }
    ensures files { IfSome result (λ found. HasFilesAt bytes.now found.0) }
{
    let Some((number, next)) = number_range(bytes, at) else {
        return None;
    };
    Some((ListRange::Known(number), next))
}

/// A new list, from an offset on.
#[tactic(auto, unfolding(crate::specs::Forms::new_list_at))]
fn new_list_range(bytes: &[u8], at: usize) -> Option<(ListRange, usize)>
    requires { at ≤ length bytes.now }
    ensures is { IsReadAt at (list_in_range bytes.now) bytes.now result
        (new_list_at (drop at bytes.now)) }
    ensures files { IfSome result (λ found. HasFilesAt bytes.now found.0) }
{
    let Some(files) = files_range(bytes, at) else {
        return None;
    };
    Some((ListRange::New(files), files.start + files.count))
}

/// An earlier or a new list, from an offset on.
#[tactic(auto, unfolding(crate::specs::Forms::list_ref_at, crate::specs::Forms::list_ref_by, crate::specs::Forms::known_list_at, crate::specs::Forms::new_list_at))]
fn list_range(bytes: &[u8], at: usize) -> Option<(ListRange, usize)>
    requires { at ≤ length bytes.now }
    ensures is { IsReadAt at (list_in_range bytes.now) bytes.now result
        (list_ref_at (drop at bytes.now)) }
    ensures files { IfSome result (λ found. HasFilesAt bytes.now found.0) }
{
    let (tag, next) = byte_range(bytes, at)?;
    match tag {
        0 => known_list_range(bytes, next),
        1 => new_list_range(bytes, next),
        _ => None,
    }
}

/// The pass that all of the bytes spell, as ranges of them; `None` if they spell no pass.
#[tactic(auto, unfolding(crate::specs::Forms::pass_in))]
pub fn read_pass_payload(bytes: &[u8]) -> Option<PassRanges>
    ensures is { ReadsAll (pass_in_ranges bytes.now) result (pass_in bytes.now) }
    ensures files { IfSome result (λ draft. HasFilesAt bytes.now draft.list) }
{
    let (run, next) = run_range(bytes, 0)?;
    let simulator = words_range(bytes, next)?;
    let (list, after) = list_range(bytes, simulator.start + simulator.count)?;
    let output = text_range(bytes, after)?;
    if output.start + output.count < bytes.len() {
        return None;
    }
    Some(PassRanges {
        run,
        simulator,
        list,
        output,
    })
}
