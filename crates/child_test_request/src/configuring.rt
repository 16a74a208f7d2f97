//! The configuration text of a run.

ghost use Rattle.std.specs.Prelude.{◌≡◌, ◌++◌, [], ◌∷◌, if◌then◌else◌, IfOk, OnOk};
ghost use Rattle.std.specs.List.{flat_map};
ghost use Rattle.child_test_request.specs.Written.{next_case};
ghost use Rattle.testbench_runs.specs.Configuration.{configuration, doubled, enabled_cases, folder_of, is_comma, is_delimiter, pair};

use crate::paths::output_path;
use base::{NoMemory, Text};
use std::alloc::Global;
use testbench_runs::TestRun;

/// Puts a byte, or the same byte twice.
fn put_byte(out: &mut Vec<u8>, twice: bool, byte: u8) -> Result<(), NoMemory>
    ensures { OnOk result (out.new.items ≡ out.old.items ++
        (if twice then byte ∷ byte ∷ [] else byte ∷ [])) }
{
    if twice {
        out.push(byte)?;
    }
    out.push(byte)?;
    Ok(())
}

/// Puts bytes, and each comma among them twice.
fn put_commas_doubled(out: &mut Vec<u8>, bytes: &[u8]) -> Result<(), NoMemory>
    ensures { OnOk result (out.new.items ≡ out.old.items ++ doubled is_comma bytes.now) }
{
    for byte in bytes {
        put_byte(out, *byte == b',', *byte)?;
    }
    Ok(())
}

/// Puts bytes, and each comma and each colon among them twice.
fn put_delimiters_doubled(out: &mut Vec<u8>, bytes: &[u8]) -> Result<(), NoMemory>
    ensures { OnOk result (out.new.items ≡ out.old.items ++ doubled is_delimiter bytes.now) }
{
    for byte in bytes {
        put_byte(out, *byte == b',' || *byte == b':', *byte)?;
    }
    Ok(())
}

/// Puts a comma, and a name with each comma in it twice.
fn put_next_case(out: &mut Vec<u8>, name: &[u8]) -> Result<(), NoMemory>
    ensures { OnOk result (out.new.items ≡ out.old.items ++ next_case name.now) }
{
    out.push(b',')?;
    put_commas_doubled(out, name)
}

/// Puts names, each after a comma.
fn put_next_cases(out: &mut Vec<u8>, names: &[Text]) -> Result<(), NoMemory>
    ensures { OnOk result (out.new.items ≡ out.old.items ++ flat_map next_case names.now) }
{
    for name in names {
        put_next_case(out, name.bytes())?;
    }
    Ok(())
}

/// A name and others, with a comma between two, and each comma in a name twice.
fn joined_cases(alloc: Global, first: &Text, others: &[Text]) -> Result<Vec<u8>, NoMemory>
    ensures { IfOk result (λ value. value.items ≡ enabled_cases (first.now ∷ others.now)) }
{
    let mut value = Vec::new(alloc);
    put_commas_doubled(&mut value, first.bytes())?;
    put_next_cases(&mut value, others)?;
    Ok(value)
}

/// The names of cases with a comma between two, and each comma in a name twice.
fn enabled_cases(alloc: Global, names: &[Text]) -> Result<Vec<u8>, NoMemory>
    ensures { IfOk result (λ value. value.items ≡ enabled_cases names.now) }
{
    match names {
        [first, others @ ..] => joined_cases(alloc, first, others),
        [] => Ok(Vec::new(alloc)),
    }
}

/// A path up to and with its last slash, or nothing.
fn folder_of(path: &[u8]) -> &[u8]
    ensures { result.now ≡ folder_of path.now }
{
    let mut rest = path;
    while let [others @ .., last] = rest {
        if *last == b'/' {
            return rest;
        }
        rest = others;
    }
    rest
}

/// Puts a key and its value.
fn put_pair(out: &mut Vec<u8>, key: &[u8], value: &[u8]) -> Result<(), NoMemory>
    ensures { OnOk result (out.new.items ≡ out.old.items ++ pair key.now value.now) }
{
    out.extend_from_slice(key)?;
    out.extend_from_slice(b" : ")?;
    put_delimiters_doubled(out, value)
}

/// Puts a comma, and then a key and its value.
fn put_next_pair(out: &mut Vec<u8>, key: &[u8], value: &[u8]) -> Result<(), NoMemory>
    ensures { OnOk result (out.new.items ≡ out.old.items ++ 44 ∷ pair key.now value.now) }
{
    out.push(b',')?;
    put_pair(out, key, value)
}

/// The configuration text that the bench of a run is handed: five pairs of a key and a value. Its length is at most the
/// sum of:
///
/// - four bytes for each byte of the names of the cases, and two for each case;
/// - three bytes for each byte of the run's name;
/// - two bytes for each byte of the path;
/// - a little over a hundred bytes for the rest.
#[tactic(auto, unfolding(testbench_runs::specs::Configuration::configuration, testbench_runs::specs::Configuration::pairs_of))]
pub fn runner_cfg(alloc: Global, run: &TestRun) -> Result<Text, NoMemory>
    ensures { IfOk result (λ text. text ≡ configuration run.now) }
{
    let cases = enabled_cases(alloc, run.cases.as_slice())?;
    let folder = output_path(alloc, run)?;
    let mut out = Vec::new(alloc);
    put_pair(&mut out, b"active python runner", b"true")?;
    put_next_pair(&mut out, b"enabled_test_cases", cases.as_slice())?;
    put_next_pair(&mut out, b"output path", folder.as_slice())?;
    put_next_pair(&mut out, b"tb path", folder_of(run.path.bytes()))?;
    put_next_pair(&mut out, b"use_color", b"false")?;
    Ok(Text::from_vec(out))
}
