//! The export of a project as JSON.

ghost use Rattle.std.specs.Prelude.{◌≡◌, ℕ, ◌++◌, List, map, codes, IfOk, OnOk};
ghost use Rattle.std.specs.Str.{IsUtf8};
ghost use Rattle.serde_json.specs.Data.{string, object, member, no_members};
ghost use Rattle.serde_json.specs.View.{view};
ghost use Rattle.testbench_select.specs.Selection.{full_name};
ghost use Rattle.report.specs.Export.{text_data, version_data, file_data, files_data, location_data, path_of, test_data, bench_data, tests_data, export_data, export_text, ReadsBack};

use base::{Entry, FileName, Graph, NoMemory, Project, ProjectFile, Text};
use base_outcomes::{Bench, TestCase, Tests};
use serde_json::{Map, Value, json};
use std::alloc::Global;
use testbench_select::full_name;

fn text_value(alloc: Global, bytes: &[u8]) -> Result<Value, NoMemory>
    ensures { IfOk result (λ value. view value ≡ text_data bytes.now) }
{
    Ok(Value::from(String::from_utf8_lossy(alloc, bytes)?))
}

#[tactic(auto, unfolding(crate::specs::Export::version_data))]
fn version_value(alloc: Global) -> Result<Value, NoMemory>
    ensures { IfOk result (λ value. view value ≡ version_data) }
{
    Ok(json!(in alloc; {"major": 1u32, "minor": 0u32, "patch": 0u32})?)
}

#[tactic(auto, unfolding(crate::specs::Export::file_data))]
fn file_value(alloc: Global, name: &FileName) -> Result<Value, NoMemory>
    ensures { IfOk result (λ value. view value ≡ file_data name.now) }
{
    let path = text_value(alloc, name.path.bytes())?;
    let library = text_value(alloc, name.library.bytes())?;
    Ok(json!(in alloc; {"file_name": path, "library_name": library})?)
}

fn file_values(alloc: Global, graph: &[Entry]) -> Result<Vec<Value>, NoMemory>
    ensures { IfOk result (λ values. map view values.items ≡ files_data graph.now) }
{
    let mut values = Vec::new(alloc);
    for i in 0..graph.len() {
        values.push(file_value(alloc, &graph[i].name)?)?;
    }
    Ok(values)
}

/// The path of a file of a project by its number, or the empty text where the project has no such file.
fn path_of(files: &[ProjectFile], file: u32) -> &[u8]
    ensures { result.now ≡ path_of files.now file }
{
    match files.get(file as usize) {
        Some(found) => found.name.path.bytes(),
        None => b"",
    }
}

#[tactic(auto, unfolding(crate::specs::Export::location_data))]
fn location_value(alloc: Global, path: &[u8], case: &TestCase) -> Result<Value, NoMemory>
    ensures { IfOk result (λ value. view value ≡ location_data path.now case.now) }
{
    let file_name = text_value(alloc, path)?;
    Ok(json!(in alloc; {"file_name": file_name, "length": case.length, "offset": case.at})?)
}

fn name_value(alloc: Global, bench: &Bench, case: &TestCase) -> Result<Value, NoMemory>
    ensures { IfOk result (λ value. view value ≡ text_data (full_name bench.now case.now)) }
{
    let name = full_name(alloc, bench, case)?;
    text_value(alloc, name.as_slice())
}

fn no_attributes(alloc: Global) -> Value
    ensures { view result ≡ object no_members }
{
    Value::from(Map::new(alloc))
}

/// A test of the values of its members.
fn test_of(alloc: Global, location: Value, name: Value) -> Result<Value, NoMemory>
    ensures { IfOk result (λ value. view value ≡ object
        (member (codes "attributes") (object no_members)
        (member (codes "location") (view location)
        (member (codes "name") (view name) no_members)))) }
{
    let attributes = no_attributes(alloc);
    Ok(json!(in alloc; {"attributes": attributes, "location": location, "name": name})?)
}

#[tactic(auto, unfolding(crate::specs::Export::test_data))]
fn test_value(
    alloc: Global,
    files: &[ProjectFile],
    bench: &Bench,
    case: &TestCase,
) -> Result<Value, NoMemory>
    ensures { IfOk result (λ value. view value ≡ test_data files.now bench.now case.now) }
{
    let location = location_value(alloc, path_of(files, case.file), case)?;
    test_of(alloc, location, name_value(alloc, bench, case)?)
}

fn add_bench_values(
    alloc: Global,
    values: &mut Vec<Value>,
    files: &[ProjectFile],
    bench: &Bench,
) -> Result<(), NoMemory>
    ensures { OnOk result (map view values.new.items
        ≡ map view values.old.items ++ bench_data files.now bench.now) }
{
    let cases = bench.cases.as_slice();
    for i in 0..cases.len() {
        values.push(test_value(alloc, files, bench, &cases[i])?)?;
    }
    Ok(())
}

fn test_values(
    alloc: Global,
    files: &[ProjectFile],
    tests: &[Bench],
) -> Result<Vec<Value>, NoMemory>
    ensures { IfOk result (λ values. map view values.items ≡ tests_data files.now tests.now) }
{
    let mut values = Vec::new(alloc);
    for i in 0..tests.len() {
        add_bench_values(alloc, &mut values, files, &tests[i])?;
    }
    Ok(values)
}

#[tactic(auto, unfolding(crate::specs::Export::export_data))]
fn export_value(
    alloc: Global,
    graph: &[Entry],
    files: &[ProjectFile],
    tests: &[Bench],
) -> Result<Value, NoMemory>
    ensures { IfOk result (λ value. view value ≡ export_data graph.now files.now tests.now) }
{
    let version = version_value(alloc)?;
    let files_of_graph = file_values(alloc, graph)?;
    let all_tests = test_values(alloc, files, tests)?;
    Ok(json!(in alloc;
        {"export_format_version": version, "files": files_of_graph, "tests": all_tests})?)
}

/// The export of a project: the files of its graph, in compile order, and its tests, as one compact JSON text with a line
/// feed. What isn't UTF-8 in a name is written as U+FFFD.
pub fn export_json(
    alloc: Global,
    graph: &Graph,
    project: &Project,
    tests: &Tests,
) -> Result<Text, NoMemory>
    ensures text { IfOk result (λ text. text
        ≡ export_text graph.now project.now.files tests.now) }
    ensures reads { OnOk result (ReadsBack
        (export_data graph.now project.now.files tests.now)) }
{
    let value = export_value(
        alloc,
        graph.as_slice(),
        project.files.as_slice(),
        tests.as_slice(),
    )?;
    let mut text = value.to_string(alloc)?.into_bytes();
    text.push(b'\n')?;
    Ok(Text::from_vec(text))
}

/// A text that is UTF-8 is exported unchanged, as a string.
pub fn laws_of_exports()
    ensures { (bytes : List ℕ) → IsUtf8 bytes → text_data bytes ≡ string bytes }
{}
