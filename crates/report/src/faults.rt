//! The messages for a faulty project file and for faulty benches.

ghost use Rattle.std.specs.Prelude.{◌≡◌, ◌++◌, OnOk};
ghost use Rattle.std.specs.Fmt.{decimal};
ghost use Rattle.report.specs.Texts.{fault_words, no_key, wrong_value, stands_twice, library_twice, nothing_matches, bad_line, test_words, two_architectures, lacks_architecture, bad_test_name, test_twice};

use crate::report::{put, put_at, put_file_words};
use base::{NoMemory, ProjectFault};
use base_outcomes::TestFault;
use std::alloc::Global;

#[tactic(auto, unfolding(crate::specs::Texts::bad_line))]
fn put_bad_line(alloc: Global, out: &mut Vec<u8>, line: u32) -> Result<(), NoMemory>
    ensures { OnOk result (out.new.items ≡ out.old.items ++ (bad_line ++ decimal line)) }
{
    put_at(alloc, out, b"vunit.csv: bad line ", line)
}

/// Puts words, and a text after them.
fn put_both(out: &mut Vec<u8>, words: &[u8], text: &[u8]) -> Result<(), NoMemory>
    ensures { OnOk result (out.new.items ≡ out.old.items ++ (words.now ++ text.now)) }
{
    put(out, words)?;
    put(out, text)?;
    Ok(())
}

#[tactic(auto, unfolding(crate::specs::Texts::no_key))]
fn put_no_key(out: &mut Vec<u8>, key: &[u8]) -> Result<(), NoMemory>
    ensures { OnOk result (out.new.items ≡ out.old.items ++ no_key key.now) }
{
    put_both(out, b"vunit.toml: no key ", key)
}

#[tactic(auto, unfolding(crate::specs::Texts::wrong_value))]
fn put_wrong_value(out: &mut Vec<u8>, key: &[u8]) -> Result<(), NoMemory>
    ensures { OnOk result (out.new.items ≡ out.old.items ++ wrong_value key.now) }
{
    put_both(out, b"vunit.toml: wrong value of ", key)
}

#[tactic(auto, unfolding(crate::specs::Texts::stands_twice))]
fn put_stands_twice(out: &mut Vec<u8>) -> Result<(), NoMemory>
    ensures { OnOk result (out.new.items ≡ out.old.items ++ stands_twice) }
{
    put(out, b" stands twice")
}

#[tactic(auto, unfolding(crate::specs::Texts::library_twice))]
fn put_library_twice(out: &mut Vec<u8>, name: &[u8]) -> Result<(), NoMemory>
    ensures { OnOk result (out.new.items ≡ out.old.items ++ library_twice name.now) }
{
    put(out, b"library ")?;
    put(out, name)?;
    put_stands_twice(out)?;
    Ok(())
}

#[tactic(auto, unfolding(crate::specs::Texts::nothing_matches))]
fn put_nothing_matches(out: &mut Vec<u8>, pattern: &[u8]) -> Result<(), NoMemory>
    ensures { OnOk result (out.new.items ≡ out.old.items ++ nothing_matches pattern.now) }
{
    put_both(out, b"nothing matches ", pattern)
}

/// Appends the message for a faulty project file to `out`, without a line feed. After `NoMemory`, `out` may have a part of it.
#[tactic(auto, unfolding(crate::specs::Texts::not_toml, crate::specs::Texts::work_library, crate::specs::Texts::not_in_project))]
pub fn put_fault(alloc: Global, out: &mut Vec<u8>, fault: &ProjectFault) -> Result<(), NoMemory>
    ensures { OnOk result (out.new.items ≡ out.old.items ++ fault_words fault.now) }
{
    match fault {
        ProjectFault::NotToml => put(out, b"vunit.toml isn't TOML"),
        ProjectFault::MissingKey { key } => put_no_key(out, key.bytes()),
        ProjectFault::WrongType { key } => put_wrong_value(out, key.bytes()),
        ProjectFault::WorkLibrary => put(out, b"a library may not be named work"),
        ProjectFault::DuplicateLibrary { name } => put_library_twice(out, name.bytes()),
        ProjectFault::DuplicateFile { name } => {
            put_file_words(out, name)?;
            put_stands_twice(out)?;
            Ok(())
        }
        ProjectFault::NothingMatches { pattern } => put_nothing_matches(out, pattern.bytes()),
        ProjectFault::BadLine { line } => put_bad_line(alloc, out, *line),
        ProjectFault::UnknownDependency { name } => {
            put_file_words(out, name)?;
            put(out, b" isn't in the project")?;
            Ok(())
        }
    }
}

/// Puts words, a name and words after it.
fn put_around(out: &mut Vec<u8>, before: &[u8], name: &[u8], after: &[u8]) -> Result<(), NoMemory>
    ensures { OnOk result (out.new.items
        ≡ out.old.items ++ (before.now ++ (name.now ++ after.now))) }
{
    put(out, before)?;
    put(out, name)?;
    put(out, after)?;
    Ok(())
}

#[tactic(auto, unfolding(crate::specs::Texts::two_architectures))]
fn put_two_architectures(out: &mut Vec<u8>, bench: &[u8]) -> Result<(), NoMemory>
    ensures { OnOk result (out.new.items ≡ out.old.items ++ two_architectures bench.now) }
{
    put_around(out, b"bench ", bench, b" has two architectures")
}

#[tactic(auto, unfolding(crate::specs::Texts::lacks_architecture))]
fn put_lacks_architecture(out: &mut Vec<u8>, bench: &[u8]) -> Result<(), NoMemory>
    ensures { OnOk result (out.new.items ≡ out.old.items ++ lacks_architecture bench.now) }
{
    put_around(out, b"bench ", bench, b" has no architecture")
}

#[tactic(auto, unfolding(crate::specs::Texts::bad_test_name))]
fn put_bad_test_name(out: &mut Vec<u8>, bench: &[u8]) -> Result<(), NoMemory>
    ensures { OnOk result (out.new.items ≡ out.old.items ++ bad_test_name bench.now) }
{
    put_around(out, b"bench ", bench, b" has a bad test name")
}

#[tactic(auto, unfolding(crate::specs::Texts::test_twice, crate::specs::Texts::stands_twice))]
fn put_test_twice(out: &mut Vec<u8>, name: &[u8]) -> Result<(), NoMemory>
    ensures { OnOk result (out.new.items ≡ out.old.items ++ test_twice name.now) }
{
    put_around(out, b"test ", name, b" stands twice")
}

/// Appends the message for faulty benches of a project to `out`, without a line feed. After `NoMemory`, `out` may have a part of
/// it.
pub fn put_test_fault(out: &mut Vec<u8>, fault: &TestFault) -> Result<(), NoMemory>
    ensures { OnOk result (out.new.items ≡ out.old.items ++ test_words fault.now) }
{
    match fault {
        TestFault::TwoArchitectures { bench } => put_two_architectures(out, bench.bytes()),
        TestFault::NoArchitecture { bench } => put_lacks_architecture(out, bench.bytes()),
        TestFault::DuplicateTest { name } => put_test_twice(out, name.bytes()),
        TestFault::BadName { bench } => put_bad_test_name(out, bench.bytes()),
    }
}
