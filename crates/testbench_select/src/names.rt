//! The full names of tests.

ghost use Rattle.std.specs.Prelude.{◌≡◌, IfOk};
ghost use Rattle.testbench_select.specs.Selection.{full_name, name_start};

use base::NoMemory;
use base_outcomes::{Bench, TestCase};
use std::alloc::Global;

/// What the full names of a bench begin with, in memory that has room for a case.
pub fn name_start(alloc: Global, bench: &Bench) -> Result<Vec<u8>, NoMemory>
    ensures { IfOk result (λ name. name.items ≡ name_start bench.now) }
{
    let mut name = Vec::from_slice(alloc, bench.library.bytes())?;
    name.push(b'.')?;
    name.extend_from_slice(bench.name.bytes())?;
    name.push(b'.')?;
    Ok(name)
}

/// The full name of a case of a bench, as VUnit lists it: the library, the bench and the case, with a dot between them.
pub fn full_name(alloc: Global, bench: &Bench, test_case: &TestCase) -> Result<Vec<u8>, NoMemory>
    ensures { IfOk result (λ name. name.items ≡ full_name bench.now test_case.now) }
{
    let mut name = name_start(alloc, bench)?;
    name.extend_from_slice(test_case.name.bytes())?;
    Ok(name)
}
