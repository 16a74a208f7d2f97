//! Names as paths of bytes: what names begin with alike is walked and kept once.

ghost use Rattle.std.specs.Prelude.{◌∷◌, ◌++◌, ℕ, List, IfOk, OnOk, reverse};
ghost use Rattle.testbench_scan.specs.Paths.{AreOnce, HasGrown, LeadsBack};

use crate::steps::Step;
use base::NoMemory;
use base_collections::Numbered;

/// The index after one byte more.
pub fn step(steps: &mut Numbered<Step>, from: usize, byte: u8) -> Result<usize, NoMemory>
    ensures leads { IfOk result (λ name_index. (before : List ℕ) → LeadsBack steps.old.keys from before →
        LeadsBack steps.new.keys name_index (byte ∷ before)) }
    ensures grown { OnOk result (HasGrown steps.old.keys steps.new.keys) }
{
    let number = steps.add(Step { from, byte })?;
    match number.checked_add(1) {
        Some(name_index) => Ok(name_index),
        None => Err(NoMemory),
    }
}

/// The index after bytes.
pub fn walk(steps: &mut Numbered<Step>, from: usize, bytes: &[u8]) -> Result<usize, NoMemory>
    ensures leads { IfOk result (λ name_index. (before : List ℕ) → LeadsBack steps.old.keys from before →
        LeadsBack steps.new.keys name_index (reverse bytes.now ++ before)) }
    ensures grown { OnOk result (HasGrown steps.old.keys steps.new.keys) }
{
    let mut name_index = from;
    for byte in bytes {
        name_index = step(steps, name_index, *byte)?;
    }
    Ok(name_index)
}
