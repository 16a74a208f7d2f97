//! The answers of the compiler.

ghost use Rattle.std.specs.Prelude.{◌≡◌, IfOk};
ghost use Rattle.child_tools.specs.Answers.{made, no_unit, not_vhdl, refused};

use base::{ARTEFACT_LIMIT, Exit, FileName, NoMemory, Text};
use child_lines::{ends_with, put};
use std::alloc::Global;
use vhdl_units::UnitKey;

/// A refusal with a line, to which its line feed is added.
#[tactic(auto, unfolding(crate::specs::Answers::refused))]
fn refused_with(line: Vec<u8>) -> Result<Exit, NoMemory>
    ensures { IfOk result (λ exit. exit ≡ refused line.items) }
{
    let mut line = line;
    put(&mut line, b"\n")?;
    Ok(ends_with(1, Text::from_vec(line)))
}

/// A refusal with a line.
pub fn refusal_exit(alloc: Global, line: &[u8]) -> Result<Exit, NoMemory>
    ensures { IfOk result (λ exit. exit ≡ refused line.now) }
{
    refused_with(Vec::from_slice(alloc, line)?)
}

/// The answer to a file that has a fault of its tokens or of its units.
#[tactic(auto, unfolding(crate::specs::Answers::not_vhdl))]
pub fn not_vhdl(alloc: Global, name: &FileName) -> Result<Exit, NoMemory>
    ensures { IfOk result (λ exit. exit ≡ not_vhdl name.now) }
{
    let mut line = Vec::from_slice(alloc, name.path.bytes())?;
    put(&mut line, b": not VHDL")?;
    refused_with(line)
}

/// The answer to a file that refers to a unit which isn't there.
#[tactic(auto, unfolding(crate::specs::Answers::no_unit))]
pub fn no_unit(alloc: Global, name: &FileName, unit: &UnitKey) -> Result<Exit, NoMemory>
    ensures { IfOk result (λ exit. exit ≡ no_unit name.now unit.now) }
{
    let mut line = Vec::from_slice(alloc, name.path.bytes())?;
    put(&mut line, b": no unit ")?;
    put(&mut line, unit.library.bytes())?;
    put(&mut line, b".")?;
    put(&mut line, unit.name.bytes())?;
    refused_with(line)
}

/// The answer to a file by its artefact.
#[tactic(auto, unfolding(crate::specs::Answers::made))]
pub fn artefact_exit(alloc: Global, artefact: Text) -> Result<Exit, NoMemory>
    ensures { IfOk result (λ exit. exit ≡ made artefact) }
{
    if artefact.bytes().len() > ARTEFACT_LIMIT {
        return refusal_exit(alloc, b"artefact too long");
    }
    Ok(ends_with(0, artefact))
}
