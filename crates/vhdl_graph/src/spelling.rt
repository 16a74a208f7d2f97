//! How the fault of a duplicate unit spells the name of the unit.

ghost use Rattle.std.specs.Prelude.{◌≡◌, ◌++◌, IfOk, OnOk};
ghost use Rattle.vhdl_spec.specs.References.{owner_name};
ghost use Rattle.vhdl_spec.specs.Dependencies.{spelled_by};

use base::{NoMemory, Text, Unit, UnitKind};
use std::alloc::Global;
use vhdl_units::owner_name;

static DOT: [u8; 1] = *b".";

static OPENING: [u8; 1] = *b"(";

static CLOSING: [u8; 1] = *b")";

static BODY: [u8; 5] = *b"body ";

/// Four texts in one.
fn concatenate(
    alloc: Global,
    first: &[u8],
    second: &[u8],
    third: &[u8],
    last: &[u8],
) -> Result<Vec<u8>, NoMemory>
    ensures { IfOk result (λ text.
        text.items ≡ first.now ++ (second.now ++ (third.now ++ last.now))) }
{
    let mut text = Vec::from_slice(alloc, first)?;
    text.extend_from_slice(second)?;
    text.extend_from_slice(third)?;
    text.extend_from_slice(last)?;
    Ok(text)
}

/// `L.U`, `L.E(A)` or `body L.P`.
pub fn spell_unit(alloc: Global, library: &Text, unit: &Unit) -> Result<Text, NoMemory>
    ensures { IfOk result (λ text. text ≡ spelled_by library.now unit.now unit.now.kind) }
{
    let library = library.bytes();
    let name = unit.name.bytes();
    match unit.kind {
        UnitKind::Architecture => {
            let inner = concatenate(
                alloc,
                owner_name(&unit.owner),
                OPENING.as_slice(),
                name,
                CLOSING.as_slice(),
            )?;
            Ok(Text::from_vec(concatenate(alloc, library, DOT.as_slice(), inner.as_slice(), b"")?))
        }
        UnitKind::PackageBody => Ok(Text::from_vec(concatenate(
            alloc,
            BODY.as_slice(),
            library,
            DOT.as_slice(),
            name,
        )?)),
        _ => Ok(Text::from_vec(concatenate(alloc, library, DOT.as_slice(), name, b"")?)),
    }
}
