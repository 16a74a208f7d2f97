//! The uses of whole libraries, which give no dependency.

ghost use Rattle.std.specs.Prelude.{◌≡◌, ◌++◌, ◌∷◌, [], ◌<◌, if◌then◌else◌, OnOk, length};
ghost use Rattle.std.specs.List.{All, flat_map};
ghost use Rattle.vhdl_lex.specs.LexicalElements.{LiesIn};
ghost use Rattle.vhdl_units.specs.Names.{token_name};
ghost use Rattle.vhdl_graph.specs.Libraries.{knows};
ghost use Rattle.vhdl_graph.specs.Linking.{noted, noted_library};

use crate::libraries::{Names, has_name};
use crate::seen::{Tables, seen_library};
use base::{FileName, NoMemory, Text, Token, UnitId, Warning, WarningList};
use std::alloc::Global;
use vhdl_units::name_of_token;

/// Notes a use of a library, where that has files.
fn note_library(
    alloc: Global,
    own: &Names,
    file: u32,
    library: &Text,
    warnings: &mut WarningList,
) -> Result<(), NoMemory>
    ensures { OnOk result (warnings.new ≡ warnings.old ++
        noted_library (knows own.now library.now) file library.now) }
{
    if has_name(own, library.bytes()) {
        warnings.push(Warning {
            file,
            library: library.copy(alloc)?,
        })?;
    }
    Ok(())
}

/// Notes a use of a name, where it is seen and the library that it means has files.
fn note_name(
    alloc: Global,
    tables: &Tables,
    id: UnitId,
    file: &FileName,
    named: &Text,
    warnings: &mut WarningList,
) -> Result<(), NoMemory>
    requires { id.file < length tables.now.sets.now.starts }
    ensures { OnOk result (warnings.new ≡ warnings.old ++
        noted tables.now id file.now.library named.now) }
{
    match seen_library(tables.sets, id, &file.library, named) {
        Some(library) => note_library(alloc, &tables.libraries.own, id.file, library, warnings),
        None => Ok(()),
    }
}

/// Notes the uses of the names that tokens are.
pub fn note_uses(
    alloc: Global,
    tables: &Tables,
    id: UnitId,
    file: &FileName,
    text: &[u8],
    uses: &[Token],
    warnings: &mut WarningList,
) -> Result<(), NoMemory>
    requires file { id.file < length tables.now.sets.now.starts }
    requires lie { All (LiesIn text.now) uses.now }
    ensures { OnOk result (warnings.new ≡ warnings.old ++
        flat_map (λ token. noted tables.now id file.now.library (token_name text.now token))
        uses.now) }
{
    for token in uses {
        let named = name_of_token(text, *token, Text::new(alloc))?;
        note_name(alloc, tables, id, file, &named, warnings)?;
    }
    Ok(())
}
