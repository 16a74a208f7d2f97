//! The artefact of a file.

ghost use Rattle.std.specs.Prelude.{◌≡◌, ◌++◌, ◌≤◌, length, IfOk, OnOk};
ghost use Rattle.std.specs.List.{flat_map};
ghost use Rattle.vhdl_spec.specs.References.{owner_name};
ghost use Rattle.vhdl_spec.specs.Scans.{IsScanOf};
ghost use Rattle.vhdl_spec.specs.Units.{AreTokensOf};
ghost use Rattle.child_tools.specs.Artefacts.{artefact_of, comment_line, kind_word, of_entity, script_line, unit_line};

use crate::scripts::script_at;
use base::{MaybeText, NoMemory, Scan, Span, Text, Tokens, Unit, UnitKind};
use child_lines::put;
use std::alloc::Global;

#[tactic(auto, unfolding(crate::specs::Artefacts::kind_word))]
fn put_kind(out: &mut Vec<u8>, kind: UnitKind) -> Result<(), NoMemory>
    ensures { OnOk result (out.new.items ≡ out.old.items ++ kind_word kind) }
{
    match kind {
        UnitKind::Entity => put(out, b"entity"),
        UnitKind::Architecture => put(out, b"architecture"),
        UnitKind::Configuration => put(out, b"configuration"),
        UnitKind::Package => put(out, b"package"),
        UnitKind::PackageBody => put(out, b"body"),
        UnitKind::PackageInstance => put(out, b"instance"),
        UnitKind::Context => put(out, b"context"),
    }
}

fn put_owner(out: &mut Vec<u8>, owner: &MaybeText) -> Result<(), NoMemory>
    ensures { OnOk result (out.new.items ≡ out.old.items ++ owner_name owner.now) }
{
    match owner {
        MaybeText::Nothing => Ok(()),
        MaybeText::Given(name) => put(out, name.bytes()),
    }
}

#[tactic(auto, unfolding(crate::specs::Artefacts::of_entity))]
fn put_entity(out: &mut Vec<u8>, unit: &Unit) -> Result<(), NoMemory>
    ensures { OnOk result
        (out.new.items ≡ out.old.items ++ of_entity unit.now.kind unit.now.owner) }
{
    match unit.kind {
        UnitKind::Architecture => {
            put(out, b" of ")?;
            put_owner(out, &unit.owner)?;
            Ok(())
        }
        _ => Ok(()),
    }
}

#[tactic(auto, unfolding(crate::specs::Artefacts::unit_line))]
fn put_unit(out: &mut Vec<u8>, unit: &Unit) -> Result<(), NoMemory>
    ensures { OnOk result (out.new.items ≡ out.old.items ++ unit_line unit.now) }
{
    put(out, b"unit ")?;
    put_kind(out, unit.kind)?;
    put(out, b" ")?;
    put(out, unit.name.bytes())?;
    put_entity(out, unit)?;
    put(out, b"\n")?;
    Ok(())
}

fn put_units(out: &mut Vec<u8>, units: &[Unit]) -> Result<(), NoMemory>
    ensures { OnOk result (out.new.items ≡ out.old.items ++ flat_map unit_line units.now) }
{
    for unit in units {
        put_unit(out, unit)?;
    }
    Ok(())
}

#[tactic(auto, unfolding(crate::specs::Artefacts::script_line))]
fn put_script(out: &mut Vec<u8>, line: &[u8]) -> Result<(), NoMemory>
    ensures { OnOk result (out.new.items ≡ out.old.items ++ script_line line.now) }
{
    put(out, b"script ")?;
    put(out, line)?;
    put(out, b"\n")?;
    Ok(())
}

/// Puts the line of a comment, where it is a script line.
fn put_comment(out: &mut Vec<u8>, text: &[u8], span: Span) -> Result<(), NoMemory>
    requires ordered { span.start ≤ span.end }
    requires within { span.end ≤ length text.now }
    ensures { OnOk result (out.new.items ≡ out.old.items ++ comment_line text.now span) }
{
    match script_at(text, span) {
        None => Ok(()),
        Some(line) => put_script(out, line),
    }
}

fn put_scripts(out: &mut Vec<u8>, text: &[u8], tokens: &Tokens) -> Result<(), NoMemory>
    requires { AreTokensOf text.now tokens.now }
    ensures { OnOk result (out.new.items ≡
        out.old.items ++ flat_map (comment_line text.now) tokens.now.comments) }
{
    for span in tokens.comments.as_slice() {
        put_comment(out, text, *span)?;
    }
    Ok(())
}

/// The artefact of a text: a line for each of its units, and for each of its script lines.
#[tactic(auto, unfolding(crate::specs::Artefacts::artefact_of))]
pub fn artefact_of(alloc: Global, text: &[u8], scan: &Scan) -> Result<Text, NoMemory>
    requires { IsScanOf text.now scan.now }
    ensures { IfOk result (λ artefact. artefact ≡ artefact_of text.now scan.now) }
{
    let mut out = Vec::new(alloc);
    put_units(&mut out, scan.units.as_slice())?;
    put_scripts(&mut out, text, &scan.tokens)?;
    Ok(Text::from_vec(out))
}
