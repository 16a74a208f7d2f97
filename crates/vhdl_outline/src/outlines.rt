//! Outlines of scanned files: design units with their library names and unresolved references, and testbench facts.

ghost use Rattle.std.specs.Prelude.{◌≡◌, ◌≤◌, [], IfOk, length, map};
ghost use Rattle.std.specs.List.{All};
ghost use Rattle.vhdl_spec.specs.Units.{roles_of};
ghost use Rattle.vhdl_spec.specs.Scans.{IsScanOf};
ghost use Rattle.vhdl_outline.specs.UnresolvedRefs.{UnresolvedRefsLieIn};
ghost use Rattle.vhdl_outline.specs.Outlines.{HasAdded, UnresolvedAreOf, scope_of};

use crate::{FileFacts, UnresolvedRefs, library_names, testbench_facts, unresolved_refs};
use base::{Items, NoMemory, RoleList, Scan, TEXT_LIMIT, TextList, Tokens, UnitList};
use std::alloc::Global;

/// The names in a design unit's library clauses (IEEE Std 1076-2008, clause 13.2).
#[derive(Drop)]
pub struct UnitScope {
    pub names: TextList,
}

/// The design units of a file, the library names and unresolved references of each unit, and the testbench facts of the file.
#[derive(Drop)]
pub struct FileOutline {
    pub units: UnitList,
    pub scopes: Items<UnitScope>,
    pub unresolved: Items<UnresolvedRefs>,
    pub runs: FileFacts,
}

/// The outlines of files, in order.
#[derive(Drop)]
pub struct Outlines {
    pub files: Items<FileOutline>,
}

/// The number of units of files, or `usize::MAX` if the number is larger. It only decides how much room is made for units: no
/// contract depends on it.
pub fn room_for_units(files: &Items<FileOutline>) -> usize {
    let mut count: usize = 0;
    for file in 0..files.len() {
        count = count.saturating_add(files.get(file).units.len() as usize);
    }
    count
}

/// The unresolved references of each unit of a scan, in order.
fn unresolved_of_units(
    alloc: Global,
    text: &[u8],
    scan: &Scan,
    roles: &RoleList,
) -> Result<Items<UnresolvedRefs>, NoMemory>
    requires scan { IsScanOf text.now scan.now }
    requires small { length text.now ≤ TEXT_LIMIT }
    requires roles { roles.now ≡ roles_of text.now scan.now.tokens.list }
    ensures are { IfOk result (UnresolvedAreOf text.now scan.now) }
    ensures lie { IfOk result (All (UnresolvedRefsLieIn text.now)) }
{
    let mut room = Vec::new(alloc);
    let mut all = Vec::with_capacity(alloc, scan.units.len() as usize)?;
    for number in 0..scan.units.len() {
        all.push(unresolved_refs(alloc, text, scan, roles, number as u32, &mut room)?)?;
    }
    Ok(Items::from_vec(all))
}

/// The library names of each unit of a scan, in order.
fn scopes_of_units(
    alloc: Global,
    text: &[u8],
    scan: &Scan,
    roles: &RoleList,
) -> Result<Items<UnitScope>, NoMemory>
    requires scan { IsScanOf text.now scan.now }
    requires small { length text.now ≤ TEXT_LIMIT }
    requires roles { roles.now ≡ roles_of text.now scan.now.tokens.list }
    ensures { IfOk result (λ scopes.
        scopes ≡ map (scope_of text.now scan.now) scan.now.units) }
{
    let mut scopes = Vec::with_capacity(alloc, scan.units.len() as usize)?;
    for number in 0..scan.units.len() {
        let names = library_names(alloc, text, scan, roles, number as u32)?;
        scopes.push(UnitScope { names })?;
    }
    Ok(Items::from_vec(scopes))
}

impl Outlines {
    /// Those of no file.
    pub fn new(alloc: Global) -> Outlines
        ensures { result ≡ record { files = [] } }
    {
        Outlines {
            files: Items::new(alloc),
        }
    }

    /// Adds the outline of one more file, whose tokens aren't kept: they come back, since others can use their memory.
    /// `roles` are those of the tokens.
    pub fn push(
        &mut self,
        alloc: Global,
        text: &[u8],
        scan: Scan,
        roles: &RoleList,
    ) -> Result<Tokens, NoMemory>
        requires scan { IsScanOf text.now scan }
        requires small { length text.now ≤ TEXT_LIMIT }
        requires roles { roles.now ≡ roles_of text.now scan.tokens.list }
        ensures added { IfOk result (λ used. HasAdded text.now scan self.old self.new) }
        ensures used { IfOk result (λ used. used ≡ scan.tokens) }
    {
        let unresolved = unresolved_of_units(alloc, text, &scan, roles)?;
        let runs = testbench_facts(alloc, text, &scan, roles)?;
        let scopes = scopes_of_units(alloc, text, &scan, roles)?;
        let Scan { tokens, units } = scan;
        self.files.push(FileOutline {
            units,
            scopes,
            unresolved,
            runs,
        })?;
        Ok(tokens)
    }
}
