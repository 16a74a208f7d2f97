//! The names of design units, by which they are found.

ghost use Rattle.std.specs.Prelude.{◌≡◌, ◌+◌, ◌≤◌, [], ◌∷◌, ◌++◌, drop, length, IfOk, OnOk};
ghost use Rattle.std.specs.Cmp.Rules.{comparing, hashing};
ghost use Rattle.std.proofs.Common.{refl, rules};
ghost use Rattle.std.specs.Cmp.{partial_order_from_agreeing_total};
ghost use Rattle.std.specs.Ordering.{as_partial_cmp};
ghost use Rattle.vhdl_units.specs.KeyParts.{flags_cmp, libraries_cmp, owners_cmp};
ghost use Rattle.vhdl_graph.specs.KeyOrder.{key_cmp, key_parts, key_ties, key_total, keys_decide};
ghost use Rattle.vhdl_graph.specs.Keys.{is_same_key, primary_key, architecture_key, body_key, design_unit_key};

use base::{NoMemory, Text, Unit, UnitKind};
use base_collections::Key;
use std::alloc::Global;
use std::cmp::Ordering;
use std::hash::{Hash, Hasher};
use std::marker::Model;
use std::mem::replace;
use vhdl_units::{order_of_names, owner_name};

static NOTHING: [u8; 0] = *b"";

/// What a key is of, and how many bytes its first two names have.
#[derive(Clone, Copy, PartialEq, Eq)]
pub struct Head {
    primary: bool,
    body: bool,
    library: usize,
    entity: usize,
}

/// The key of a design unit of a project (IEEE Std 1076-2008, clause 13.1). A primary unit of any kind has its library
/// and its name as key. An architecture also has the name of its entity. The body of a package has the name of the
/// package. The three names stand one after another in one buffer, so that a key takes one allocation. Contracts see
/// the names.
#[derive(Drop)]
pub struct DesignUnitKey {
    head: Head,
    letters: Vec<u8>,
}

impl Model for DesignUnitKey {
    ghost use Rattle.vhdl_graph.specs.Joined.{AreJoined, joined_key};
    ghost use Rattle.vhdl_graph.specs.Keys.{DesignUnitKey as Named};

    ghost Value = { Named };

    ghost view = { λ a. joined_key a.head a.letters.items };

    ghost invariant = { λ a. AreJoined a.head a.letters.items };
}

impl PartialEq for DesignUnitKey {
    ghost eq = { is_same_key };

    ghost laws = { Prim.search (comparing, rules) };

    fn eq(&self, other: &DesignUnitKey) -> bool {
        self.head == other.head && self.letters.as_slice() == other.letters.as_slice()
    }
}

impl Eq for DesignUnitKey {
    ghost laws = { Prim.search (comparing, rules) };
}

/// The names are handed over as one.
impl Hash for DesignUnitKey {
    ghost hash_input = { λ a. (a.library ++ (a.entity ++ a.name)) ∷ [] };

    ghost respects_eq = { Prim.search (hashing, rules) };

    fn hash<H: Hasher>(&self, state: &mut H) {
        state.write(self.letters.as_slice());
    }
}

/// The bytes after the first `count` bytes.
#[tactic(auto, using(crate::proofs::JoinedLemmas::rest_is))]
fn after(bytes: &[u8], count: usize) -> &[u8]
    requires { count ≤ length bytes.now }
    ensures rest { result.now ≡ drop count bytes.now }
    ensures length { length result.now + count ≡ length bytes.now }
{
    &bytes[count..]
}

impl DesignUnitKey {
    /// Whether it is of a primary unit.
    #[tactic(auto, unfolding(crate::specs::Joined::joined_key))]
    fn is_primary(&self) -> bool
        ensures { result ≡ self.now.primary }
    {
        self.head.primary
    }

    /// Whether it is of a package's body.
    #[tactic(auto, unfolding(crate::specs::Joined::joined_key))]
    fn is_body(&self) -> bool
        ensures { result ≡ self.now.body }
    {
        self.head.body
    }

    /// The library of the unit.
    #[tactic(auto, unfolding(crate::specs::Joined::joined_key))]
    fn library(&self) -> &[u8]
        ensures { result.now ≡ self.now.library }
    {
        &self.letters[..self.head.library]
    }

    /// The entity of an architecture, and else empty.
    #[tactic(auto, unfolding(crate::specs::Joined::joined_key))]
    fn entity(&self) -> &[u8]
        ensures { result.now ≡ self.now.entity }
    {
        &after(self.letters.as_slice(), self.head.library)[..self.head.entity]
    }

    /// The name of the unit; of a body that of its package.
    #[tactic(auto, unfolding(crate::specs::Joined::joined_key))]
    fn name(&self) -> &[u8]
        ensures { result.now ≡ self.now.name }
    {
        after(
            after(self.letters.as_slice(), self.head.library),
            self.head.entity,
        )
    }
}

/// The order by what keys are of.
fn order_of_flags(one: &DesignUnitKey, other: &DesignUnitKey) -> Ordering
    ensures { result ≡ flags_cmp (key_parts one.now) (key_parts other.now) }
{
    let rest = one.is_primary().cmp(&other.is_primary());
    one.is_body().cmp(&other.is_body()).then(rest)
}

/// The order by libraries, and then by what keys are of.
fn order_of_libraries(one: &DesignUnitKey, other: &DesignUnitKey) -> Ordering
    ensures { result ≡ libraries_cmp (key_parts one.now) (key_parts other.now) }
{
    match order_of_names(one.library(), other.library()) {
        Ordering::Less => Ordering::Less,
        Ordering::Equal => order_of_flags(one, other),
        Ordering::Greater => Ordering::Greater,
    }
}

/// The order by entities, and then by the rest.
fn order_of_entities(one: &DesignUnitKey, other: &DesignUnitKey) -> Ordering
    ensures { result ≡ owners_cmp (key_parts one.now) (key_parts other.now) }
{
    match order_of_names(one.entity(), other.entity()) {
        Ordering::Less => Ordering::Less,
        Ordering::Equal => order_of_libraries(one, other),
        Ordering::Greater => Ordering::Greater,
    }
}

/// Names come first, since nearly all keys differ in them: nothing else is then looked at.
impl Ord for DesignUnitKey {
    ghost cmp = { key_cmp };

    ghost total = { key_total };

    ghost matches_partial_cmp = { λ one other. refl };

    ghost matches_eq = { key_ties };

    fn cmp(&self, other: &DesignUnitKey) -> Ordering {
        match order_of_names(self.name(), other.name()) {
            Ordering::Less => Ordering::Less,
            Ordering::Equal => order_of_entities(self, other),
            Ordering::Greater => Ordering::Greater,
        }
    }
}

impl PartialOrd for DesignUnitKey {
    ghost partial_cmp = { as_partial_cmp key_cmp };

    ghost laws = { partial_order_from_agreeing_total key_cmp key_total (λ one other. refl) key_ties };

    fn partial_cmp(&self, other: &DesignUnitKey) -> Option<Ordering> {
        Some(self.cmp(other))
    }
}

impl Key for DesignUnitKey {
    ghost decides = { keys_decide };

    fn copy(&self, alloc: Global) -> Result<DesignUnitKey, NoMemory> {
        Ok(DesignUnitKey {
            head: self.head,
            letters: Vec::from_slice(alloc, self.letters.as_slice())?,
        })
    }
}

/// No name of a unit, which takes no memory: others are put in its place.
pub fn no_key(alloc: Global) -> DesignUnitKey {
    let head = Head {
        primary: false,
        body: false,
        library: 0,
        entity: 0,
    };
    DesignUnitKey {
        head,
        letters: Vec::new(alloc),
    }
}

/// Puts bytes in the place of those of a text, in its memory where that has room.
pub fn fill(alloc: Global, text: &mut Text, bytes: &[u8]) -> Result<(), NoMemory>
    ensures { OnOk result (text.new ≡ bytes.now) }
{
    let mut room = replace(text, Text::new(alloc)).into_vec();
    room.clear();
    room.extend_from_slice(bytes)?;
    *text = Text::from_vec(room);
    Ok(())
}

/// A key with these names, in the memory of the key `used`.
fn reuse_key(
    used: DesignUnitKey,
    primary: bool,
    body: bool,
    library: &[u8],
    entity: &[u8],
    name: &[u8],
) -> Result<DesignUnitKey, NoMemory>
    ensures { IfOk result (λ key. key ≡ record {
      primary = primary;
      body = body;
      library = library.now;
      entity = entity.now;
      name = name.now;
    }) }
{
    let mut letters = used.letters;
    letters.clear();
    letters.extend_from_slice(library)?;
    letters.extend_from_slice(entity)?;
    letters.extend_from_slice(name)?;
    let head = Head {
        primary,
        body,
        library: library.len(),
        entity: entity.len(),
    };
    Ok(DesignUnitKey { head, letters })
}

/// Replaces a key by a key with these names, in the same memory.
fn put_key(
    alloc: Global,
    key: &mut DesignUnitKey,
    primary: bool,
    body: bool,
    library: &[u8],
    entity: &[u8],
    name: &[u8],
) -> Result<(), NoMemory>
    ensures { OnOk result (key.new ≡ record {
      primary = primary;
      body = body;
      library = library.now;
      entity = entity.now;
      name = name.now;
    }) }
{
    let used = replace(key, no_key(alloc));
    *key = reuse_key(used, primary, body, library, entity, name)?;
    Ok(())
}

/// Puts the name of a primary unit of a library in the place of another.
pub fn put_primary_key(
    alloc: Global,
    key: &mut DesignUnitKey,
    library: &Text,
    name: &Text,
) -> Result<(), NoMemory>
    ensures { OnOk result (key.new ≡ primary_key library.now name.now) }
{
    put_key(
        alloc,
        key,
        true,
        false,
        library.bytes(),
        NOTHING.as_slice(),
        name.bytes(),
    )
}

/// The same of an architecture of an entity.
pub fn put_architecture_key(
    alloc: Global,
    key: &mut DesignUnitKey,
    library: &Text,
    entity: &Text,
    name: &Text,
) -> Result<(), NoMemory>
    ensures { OnOk result (key.new ≡ architecture_key library.now entity.now name.now) }
{
    put_key(
        alloc,
        key,
        false,
        false,
        library.bytes(),
        entity.bytes(),
        name.bytes(),
    )
}

/// The same of the body of a package.
pub fn put_body_key(
    alloc: Global,
    key: &mut DesignUnitKey,
    library: &Text,
    name: &Text,
) -> Result<(), NoMemory>
    ensures { OnOk result (key.new ≡ body_key library.now name.now) }
{
    put_key(
        alloc,
        key,
        false,
        true,
        library.bytes(),
        NOTHING.as_slice(),
        name.bytes(),
    )
}

/// Puts the name of a unit of a library in the place of another.
fn put_design_unit_key(
    alloc: Global,
    key: &mut DesignUnitKey,
    library: &Text,
    unit: &Unit,
) -> Result<(), NoMemory>
    ensures { OnOk result (key.new ≡ design_unit_key library.now unit.now unit.now.kind) }
{
    match unit.kind {
        UnitKind::Architecture => {
            let entity = owner_name(&unit.owner);
            put_key(
                alloc,
                key,
                false,
                false,
                library.bytes(),
                entity,
                unit.name.bytes(),
            )
        }
        UnitKind::PackageBody => put_body_key(alloc, key, library, &unit.name),
        _ => put_primary_key(alloc, key, library, &unit.name),
    }
}

/// The name of a unit of a library.
pub fn design_unit_key(
    alloc: Global,
    library: &Text,
    unit: &Unit,
) -> Result<DesignUnitKey, NoMemory>
    ensures { IfOk result (λ key. key ≡ design_unit_key library.now unit.now unit.now.kind) }
{
    let mut key = no_key(alloc);
    put_design_unit_key(alloc, &mut key, library, unit)?;
    Ok(key)
}
