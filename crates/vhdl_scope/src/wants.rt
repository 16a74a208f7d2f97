//! What one design unit is to others, and what it wants of them.

ghost use Rattle.std.specs.Prelude.{◌≡◌, [], IfOk};
ghost use Rattle.std.specs.Str.{bytes_eq};
ghost use Rattle.vhdl_spec.specs.References.{work, is_context_kind};
ghost use Rattle.vhdl_spec.specs.Visibility.{is_architecture_kind, is_secondary};
ghost use Rattle.vhdl_outline.specs.UnresolvedRefs.{NamedLiesIn, named_ref};
ghost use Rattle.vhdl_scope.specs.Wants.{architecture_want, architectures_of, context_want, needed_library, group_of, primary_want};

use crate::want::{Group, Want};
use base::{NoMemory, Text, UnitKind};
use std::alloc::Global;
use vhdl_outline::NamedRef;
use vhdl_units::name_of_token;

/// The library of the unit itself.
pub static WORK: [u8; 4] = *b"work";

/// Whether a name is `work`.
fn is_work(name: &[u8]) -> bool
    ensures { result ≡ bytes_eq name.now work }
{
    name == WORK.as_slice()
}

/// Whether a unit belongs to a primary unit.
pub fn is_secondary(kind: UnitKind) -> bool
    ensures { result ≡ is_secondary kind }
{
    match kind {
        UnitKind::Architecture | UnitKind::PackageBody => true,
        _ => false,
    }
}

/// Whether a unit is a context declaration.
pub fn is_context_kind(kind: UnitKind) -> bool
    ensures { result ≡ is_context_kind kind }
{
    match kind {
        UnitKind::Context => true,
        _ => false,
    }
}

/// Whether a unit is an architecture.
pub fn is_architecture_kind(kind: UnitKind) -> bool
    ensures { result ≡ is_architecture_kind kind }
{
    match kind {
        UnitKind::Architecture => true,
        _ => false,
    }
}

/// The group of a name in a library.
pub fn group_of(
    alloc: Global,
    context: bool,
    library: &Text,
    name: &Text,
) -> Result<Group, NoMemory>
    ensures { IfOk result (λ group. group ≡ group_of context library.now name.now) }
{
    Ok(Group {
        context,
        architecture: false,
        library: library.copy(alloc)?,
        owner: Text::new(alloc),
        name: name.copy(alloc)?,
    })
}

/// The group of the architectures of a name of an entity in a library.
pub fn architectures_of(
    alloc: Global,
    library: &Text,
    entity: &[u8],
    name: &Text,
) -> Result<Group, NoMemory>
    ensures { IfOk result (λ group.
        group ≡ architectures_of library.now entity.now name.now) }
{
    Ok(Group {
        context: false,
        architecture: true,
        library: library.copy(alloc)?,
        owner: Text::from_slice(alloc, entity)?,
        name: name.copy(alloc)?,
    })
}

/// Nothing that is there.
pub fn no_want(alloc: Global) -> Want {
    Want {
        own: false,
        group: Group {
            context: false,
            architecture: false,
            library: Text::new(alloc),
            owner: Text::new(alloc),
            name: Text::new(alloc),
        },
    }
}

/// The empty text, in the memory of `used`.
fn clear_text(used: Text) -> Text
    ensures { result ≡ [] }
{
    let mut bytes = used.into_vec();
    bytes.clear();
    Text::from_vec(bytes)
}

/// A copy of a text. It reuses the memory of `used` where that has room.
fn copy_in(text: &Text, used: Text) -> Result<Text, NoMemory>
    ensures { IfOk result (λ copy. copy ≡ text.now) }
{
    let mut bytes = used.into_vec();
    bytes.clear();
    bytes.extend_from_slice(text.bytes())?;
    Ok(Text::from_vec(bytes))
}

/// What a unit of a library wants of primary units of a name. It reuses the memory of `used`.
pub fn primary_want(library: &Text, name: &Text, used: Want) -> Result<Want, NoMemory>
    ensures { IfOk result (λ want. want ≡ primary_want library.now name.now) }
{
    let Want { own: _, group } = used;
    let Group {
        context: _,
        architecture: _,
        library: first,
        owner: third,
        name: second,
    } = group;
    Ok(Want {
        own: true,
        group: Group {
            context: false,
            architecture: false,
            library: copy_in(library, first)?,
            owner: clear_text(third),
            name: copy_in(name, second)?,
        },
    })
}

/// What a configuration of an entity of a library wants: the architectures of a name. It reuses the memory of `used`.
pub fn architecture_want(
    library: &Text,
    entity: &Text,
    name: &Text,
    used: Want,
) -> Result<Want, NoMemory>
    ensures { IfOk result (λ want.
        want ≡ architecture_want library.now entity.now name.now) }
{
    let Want { own: _, group } = used;
    let Group {
        context: _,
        architecture: _,
        library: first,
        owner: third,
        name: second,
    } = group;
    Ok(Want {
        own: true,
        group: Group {
            context: false,
            architecture: true,
            library: copy_in(library, first)?,
            owner: copy_in(entity, third)?,
            name: copy_in(name, second)?,
        },
    })
}

/// What a reference wants of context declarations. It reuses the memory of `used`.
pub fn context_want(
    library: &Text,
    text: &[u8],
    reference: &NamedRef,
    used: Want,
) -> Result<Want, NoMemory>
    requires { NamedLiesIn text.now reference.now }
    ensures { IfOk result (λ want.
        want ≡ context_want library.now (named_ref text.now reference.now)) }
{
    let Want { own: _, group } = used;
    let Group {
        context: _,
        architecture: _,
        library: first,
        owner: third,
        name: second,
    } = group;
    let named = name_of_token(text, reference.library, first)?;
    let name = name_of_token(text, reference.name, second)?;
    let own = is_work(named.bytes());
    let library = if own { copy_in(library, named)? } else { named };
    Ok(Want {
        own,
        group: Group {
            context: true,
            architecture: false,
            library,
            owner: clear_text(third),
            name,
        },
    })
}

/// The name of the library that a unit has to see.
pub fn needed_library(want: &Want) -> &[u8]
    ensures { result.now ≡ needed_library want.now }
{
    if want.own {
        WORK.as_slice()
    } else {
        want.group.library.bytes()
    }
}
