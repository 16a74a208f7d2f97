//! Tables of small files, their units written out by hand from the grammar, and large hostile ones.

use crate::tests::tables::{expand_lines, halves, repeat_parts};
use base::{MaybeText, OrMemory, Role, RoleList, UnitFault, UnitKind, UnitList};
use std::alloc::Global;
use std::process::Abort;
use std::test::Fail;
use vhdl_lex::{no_tokens, scan_with_roles};
use vhdl_units::{is_named, name_of, outline};

fn word(kind: UnitKind) -> &'static [u8] {
    match kind {
        UnitKind::Entity => b"entity ",
        UnitKind::Architecture => b"architecture ",
        UnitKind::Configuration => b"configuration ",
        UnitKind::Package => b"package ",
        UnitKind::PackageBody => b"body ",
        UnitKind::PackageInstance => b"instance ",
        UnitKind::Context => b"context ",
    }
}

/// Each unit as its kind, its name, its owner and its three indices.
fn text_of_units(alloc: Global, units: &UnitList) -> Result<Vec<u8>, Fail> {
    let mut out = Vec::new(alloc);
    for unit in units.as_slice() {
        out.extend_from_slice(word(unit.kind))?;
        out.extend_from_slice(unit.name.bytes())?;
        if let MaybeText::Given(owner) = &unit.owner {
            out.push(b'/')?;
            out.extend_from_slice(owner.bytes())?;
        }
        let lead = unit.lead;
        let first = unit.first;
        let last = unit.last;
        let indices = format!(in alloc; " {lead} {first} {last}|")?;
        out.extend_from_slice(indices.as_bytes())?;
    }
    Ok(out)
}

fn outline_of(alloc: Global, text: &[u8]) -> Result<Result<UnitList, OrMemory<UnitFault>>, Fail> {
    if text.len() > 4_194_304 {
        return Err(Fail::from("a text within the limit"));
    }
    let mut roles = RoleList::new(alloc);
    let tokens = scan_with_roles(alloc, text, &mut roles, no_tokens(alloc))?;
    Ok(outline(alloc, text, &tokens, &roles))
}

fn fault_written(alloc: Global, fault: UnitFault) -> Result<Vec<u8>, Fail> {
    match fault {
        UnitFault::NotUnit { at } => Ok(format!(in alloc; "no unit@{at}")?.into_bytes()),
        UnitFault::NotEnded { at } => Ok(format!(in alloc; "not ended@{at}")?.into_bytes()),
    }
}

fn text_of_outline(alloc: Global, text: &[u8]) -> Result<Vec<u8>, Fail> {
    match outline_of(alloc, text)? {
        Ok(units) => text_of_units(alloc, &units),
        Err(OrMemory::Fault(fault)) => fault_written(alloc, fault),
        Err(OrMemory::NoMemory) => Err(Fail::from("out of memory")),
    }
}

/// The number of units alone.
fn count_units(alloc: Global, text: &[u8]) -> Result<Vec<u8>, Fail> {
    match outline_of(alloc, text)? {
        Ok(units) => {
            let count = units.len();
            Ok(format!(in alloc; "{count} units")?.into_bytes())
        }
        Err(OrMemory::Fault(fault)) => fault_written(alloc, fault),
        Err(OrMemory::NoMemory) => Err(Fail::from("out of memory")),
    }
}

/// Whether the text of a row has the outline or the fault that the row wants.
fn is_right(alloc: Global, row: &[u8]) -> Result<bool, Fail> {
    let (text, wanted) = halves(row);
    let text = expand_lines(alloc, text)?;
    Ok(text_of_outline(alloc, &text)?.as_slice() == wanted)
}

fn check(rt: &impl Abort, alloc: Global, table: &[u8]) -> Result<(), Fail> {
    for row in table.split(|b| *b == b'\n') {
        if !row.is_empty() {
            assert!(rt; is_right(alloc, row)?, "{row:?}");
        }
    }
    Ok(())
}

static FILES: &[u8] = b"
^
entity e is end;~architecture rtl of e is~  package n is new work.g generic map (w => 8);~  package m is~    constant c : integer := 1;~  end;~begin~  g1: if true generate~    signal s : bit;~  begin~    s <= '1';~  end;~  else generate~  end generate;~end;~package z is end;~^entity e 0 0 4|architecture rtl/e 5 5 64|package z 65 65 69|
entity e is end;^entity e 0 0 4|
ENTITY E IS END;^entity e 0 0 4|
library ieee; use ieee.a.all; entity e is end entity e;^entity e 0 10 16|
context c is library l; end context c;^context c 0 0 9|
context a.b; entity e is end;^entity e 0 5 9|
context a.b, c.d;^
package body P is end;^body p 0 0 5|
package p is new q;^instance p 0 0 5|
configuration c of e is for a end for; end;^configuration c/e 0 0 11|
configuration c of l.e is end;^configuration c/e 0 0 8|
architecture \\A\\ of \\B\\ is begin end;^architecture \\A\\/\\B\\ 0 0 7|
entity e is end; library l;^entity e 0 0 4|
library a; entity e is end; use b; package p is end;^entity e 0 3 7|package p 8 11 15|
";

#[test]
fn files(rt: HostRuntime) -> Result<(), Fail> {
    check(&rt, rt.alloc(), FILES)
}

static FAULTS: &[u8] = b"
foo^no unit@0
entity e is^not ended@0
entity e;^no unit@0
 entity e is end; foo^no unit@18
entity end is end;^no unit@0
; entity^no unit@0
library^not ended@0
library l^not ended@0
use^not ended@0
context^not ended@0
context a^not ended@0
context a is^not ended@0
context a is end^not ended@0
entity^no unit@0
entity e^no unit@0
entity e is end^not ended@0
package^no unit@0
package p^no unit@0
package p is^not ended@0
package p is new^not ended@0
package body^no unit@0
package body p^no unit@0
package body p is^not ended@0
package body p is end^not ended@0
architecture a of^no unit@0
architecture a of b^no unit@0
architecture a of b.^no unit@0
architecture a of b.is is^no unit@0
architecture a of b is^not ended@0
entity e is end; package p is^not ended@17
entity e is ) function f is end; end;^no unit@33
package p is procedure^not ended@0
package p is function f return b is begin^not ended@0
architecture a of e is begin g: if c generate end;^not ended@0
";

#[test]
fn faults(rt: HostRuntime) -> Result<(), Fail> {
    check(&rt, rt.alloc(), FAULTS)
}

static ITEMS: &[u8] = b"
package p is function f return b; end;^package p 0 0 9|
package body p is function f return b is begin return c; end; end;^body p 0 0 16|
package p is function f is new g; end;^package p 0 0 10|
package p is procedure q(a : b; c : d); end;^package p 0 0 16|
package body p is procedure q(a : b; c : d) is begin end; end;^body p 0 0 20|
package body p is impure function f return b is begin end; end;^body p 0 0 14|
package body p is function f return b is begin end function f; end package body p;^body p 0 0 18|
package p is generic (function f return b is g); end;^package p 0 0 14|
package p is attribute x of f : function is y; end;^package p 0 0 13|
package p is attribute x of q : package is y; end;^package p 0 0 13|
package p is package q is end; end;^package p 0 0 9|
package p is package q is new r; end;^package p 0 0 10|
package p is type t is protected procedure q; end protected; end;^package p 0 0 14|
package p is type t is record a : b; end record; end;^package p 0 0 15|
package p is type t is range 0 to 1 units a; end units; end;^package p 0 0 17|
entity e is ) end;^entity e 0 0 5|
package body p is type t is protected body procedure q is begin end; function f return b is begin end function f; end protected body; end;^body p 0 0 30|
package body p is package q is end; package body q is procedure r is begin end; end package body q; end;^body p 0 0 25|
package p is group g is (function <>); group h : g (f); end;^package p 0 0 21|
";

#[test]
fn items(rt: HostRuntime) -> Result<(), Fail> {
    check(&rt, rt.alloc(), ITEMS)
}

static STATEMENTS: &[u8] = b"
architecture a of e is component c end component; begin p: process begin if x then end if; case y is end case; for i in z loop end loop; end process; b: block begin end block; end;^architecture a/e 0 0 46|
architecture a of e is begin postponed process begin end postponed process; end;^architecture a/e 0 0 14|
architecture a of e is begin g: for i in r generate h: if c generate end generate; end generate; end;^architecture a/e 0 0 25|
architecture a of e is begin g: if c generate elsif d generate else generate end generate; end;^architecture a/e 0 0 20|
architecture a of e is begin g: case c generate when d => end; when f => end generate; end;^architecture a/e 0 0 25|
architecture a of e is begin end generate; end;^architecture a/e 0 0 10|
architecture a of e is begin g: case c generate when x: d => begin end x; when y: f => end y; end generate g; end;^architecture a/e 0 0 35|
architecture a of e is begin g: if x: c generate begin end x; elsif y: d generate end y; else z: generate end z; end generate; end;^architecture a/e 0 0 36|
architecture a of e is begin g: for i in r generate function f return b is begin end; begin end generate; end;^architecture a/e 0 0 26|
architecture a of e is for all: c use entity work.d(r); end for; for u: c use open; begin end;^architecture a/e 0 0 30|
";

#[test]
fn statements(rt: HostRuntime) -> Result<(), Fail> {
    check(&rt, rt.alloc(), STATEMENTS)
}

static LEVELS: &[u8] = b"
entity e is)function end;entity e is)function end;^entity e 0 0 6|entity e 7 7 13|
entity e is function( end; entity f is ) ; end;^entity e 0 0 6|entity f 7 7 13|
entity e is function( end; entity f is ) is end;^entity e 0 0 13|
";

#[test]
fn levels(rt: HostRuntime) -> Result<(), Fail> {
    check(&rt, rt.alloc(), LEVELS)
}

/// Large files: parts, each after the number of times that it is repeated and a star, and what is found. Each has at most
/// 4,194,304 bytes.
static LARGE: &[u8] = b"
4194304*\"^no unit@0
4194304*;^no unit@0
1048576*use;^0 units
167772*entity e is)function end;^167772 units
161319*entity e is function( end;^161319 units
1*package p is ~400000*function ^not ended@0
1*entity e is end; architecture a of e is begin ~100000*g: if true generate ~100000*end generate; ~1*end;^2 units
";

/// Whether the text that the parts of a row give has the wanted number of units, or the wanted fault.
fn counts(alloc: Global, row: &[u8]) -> Result<bool, Fail> {
    let (parts, wanted) = halves(row);
    let text = repeat_parts(alloc, parts)?;
    Ok(count_units(alloc, &text)?.as_slice() == wanted)
}

#[test]
fn large(rt: HostRuntime) -> Result<(), Fail> {
    for row in LARGE.split(|b| *b == b'\n') {
        if !row.is_empty() {
            assert!(rt; counts(rt.alloc(), row)?, "{row:?}");
        }
    }
    Ok(())
}

static READ: &[u8] = b"use L.all, \\L\\; generic (Run) component ; loop";

static READ_ROLES: &[Role] = &[
    Role::Use,
    Role::Name,
    Role::Dot,
    Role::All,
    Role::Comma,
    Role::Name,
    Role::Semicolon,
    Role::Generic,
    Role::Opening,
    Role::Name,
    Role::Closing,
    Role::Component,
    Role::Semicolon,
    Role::Inner,
];

/// Token numbers with a name, after `=` where it is theirs.
static NAMED: &str = "1=l\n1 L\n5=\\L\\\n5 \\l\\\n9=run\n9 runs\nd=loop\n";

fn roles_read(alloc: Global, text: &[u8]) -> Result<RoleList, Fail> {
    if text.len() > 4_194_304 {
        return Err(Fail::from("a text within the limit"));
    }
    let mut roles = RoleList::new(alloc);
    scan_with_roles(alloc, text, &mut roles, no_tokens(alloc))?;
    Ok(roles)
}

/// Whether a copy of a token's name is this one, and whether the token has it.
fn name_read(alloc: Global, text: &[u8], at: usize, name: &[u8]) -> Result<(bool, bool), Fail> {
    if text.len() > 4_194_304 {
        return Err(Fail::from("a text within the limit"));
    }
    let tokens = scan_with_roles(alloc, text, &mut RoleList::new(alloc), no_tokens(alloc))?;
    if at >= tokens.list.as_slice().len() {
        return Err(Fail::from("a token"));
    }
    let copy = name_of(alloc, text, &tokens, at)?;
    Ok((copy.bytes() == name, is_named(text, &tokens, at, name)))
}

/// Whether the token of a line has the name there or not as it says.
fn reads(alloc: Global, line: &[u8]) -> Result<bool, Fail> {
    if line.len() < 2 {
        return Ok(false);
    }
    let at = if line[0] == b'd' {
        13
    } else {
        line[0].saturating_sub(b'0') as usize
    };
    let wanted = line[1] == b'=';
    Ok(name_read(alloc, READ, at, &line[2..])? == (wanted, wanted))
}

#[test]
fn view(rt: HostRuntime) -> Result<(), Fail> {
    let roles = roles_read(rt.alloc(), READ)?;
    assert!(rt; roles.as_slice() == READ_ROLES);
    for line in NAMED.lines() {
        assert!(rt; reads(rt.alloc(), line.as_bytes())?, "{line}");
    }
    Ok(())
}
