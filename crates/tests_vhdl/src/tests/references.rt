//! Tables of small files with the references of their units, written out by hand, and large hostile files.

ghost use Rattle.std.specs.Prelude.{◌≡◌, ◌<◌, ◌≤◌, IfOk, length};
ghost use Rattle.vhdl_spec.specs.Units.{roles_of};
ghost use Rattle.vhdl_spec.specs.Scans.{IsScanOf};

use crate::tests::tables::{expand_lines, halves, repeat_parts};
use base::{Items, MaybeText, RefList, RoleList, Scan, TEXT_LIMIT, Token, TokenList};
use std::alloc::Global;
use std::process::Abort;
use std::test::Fail;
use vhdl_lex::{no_tokens, scan_with_roles};
use vhdl_outline::{NamedRef, find_refs, library_names, unresolved_refs};
use vhdl_units::outline;

/// What a table lists for each unit.
#[derive(Clone, Copy, Drop)]
enum Asked {
    Refs,
    ContextRefs,
    Libraries,
    UsesOfAll,
    Components,
    Count,
}

fn scan_of(alloc: Global, text: &[u8], roles: &mut RoleList) -> Result<Scan, Fail>
    requires { length text.now ≤ TEXT_LIMIT }
    ensures scan { IfOk result (IsScanOf text.now) }
    ensures roles { IfOk result (λ scan. roles.new ≡ roles_of text.now scan.tokens.list) }
{
    let tokens = scan_with_roles(alloc, text, roles, no_tokens(alloc))?;
    let units = outline(alloc, text, &tokens, roles)?;
    Ok(Scan { tokens, units })
}

/// Adds a `!` where a reference is strict, and its token number.
fn push_index(alloc: Global, is_strict: bool, at: u32, out: &mut Vec<u8>) -> Result<(), Fail> {
    if is_strict {
        out.push(b'!')?;
    }
    let index = format!(in alloc; "@{at}")?;
    out.extend_from_slice(index.as_bytes())?;
    Ok(())
}

/// Each reference as `L.U`, with its architecture, a `!` where it is strict, and its token number.
fn push_refs(alloc: Global, refs: &RefList, out: &mut Vec<u8>) -> Result<(), Fail> {
    for found in refs.as_slice() {
        if !out.is_empty() {
            out.push(b' ')?;
        }
        out.extend_from_slice(found.library.bytes())?;
        out.push(b'.')?;
        out.extend_from_slice(found.name.bytes())?;
        if let MaybeText::Given(architecture) = &found.architecture {
            out.push(b'(')?;
            out.extend_from_slice(architecture.bytes())?;
            out.push(b')')?;
        }
        push_index(alloc, found.strict, found.at, out)?;
    }
    Ok(())
}

/// Adds the source text of a token.
fn push_token(text: &[u8], token: &Token, out: &mut Vec<u8>) -> Result<(), Fail> {
    let name = text.get(token.start as usize..token.end as usize);
    out.extend_from_slice(name.unwrap_or(b"?"))?;
    Ok(())
}

/// Adds the source text of names, with a comma after each.
fn push_tokens(text: &[u8], tokens: &TokenList, out: &mut Vec<u8>) -> Result<(), Fail> {
    for token in tokens.as_slice() {
        push_token(text, token, out)?;
        out.push(b',')?;
    }
    Ok(())
}

/// Each reference as `L.U` in its source text, with a `!` if it is strict, and its token number.
fn push_named(
    alloc: Global,
    text: &[u8],
    refs: &Items<NamedRef>,
    out: &mut Vec<u8>,
) -> Result<(), Fail> {
    for found in refs.as_slice() {
        if !out.is_empty() {
            out.push(b' ')?;
        }
        push_token(text, &found.library, out)?;
        out.push(b'.')?;
        push_token(text, &found.name, out)?;
        push_index(alloc, found.strict, found.at, out)?;
    }
    Ok(())
}

fn push_asked(
    alloc: Global,
    text: &[u8],
    scan: &Scan,
    roles: &RoleList,
    unit: u32,
    asked: Asked,
    out: &mut Vec<u8>,
) -> Result<(), Fail>
    requires scan { IsScanOf text.now scan.now }
    requires small { length text.now ≤ TEXT_LIMIT }
    requires roles { roles.now ≡ roles_of text.now scan.now.tokens.list }
    requires unit { unit < length scan.now.units }
{
    let mut room = Vec::new(alloc);
    let unresolved = unresolved_refs(alloc, text, scan, roles, unit, &mut room)?;
    match asked {
        Asked::Refs => push_refs(alloc, &find_refs(alloc, text, scan, roles, unit)?, out)?,
        Asked::ContextRefs => push_named(alloc, text, &unresolved.contexts, out)?,
        Asked::Libraries => {
            for name in library_names(alloc, text, scan, roles, unit)?.as_slice() {
                out.extend_from_slice(name.bytes())?;
                out.push(b',')?;
            }
        }
        Asked::UsesOfAll => push_tokens(text, &unresolved.whole, out)?,
        Asked::Components => push_tokens(text, &unresolved.components, out)?,
        Asked::Count => {
            let count = find_refs(alloc, text, scan, roles, unit)?.len();
            let names = library_names(alloc, text, scan, roles, unit)?.len();
            let uses = unresolved.whole.len();
            let components = unresolved.components.len();
            let shown = format!(in alloc; "{count} {names} {uses} {components}")?;
            out.extend_from_slice(shown.as_bytes())?;
        }
    }
    Ok(())
}

/// The answer for each unit of a text, with a bar after each.
fn text_of_refs(alloc: Global, text: &[u8], asked: Asked) -> Result<Vec<u8>, Fail> {
    if text.len() > 4_194_304 {
        return Err(Fail::from("a text within the limit"));
    }
    let mut roles = RoleList::new(alloc);
    let scan = scan_of(alloc, text, &mut roles)?;
    if scan.units.len() > 4_194_304 {
        return Err(Fail::from("no more units than bytes"));
    }
    let mut out = Vec::new(alloc);
    for unit in 0..scan.units.len() {
        let mut part = Vec::new(alloc);
        push_asked(alloc, text, &scan, &roles, unit as u32, asked, &mut part)?;
        out.extend_from_slice(&part)?;
        out.push(b'|')?;
    }
    Ok(out)
}

/// Whether the text of a row has the answer that the row wants.
fn is_right(alloc: Global, asked: Asked, row: &[u8]) -> Result<bool, Fail> {
    let (text, wanted) = halves(row);
    let text = expand_lines(alloc, text)?;
    Ok(text_of_refs(alloc, &text, asked)?.as_slice() == wanted)
}

fn check(rt: &impl Abort, alloc: Global, asked: Asked, table: &[u8]) -> Result<(), Fail> {
    for row in table.split(|b| *b == b'\n') {
        if !row.is_empty() {
            assert!(rt; is_right(alloc, asked, row)?, "{row:?}");
        }
    }
    Ok(())
}

static REFS: &[u8] = b"
use l.p.all; package q is end;^l.p!@1|
use work.p.all; package q is end;^work.p!@1|
use l.p; package q is end;^l.p!@1|
use l.p.c; package q is end;^l.p!@1|
use l.p.all, m.q.all; package r is end;^l.p!@1 m.q!@7|
use l.p, m.q, n.r; package s is end;^l.p!@1 m.q!@5 n.r!@9|
use l.all; package q is end;^|
use l.all, m.p.all; package q is end;^m.p!@5|
USE Lib.Pack.ALL; PACKAGE q IS END;^lib.pack!@1|
use a.b.c.d.e; package q is end;^a.b!@1|
library l; use l.p.all; entity e is end;^l.p!@4|
library l, m; entity e is end;^|
library l.m; entity e is end;^l.m@1|
context l.c; entity e is end;^l.c!@1|
context l.c, m.d; entity e is end;^l.c!@1 m.d!@5|
context c is library l; use l.p.all; end context c;^l.p!@7|
context c is context work.d; end;^work.d!@4|
context c is use l.p, m.q; context work.d, n.f; end;^l.p!@4 m.q!@8 work.d!@13 n.f!@17|
architecture a of e is begin end;^work.e!@0|
architecture a of l.e is begin end;^work.e!@0 l.e@3|
package body p is end;^work.p!@0|
package body P is end package body P;^work.p!@0|
package p is new l.g;^l.g!@4|
package p is new work.g generic map (t => l.q.t);^work.g!@4 l.q@13|
configuration c of e is for a end for; end;^work.e(a)!@0|
configuration c of e is for A end for; end;^work.e(a)!@0|
configuration c of e is end;^work.e!@0|
configuration c of l.e is for a end for; end;^work.e(a)!@0 l.e@3|
configuration c of e is for a for u : d use entity work.f(b); end for; end for; end;^work.e(a)!@0 work.f(b)!@13|
configuration c of e is for a for all : d use entity work.f; end for; end for; end;^work.e(a)!@0 work.f!@13|
configuration c of e is for a for u : d use configuration l.k; end for; end for; end;^work.e(a)!@0 l.k!@13|
configuration c of e is for a for u : s use entity work.s; for r end for; end for; end for; end;^work.e(a)!@0 work.s(r)!@13|
configuration c of e is for a for all : s use entity work.s; for r end for; end for; end for; end;^work.e(a)!@0 work.s(r)!@13|
configuration c of e is for a for u : s use entity work.s; for r for v : t use entity l.t; for q end for; end for; end for; end for; end for; end;^work.e(a)!@0 work.s(r)!@13 l.t(q)!@25|
configuration c of e is for a for u : s use entity work.s; for r for g(0) end for; end for; end for; end for; end;^work.e(a)!@0 work.s(r)!@13|
CONFIGURATION C OF E IS FOR A FOR U : S USE ENTITY WORK.S; FOR R END FOR; END FOR; END FOR; END;^work.e(a)!@0 work.s(r)!@13|
configuration c of e is for a for u : s use entity work.s; for \\R\\ end for; end for; end for; end;^work.e(a)!@0 work.s(\\R\\)!@13|
configuration c of e is for a for u : s use entity work.s; for v : t use entity work.t; end for; end for; end for; end;^work.e(a)!@0 work.s!@13 work.t!@23|
configuration c of e is for a for u : s use entity work.s; for v, w : t use entity work.t; end for; end for; end for; end;^work.e(a)!@0 work.s!@13 work.t!@25|
configuration c of e is for a for u : s use entity work.s; for all : t use open; end for; end for; end for; end;^work.e(a)!@0 work.s!@13|
configuration c of e is for a for u : s use entity work.s; end for; for r end for; end for; end;^work.e(a)!@0 work.s!@13|
configuration c of e is for a for u : s use entity work.s(b); for r end for; end for; end for; end;^work.e(a)!@0 work.s(b)!@13|
configuration c of e is for a for u : s use entity work.s port map (p); for r end for; end for; end for; end;^work.e(a)!@0 work.s!@13|
configuration c of e is for a for u : s use entity s; for r end for; end for; end for; end;^work.e(a)!@0|
configuration c of e is for a for u : s use configuration l.k; for r end for; end for; end for; end;^work.e(a)!@0 l.k!@13|
configuration c of e is for a for u : s entity work.s; for r end for; end for; end for; end;^work.e(a)!@0 work.s!@12|
architecture a of e is for u : s use entity work.s; for r end for; begin end;^work.e!@0 work.s!@11|
use entity l.u; configuration c of e is for a end for; end;^work.e(a)!@6 l.u!@2|
configuration c of e is use l.p.all; for a end for; end;^work.e(a)!@0 l.p!@6|
configuration c of e is for \\A\\ end for; end;^work.e(\\A\\)!@0|
configuration c of e is for a use l.p.all; for u : d use entity work.f generic map (n, m.x); end for; end for; end;^work.e(a)!@0 l.p!@8 work.f!@20 m.x!@28|
architecture a of e is begin u : entity work.f; end;^work.e!@0 work.f!@9|
architecture a of e is begin u : entity work.f(b); end;^work.e!@0 work.f(b)!@9|
architecture a of e is begin u : entity l.f ( \\B\\ ) port map (x); end;^work.e!@0 l.f(\\B\\)!@9|
architecture a of e is begin u : entity work.f port map (x => l.p.c); end;^work.e!@0 work.f!@9 l.p@18|
architecture a of e is begin u : entity work.f(b, c); end;^work.e!@0 work.f!@9|
architecture a of e is begin u : entity work.f.g(b); end;^work.e!@0 work.f!@9|
architecture a of e is begin u : configuration work.k; end;^work.e!@0 work.k!@9|
architecture a of e is begin u : configuration work.k(b); end;^work.e!@0 work.k!@9|
architecture a of e is begin u : component work.k; end;^work.e!@0 work.k@9|
architecture a of e is begin u : ENTITY WORK.F(B); end;^work.e!@0 work.f(b)!@9|
architecture a of e is begin u : entity -- the part~ work -- of~ . /* here */ f (b); end;^work.e!@0 work.f(b)!@9|
package p is procedure q is new work.g.r; end;^work.g!@7|
package p is function f is new l.g generic map (t => b); end;^l.g!@7|
package p is package q is new work.g; end;^work.g!@7|
architecture a of e is begin x <= l.p.c; end;^work.e!@0 l.p@9|
architecture a of e is begin x <= a.b.c + d.e.f; end;^work.e!@0 a.b@9 d.e@15|
architecture a of e is begin x <= rec.field; end;^work.e!@0 rec.field@9|
architecture a of e is begin x <= f(a.b, c.d); end;^work.e!@0 a.b@11 c.d@15|
architecture a of e is begin x <= a.all; y <= p.all.f; end;^work.e!@0|
architecture a of e is begin x <= a(1).f; end;^work.e!@0|
architecture a of e is begin x <= a.b(1).c.d; end;^work.e!@0 a.b@9|
architecture a of e is begin x <= a'length + b.c'high; end;^work.e!@0 b.c@13|
architecture a of e is begin x <= t'(a.b); end;^work.e!@0 a.b@12|
architecture a of e is begin x <= l.\"+\"(a, b.c); end;^work.e!@0 b.c@15|
architecture a of e is begin x <= l.p.\"+\"(a, b); end;^work.e!@0 l.p@9|
architecture a of e is begin x <= \\L\\.p; end;^work.e!@0 \\L\\.p@9|
architecture a of e is begin x <= \\l.p\\; end;^work.e!@0|
architecture a of e is begin x <= \\a\\.\\B\\.c; end;^work.e!@0 \\a\\.\\B\\@9|
architecture a of e is begin x <= 1.5 + 2.0e3; end;^work.e!@0|
architecture a of e is begin x <= L . P . C; end;^work.e!@0 l.p@9|
architecture a of e is begin x <= a.b -- c.d~; end;^work.e!@0 a.b@9|
architecture a of e is begin x <= \"a.b\" & 'c' & d.e; end;^work.e!@0 d.e@13|
architecture a of e is begin x <= <<signal .a.b : bit>>; end;^work.e!@0|
architecture a of e is begin x <= <<signal a.b.c : bit>>; end;^work.e!@0 a.b@12|
package p is use l.q.all; constant c : t := m.r.d; end p;^l.q!@4 m.r@16|
package p is use l.q, m.r; constant c : t := f(n.s, o.u); end;^l.q!@4 m.r!@8 n.s@20 o.u@24|
package p is signal s : l.t.u; attribute a of s : signal is m.b; end;^l.t@6 m.b@19|
architecture a of e is begin end architecture a;^work.e!@0|
architecture a of e is begin end l.p;^work.e!@0 l.p@7|
entity e is end entity e.f;^e.f!@5|
use l.p.all; entity e is end; architecture a of e is begin x <= m.q; end;^l.p!@1|work.e!@12 m.q@21|
package p is end; use l.q; package body p is end;^|work.p!@10 l.q!@6|
library l; entity e is end; use l.p.all; context l.c;^|
entity e is end; package body q is end; package r is new l.g;^|work.q!@5|l.g!@15|
context ctx is library other; use other.q.all; end context ctx;^other.q!@7|
context work.ctx; package w is constant k : integer := other.q.c; end;^work.ctx!@1 other.q@14|
library other; entity e is end;^|
architecture rtl of e is constant k : integer := other.q.c; begin end;^work.e!@0 other.q@11|
architecture rtl of e is begin u : entity work.missing; end;^work.e!@0 work.missing!@9|
";

#[test]
fn references(rt: HostRuntime) -> Result<(), Fail> {
    check(&rt, rt.alloc(), Asked::Refs, REFS)
}

/// Of each text the references to context declarations.
static CONTEXT_REFS: &[u8] = b"
context l.c; entity e is end;^l.c!@1|
context l.c, m.d; use n.p; entity e is end;^l.c!@1 m.d!@5|
use l.c, m.d; entity e is end;^|
context c is use l.p, m.q; context work.d, n.f; end;^work.d!@13 n.f!@17|
context c is context work.d; end;^work.d!@4|
context c is library x, l.p; end;^|
context work.ctx; package w is end;^work.ctx!@1|
context work.d; context c is library l; end;^work.d!@1|
architecture a of e is begin x <= a.b; end; context l.c; package p is end;^|l.c!@16|
";

#[test]
fn contexts(rt: HostRuntime) -> Result<(), Fail> {
    check(&rt, rt.alloc(), Asked::ContextRefs, CONTEXT_REFS)
}

/// Of each text the names of the library clauses, each with a comma.
static LIBRARIES: &[u8] = b"
library l; entity e is end;^l,|
library L, \\M\\, n; entity e is end;^l,\\M\\,n,|
library l; library m; entity e is end;^l,m,|
entity e is end;^|
library a; entity e is end; library b; package p is end; library c;^a,|b,|
use library l; entity e is end;^|
library use l, m; entity e is end;^l,m,|
entity e is library l; end;^|
library a; context c is library b, d; use library f; end;^a,b,d,f,|
context c is end context c;^|
context ctx is library other; use other.q.all; end context ctx;^other,|
context work.ctx; package w is end;^|
library other; entity e is end;^other,|
";

#[test]
fn libraries(rt: HostRuntime) -> Result<(), Fail> {
    check(&rt, rt.alloc(), Asked::Libraries, LIBRARIES)
}

/// Of each text the libraries of which all is used, each with a comma.
static USES: &[u8] = b"
use l.all; entity e is end;^l,|
use l.all, m.all; entity e is end;^l,m,|
use l.p.all, m.all; entity e is end;^m,|
use l.all, m.p.all, n.all; entity e is end;^l,n,|
context l.c, m.all; entity e is end;^|
context c is use l.all, m.all; context work.d, n.all; end;^l,m,|
package p is use l.a, m.all; end;^m,|
use l.p; package q is constant c : t := f(a, b.all); end;^|
entity e is end; architecture a of e is begin x <= f(p.all, q.all); end;^||
configuration c of e is for a for u : s use entity work.s generic map (a, l.all); end for; end for; end;^l,|
use l.p.all; entity e is end;^|
entity e is end; architecture a of e is use work.all; begin x <= p.all; end;^|work,|
";

#[test]
fn uses(rt: HostRuntime) -> Result<(), Fail> {
    check(&rt, rt.alloc(), Asked::UsesOfAll, USES)
}

/// Of each text the names after `component`.
static COMPONENTS: &[u8] = b"
architecture a of e is component leaf is end component; begin end;^leaf,|
architecture a of e is component Leaf is end component Leaf; begin end;^Leaf,|
architecture a of e is COMPONENT leaf end component leaf; begin end;^leaf,|
architecture a of e is component leaf port (x : bit); end component leaf; begin u : leaf port map (x); end;^leaf,|
architecture a of e is begin u : component leaf port map (x); end;^leaf,|
architecture a of e is begin u : leaf port map (x); v : entity work.leaf; end;^|
architecture a of e is begin u : component work.p.leaf; end;^work,|
architecture a of e is begin u : component~-- leaf~x; end;^x,|
package p is component a is end component; component \\B\\ is end component; component a is end component a; end;^a,\\B\\,a,|
package p is component is end component; end;^|
package p is component 'a' is end component; component; end;^|
package p is attribute x of k : component is 1; end;^|
package p is component a is end component; end; package q is component b is end component; end;^a,|b,|
package p is component component c is end component; end;^c,|
configuration c of e is for a for u : leaf use entity work.x; end for; end for; end;^|
architecture a of e is signal a, b, c, d, e, f, g, h, i, j, k, l, m, n, o : bit; component leaf is end component; begin end;^leaf,|
";

#[test]
fn components(rt: HostRuntime) -> Result<(), Fail> {
    check(&rt, rt.alloc(), Asked::Components, COMPONENTS)
}

/// Large texts: parts, each after the number of times that it is repeated and a star; and how many references, library
/// names, uses of whole libraries and components are found. Each has at most 4,194,304 bytes.
static LARGE: &[u8] = b"
1*package p is constant c : b := ~2097100*a.~1*d; end;^1 0 0 0|
1*architecture a of e is use ~838800*a.b, ~1*c.d; begin end;^838802 0 0 0|
1*library ~1398000*a, ~1*b; entity e is end;^0 1398001 0 0|
1*use ~599000*a.all, ~1*b; entity e is end;^0 0 599000 0|
1*package p is ~40000*component c is end component;~1*end;^0 0 0 40000|
";

/// Whether the text that the parts of a row give has the wanted counts.
fn counts(alloc: Global, row: &[u8]) -> Result<bool, Fail> {
    let (parts, wanted) = halves(row);
    let text = repeat_parts(alloc, parts)?;
    Ok(text_of_refs(alloc, &text, Asked::Count)?.as_slice() == wanted)
}

#[test]
fn large(rt: HostRuntime) -> Result<(), Fail> {
    for row in LARGE.split(|b| *b == b'\n') {
        if !row.is_empty() {
            assert!(rt; counts(rt.alloc(), row)?, "{row:?}");
        }
    }
    Ok(())
}
