//! What design files are made of: units, the roles of tokens, scans, and faults of the unit grammar.

use crate::{Items, MaybeText, Text, Tokens};
use thiserror::Error;

/// The kinds of design units (IEEE Std 1076-2008, clause 13.1).
#[derive(Clone, Copy, Debug, PartialEq, Eq)]
pub enum UnitKind {
    Entity,
    Architecture,
    Configuration,
    Package,
    PackageBody,
    PackageInstance,
    Context,
}

/// What a token is to those who read units, references and benches (IEEE Std 1076-2008, clauses 13 and 15): a reserved
/// word or a delimiter that one of them names, a name, or another token.
#[derive(Clone, Copy, Debug, PartialEq, Eq)]
pub enum Role {
    Library,
    Use,
    Context,
    Entity,
    Architecture,
    Configuration,
    Package,
    Body,
    Is,
    Of,
    New,
    Function,
    Procedure,
    Generate,
    End,
    If,
    For,
    Case,
    Elsif,
    Else,
    Component,
    /// A word, other than `if`, `case`, `for` and `component`, that says after `end` what ends within a unit.
    Inner,
    All,
    Generic,
    Opening,
    Closing,
    Semicolon,
    Colon,
    Dot,
    Comma,
    /// An identifier.
    Name,
    Other,
}

/// The roles of tokens, in order.
pub type RoleList = Items<Role>;

/// What begins at file level, as far as its first four tokens tell.
#[derive(Clone, Copy, Debug, PartialEq, Eq)]
pub enum Beginning {
    /// A context item.
    Item,
    /// A unit without an owner.
    Plain(UnitKind),
    /// A unit whose owner comes next.
    Owned(UnitKind),
    Nothing,
}

/// A design unit: its name, and of an architecture or a configuration the name of its entity. `lead`, `first` and
/// `last` are numbers of tokens: where its context items begin, its keyword, and its final semicolon.
#[derive(Debug, Drop)]
pub struct Unit {
    pub kind: UnitKind,
    pub name: Text,
    pub owner: MaybeText,
    pub lead: u32,
    pub first: u32,
    pub last: u32,
}

pub type UnitList = Items<Unit>;

/// The tokens and the design units of the text of a file.
#[derive(Drop)]
pub struct Scan {
    pub tokens: Tokens,
    pub units: UnitList,
}

pub type Scans = Items<Scan>;

/// Why tokens don't form a design file. `at` is the byte at which the token begins.
#[derive(Clone, Copy, Debug, PartialEq, Eq, Error)]
pub enum UnitFault {
    /// The token begins neither a context item nor a unit.
    #[error("no design unit at byte {at}")]
    NotUnit { at: u32 },
    /// The context item or unit that the token begins has no end.
    #[error("unit not ended at byte {at}")]
    NotEnded { at: u32 },
}
