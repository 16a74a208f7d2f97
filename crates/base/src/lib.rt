//! The types that all other crates share: lists, texts, files, graphs, requests and exits.
#![tactic(auto)]

mod child;
mod design;
mod file;
mod graph;
mod items;
mod lexical;
mod limits;
mod linking;
mod memory;
mod project;
mod refs;
mod text;

pub use child::{Event, Exit, MaybeText, Request};
pub use design::{Beginning, Role, RoleList, Scan, Scans, Unit, UnitFault, UnitKind, UnitList};
pub use file::{FileList, FileName, NamedText, NamedTextList};
pub use graph::{Built, BuiltFile, Entry, Graph};
pub use items::{Items, Numbers, Positions};
pub use lexical::{LexFault, Span, SpanList, Token, TokenKind, TokenList, Tokens};
pub use limits::{
    ARTEFACT_LIMIT, CASE_LIMIT, COMMAND_LIMIT, FILE_LIMIT, GRAPH_TEXT_LIMIT, LIBRARY_LIMIT,
    LISTED_WORD_LIMIT, NAME_LIMIT, PATH_LIMIT, RESULTS_LIMIT, SIMULATOR_LIMIT, SLOT_LIMIT,
    TEXT_LIMIT, WORD_LIMIT,
};
pub use linking::{Edges, LinkFault, Linked, Order, OrderFault, Warning, WarningList};
pub use memory::{DiskFailed, NoMemory, OrMemory};
pub use project::{Pair, PairList, Project, ProjectFault, ProjectFile, ProjectFileList};
pub use refs::{Ref, RefList, UnitId};
pub use text::{Text, TextList};
