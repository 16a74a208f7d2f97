//! Whether a pattern of files matches a path.

ghost use Rattle.std.specs.Prelude.{◌≤◌, length};
ghost use Rattle.base.specs.declared.limits.TheConstants.{PATH_LIMIT};

use crate::project::ProjectText;
use base::{NoMemory, OrMemory, PATH_LIMIT, ProjectFault, Text, TextList};
use project_file::read_toml_project;
use std::alloc::Global;
use toml::{Table, Value};

/// A table of a library with one pattern.
pub fn library_of(alloc: Global, pattern: &str) -> Result<Table, NoMemory> {
    let mut files = Vec::new(alloc);
    files.push(Value::string(alloc, pattern)?)?;
    let mut library = Table::new(alloc);
    library.insert(String::from_str(alloc, "name")?, Value::string(alloc, "l")?)?;
    library.insert(String::from_str(alloc, "files")?, Value::Array(files))?;
    Ok(library)
}

/// Adds a table that stands alone among those of its name.
pub fn put_table(
    alloc: Global,
    root: &mut Table,
    name: &str,
    table: Table,
) -> Result<(), NoMemory> {
    let mut tables = Vec::new(alloc);
    tables.push(Value::Table(table))?;
    root.insert(String::from_str(alloc, name)?, Value::Array(tables))?;
    Ok(())
}

/// A project of one library with one pattern.
fn project_of(alloc: Global, pattern: &str) -> Result<Option<Vec<u8>>, NoMemory> {
    let mut root = Table::new(alloc);
    put_table(alloc, &mut root, "library", library_of(alloc, pattern)?)?;
    project_text_of(alloc, &root)
}

/// The text of a project.
pub fn project_text_of(alloc: Global, root: &Table) -> Result<Option<Vec<u8>>, NoMemory> {
    match toml::table_to_string(alloc, root) {
        Ok(text) => Ok(Some(text.into_bytes())),
        Err(_) => Ok(None),
    }
}

/// Whether the pattern of a project of one pattern matches a path, by the program's own reading of it.
pub fn is_matched(alloc: Global, project: &[u8], path: &[u8]) -> Result<bool, NoMemory> {
    if path.is_empty() || path.len() > PATH_LIMIT {
        return Ok(false);
    }
    Ok(fault_over(alloc, project, path)?.is_none())
}

/// The fault of a project over the name of one file, if it has one.
pub fn fault_over(
    alloc: Global,
    project: &[u8],
    path: &[u8],
) -> Result<Option<ProjectFault>, NoMemory>
    requires some { 1 ≤ length path.now }
    requires short { length path.now ≤ PATH_LIMIT }
{
    let mut names = TextList::new(alloc);
    names.push(Text::from_slice(alloc, path)?)?;
    match read_toml_project(alloc, project, &names) {
        Ok(_) => Ok(None),
        Err(OrMemory::NoMemory) => Err(NoMemory),
        Err(OrMemory::Fault(fault)) => Ok(Some(fault)),
    }
}

/// A pattern of files, as a project of its own, and its library.
#[derive(Drop)]
pub struct Pattern {
    pub library: Vec<u8>,
    pub project: Vec<u8>,
}

/// The patterns of a project file.
pub fn patterns_of(alloc: Global, project: &ProjectText) -> Result<Vec<Pattern>, NoMemory> {
    let mut patterns = Vec::new(alloc);
    let Ok(table) = toml::table_from_slice(alloc, project.bytes()) else {
        return Ok(patterns);
    };
    let Some(Value::Array(libraries)) = table.get("library") else {
        return Ok(patterns);
    };
    for library in libraries {
        if let Value::Table(library) = library {
            push_patterns(alloc, &mut patterns, library)?;
        }
    }
    Ok(patterns)
}

fn push_patterns(
    alloc: Global,
    patterns: &mut Vec<Pattern>,
    table: &Table,
) -> Result<(), NoMemory> {
    let (Some(name), Some(Value::Array(files))) = (table.get("name"), table.get("files")) else {
        return Ok(());
    };
    let name = name.as_str().unwrap_or("");
    for file in files {
        if let Some(project) = project_of(alloc, file.as_str().unwrap_or(""))? {
            let mut library = Vec::new(alloc);
            for byte in name.as_bytes() {
                library.push(byte.to_ascii_lowercase())?;
            }
            patterns.push(Pattern { library, project })?;
        }
    }
    Ok(())
}
