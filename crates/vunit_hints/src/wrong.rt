//! Which table of a project file has a wrong value.

use crate::matching::{fault_over, library_of, project_text_of, put_table};
use base::{NoMemory, ProjectFault};
use std::alloc::Global;
use toml::{Table, Value};

/// The number of the first table with a value that the program refuses for a key, which is named as `library.files`. The
/// tables of one name are numbered from 1. Gives 0 for a key of the file itself, and if no table has such a value.
pub fn wrong_table(alloc: Global, text: &[u8], name: &str) -> Result<usize, NoMemory> {
    let Some((kind, own)) = name.split_once('.') else {
        return Ok(0);
    };
    let Ok(root) = toml::table_from_slice(alloc, text) else {
        return Ok(0);
    };
    let Some(Value::Array(tables)) = root.get(kind) else {
        return Ok(0);
    };
    let mut number: usize = 0;
    for table in tables {
        number = number.saturating_add(1);
        if let Value::Table(table) = table {
            if let Some(value) = table.get(own) {
                if is_wrong(alloc, kind, own, value)? {
                    return Ok(number);
                }
            }
        }
    }
    Ok(0)
}

/// Whether a project in which all else is right is refused for this value.
fn is_wrong(alloc: Global, kind: &str, own: &str, value: &Value) -> Result<bool, NoMemory> {
    let mut library = library_of(alloc, "x")?;
    let mut depends = Table::new(alloc);
    for key in ["library", "on_library"] {
        depends.insert(String::from_str(alloc, key)?, Value::string(alloc, "l")?)?;
    }
    for key in ["path", "on_path"] {
        depends.insert(String::from_str(alloc, key)?, Value::string(alloc, "x")?)?;
    }
    let table = if kind == "library" {
        &mut library
    } else {
        &mut depends
    };
    table.insert(String::from_str(alloc, own)?, value.clone()?)?;
    let mut root = Table::new(alloc);
    put_table(alloc, &mut root, "library", library)?;
    put_table(alloc, &mut root, "depends", depends)?;
    let Some(text) = project_text_of(alloc, &root)? else {
        return Ok(false);
    };
    match fault_over(alloc, text.as_slice(), b"x")? {
        Some(ProjectFault::WrongType { .. }) => Ok(true),
        _ => Ok(false),
    }
}
