//! What the keys of a TOML table say.

ghost use Rattle.std.specs.Prelude.{◌≡◌, ◌++◌, ◌∷◌, [], false, Err, Some, codes, option_map, IfOk};
ghost use Rattle.std.specs.Option.{ok_or};
ghost use Rattle.toml.specs.Data.{as_bool, as_table, get_member};
ghost use Rattle.toml.specs.View.{view, table_view};
ghost use Rattle.base.specs.declared.project.ProjectFault.TheVariants.{MissingKey, WrongType};
ghost use Rattle.project_file.specs.Toml.{array_of, library_in, text_of, texts_of, words_of, required, optional};
ghost use Rattle.project_file.specs.Forms.{form_of, tables_view};
ghost use Rattle.project_file.specs.Steps.{ReadsStep, ReadsAs};

use crate::csv::words;
use crate::values::{Form, Tables, tables_of, text_of, texts_of, words_of};
use base::{NoMemory, OrMemory, ProjectFault, Text, TextList};
use std::alloc::Global;
use toml::{Table, Value};

/// The value of a key, if the table has it.
fn value_at<'a>(table: &'a Table, key: &str) -> Option<&'a Value>
    ensures { option_map (λ value. view value.now) result
        ≡ get_member key.now (table_view table.now) }
{
    table.get(key)
}

/// A key after the words for its table.
fn key_name(alloc: Global, table_name: &str, key: &str) -> Result<Text, NoMemory>
    ensures { IfOk result (λ name. name ≡ table_name.now ++ key.now) }
{
    let mut name = Vec::from_slice(alloc, table_name.as_bytes())?;
    name.extend_from_slice(key.as_bytes())?;
    Ok(Text::from_vec(name))
}

/// What is read of the value of a key, or that it is of another form.
fn value_of_key<T: Drop>(
    alloc: Global,
    table_name: &str,
    key: &str,
    read: Option<T>,
) -> Result<T, OrMemory<ProjectFault>>
    ensures { ReadsStep (ok_or read (WrongType (table_name.now ++ key.now))) result }
{
    match read {
        Some(read) => Ok(read),
        None => Err(OrMemory::Fault(ProjectFault::WrongType {
            key: key_name(alloc, table_name, key)?,
        })),
    }
}

/// The fault of a key that a table lacks; `table_name` says which table.
fn missing_key(alloc: Global, table_name: &str, key: &str) -> Result<ProjectFault, NoMemory>
    ensures { IfOk result (λ fault. fault ≡ MissingKey (table_name.now ++ key.now)) }
{
    Ok(ProjectFault::MissingKey {
        key: key_name(alloc, table_name, key)?,
    })
}

/// The text of a form at a key, which has to be there.
pub fn text_at(
    alloc: Global,
    form: Form,
    table_name: &str,
    key: &str,
    table: &Table,
) -> Result<Text, OrMemory<ProjectFault>>
    ensures { ReadsStep
        (required (text_of (form_of form)) table_name.now key.now (table_view table.now)) result }
{
    match value_at(table, key) {
        Some(value) => value_of_key(alloc, table_name, key, text_of(alloc, form, value)?),
        None => Err(OrMemory::Fault(missing_key(alloc, table_name, key)?)),
    }
}

/// The texts of a form at a key, which has to be there.
pub fn texts_at(
    alloc: Global,
    form: Form,
    table_name: &str,
    key: &str,
    table: &Table,
) -> Result<TextList, OrMemory<ProjectFault>>
    ensures { ReadsStep
        (required (texts_of (form_of form)) table_name.now key.now (table_view table.now)) result }
{
    match value_at(table, key) {
        Some(value) => value_of_key(alloc, table_name, key, texts_of(alloc, form, value)?),
        None => Err(OrMemory::Fault(missing_key(alloc, table_name, key)?)),
    }
}

/// The names of libraries at a key; none where it is missing.
pub fn libraries_at(
    alloc: Global,
    key: &str,
    table: &Table,
) -> Result<TextList, OrMemory<ProjectFault>>
    ensures { ReadsStep
        (optional (texts_of library_in) [] [] key.now (table_view table.now)) result }
{
    match value_at(table, key) {
        Some(value) => value_of_key(alloc, "", key, texts_of(alloc, Form::Library, value)?),
        None => Ok(TextList::new(alloc)),
    }
}

/// The words of a command at a key; where it is missing, this word of the program itself.
pub fn command_at(
    alloc: Global,
    key: &str,
    table: &Table,
    word: &[u8],
) -> Result<TextList, OrMemory<ProjectFault>>
    ensures { ReadsStep
        (optional (words_of 1) (codes "@self" ∷ word.now ∷ []) [] key.now (table_view table.now))
        result }
{
    match value_at(table, key) {
        Some(value) => value_of_key(alloc, "", key, words_of(alloc, 1, value)?),
        None => Ok(words(alloc, b"@self", word)?),
    }
}

/// The words at a key; none where it is missing.
pub fn words_at(
    alloc: Global,
    table_name: &str,
    key: &str,
    table: &Table,
) -> Result<TextList, OrMemory<ProjectFault>>
    ensures { ReadsStep
        (optional (words_of 0) [] table_name.now key.now (table_view table.now)) result }
{
    match value_at(table, key) {
        Some(value) => value_of_key(alloc, table_name, key, words_of(alloc, 0, value)?),
        None => Ok(TextList::new(alloc)),
    }
}

/// Whether a key says so; it doesn't where it is missing.
pub fn flag_at(alloc: Global, key: &str, table: &Table) -> Result<bool, OrMemory<ProjectFault>>
    ensures { ReadsStep (optional as_bool false [] key.now (table_view table.now)) result }
{
    match value_at(table, key) {
        Some(value) => value_of_key(alloc, "", key, value.as_bool()),
        None => Ok(false),
    }
}

/// What is read of the tables of a key, or that its value is of another form.
fn known_tables<'a>(
    alloc: Global,
    key: &str,
    read: Option<Tables<'a>>,
) -> Result<Tables<'a>, OrMemory<ProjectFault>>
    ensures { ReadsAs tables_view
        (ok_or (option_map tables_view read.entry) (WrongType key.now)) result }
{
    match read {
        Some(read) => Ok(read),
        None => Err(OrMemory::Fault(ProjectFault::WrongType {
            key: key_name(alloc, "", key)?,
        })),
    }
}

/// The tables at a key, which has to be there.
pub fn tables_at<'a>(
    alloc: Global,
    key: &str,
    table: &'a Table,
) -> Result<Tables<'a>, OrMemory<ProjectFault>>
    ensures { ReadsAs tables_view
        (required (array_of as_table) [] key.now (table_view table.now)) result }
{
    match value_at(table, key) {
        Some(value) => known_tables(alloc, key, tables_of(alloc, value)?),
        None => Err(OrMemory::Fault(missing_key(alloc, "", key)?)),
    }
}

/// The tables at a key; none where it is missing.
pub fn any_tables_at<'a>(
    alloc: Global,
    key: &str,
    table: &'a Table,
) -> Result<Tables<'a>, OrMemory<ProjectFault>>
    ensures { ReadsAs tables_view
        (optional (array_of as_table) [] [] key.now (table_view table.now)) result }
{
    match value_at(table, key) {
        Some(value) => known_tables(alloc, key, tables_of(alloc, value)?),
        None => Ok(Vec::new(alloc)),
    }
}
