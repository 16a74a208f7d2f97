//! What values of a TOML table say.

ghost use Rattle.std.specs.Prelude.{◌≡◌, Some, None, map, option_map, IfOk};
ghost use Rattle.toml.specs.Data.{as_table};
ghost use Rattle.toml.specs.View.{view};
ghost use Rattle.project_file.specs.Toml.{all_read, array_of, word_in, library_in, path_in, text_of, texts_of, few, words_of};
ghost use Rattle.project_file.specs.Forms.{form_of, tables_view};

use crate::csv::{is_library, is_path, to_lower_case};
use base::{LISTED_WORD_LIMIT, NoMemory, Text, TextList, WORD_LIMIT};
use std::alloc::Global;
use toml::{Table, Value};

/// What a text has to be: a word of a command, the name of a library, a path, or any pattern.
#[derive(Clone, Copy)]
pub enum Form {
    Word,
    Library,
    Path,
    Pattern,
}

/// A copy of a text that may be a word of a command.
fn word_in(alloc: Global, text: &[u8]) -> Result<Option<Text>, NoMemory>
    ensures { IfOk result (λ word. word ≡ word_in text.now) }
{
    if 1 <= text.len() && text.len() <= WORD_LIMIT {
        return Ok(Some(Text::from_slice(alloc, text)?));
    }
    Ok(None)
}

/// The name of a library that a text is, in lower case.
fn library_in(alloc: Global, text: &[u8]) -> Result<Option<Text>, NoMemory>
    ensures { IfOk result (λ library. library ≡ library_in text.now) }
{
    if is_library(text) {
        return Ok(Some(to_lower_case(alloc, text)?));
    }
    Ok(None)
}

/// A copy of a text that is a path.
fn path_in(alloc: Global, text: &[u8]) -> Result<Option<Text>, NoMemory>
    ensures { IfOk result (λ path. path ≡ path_in text.now) }
{
    if is_path(text) {
        return Ok(Some(Text::from_slice(alloc, text)?));
    }
    Ok(None)
}

/// A copy of any text.
fn any_text(alloc: Global, text: &[u8]) -> Result<Option<Text>, NoMemory>
    ensures { IfOk result (λ read. read ≡ Some text.now) }
{
    Ok(Some(Text::from_slice(alloc, text)?))
}

/// What is read of a text that has to be of a form.
fn text_in(alloc: Global, form: Form, text: &[u8]) -> Result<Option<Text>, NoMemory>
    ensures { IfOk result (λ read. read ≡ form_of form text.now) }
{
    match form {
        Form::Word => word_in(alloc, text),
        Form::Library => library_in(alloc, text),
        Form::Path => path_in(alloc, text),
        Form::Pattern => any_text(alloc, text),
    }
}

/// The text of a form that a value is.
pub fn text_of(alloc: Global, form: Form, value: &Value) -> Result<Option<Text>, NoMemory>
    ensures { IfOk result (λ text. text ≡ text_of (form_of form) (view value.now)) }
{
    match value.as_str() {
        Some(text) => text_in(alloc, form, text.as_bytes()),
        None => Ok(None),
    }
}

/// The texts of a form that values are, or none where one value is of another form.
#[tactic(auto, using(crate::proofs::ReadItems::reads_on, crate::proofs::ReadItems::reads_none, crate::proofs::ReadItems::reads_all))]
fn texts_in(alloc: Global, form: Form, values: &[Value]) -> Result<Option<TextList>, NoMemory>
    ensures { IfOk result (λ texts.
        texts ≡ all_read (text_of (form_of form)) (map view values.now)) }
{
    let mut texts = TextList::new(alloc);
    for i in 0..values.len() {
        match text_of(alloc, form, &values[i])? {
            Some(text) => texts.push(text)?,
            None => return Ok(None),
        }
    }
    Ok(Some(texts))
}

/// The texts of a form that a value lists.
#[tactic(auto, using(crate::proofs::ReadItems::list_again))]
pub fn texts_of(alloc: Global, form: Form, value: &Value) -> Result<Option<TextList>, NoMemory>
    ensures { IfOk result (λ texts. texts ≡ texts_of (form_of form) (view value.now)) }
{
    match value.as_array() {
        Some(values) => texts_in(alloc, form, values.as_slice()),
        None => Ok(None),
    }
}

/// The words, if they are at least `least` and at most 32.
fn few(least: usize, words: TextList) -> Option<TextList>
    ensures { result ≡ few least words }
{
    let count = words.as_slice().len();
    if least <= count && count <= LISTED_WORD_LIMIT {
        return Some(words);
    }
    None
}

/// The words that a value lists, if they are at least `least` and at most 32.
pub fn words_of(alloc: Global, least: usize, value: &Value) -> Result<Option<TextList>, NoMemory>
    ensures { IfOk result (λ words. words ≡ words_of least (view value.now)) }
{
    match texts_of(alloc, Form::Word, value)? {
        Some(words) => Ok(few(least, words)),
        None => Ok(None),
    }
}

/// Tables in a TOML table.
pub type Tables<'a> = Vec<&'a Table>;

/// The values as tables; `None` if one of them isn't a table.
#[tactic(auto, using(crate::proofs::ReadItems::reads_on, crate::proofs::ReadItems::reads_none, crate::proofs::ReadItems::reads_all))]
fn tables_in(alloc: Global, values: &[Value]) -> Result<Option<Tables<'_>>, NoMemory>
    ensures { IfOk result (λ tables.
        option_map tables_view tables ≡ all_read as_table (map view values.now)) }
{
    let mut tables = Vec::new(alloc);
    for i in 0..values.len() {
        match values[i].as_table() {
            Some(table) => tables.push(table)?,
            None => return Ok(None),
        }
    }
    Ok(Some(tables))
}

/// The tables that a value lists.
#[tactic(auto, using(crate::proofs::ReadItems::list_again))]
pub fn tables_of(alloc: Global, value: &Value) -> Result<Option<Tables<'_>>, NoMemory>
    ensures { IfOk result (λ tables.
        option_map tables_view tables ≡ array_of as_table (view value.now)) }
{
    match value.as_array() {
        Some(values) => tables_in(alloc, values.as_slice()),
        None => Ok(None),
    }
}
