//! Reads the arguments.

ghost use Rattle.std.specs.Prelude.{◌≡◌, ◌≢◌, ◌≤◌, [], map, option_map, unwrap_or, codes, IfOk};
ghost use Rattle.clap.specs.Words.{all_of, first_of, found_of, kind_of, rows_of};
ghost use Rattle.clap.specs.declared.error.kind.ErrorKind.TheVariants.{OutOfMemory};
ghost use Rattle.vunit_arguments.specs.declared.setting.ArgumentsFault.TheVariants.{Bad};
ghost use Rattle.vunit_arguments.specs.Arguments.{AreArguments, ReadsArguments, has_flag, maybe, number_in, number_of, setting_in, setting_of};

use crate::command::command_line;
use crate::{ArgumentsFault, Setting};
use base::{MaybeText, NoMemory, Text, TextList};
use clap::error::ErrorKind;
use clap::{ArgMatches, Error};
use std::alloc::Global;

/// The arguments as text, unless one is not UTF-8.
fn arguments_of<'a>(alloc: Global, arguments: &'a [Text]) -> Result<Vec<&'a str>, ArgumentsFault>
    ensures { AreArguments (λ read. map (λ word. word.now) read.items) arguments.now result }
{
    let mut read = Vec::new(alloc);
    for word in arguments {
        let Ok(text) = str::from_utf8(word.bytes()) else {
            return Err(ArgumentsFault::Bad);
        };
        read.push(text)?;
    }
    Ok(read)
}

/// The first value of an option.
fn text_in<'a>(matches: &ArgMatches<'a>, name: &str) -> Option<&'a str>
    ensures { option_map (λ text. text.now) result
        ≡ first_of name.now (rows_of (found_of matches.now)) }
{
    matches.get_str(name)
}

/// Whether a flag was given.
fn has_flag(matches: &ArgMatches, name: &str) -> bool
    ensures { result ≡ has_flag (rows_of (found_of matches.now)) name.now }
{
    match text_in(matches, name) {
        Some(text) => text == "true",
        None => false,
    }
}

/// The value of an option.
fn value_of(alloc: Global, matches: &ArgMatches, name: &str) -> Result<MaybeText, NoMemory>
    ensures { IfOk result (λ value.
        value ≡ maybe (first_of name.now (rows_of (found_of matches.now)))) }
{
    match text_in(matches, name) {
        Some(text) => Ok(MaybeText::Given(Text::from_slice(alloc, text.as_bytes())?)),
        None => Ok(MaybeText::Nothing),
    }
}

/// The number that a text is, from 1 on.
fn number_of(text: &str) -> Option<u64>
    ensures { result ≡ number_of text.now }
{
    match text.parse::<u64>() {
        Ok(0) => None,
        Ok(number) => Some(number),
        Err(_) => None,
    }
}

/// The number of an option, or another one where the option has no value.
fn number_in(matches: &ArgMatches, name: &str, other: u64) -> Option<u64>
    ensures { result ≡ number_in (rows_of (found_of matches.now)) name.now other }
{
    match text_in(matches, name) {
        Some(text) => number_of(text),
        None => Some(other),
    }
}

/// The values of `patterns`, if it has any.
fn texts_in<'b, 'a>(matches: &'b ArgMatches<'a>) -> Option<&'b [&'a str]>
    ensures { option_map (λ texts. map (λ text. text.now) texts.now) result
        ≡ all_of (codes "patterns") (rows_of (found_of matches.now)) }
{
    matches.get_strs("patterns")
}

/// Copies of texts.
fn copies(alloc: Global, texts: &[&str]) -> Result<TextList, NoMemory>
    ensures { IfOk result (λ copies. copies ≡ map (λ text. text.now) texts.now) }
{
    let mut copies = TextList::new(alloc);
    for text in texts {
        copies.push(Text::from_slice(alloc, text.as_bytes())?)?;
    }
    Ok(copies)
}

/// The patterns.
fn patterns_in(alloc: Global, matches: &ArgMatches) -> Result<TextList, NoMemory>
    ensures { IfOk result (λ patterns.
        patterns ≡ unwrap_or (all_of (codes "patterns") (rows_of (found_of matches.now))) []) }
{
    match texts_in(matches) {
        Some(texts) => copies(alloc, texts),
        None => Ok(TextList::new(alloc)),
    }
}

/// The setting of the options that were found.
fn setting_in(alloc: Global, matches: &ArgMatches) -> Result<Setting, ArgumentsFault>
    ensures read { ReadsArguments (setting_in (rows_of (found_of matches.now))) result }
    ensures some { IfOk result (λ setting. 1 ≤ setting.num_threads) }
{
    let Some(num_threads) = number_in(matches, "num-threads", 1) else {
        return Err(ArgumentsFault::Bad);
    };
    let Some(generate) = number_in(matches, "generate", 0) else {
        return Err(ArgumentsFault::Bad);
    };
    Ok(Setting {
        list: has_flag(matches, "list"),
        files: has_flag(matches, "files"),
        compile: has_flag(matches, "compile"),
        minimal: has_flag(matches, "minimal"),
        keep_compiling: has_flag(matches, "keep-compiling"),
        fail_fast: has_flag(matches, "fail-fast"),
        clean: has_flag(matches, "clean"),
        xunit_xml: value_of(alloc, matches, "xunit-xml")?,
        exit_0: has_flag(matches, "exit-0"),
        verbose: has_flag(matches, "verbose"),
        quiet: has_flag(matches, "quiet"),
        num_threads,
        export_json: value_of(alloc, matches, "export-json")?,
        generate,
        patterns: patterns_in(alloc, matches)?,
    })
}

/// Why a parse failed.
fn fault_of(error: &Error) -> ArgumentsFault
    ensures { (result ≡ Bad) → kind_of error.now ≢ OutOfMemory }
{
    if error.kind() == ErrorKind::OutOfMemory {
        ArgumentsFault::NoMemory
    } else {
        ArgumentsFault::Bad
    }
}

/// Reads the arguments of the program, without its name, exactly as `clap` reads them by the options of the program. Gives
/// `Bad` if they are not a valid command line, and `NoMemory` if memory runs out.
pub fn read_arguments(alloc: Global, arguments: &TextList) -> Result<Setting, ArgumentsFault>
    ensures read { ReadsArguments (setting_of arguments.now) result }
    ensures some { IfOk result (λ setting. 1 ≤ setting.num_threads) }
{
    let texts = arguments_of(alloc, arguments.as_slice())?;
    let command = command_line(alloc)?;
    match command.try_get_matches_from(texts.as_slice()) {
        Ok(matches) => setting_in(alloc, &matches),
        Err(error) => Err(fault_of(&error)),
    }
}
