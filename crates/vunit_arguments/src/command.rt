//! The command by which `clap` reads the arguments.

ghost use Rattle.std.specs.Prelude.{◌≡◌, false, codes, IfOk};
ghost use Rattle.clap.specs.Words.{app_of, rule_of, with_rule};
ghost use Rattle.vunit_arguments.specs.Arguments.{command_line, flag, lettered, numbered, patterns, threads, valued, with_modes, with_outputs};

use clap::builder::ValueParser;
use clap::{Arg, ArgAction, Command};
use std::alloc::{AllocError, Global};

/// An option without a value.
fn flag<'a>(alloc: Global, name: &'a str) -> Arg<'a>
    ensures rule { rule_of result ≡ flag name.now }
    ensures plain { result.global ≡ false }
{
    Arg::new(alloc, name).long(name).action(ArgAction::SetTrue)
}

/// An option with a value.
fn option_with_value<'a>(alloc: Global, name: &'a str) -> Arg<'a>
    ensures rule { rule_of result ≡ valued name.now }
    ensures plain { result.global ≡ false }
{
    Arg::new(alloc, name).long(name)
}

/// The file of the JUnit text.
fn xunit_xml<'a>(alloc: Global) -> Arg<'a>
    ensures rule { rule_of result ≡ lettered 120 (valued (codes "xunit-xml")) }
    ensures plain { result.global ≡ false }
{
    option_with_value(alloc, "xunit-xml").short('x')
}

/// An option with a number from 1 on.
fn option_with_number<'a>(alloc: Global, name: &'a str) -> Arg<'a>
    ensures rule { rule_of result ≡ numbered name.now }
    ensures plain { result.global ≡ false }
{
    option_with_value(alloc, name).value_parser(ValueParser::Unsigned(1, u64::MAX))
}

/// The patterns: the arguments that are not options. Without a pattern, `*` is assumed.
fn patterns<'a>(alloc: Global) -> Arg<'a>
    ensures rule { rule_of result ≡ patterns }
    ensures plain { result.global ≡ false }
{
    Arg::new(alloc, "patterns").num_args(0..).default_value("*")
}

/// An option without a value that has a short name, too.
fn lettered_flag<'a>(alloc: Global, name: &'a str, letter: char) -> Arg<'a>
    ensures rule { rule_of result ≡ lettered letter (flag name.now) }
    ensures plain { result.global ≡ false }
{
    flag(alloc, name).short(letter)
}

/// The command with one more argument.
fn with<'a>(command: Command<'a>, arg: Arg<'a>) -> Result<Command<'a>, AllocError>
    requires { arg.global ≡ false }
    ensures { IfOk result (λ r. app_of r ≡ with_rule (app_of command.entry) (rule_of arg.entry)) }
{
    command.arg(arg)
}

/// Adds the options that choose what the program does, and how.
fn with_modes<'a>(alloc: Global, command: Command<'a>) -> Result<Command<'a>, AllocError>
    ensures { IfOk result (λ r. app_of r ≡ with_modes (app_of command.entry)) }
{
    let command = with(command, lettered_flag(alloc, "list", 'l'))?;
    let command = with(command, lettered_flag(alloc, "files", 'f'))?;
    let command = with(command, flag(alloc, "compile"))?;
    let command = with(command, lettered_flag(alloc, "minimal", 'm'))?;
    let command = with(command, lettered_flag(alloc, "keep-compiling", 'k'))?;
    let command = with(command, flag(alloc, "fail-fast"))?;
    let command = with(command, flag(alloc, "clean"))?;
    Ok(command)
}

/// The number of threads; 1 if it is not given.
fn threads<'a>(alloc: Global) -> Arg<'a>
    ensures rule { rule_of result ≡ threads }
    ensures plain { result.global ≡ false }
{
    option_with_number(alloc, "num-threads")
        .short('p')
        .default_value("1")
}

/// Adds the options of the outputs, the other options, and the patterns.
fn with_outputs<'a>(alloc: Global, command: Command<'a>) -> Result<Command<'a>, AllocError>
    ensures { IfOk result (λ r. app_of r ≡ with_outputs (app_of command.entry)) }
{
    let command = with(command, xunit_xml(alloc))?;
    let command = with(command, flag(alloc, "exit-0"))?;
    let command = with(command, lettered_flag(alloc, "verbose", 'v'))?;
    let command = with(command, lettered_flag(alloc, "quiet", 'q'))?;
    let command = with(command, threads(alloc))?;
    let command = with(command, option_with_value(alloc, "export-json"))?;
    let command = with(command, option_with_number(alloc, "generate"))?;
    let command = with(command, patterns(alloc))?;
    Ok(command)
}

/// The command line of the program.
pub fn command_line<'a>(alloc: Global) -> Result<Command<'a>, AllocError>
    ensures { IfOk result (λ r. app_of r ≡ command_line) }
{
    let command = Command::new(alloc, "vunit_run")
        .no_binary_name(true)
        .disable_help_flag(true)
        .disable_version_flag(true);
    let command = with_modes(alloc, command)?;
    with_outputs(alloc, command)
}
