//! The command that `clap` reads, and the values that it finds.

ghost use Rattle.std.specs.Prelude.{◌≡◌, IfOk, false, List, [], ◌∷◌, map, drop, option_map, string_bytes};
ghost use Rattle.clap.specs.Words.{app_of, first_of, found_of, rows_of, with_rule};
ghost use Rattle.mlir_words.specs.Asked.{asked};
ghost use Rattle.mlir_words.specs.App.{Gives, the_app, bare_app, flag_rule, option_rule, file_rule, is_set};
ghost use Rattle.mlir_words.specs.App.{options_in, options_given};

use crate::request::WordsError;
use clap::error::ErrorKind;
use clap::{Arg, ArgAction, ArgMatches, Command};
use std::alloc::{AllocError, Global};

/// The values that the words give.
#[derive(Drop)]
pub(crate) struct Given<'a> {
    pub(crate) transform: bool,
    pub(crate) lower: Option<&'a str>,
    pub(crate) run: Option<&'a str>,
    pub(crate) input: Option<&'a str>,
    pub(crate) workers: Option<&'a str>,
    pub(crate) sample: Option<&'a str>,
    pub(crate) file: Option<&'a str>,
}

// An option with one value.
fn with_option<'a>(
    alloc: Global,
    command: Command<'a>,
    name: &'a str,
) -> Result<Command<'a>, AllocError>
    ensures { IfOk result (λ c. app_of c ≡ with_rule (app_of command.entry) (option_rule name.entry.now)) }
{
    command.arg(Arg::new(alloc, name).long(name).action(ArgAction::Set))
}

// The command without arguments, help or version.
fn bare_command<'a>(alloc: Global) -> Command<'a>
    ensures { app_of result ≡ bare_app }
{
    Command::new(alloc, "mlir_opt")
        .disable_help_flag(true)
        .disable_version_flag(true)
}

// An option without a value.
fn with_flag<'a>(
    alloc: Global,
    command: Command<'a>,
    name: &'a str,
) -> Result<Command<'a>, AllocError>
    ensures { IfOk result (λ c. app_of c ≡ with_rule (app_of command.entry) (flag_rule name.entry.now)) }
{
    command.arg(Arg::new(alloc, name).long(name).action(ArgAction::SetTrue))
}

// The file, which has no name.
fn with_file<'a>(alloc: Global, command: Command<'a>) -> Result<Command<'a>, AllocError>
    ensures { IfOk result (λ c. app_of c ≡ with_rule (app_of command.entry) file_rule) }
{
    command.arg(Arg::new(alloc, "file").action(ArgAction::Set))
}

fn command<'a>(alloc: Global) -> Result<Command<'a>, AllocError>
    ensures { IfOk result (λ c. app_of c ≡ the_app) }
{
    let command = bare_command(alloc);
    let command = with_flag(alloc, command, "transform-interpreter")?;
    let command = with_option(alloc, command, "lower")?;
    let command = with_option(alloc, command, "run")?;
    let command = with_option(alloc, command, "input")?;
    let command = with_option(alloc, command, "workers")?;
    let command = with_option(alloc, command, "sample")?;
    with_file(alloc, command)
}

// A flag's value, which `clap` keeps as text.
fn is_on(text: Option<&str>) -> bool
    ensures { result ≡ is_set (option_map (λ s. s.now) text.entry) }
{
    match text {
        Some(text) => text == "true",
        None => false,
    }
}

// The value of an argument.
fn text_of<'a>(matches: &ArgMatches<'a>, id: &str) -> Option<&'a str>
    ensures { option_map (λ s. s.now) result ≡ first_of id.now (rows_of (found_of matches.now)) }
{
    matches.get_str(id)
}

// The values in what `clap` found.
fn given_by<'a>(matches: &ArgMatches<'a>) -> Given<'a>
    ensures { options_given result ≡ options_in (rows_of (found_of matches.now)) }
{
    Given {
        transform: is_on(text_of(matches, "transform-interpreter")),
        lower: text_of(matches, "lower"),
        run: text_of(matches, "run"),
        input: text_of(matches, "input"),
        workers: text_of(matches, "workers"),
        sample: text_of(matches, "sample"),
        file: text_of(matches, "file"),
    }
}

/// The values that the words after the program's name give.
pub(crate) fn given_in<'a>(alloc: Global, words: &'a [String]) -> Result<Given<'a>, WordsError>
    ensures { Gives (asked (drop 1 (map string_bytes words.entry.now))) result }
{
    let Ok(command) = command(alloc) else {
        return Err(WordsError::Memory);
    };
    match command.try_get_matches_from(words) {
        Ok(matches) => Ok(given_by(&matches)),
        Err(error) => {
            if error.kind() == ErrorKind::OutOfMemory {
                Err(WordsError::Memory)
            } else {
                Err(WordsError::Words)
            }
        }
    }
}
