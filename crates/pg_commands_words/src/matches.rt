//! The words as the parser reads them.
ghost use Rattle.std.specs.Prelude.{◌≡◌, [], map, string_bytes, IfOk, IfErr, true, false};
ghost use Rattle.std.specs.Option.{option_map};
ghost use Rattle.clap.specs.Simple.{app_of};
ghost use Rattle.clap.specs.Words.{found_of, rows_of, rule_of, subcommand_of, subcommand_rows_of, takes, kind_of};
ghost use Rattle.clap.specs.declared.builder.command.Command.TheViews.{out-Command};
ghost use Rattle.clap.specs.declared.error.kind.ErrorKind.TheVariants.{OutOfMemory};
ghost use Rattle.pg_commands_words.specs.Clap.{given_of, given_of_rows, is_set, line_app, option_rule, program_app, program_top, with_line, with_option, with_words};

use clap::error::ErrorKind;
use clap::{Arg, ArgAction, ArgMatches, Command, Error};
use std::alloc::{AllocError, Global};

/// The options that the parser found: the text of each that has a value, and which flags.
#[derive(Clone, Copy)]
pub(crate) struct Options<'a> {
    pub quantum: Option<&'a str>,
    pub seed: Option<&'a str>,
    pub free: bool,
    pub book: Option<&'a str>,
    pub only: bool,
    pub json: bool,
}

/// The matches of the program's command on words that it takes.
pub(crate) fn matches(alloc: Global, words: &[String]) -> Result<ArgMatches<'_>, AllocError>
    requires taken { takes program_app (map string_bytes words.now) ≡ true }
    ensures { IfOk result (λ m. subcommand_rows_of m ≡ subcommand_of program_app (map string_bytes words.now)) }
{
    match parsed(alloc, words) {
        Ok(matches) => Ok(matches),
        Err(error) => match error.kind() {
            ErrorKind::OutOfMemory => Err(AllocError),
            _ => unreachable!(),
        },
    }
}

// What the parser says of these words.
fn parsed(alloc: Global, words: &[String]) -> Result<ArgMatches<'_>, Error>
    ensures found { IfOk result (λ m. subcommand_rows_of m ≡ subcommand_of program_app (map string_bytes words.now)) }
    ensures refused { IfErr result (λ e. takes program_app (map string_bytes words.now) ≡ true → kind_of e ≡ OutOfMemory) }
{
    let program = program(alloc)?;
    program.try_get_matches_from(words)
}

// ---- the program's command

// An option of this name, which takes a value or is a flag.
fn option<'a>(alloc: Global, name: &'a str, takes_value: bool) -> Arg<'a>
    ensures rule { rule_of result ≡ option_rule name.entry.now takes_value }
    ensures local { result.global ≡ false }
{
    let action = if takes_value {
        ArgAction::Set
    } else {
        ArgAction::SetTrue
    };
    Arg::new(alloc, name).long(name).action(action)
}

// A command with one more option.
fn with_option<'a>(
    alloc: Global,
    command: Command<'a>,
    name: &'a str,
    takes_value: bool,
) -> Result<Command<'a>, AllocError>
    requires local { (out-Command command).has_globals ≡ false }
    ensures app { IfOk result (λ c. app_of c ≡ with_option name.entry.now takes_value (app_of command.entry)) }
    ensures local { IfOk result (λ c. (out-Command c).has_globals ≡ false) }
{
    let option = option(alloc, name, takes_value);
    // In two lines for the proof: see docs/CONTRIBUTING.md.
    let command = command.arg(option)?;
    Ok(command)
}

// A command that takes any words.
fn with_words<'a>(alloc: Global, command: Command<'a>) -> Result<Command<'a>, AllocError>
    requires local { (out-Command command).has_globals ≡ false }
    ensures app { IfOk result (λ c. app_of c ≡ with_words (app_of command.entry)) }
    ensures local { IfOk result (λ c. (out-Command c).has_globals ≡ false) }
{
    let words = Arg::new(alloc, "words").action(ArgAction::Append);
    // In two lines for the proof: see docs/CONTRIBUTING.md.
    let command = command.arg(words)?;
    Ok(command)
}

// The command of a name, with the options and any words.
fn line_command<'a>(alloc: Global, name: &'a str) -> Result<Command<'a>, AllocError>
    ensures app { IfOk result (λ c. app_of c ≡ line_app name.entry.now) }
    ensures local { IfOk result (λ c. (out-Command c).has_globals ≡ false) }
{
    let command = Command::new(alloc, name);
    let command = with_option(alloc, command, "quantum", true)?;
    let command = with_option(alloc, command, "seed", true)?;
    let command = with_option(alloc, command, "free", false)?;
    let command = with_option(alloc, command, "book", true)?;
    let command = with_option(alloc, command, "only", false)?;
    let command = with_option(alloc, command, "json", false)?;
    let command = with_words(alloc, command)?;
    Ok(command)
}

// The program's command with one more subcommand, of this name.
fn with_line<'a>(
    alloc: Global,
    program: Command<'a>,
    name: &'a str,
) -> Result<Command<'a>, AllocError>
    ensures { IfOk result (λ c. app_of c ≡ with_line name.entry.now (app_of program.entry)) }
{
    let line = line_command(alloc, name)?;
    // In two lines for the proof: see docs/CONTRIBUTING.md.
    let program = program.subcommand(line)?;
    Ok(program)
}

// The program's command without a subcommand.
fn bare_program<'a>(alloc: Global) -> Command<'a>
    ensures { app_of result ≡ record { top = program_top; subs = [] } }
{
    Command::new(alloc, "peregrine")
        .no_binary_name(true)
        .disable_help_flag(true)
        .disable_help_subcommand(true)
        .disable_version_flag(true)
}

// The program's command.
fn program<'a>(alloc: Global) -> Result<Command<'a>, AllocError>
    ensures { IfOk result (λ c. app_of c ≡ program_app) }
{
    let program = bare_program(alloc);
    let program = with_line(alloc, program, "once")?;
    let program = with_line(alloc, program, "serve")?;
    let program = with_line(alloc, program, "book")?;
    let program = with_line(alloc, program, "show")?;
    let program = with_line(alloc, program, "conditions")?;
    let program = with_line(alloc, program, "trial")?;
    Ok(program)
}

// ---- what the parser found

/// The options that the matches of a subcommand have.
pub(crate) fn options_found<'a>(found: &ArgMatches<'a>) -> Options<'a>
    ensures { given_of result ≡ given_of_rows (rows_of (found_of found.now)) }
{
    Options {
        quantum: found.get_str("quantum"),
        seed: found.get_str("seed"),
        free: is_set(found.get_str("free")),
        book: found.get_str("book"),
        only: is_set(found.get_str("only")),
        json: is_set(found.get_str("json")),
    }
}

// Whether a flag is given, by the text that the parser has for it.
fn is_set(text: Option<&str>) -> bool
    ensures { result ≡ is_set (option_map (λ s. s.now) text.entry) }
{
    match text {
        Some(text) => text == "true",
        None => false,
    }
}
