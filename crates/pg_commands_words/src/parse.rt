//! Which command words are.
ghost use Rattle.std.specs.Prelude.{◌≡◌, ◌∷◌, [], map, string_bytes, Some, None, IfOk, IfSome, IfNone, ℕ, ℤ, List, Bool, Option};
ghost use Rattle.std.specs.Option.{option_map};
ghost use Rattle.clap.specs.Words.{found_of, rows_of, subcommand_rows_of};
ghost use Rattle.pg_commands_words.specs.Clap.{HasNoValues, HasValuesOf, Reads, ReadsNone, SaysNone, SaysOf, given_of, given_of_rows, words_in};
ghost use Rattle.pg_commands_words.specs.Commands.{HasFileAndNumbers, HasSession, HasTrial, HasValues, IsCommand, IsWithin, Meaning, NoCommand, allows, are_allowed, book, conditions, fits, is_of_a_way, is_quantum, meaning_of, once, only_fits, serve, show};
ghost use Rattle.pg_commands_words.specs.Pieces.{Word};
ghost use Rattle.pg_commands_words.specs.declared.commands.RecordingWay.{RecordingWay};
ghost use Rattle.pg_commands_words.specs.Values.{is_book_name};

use crate::commands::{Book, Command, Conditions, Once, RecordingWay, Serve, Show};
use crate::matches::{Options, matches, options_found};
use crate::names::{Name, OptionName};
use crate::positions::name_of_line;
use crate::values::{chosen_way, few_numbers, trial_number};
use clap::ArgMatches;
use std::alloc::{AllocError, Global};

/// The command that these words are, without the program's own name, or `None` where they are none. The only error is want of
/// memory.
pub fn command(alloc: Global, words: &[String]) -> Result<Option<Command>, AllocError>
    ensures some { IfOk result (λ found. IfSome found (IsCommand (map string_bytes words.now))) }
    ensures none { IfOk result (λ found. IfNone found (NoCommand (map string_bytes words.now))) }
    ensures within { IfOk result (λ found. IfSome found (λ command. IsWithin (meaning_of command))) }
{
    let Some(name) = name_of_line(words) else {
        return Ok(None);
    };
    let matches = matches(alloc, words)?;
    command_in(alloc, name, &matches)
}

// The command of this name that the parser's matches say, if its values are in their ranges.
fn command_in(
    alloc: Global,
    name: Name,
    matches: &ArgMatches<'_>,
) -> Result<Option<Command>, AllocError>
    ensures some { IfOk result (λ found. IfSome found (λ c. Reads name (subcommand_rows_of matches.now) (meaning_of c))) }
    ensures none { IfOk result (λ found. IfNone found (ReadsNone name (subcommand_rows_of matches.now))) }
{
    match matches.subcommand() {
        Some((_, found)) => command_of(alloc, name, found),
        None => Ok(None),
    }
}

// The command of this name that the matches of a subcommand say, if its values are in their ranges.
fn command_of(
    alloc: Global,
    name: Name,
    found: &ArgMatches<'_>,
) -> Result<Option<Command>, AllocError>
    ensures some { IfOk result (λ c. IfSome c
        (λ c. SaysOf name (given_of_rows (rows_of (found_of found.now))) (words_in (rows_of (found_of found.now))) (meaning_of c))) }
    ensures none { IfOk result (λ c. IfNone c (SaysNone name (given_of_rows (rows_of (found_of found.now))) (words_in (rows_of (found_of found.now))))) }
{
    let options = options_found(found);
    match found.get_raw("words") {
        Some(texts) => command_with(alloc, name, &options, texts),
        None => command_with(alloc, name, &options, &[]),
    }
}

// The command of this name with these options and these positionals.
fn command_with(
    alloc: Global,
    name: Name,
    options: &Options<'_>,
    texts: &[&str],
) -> Result<Option<Command>, AllocError>
    ensures some { IfOk result (λ c. IfSome c (λ c. SaysOf name (given_of options.now) (map (λ text. text.now) texts.now) (meaning_of c))) }
    ensures none { IfOk result (λ c. IfNone c (SaysNone name (given_of options.now) (map (λ text. text.now) texts.now))) }
{
    if are_allowed(name, options) {
        command_by_name(alloc, name, options, texts)
    } else {
        Ok(None)
    }
}

// The same where the command has each of these options.
fn command_by_name(
    alloc: Global,
    name: Name,
    options: &Options<'_>,
    texts: &[&str],
) -> Result<Option<Command>, AllocError>
    ensures some { IfOk result (λ c. IfSome c (λ c. HasValuesOf name (given_of options.now) (map (λ text. text.now) texts.now) (meaning_of c))) }
    ensures none { IfOk result (λ c. IfNone c (HasNoValues name (given_of options.now) (map (λ text. text.now) texts.now))) }
{
    match name {
        Name::Once => match once_with(alloc, options, texts)? {
            Some(once) => Ok(Some(Command::Once(once))),
            None => Ok(None),
        },
        Name::Serve => match serve_with(alloc, options, texts)? {
            Some(serve) => Ok(Some(Command::Serve(serve))),
            None => Ok(None),
        },
        Name::Book => match book_with(alloc, options, texts)? {
            Some(book) => Ok(Some(Command::Book(book))),
            None => Ok(None),
        },
        Name::Show => match show_with(alloc, options, texts)? {
            Some(show) => Ok(Some(Command::Show(show))),
            None => Ok(None),
        },
        Name::Conditions => match conditions_with(alloc, options, texts)? {
            Some(conditions) => Ok(Some(Command::Conditions(conditions))),
            None => Ok(None),
        },
        Name::Trial => match trial_with(texts) {
            Some(number) => Ok(Some(Command::Trial(number))),
            None => Ok(None),
        },
    }
}

// ---- which options go together

// Whether it is the option of the quantum.
fn is_quantum(option: OptionName) -> bool
    ensures { result ≡ is_quantum option }
{
    match option {
        OptionName::Quantum => true,
        _ => false,
    }
}

// Whether the option chooses a way of recording.
fn is_of_a_way(option: OptionName) -> bool
    ensures { result ≡ is_of_a_way option }
{
    match option {
        OptionName::Quantum | OptionName::Seed | OptionName::Free => true,
        OptionName::Book | OptionName::Only | OptionName::Json => false,
    }
}

// Whether a command has this option.
fn allows(name: Name, option: OptionName) -> bool
    ensures { result ≡ allows name option }
{
    match name {
        Name::Once => is_quantum(option),
        Name::Serve => true,
        Name::Book | Name::Show | Name::Conditions => is_of_a_way(option),
        Name::Trial => false,
    }
}

// Whether a command has this option, where it is given.
fn fits(name: Name, option: OptionName, is_given: bool) -> bool
    ensures { result ≡ fits name option is_given }
{
    !is_given || allows(name, option)
}

// Whether each option that is given is one of the command's.
fn are_allowed(name: Name, options: &Options<'_>) -> bool
    ensures { result ≡ are_allowed name (given_of options.now) }
{
    fits(name, OptionName::Quantum, options.quantum.is_some())
        && fits(name, OptionName::Seed, options.seed.is_some())
        && fits(name, OptionName::Free, options.free)
        && fits(name, OptionName::Book, options.book.is_some())
        && fits(name, OptionName::Only, options.only)
        && fits(name, OptionName::Json, options.json)
}

// Whether `--only` is left out, or stands beside `--book` and beside no option of a way of recording.
fn only_fits(options: &Options<'_>) -> bool
    ensures { result ≡ only_fits (given_of options.now) }
{
    !options.only
        || options.book.is_some()
            && options.quantum.is_none()
            && options.seed.is_none()
            && !options.free
}

// Whether the name of a book isn't empty, where there is one.
fn is_book_name(book: Option<&str>) -> bool
    ensures { result ≡ is_book_name (option_map (λ s. s.now) book.entry) }
{
    match book {
        Some(name) => !name.is_empty(),
        None => true,
    }
}

// ---- the commands

// The command `once` with these options and the numbers that these texts write.
fn once_with(
    alloc: Global,
    options: &Options<'_>,
    texts: &[&str],
) -> Result<Option<Once>, AllocError>
    ensures some { IfOk result (λ c. IfSome c
        (λ c. HasValues (given_of options.now) (map (λ text. text.now) texts.now) (once c.quantum c.numbers.items))) }
    ensures none { IfOk result (λ c. IfNone c ((quantum : ℕ) (numbers : List ℤ)
        → HasValues (given_of options.now) (map (λ text. text.now) texts.now) (once quantum numbers) → ⊥)) }
{
    let Some(RecordingWay::Rotating(quantum)) = chosen_way(options) else {
        return Ok(None);
    };
    match few_numbers(alloc, texts)? {
        Some(numbers) => Ok(Some(Once { quantum, numbers })),
        None => Ok(None),
    }
}

// The one positional.
fn only_text<'a>(texts: &[&'a str]) -> Option<&'a str>
    ensures some { IfSome result (λ text. map (λ text. text.now) texts.now ≡ text.now ∷ []) }
    ensures none { IfNone result ((text : Word) → map (λ text. text.now) texts.now ≡ text ∷ [] → ⊥) }
{
    match texts {
        [text] => Some(text),
        _ => None,
    }
}

// A text of its own.
fn owned(alloc: Global, text: Option<&str>) -> Result<Option<String>, AllocError>
    ensures { IfOk result (λ owned. option_map string_bytes owned ≡ option_map (λ s. s.now) text.entry) }
{
    match text {
        Some(text) => {
            let text = String::from_str(alloc, text)?;
            Ok(Some(text))
        }
        None => Ok(None),
    }
}

// The command `serve` with these options and the file that these texts name.
fn serve_with(
    alloc: Global,
    options: &Options<'_>,
    texts: &[&str],
) -> Result<Option<Serve>, AllocError>
    ensures some { IfOk result (λ c. IfSome c (λ c. HasSession (given_of options.now) (map (λ text. text.now) texts.now)
        (string_bytes c.file) c.way (option_map string_bytes c.book) c.only c.json)) }
    ensures none { IfOk result (λ c. IfNone c ((file : Word) (way : RecordingWay) (named : Option Word) (only json : Bool)
        → HasSession (given_of options.now) (map (λ text. text.now) texts.now) file way named only json → ⊥)) }
{
    let Some(way) = chosen_way(options) else {
        return Ok(None);
    };
    let Some(file) = only_text(texts) else {
        return Ok(None);
    };
    if !only_fits(options) || !is_book_name(options.book) {
        return Ok(None);
    }
    let book = owned(alloc, options.book)?;
    let file = String::from_str(alloc, file)?;
    Ok(Some(Serve {
        file,
        way,
        book,
        only: options.only,
        json: options.json,
    }))
}

// The command `book` with these options and the file that these texts name.
fn book_with(
    alloc: Global,
    options: &Options<'_>,
    texts: &[&str],
) -> Result<Option<Book>, AllocError>
    ensures some { IfOk result (λ c. IfSome c
        (λ c. HasValues (given_of options.now) (map (λ text. text.now) texts.now) (book (string_bytes c.file) c.way))) }
    ensures none { IfOk result (λ c. IfNone c ((file : Word) (way : RecordingWay)
        → HasValues (given_of options.now) (map (λ text. text.now) texts.now) (book file way) → ⊥)) }
{
    let Some(way) = chosen_way(options) else {
        return Ok(None);
    };
    match only_text(texts) {
        Some(file) => {
            let file = String::from_str(alloc, file)?;
            Ok(Some(Book { file, way }))
        }
        None => Ok(None),
    }
}

// The command `show` with these options, and the file and the numbers that these texts name and write.
fn show_with(
    alloc: Global,
    options: &Options<'_>,
    texts: &[&str],
) -> Result<Option<Show>, AllocError>
    ensures some { IfOk result (λ c. IfSome c (λ c. HasValues (given_of options.now) (map (λ text. text.now) texts.now)
        (show (string_bytes c.file) c.way c.numbers.items))) }
    ensures none { IfOk result (λ c. IfNone c ((file : Word) (way : RecordingWay) (numbers : List ℤ)
        → HasValues (given_of options.now) (map (λ text. text.now) texts.now) (show file way numbers) → ⊥)) }
{
    let Some(way) = chosen_way(options) else {
        return Ok(None);
    };
    match file_and_numbers(alloc, texts)? {
        Some(FileAndNumbers { file, numbers }) => Ok(Some(Show { file, way, numbers })),
        None => Ok(None),
    }
}

// The command `conditions`, likewise.
fn conditions_with(
    alloc: Global,
    options: &Options<'_>,
    texts: &[&str],
) -> Result<Option<Conditions>, AllocError>
    ensures some { IfOk result (λ c. IfSome c (λ c. HasValues (given_of options.now) (map (λ text. text.now) texts.now)
        (conditions (string_bytes c.file) c.way c.numbers.items))) }
    ensures none { IfOk result (λ c. IfNone c ((file : Word) (way : RecordingWay) (numbers : List ℤ)
        → HasValues (given_of options.now) (map (λ text. text.now) texts.now) (conditions file way numbers) → ⊥)) }
{
    let Some(way) = chosen_way(options) else {
        return Ok(None);
    };
    match file_and_numbers(alloc, texts)? {
        Some(FileAndNumbers { file, numbers }) => Ok(Some(Conditions { file, way, numbers })),
        None => Ok(None),
    }
}

#[derive(Drop)]
struct FileAndNumbers {
    file: String,
    numbers: Vec<i64>,
}

// The file and the numbers that these texts name and write.
fn file_and_numbers(alloc: Global, texts: &[&str]) -> Result<Option<FileAndNumbers>, AllocError>
    ensures some { IfOk result (λ c. IfSome c (λ c. HasFileAndNumbers (map (λ text. text.now) texts.now) (string_bytes c.file) c.numbers.items)) }
    ensures none { IfOk result (λ c. IfNone c ((file : Word) (numbers : List ℤ)
        → HasFileAndNumbers (map (λ text. text.now) texts.now) file numbers → ⊥)) }
{
    match texts {
        [file, texts @ ..] => match few_numbers(alloc, texts)? {
            Some(numbers) => {
                let file = String::from_str(alloc, file)?;
                Ok(Some(FileAndNumbers { file, numbers }))
            }
            None => Ok(None),
        },
        [] => Ok(None),
    }
}

// The number of the command `trial`.
fn trial_with(texts: &[&str]) -> Option<u64>
    ensures some { IfSome result (HasTrial (map (λ text. text.now) texts.now)) }
    ensures none { IfNone result ((n : ℕ) → HasTrial (map (λ text. text.now) texts.now) n → ⊥) }
{
    match only_text(texts) {
        Some(text) => trial_number(text.as_bytes()),
        None => None,
    }
}
