//! Where each word of a command line stands: before the parser reads the words, a test that it refuses none of them.
ghost use Rattle.std.specs.Prelude.{◌≡◌, map, string_bytes};
ghost use Rattle.pg_commands_words.specs.Pieces.{begins_with_hyphen, is_name};
ghost use Rattle.pg_commands_words.specs.Lines.{after_role, after_option, after_value, ends_pieces, has_seen, is_line, role_of, role_as, name_of_line, nothing_seen, option_role, opening, seen_more, stands_after};

use crate::names::{Name, OptionName, named};

/// What a word is, where no value is missing before it.
#[derive(Clone, Copy, Debug, PartialEq, Eq)]
pub(crate) enum Role {
    /// A positional.
    Plain,
    /// A flag, or an option with its value.
    Whole(OptionName),
    /// An option, whose value is the next word.
    Opens(OptionName),
}

/// Which options were seen.
#[derive(Clone, Copy, Debug, PartialEq, Eq)]
pub(crate) struct Seen {
    quantum: bool,
    seed: bool,
    free: bool,
    book: bool,
    only: bool,
    json: bool,
}

/// How a line stands behind some of its words.
#[derive(Clone, Copy, Debug, PartialEq, Eq)]
pub(crate) struct Standing {
    seen: Seen,
    /// The value of the last option is missing.
    waits: bool,
}

impl Seen {
    // No option.
    fn nothing() -> Seen
        ensures { result ≡ nothing_seen }
    {
        Seen {
            quantum: false,
            seed: false,
            free: false,
            book: false,
            only: false,
            json: false,
        }
    }

    // Whether the option was seen.
    fn has(self, option: OptionName) -> bool
        ensures { result ≡ has_seen self option }
    {
        match option {
            OptionName::Quantum => self.quantum,
            OptionName::Seed => self.seed,
            OptionName::Free => self.free,
            OptionName::Book => self.book,
            OptionName::Only => self.only,
            OptionName::Json => self.json,
        }
    }

    // One option more.
    fn more(self, option: OptionName) -> Seen
        ensures { result ≡ seen_more self option }
    {
        let mut seen = self;
        match option {
            OptionName::Quantum => seen.quantum = true,
            OptionName::Seed => seen.seed = true,
            OptionName::Free => seen.free = true,
            OptionName::Book => seen.book = true,
            OptionName::Only => seen.only = true,
            OptionName::Json => seen.json = true,
        }
        seen
    }
}

/// The command whose word the words begin with, if a line stands behind it.
pub(crate) fn name_of_line(words: &[String]) -> Option<Name>
    ensures { result ≡ name_of_line (map string_bytes words.now) }
{
    match words {
        [first, rest @ ..] if is_a_line(rest) => named(first.as_str()),
        _ => None,
    }
}

// Whether each word other than `-` that begins with `-`, before a word `--`, is an option, which has its value if it takes
// one and stands there at most once. The words are those after the command word.
fn is_a_line(words: &[String]) -> bool
    ensures { result ≡ is_line (map string_bytes words.now) }
{
    let mut standing = Standing {
        seen: Seen::nothing(),
        waits: false,
    };
    // The label is for the proof: see docs/CONTRIBUTING.md.
    'words: for place in 0..words.len() {
        let word = words[place].as_bytes();
        if ends_pieces(standing, word) {
            return true;
        }
        match stands_after(standing, word) {
            Some(next) => standing = next,
            None => return false,
        }
    }
    !standing.waits
}

// Whether a word ends the pieces: it is `--`, and no value.
fn ends_pieces(standing: Standing, word: &[u8]) -> bool
    ensures { result ≡ ends_pieces standing word.now }
{
    !standing.waits && word == b"--".as_slice()
}

// How the line stands with one word more, and none where the word may not stand there.
fn stands_after(standing: Standing, word: &[u8]) -> Option<Standing>
    ensures { result ≡ stands_after standing word.now }
{
    if standing.waits {
        after_value(standing.seen, word)
    } else {
        after_role(standing.seen, role_of(word))
    }
}

// The same where a value is missing: the word is it.
fn after_value(seen: Seen, word: &[u8]) -> Option<Standing>
    ensures { result ≡ after_value seen word.now }
{
    if begins_with_hyphen(word) {
        None
    } else {
        Some(Standing { seen, waits: false })
    }
}

// The same where no value is missing, by what the word is.
fn after_role(seen: Seen, role: Option<Role>) -> Option<Standing>
    ensures { result ≡ after_role seen role }
{
    match role {
        None => None,
        Some(Role::Plain) => Some(Standing { seen, waits: false }),
        Some(Role::Whole(option)) => after_option(seen, option, false),
        Some(Role::Opens(option)) => after_option(seen, option, true),
    }
}

// The same behind an option, which wasn't seen before.
fn after_option(seen: Seen, option: OptionName, waits: bool) -> Option<Standing>
    ensures { result ≡ after_option seen option waits }
{
    if seen.has(option) {
        None
    } else {
        Some(Standing {
            seen: seen.more(option),
            waits,
        })
    }
}

// What a word is where no value is missing, and none where it may not stand there.
fn role_of(word: &[u8]) -> Option<Role>
    ensures { result ≡ role_of word.now }
{
    if is_name(word) {
        Some(Role::Plain)
    } else {
        option_role(word)
    }
}

// What a word is of some option.
fn option_role(word: &[u8]) -> Option<Role>
    ensures { result ≡ option_role word.now }
{
    role_as(OptionName::Quantum, word)
        .or(role_as(OptionName::Seed, word))
        .or(role_as(OptionName::Free, word))
        .or(role_as(OptionName::Book, word))
        .or(role_as(OptionName::Only, word))
        .or(role_as(OptionName::Json, word))
}

// What a word is of this option.
fn role_as(option: OptionName, word: &[u8]) -> Option<Role>
    ensures { result ≡ role_as option word.now }
{
    if word == option.word() {
        Some(opening(option))
    } else if option.takes_value() && word.starts_with(option.word_before_value()) {
        Some(Role::Whole(option))
    } else {
        None
    }
}

// What the word of an option is.
fn opening(option: OptionName) -> Role
    ensures { result ≡ opening option }
{
    if option.takes_value() {
        Role::Opens(option)
    } else {
        Role::Whole(option)
    }
}

// Whether a word is `-`, or doesn't begin so.
fn is_name(word: &[u8]) -> bool
    ensures { result ≡ is_name word.now }
{
    !begins_with_hyphen(word) || word == b"-".as_slice()
}

fn begins_with_hyphen(word: &[u8]) -> bool
    ensures { result ≡ begins_with_hyphen word.now }
{
    match word {
        [first, ..] => *first == b'-',
        [] => false,
    }
}
