//! The words that name the commands and their options.
ghost use Rattle.std.specs.Prelude.{◌≡◌, ◌++◌, codes};
ghost use Rattle.pg_commands_words.specs.Lines.{named};
ghost use Rattle.pg_commands_words.specs.Pieces.{option_word, takes_value};

/// Which command it is.
#[derive(Clone, Copy, Debug, PartialEq, Eq)]
pub(crate) enum Name {
    Once,
    Serve,
    Book,
    Show,
    Conditions,
    Trial,
}

/// The command that a word names.
pub(crate) fn named(word: &str) -> Option<Name>
    ensures { result ≡ named word.now }
{
    if word == "once" {
        Some(Name::Once)
    } else if word == "serve" {
        Some(Name::Serve)
    } else if word == "book" {
        Some(Name::Book)
    } else if word == "show" {
        Some(Name::Show)
    } else if word == "conditions" {
        Some(Name::Conditions)
    } else if word == "trial" {
        Some(Name::Trial)
    } else {
        None
    }
}

/// Which option it is.
#[derive(Clone, Copy, Debug, PartialEq, Eq)]
pub(crate) enum OptionName {
    /// `--quantum` and the steps of a turn.
    Quantum,
    /// `--seed` and a number.
    Seed,
    /// The flag `--free`.
    Free,
    /// `--book` and a name.
    Book,
    /// The flag `--only`.
    Only,
    /// The flag `--json`.
    Json,
}

impl OptionName {
    /// The word of the option.
    pub(crate) fn word(self) -> &'static [u8]
        ensures { result.now ≡ option_word self }
    {
        match self {
            OptionName::Quantum => b"--quantum",
            OptionName::Seed => b"--seed",
            OptionName::Free => b"--free",
            OptionName::Book => b"--book",
            OptionName::Only => b"--only",
            OptionName::Json => b"--json",
        }
    }

    /// The word of the option and `=`, behind which its value stands.
    pub(crate) fn word_before_value(self) -> &'static [u8]
        ensures { result.now ≡ option_word self ++ codes "=" }
    {
        match self {
            OptionName::Quantum => b"--quantum=",
            OptionName::Seed => b"--seed=",
            OptionName::Free => b"--free=",
            OptionName::Book => b"--book=",
            OptionName::Only => b"--only=",
            OptionName::Json => b"--json=",
        }
    }

    /// Whether a value follows the option; the others are flags.
    pub(crate) fn takes_value(self) -> bool
        ensures { result ≡ takes_value self }
    {
        match self {
            OptionName::Quantum | OptionName::Seed | OptionName::Book => true,
            OptionName::Free | OptionName::Only | OptionName::Json => false,
        }
    }
}
