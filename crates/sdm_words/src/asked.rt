//! Which part of the program the words ask for.

ghost use Rattle.std.specs.Prelude.{◌≡◌, map, string_bytes};
ghost use Rattle.sdm_words.specs.Words.{asked_by_word, asked_of};

use crate::about::About;

/// What the words ask for. (own)
#[derive(Clone, Copy, Debug, PartialEq, Eq)]
pub enum Asked {
    /// `live`: an answer to each record as soon as it has come.
    Live,
    /// `version` or `help`: what the program says of itself.
    About(About),
    /// Any other words: a command that reads its input before it answers, or none.
    Command,
}

/// What the words ask for. (own)
pub fn asked_of(words: &[String]) -> Asked
    ensures { result ≡ asked_of (map string_bytes words.now) }
{
    match words {
        [word] => asked_by_word(word.as_str()),
        _ => Asked::Command,
    }
}

/// What a word alone asks for.
#[tactic(auto, unfolding(crate::specs::Words::asked_by_word))]
fn asked_by_word(word: &str) -> Asked
    ensures { result ≡ asked_by_word word.now }
{
    match word {
        "live" => Asked::Live,
        "version" => Asked::About(About::Version),
        "help" => Asked::About(About::Help),
        _ => Asked::Command,
    }
}
