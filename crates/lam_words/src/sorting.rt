//! Words sorted into positional texts and the values of options.

ghost use Rattle.std.specs.Prelude.{◌≡◌, option_map, map, string_bytes, codes, bytes_eq};
ghost use Rattle.lam_words.specs.Sorting as spec;
ghost use Rattle.lam_words.specs.inside.Spelled.{sorted_of, reached_of};

use crate::option_name::{Expects, OptionName};
use crate::said::Said;

// What the words said so far, and what the next one may be.
#[derive(Clone, Copy)]
struct Reached<'a> {
    expects: Expects,
    said: Said<'a>,
}

/// Sorts the words that follow the program's name. None where they can't be sorted.
pub(crate) fn sorted(words: &[String]) -> Option<Said<'_>>
    ensures { option_map sorted_of result ≡ spec.sorted_words (map string_bytes words.now) }
{
    let mut reached = Reached {
        expects: Expects::Word,
        said: Said::nothing(),
    };
    for word in words {
        reached = match after_word(reached, word.as_str()) {
            Some(next) => next,
            None => return None,
        };
    }
    match reached.expects {
        Expects::Word | Expects::Text => Some(reached.said),
        Expects::Value(_) => None,
    }
}

// after one more word
fn after_word<'a>(reached: Reached<'a>, word: &'a str) -> Option<Reached<'a>>
    ensures { option_map reached_of result
        ≡ spec.after_word (reached_of reached.entry) word.entry.now }
{
    let said = reached.said;
    match reached.expects {
        Expects::Word => any_word(said, word),
        Expects::Value(option) => {
            if begins_with_dash(word) {
                return None;
            }
            then_word(Expects::Word, said.with_value(option, word))
        }
        Expects::Text => then_word(Expects::Text, said.with_text(word)),
    }
}

// a word before `--`
fn any_word<'a>(said: Said<'a>, word: &'a str) -> Option<Reached<'a>>
    ensures { option_map reached_of result ≡ spec.any_word (sorted_of said.entry) word.entry.now }
{
    if word == "--" {
        return then_word(Expects::Text, Some(said));
    }
    if word == "--guide" {
        return then_word(Expects::Value(OptionName::Guide), Some(said));
    }
    if word == "--nodes" {
        return then_word(Expects::Value(OptionName::Nodes), Some(said));
    }
    attached_word(said, word)
}

// an option with its value in one word, or a word that is no option
fn attached_word<'a>(said: Said<'a>, word: &'a str) -> Option<Reached<'a>>
    ensures { option_map reached_of result
        ≡ spec.attached_word (sorted_of said.entry) word.entry.now
        (spec.after_prefix (codes "--guide=") word.entry.now) }
{
    if let Some(value) = after_prefix(word, "--guide=") {
        return then_word(Expects::Word, said.with_value(OptionName::Guide, value));
    }
    if let Some(value) = after_prefix(word, "--nodes=") {
        return then_word(Expects::Word, said.with_value(OptionName::Nodes, value));
    }
    if is_dashed(word) {
        return None;
    }
    then_word(Expects::Word, said.with_text(word))
}

// what the next word may be, after what was said
fn then_word(expects: Expects, said: Option<Said<'_>>) -> Option<Reached<'_>>
    ensures { option_map reached_of result
        ≡ spec.then_word expects (option_map sorted_of said.entry) }
{
    match said {
        Some(said) => Some(Reached { expects, said }),
        None => None,
    }
}

// what follows a prefix
fn after_prefix<'a>(word: &'a str, prefix: &str) -> Option<&'a str>
    ensures { option_map (λ s. s.now) result ≡ spec.after_prefix prefix.now word.entry.now }
{
    word.strip_prefix(prefix)
}

// whether the word begins with `-`
fn begins_with_dash(word: &str) -> bool
    ensures { result ≡ spec.begins_with_dash word.now }
{
    matches!(word.as_bytes(), [b'-', ..])
}

// whether the word begins with `-` and is longer than one character
fn is_dashed(word: &str) -> bool
    ensures { result ≡ spec.is_dashed word.now }
{
    matches!(word.as_bytes(), [b'-', _, ..])
}
