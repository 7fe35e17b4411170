//! The command of clap.

ghost use Rattle.std.specs.Prelude.{◌≡◌, option_map, map, string_bytes, Some, IfOk, is_some, true, false};
ghost use Rattle.clap.specs.Words.{app_of, found_of, rows_of, rule_of};
ghost use Rattle.lam_words.specs.Reading.{reading};
ghost use Rattle.lam_words.specs.Sorting.{sorted_words};
ghost use Rattle.lam_words.specs.inside.Command.{words_app, bare_app, text_rule, option_rule, rows_said, leading};
ghost use Rattle.lam_words.specs.inside.Spelled.{sorted_of};
ghost use Rattle.lam_words.specs.inside.Spelled as held;

use crate::said::{Said, Texts};
use clap::error::ErrorKind;
use clap::{Arg, ArgMatches, Command};
use std::alloc::{AllocError, Global};

/// The positional texts and the values of the options of words that have a reading, as clap reads
/// them.
pub(crate) fn said_by_clap(alloc: Global, words: &[String]) -> Result<Said<'_>, AllocError>
    requires { is_some (reading (map string_bytes words.now)) ≡ true }
    ensures { IfOk result
        (λ said. sorted_words (map string_bytes words.now) ≡ Some (sorted_of said)) }
{
    let command = match command(alloc) {
        Ok(command) => command,
        Err(error) => return Err(error),
    };
    match command.try_get_matches_from(words) {
        Ok(matches) => Ok(said_by(&matches)),
        Err(error) => match error.kind() {
            ErrorKind::OutOfMemory => Err(AllocError),
            _ => unreachable!(),
        },
    }
}

// four positional texts, of which two are required, and two options
fn command<'a>(alloc: Global) -> Result<Command<'a>, AllocError>
    ensures { IfOk result (λ command. app_of command ≡ words_app) }
{
    bare_command(alloc)
        .arg(positional(alloc, "mode", true))?
        .arg(positional(alloc, "first", true))?
        .arg(positional(alloc, "second", false))?
        .arg(positional(alloc, "third", false))?
        .arg(option(alloc, "guide"))?
        .arg(option(alloc, "nodes"))
}

// no argument, not even the flag for help; the words don't begin with the program's name
fn bare_command<'a>(alloc: Global) -> Command<'a>
    ensures { app_of result ≡ bare_app }
{
    Command::new(alloc, "laminate")
        .no_binary_name(true)
        .disable_help_flag(true)
}

// a positional text
fn positional<'a>(alloc: Global, name: &'a str, required: bool) -> Arg<'a>
    ensures rule { rule_of result ≡ text_rule name.entry.now required }
    ensures local { result.global ≡ false }
{
    Arg::new(alloc, name).required(required)
}

// an option with a value
fn option<'a>(alloc: Global, name: &'a str) -> Arg<'a>
    ensures rule { rule_of result ≡ option_rule name.entry.now }
    ensures local { result.global ≡ false }
{
    Arg::new(alloc, name).long(name)
}

// what clap found
fn said_by<'a>(matches: &ArgMatches<'a>) -> Said<'a>
    ensures { sorted_of result ≡ rows_said (rows_of (found_of matches.now)) }
{
    let mode = matches.get_str("mode");
    let first = matches.get_str("first");
    let second = matches.get_str("second");
    let third = matches.get_str("third");
    Said {
        texts: texts_of(mode, first, second, third),
        guide: matches.get_str("guide"),
        nodes: matches.get_str("nodes"),
    }
}

// the texts in order, as far as they go
fn texts_of<'a>(
    mode: Option<&'a str>,
    first: Option<&'a str>,
    second: Option<&'a str>,
    third: Option<&'a str>,
) -> Texts<'a>
    ensures { held.texts_of result ≡ leading (option_map (λ s. s.now) mode.entry)
        (option_map (λ s. s.now) first.entry) (option_map (λ s. s.now) second.entry)
        (option_map (λ s. s.now) third.entry) }
{
    match (mode, first, second, third) {
        (Some(a), Some(b), Some(c), Some(d)) => Texts::Four(a, b, c, d),
        (Some(a), Some(b), Some(c), None) => Texts::Three(a, b, c),
        (Some(a), Some(b), None, _) => Texts::Two(a, b),
        (Some(a), None, _, _) => Texts::One(a),
        (None, _, _, _) => Texts::None,
    }
}
