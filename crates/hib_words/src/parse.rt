// The options that the words after the first give, read by clap.
ghost use Rattle.std.specs.Prelude.{option_map, ◌≡◌, IfOk, drop, map, string_bytes};
ghost use Rattle.std.specs.List.{list_all};
ghost use Rattle.hib_words.specs.Given.{options_in};
ghost use Rattle.hib_words.specs.Matched.{HoldsGiven, chosen_of, is_fit};
ghost use Rattle.hib_words.specs.Commands.{chosen_in, form_of};

use crate::forms::{Verb, command_for};
use clap::ArgMatches;
use clap::error::ErrorKind;
use std::alloc::{AllocError, Global};

/// The options that the words give, each value as it is written.
#[derive(Clone, Copy)]
pub struct Found<'a> {
    /// `--journal` is among them.
    pub journal: bool,
    /// `--trace` is among them.
    pub trace: bool,
    /// `--split` is among them.
    pub split: bool,
    /// `--text` is among them.
    pub text: bool,
    /// The value of `--file`.
    pub file: Option<&'a str>,
    /// The value of `--workers`.
    pub workers: Option<&'a str>,
    /// The value of `--seed`.
    pub seed: Option<&'a str>,
    /// The value of `--switches`.
    pub switches: Option<&'a str>,
    /// The value of `--at-most`.
    pub at_most: Option<&'a str>,
    /// The value of `--show`.
    pub show: Option<&'a str>,
    /// The value of `--kills`.
    pub kills: Option<&'a str>,
    /// `--csv` is among them.
    pub csv: bool,
    /// `--jaeger` is among them.
    pub jaeger: bool,
}

/// Whether clap reads a word as our definition does: the word begins with no hyphen, or with two before something more.
/// A command line with any other word after the first has no form.
fn is_fit(word: &str) -> bool
    ensures { result ≡ is_fit word.now }
{
    let bytes = word.as_bytes();
    if bytes.is_empty() || bytes[0] != b'-' {
        return true;
    }
    bytes.len() > 2 && bytes[1] == b'-'
}

fn all_fit_after_first(words: &[String]) -> bool
    ensures { result ≡ list_all (λ w. is_fit (string_bytes w)) (drop 1 words.now) }
{
    words.iter().skip(1).all(|word| is_fit(word.as_str()))
}

/// What clap finds in the words, the first of which is the verb; none if they have no form.
fn matches_for<'a>(
    alloc: Global,
    verb: Verb,
    words: &'a [String],
) -> Result<Option<ArgMatches<'a>>, AllocError>
    ensures { IfOk result (HoldsGiven (form_of verb)
        (options_in (form_of verb) (drop 1 (map string_bytes words.entry.now)))) }
{
    if !all_fit_after_first(words) {
        return Ok(None);
    }
    let command = command_for(alloc, verb)?;
    match command.try_get_matches_from(words) {
        Ok(matches) => Ok(Some(matches)),
        Err(error) => match error.kind() {
            ErrorKind::OutOfMemory => Err(AllocError),
            _ => Ok(None),
        },
    }
}

/// The options that the words after the first give; none if they have no form.
pub fn parse<'a>(
    alloc: Global,
    verb: Verb,
    words: &'a [String],
) -> Result<Option<Found<'a>>, AllocError>
    ensures { IfOk result (λ r. option_map chosen_of r
        ≡ option_map chosen_in (options_in (form_of verb)
        (drop 1 (map string_bytes words.entry.now)))) }
{
    let Some(matches) = matches_for(alloc, verb, words)? else {
        return Ok(None);
    };
    let journal = matches.get_flag("journal");
    let trace = matches.get_flag("trace");
    let split = matches.get_flag("split");
    let text = matches.get_flag("text");
    let file = matches.get_str("file");
    let workers = matches.get_str("workers");
    let seed = matches.get_str("seed");
    let switches = matches.get_str("switches");
    let at_most = matches.get_str("at-most");
    let show = matches.get_str("show");
    let kills = matches.get_str("kills");
    let csv = matches.get_flag("csv");
    let jaeger = matches.get_flag("jaeger");
    Ok(Some(Found {
        journal,
        trace,
        split,
        text,
        file,
        workers,
        seed,
        switches,
        at_most,
        show,
        kills,
        csv,
        jaeger,
    }))
}
