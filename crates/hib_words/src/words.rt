// What the words ask of the program: the command that they are.
ghost use Rattle.std.specs.Prelude.{option_map, ◌≡◌, IfOk, map, string_bytes};
ghost use Rattle.std.specs.Char.{is_ascii_digit};
ghost use Rattle.std.specs.List.{list_all};
ghost use Rattle.hib_words.specs.Commands.{asked, asked_of, command, in_range, is_numeral, is_value, number_between};
ghost use Rattle.hib_words.specs.Commands.{settings_in, settings_of};
ghost use Rattle.hib_words.specs.Matched.{chosen_of};
ghost use Rattle.hib_words.specs.Topics.{file_of, is_traced};

use crate::forms::{Verb, verb_named};
use crate::parse::{Found, parse};
use std::alloc::{AllocError, Global};

/// The most workers.
const MOST_WORKERS: u32 = 64;

/// What the words of a command line ask for.
#[derive(Drop)]
pub enum Command {
    /// A script is run by its schedule.
    Play {
        /// What it works on, and what it writes.
        options: Options,
    },
    /// A script is run on workers.
    Work {
        /// How many there are, 1 to 64.
        workers: u32,
        /// Each part stands behind a lock of its own.
        split: bool,
        /// What it works on, and what it writes.
        options: Options,
    },
    /// A script is made.
    Make {
        /// The number that it is made from.
        seed: u32,
        /// It is written, and not run.
        text: bool,
    },
    /// A journal is judged.
    Audit,
    /// A script is run with collections.
    Collect,
    /// A script is run with bulk changes.
    Bulk,
    /// A script is run at two nodes over one store.
    Nodes,
}

/// The options of both `play` and `work`.
#[derive(Drop)]
pub struct Options {
    /// The journal is written as JSON lines, in place of the report.
    pub journal: bool,
    /// Each step is told on standard error.
    pub trace: bool,
    /// The path of the file that the store is on, not empty and not beginning with a hyphen. With none it is in memory.
    pub file: Option<String>,
}

impl Command {
    /// The path of the file that it works on, if it names one.
    pub fn file(&self) -> Option<&str>
        ensures { option_map (λ path. path.now) result ≡ file_of (asked_of self.now) }
    {
        match self {
            Command::Play { options } => options.path(),
            Command::Work {
                workers: _,
                split: _,
                options,
            } => options.path(),
            _ => None,
        }
    }

    /// Whether its steps are told on standard error.
    pub fn is_traced(&self) -> bool
        ensures { result ≡ is_traced (asked_of self.now) }
    {
        match self {
            Command::Play { options } => options.trace,
            Command::Work {
                workers: _,
                split: _,
                options,
            } => options.trace,
            _ => false,
        }
    }
}

impl Options {
    fn path(&self) -> Option<&str>
        ensures { option_map (λ path. path.now) result ≡ option_map string_bytes self.now.file }
    {
        match &self.file {
            Some(path) => Some(path.as_str()),
            None => None,
        }
    }
}

/// Whether a text may be an option's value: it isn't empty and begins with no hyphen.
pub fn is_value(text: &str) -> bool
    ensures { result ≡ is_value text.now }
{
    let bytes = text.as_bytes();
    !bytes.is_empty() && bytes[0] != b'-'
}

/// Whether a text is decimal digits, with no sign and no leading zero.
fn is_numeral(text: &str) -> bool
    ensures { result ≡ is_numeral text.now }
{
    let bytes = text.as_bytes();
    if bytes.len() > 1 && bytes[0] == b'0' {
        return false;
    }
    !bytes.is_empty() && all_digits(bytes)
}

fn all_digits(bytes: &[u8]) -> bool
    ensures { result ≡ list_all is_ascii_digit bytes.now }
{
    bytes.iter().all(|byte| byte.is_ascii_digit())
}

/// The number that a text is, if it lies from low to high.
pub fn number_between(text: &str, low: u32, high: u32) -> Option<u32>
    ensures { result ≡ number_between low high text.now }
{
    if !is_numeral(text) {
        return None;
    }
    match text.parse::<u32>() {
        Ok(number) => in_range(number, low, high),
        Err(_) => None,
    }
}

fn in_range(number: u32, low: u32, high: u32) -> Option<u32>
    ensures { result ≡ in_range low high number }
{
    if low <= number && number <= high {
        Some(number)
    } else {
        None
    }
}

/// The options of `play` and `work`; none if the path of a file can't be one.
fn options_from(alloc: Global, found: &Found<'_>) -> Result<Option<Options>, AllocError>
    ensures { IfOk result (λ r. option_map settings_of r ≡ settings_in (chosen_of found.now)) }
{
    let file = match found.file {
        None => None,
        Some(path) => {
            if !is_value(path) {
                return Ok(None);
            }
            Some(String::from_str(alloc, path)?)
        }
    };
    Ok(Some(Options {
        journal: found.journal,
        trace: found.trace,
        file,
    }))
}

fn work(alloc: Global, found: &Found<'_>) -> Result<Option<Command>, AllocError>
    ensures { IfOk result (λ r. option_map asked_of r ≡ asked Verb.Work (chosen_of found.now)) }
{
    let Some(text) = found.workers else {
        return Ok(None);
    };
    let Some(workers) = number_between(text, 1, MOST_WORKERS) else {
        return Ok(None);
    };
    let Some(options) = options_from(alloc, found)? else {
        return Ok(None);
    };
    Ok(Some(Command::Work {
        workers,
        split: found.split,
        options,
    }))
}

fn make(found: &Found<'_>) -> Option<Command>
    ensures { option_map asked_of result ≡ asked Verb.Make (chosen_of found.now) }
{
    let seed = number_between(found.seed?, 0, u32::MAX)?;
    Some(Command::Make {
        seed,
        text: found.text,
    })
}

fn play(alloc: Global, found: &Found<'_>) -> Result<Option<Command>, AllocError>
    ensures { IfOk result (λ r. option_map asked_of r ≡ asked Verb.Play (chosen_of found.now)) }
{
    let Some(options) = options_from(alloc, found)? else {
        return Ok(None);
    };
    Ok(Some(Command::Play { options }))
}

/// The command that a verb with these options is; none if it is a tool's, or if an option is wrong or missing.
fn command_from(alloc: Global, verb: Verb, found: &Found<'_>) -> Result<Option<Command>, AllocError>
    ensures { IfOk result (λ r. option_map asked_of r ≡ asked verb (chosen_of found.now)) }
{
    match verb {
        Verb::Play => play(alloc, found),
        Verb::Work => work(alloc, found),
        Verb::Make => Ok(make(found)),
        Verb::Audit => Ok(Some(Command::Audit)),
        Verb::Collect => Ok(Some(Command::Collect)),
        Verb::Bulk => Ok(Some(Command::Bulk)),
        Verb::Nodes => Ok(Some(Command::Nodes)),
        Verb::Orders
        | Verb::Report
        | Verb::Flat
        | Verb::Schedule
        | Verb::Spans
        | Verb::States
        | Verb::Rows => Ok(None),
    }
}

/// The command that these words are, without the program's own name before them; none if and only if they have no form.
/// The only error is want of memory.
pub fn read(alloc: Global, words: &[String]) -> Result<Option<Command>, AllocError>
    ensures { IfOk result (λ r. option_map asked_of r ≡ command (map string_bytes words.now)) }
{
    let Some(first) = words.first() else {
        return Ok(None);
    };
    let Some(verb) = verb_named(first.as_str()) else {
        return Ok(None);
    };
    let Some(found) = parse(alloc, verb, words)? else {
        return Ok(None);
    };
    command_from(alloc, verb, &found)
}
