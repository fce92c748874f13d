// What the words behind `tools` ask for. hib_run and hib_toolbox read them here.
ghost use Rattle.std.specs.Prelude.{option_map, ◌≡◌, IfOk, map, string_bytes};
ghost use Rattle.hib_words.specs.Matched.{chosen_of};
ghost use Rattle.hib_words.specs.Tools.{file_in, number_if_any, tool_asked, tool_command};

use crate::forms::{Verb, tool_named};
use crate::parse::{Found, parse};
use crate::words::{is_value, number_between};
use std::alloc::{AllocError, Global};

/// The most switches of an order.
const MOST_SWITCHES: u32 = 64;

/// The most sessions that are killed in an order.
const MOST_KILLS: u32 = 64;

/// What the words of a command line ask of the tools.
#[derive(Clone, Copy, Debug, PartialEq, Eq)]
pub enum Tool {
    /// The orders of a script's sessions are tried.
    Orders {
        /// How many switches an order may make, 0 to 64.
        switches: u32,
        /// How many sessions may be killed, 0 to 64.
        kills: u32,
        /// How many orders are tried at most, 1 to 4294967295.
        at_most: Option<u32>,
        /// The number of a finding, 1 to 5, whose schedule is written with the script, and nothing else.
        show: Option<u32>,
    },
    /// The report of a journal is written.
    Report,
    /// A journal is written with a member for each thing.
    Flat {
        /// As columns, and not as objects.
        csv: bool,
    },
    /// The script that repeats a journal is written.
    Schedule,
    /// A journal is written as a trace.
    Spans {
        /// For Jaeger, and not for Perfetto.
        jaeger: bool,
    },
    /// The state after each entry of a journal is written.
    States,
    /// The rows of a file are written.
    Rows,
}

/// The number that a text is, if the text is there; the outer none if it is out of its range.
fn number_if_any(text: Option<&str>, low: u32, high: u32) -> Option<Option<u32>>
    ensures { result ≡ number_if_any low high (option_map (λ s. s.now) text.entry) }
{
    match text {
        None => Some(None),
        Some(text) => match number_between(text, low, high) {
            Some(number) => Some(Some(number)),
            None => None,
        },
    }
}

/// The search of orders that the options ask for; none if a number is out of its range.
fn orders(found: &Found<'_>) -> Option<Tool>
    ensures { result ≡ tool_asked Verb.Orders (chosen_of found.now) }
{
    let Some(switches) = number_if_any(found.switches, 0, MOST_SWITCHES) else {
        return None;
    };
    let Some(kills) = number_if_any(found.kills, 0, MOST_KILLS) else {
        return None;
    };
    let Some(at_most) = number_if_any(found.at_most, 1, u32::MAX) else {
        return None;
    };
    let Some(show) = number_if_any(found.show, 1, 5) else {
        return None;
    };
    Some(Tool::Orders {
        switches: switches.unwrap_or(2),
        kills: kills.unwrap_or(0),
        at_most,
        show,
    })
}

fn rows(found: &Found<'_>) -> Option<Tool>
    ensures { result ≡ tool_asked Verb.Rows (chosen_of found.now) }
{
    match found.file {
        Some(path) => {
            if is_value(path) {
                Some(Tool::Rows)
            } else {
                None
            }
        }
        None => None,
    }
}

/// What a command with these options asks of the tools; none if it is one of the program.
fn tool_from(verb: Verb, found: &Found<'_>) -> Option<Tool>
    ensures { result ≡ tool_asked verb (chosen_of found.now) }
{
    match verb {
        Verb::Orders => orders(found),
        Verb::Report => Some(Tool::Report),
        Verb::Flat => Some(Tool::Flat { csv: found.csv }),
        Verb::Schedule => Some(Tool::Schedule),
        Verb::Spans => Some(Tool::Spans {
            jaeger: found.jaeger,
        }),
        Verb::States => Some(Tool::States),
        Verb::Rows => rows(found),
        _ => None,
    }
}

/// What these words ask of the tools, without the program's own name before them; none if and only if they have no
/// form. The only error is want of memory.
pub fn read_tool(alloc: Global, words: &[String]) -> Result<Option<Tool>, AllocError>
    ensures { IfOk result (λ r. r ≡ tool_command (map string_bytes words.now)) }
{
    let Some(first) = words.first() else {
        return Ok(None);
    };
    let Some(verb) = tool_named(first.as_str()) else {
        return Ok(None);
    };
    let Some(found) = parse(alloc, verb, words)? else {
        return Ok(None);
    };
    Ok(tool_from(verb, &found))
}

/// The path of the file that these words name, if they name one; hib_run opens it. The only error is want of memory.
pub fn file_of_tool<'a>(alloc: Global, words: &'a [String]) -> Result<Option<&'a str>, AllocError>
    ensures { IfOk result (λ r. option_map (λ s. s.now) r
        ≡ file_in (map string_bytes words.entry.now)) }
{
    let Some(first) = words.first() else {
        return Ok(None);
    };
    let Some(verb) = tool_named(first.as_str()) else {
        return Ok(None);
    };
    match parse(alloc, verb, words)? {
        Some(found) => Ok(found.file),
        None => Ok(None),
    }
}
