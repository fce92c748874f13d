// The words of the command line.
use hib_trace_filed::{Limits, OrderBy};
use std::alloc::{AllocError, Global};

/// What the words ask for.
#[derive(Drop)]
pub struct Asked {
    /// What is allowed for.
    pub limits: Limits,
    /// How many findings are told at most.
    pub most: u64,
    /// The key whose lines are judged, if not all are.
    pub key: Option<String>,
}

/// An option.
#[derive(Clone, Copy, PartialEq, Eq)]
enum Name {
    Order,
    Clock,
    Allow,
    Most,
    Key,
}

/// The values that were given.
#[derive(Clone, Copy)]
struct Given<'a> {
    order: Option<&'a str>,
    clock: Option<&'a str>,
    allow: Option<&'a str>,
    most: Option<&'a str>,
    key: Option<&'a str>,
}

/// Whether the help is asked for.
pub fn is_help(words: &[String]) -> bool {
    match words {
        [word] => word.as_str() == "--help" || word.as_str() == "-h",
        _ => false,
    }
}

fn named(word: &str) -> Option<Name> {
    match word {
        "--order" => Some(Name::Order),
        "--clock" => Some(Name::Clock),
        "--allow" => Some(Name::Allow),
        "--at-most" => Some(Name::Most),
        "--key" => Some(Name::Key),
        _ => None,
    }
}

/// Takes a value; whether it is the first of its option.
fn take<'a>(given: &mut Given<'a>, name: Name, value: &'a str) -> bool {
    let place = match name {
        Name::Order => &mut given.order,
        Name::Clock => &mut given.clock,
        Name::Allow => &mut given.allow,
        Name::Most => &mut given.most,
        Name::Key => &mut given.key,
    };
    if place.is_some() {
        return false;
    }
    *place = Some(value);
    true
}

/// The values that words give: each option at most once, its value as the next word or after `=`.
fn given_in(words: &[String]) -> Option<Given<'_>> {
    let mut given = Given {
        order: None,
        clock: None,
        allow: None,
        most: None,
        key: None,
    };
    let mut open: Option<Name> = None;
    for word in words {
        let text = word.as_str();
        match open {
            Some(name) => {
                if !take(&mut given, name, text) {
                    return None;
                }
                open = None;
            }
            None => match text.split_once('=') {
                Some((word, value)) => {
                    let name = named(word)?;
                    if !take(&mut given, name, value) {
                        return None;
                    }
                }
                None => open = Some(named(text)?),
            },
        }
    }
    if open.is_some() { None } else { Some(given) }
}

/// The number that a text is, if it is one of 64 bits in decimal digits.
fn number_of(text: &str) -> Option<u64> {
    if text.is_empty() {
        return None;
    }
    let mut number: u64 = 0;
    for byte in text.as_bytes() {
        if !byte.is_ascii_digit() {
            return None;
        }
        number = number
            .checked_mul(10)?
            .checked_add(u64::from(byte.saturating_sub(b'0')))?;
    }
    Some(number)
}

/// The number of an option, or this one if it isn't given.
fn number_or(text: Option<&str>, default: u64) -> Option<u64> {
    match text {
        None => Some(default),
        Some(text) => number_of(text),
    }
}

/// What tells the order of a key's commits.
fn order_of(text: Option<&str>) -> Option<OrderBy> {
    match text {
        None | Some("commit") => Some(OrderBy::Commit),
        Some("version") => Some(OrderBy::Version),
        Some("write") => Some(OrderBy::Write),
        Some(_) => None,
    }
}

/// What the values allow for; none if one has no form.
fn limits_of(given: &Given<'_>) -> Option<Limits> {
    Some(Limits {
        order: order_of(given.order)?,
        clock: number_or(given.clock, 0)?,
        allow: number_or(given.allow, 0)?,
    })
}

/// What the words ask for; none if they have no form.
pub fn read_words(alloc: Global, words: &[String]) -> Result<Option<Asked>, AllocError> {
    let Some(given) = given_in(words) else {
        return Ok(None);
    };
    let Some(limits) = limits_of(&given) else {
        return Ok(None);
    };
    let Some(most) = number_or(given.most, u64::MAX) else {
        return Ok(None);
    };
    let key = match given.key {
        None => None,
        Some(text) => Some(String::from_str(alloc, text)?),
    };
    Ok(Some(Asked { limits, most, key }))
}
