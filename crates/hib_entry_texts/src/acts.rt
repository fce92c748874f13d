// The act that bytes look like, for the reader of journals. `x_act` and `x_of` make an act of the bytes after its word,
// whether or not they have its form: a wrong guess is found out when it is written again.
ghost use Rattle.hib_entry_texts.specs.Acts as format;
ghost use Rattle.hib_base.specs.Valid.{is_valid};
ghost use Rattle.std.specs.Prelude.{◌≡◌, IfOk, true};

use crate::changes::{own_act, store_act};
use crate::regions::region_act;
use hib_base::{Act, Script, Tick};
use hib_entry_fields::{
    SessionNames, after_one, cells_at, is, names_of, next, number_of, piece, query_of, session_of,
};
use std::alloc::{AllocError, Global};

fn registry_act(script: &Script, names: &SessionNames, word: &[u8], bytes: &[u8]) -> Act
    requires { is_valid script.now ≡ true }
    ensures { result ≡ format.registry_act script.now word.now bytes.now }
{
    if is(word, b"end") {
        Act::End
    } else if is(word, b"kill") {
        Act::Kill {
            session: session_of(script, names, next(bytes).0),
        }
    } else if is(word, b"restart") {
        Act::Restart
    } else {
        Act::Begin
    }
}

fn check_of(script: &Script, bytes: &[u8]) -> Act
    ensures { result ≡ format.check_of script.now bytes.now }
{
    let (name, rest) = next(bytes);
    let (_, rest) = next(rest);
    let (time, _) = next(rest);
    Act::Check {
        query: query_of(script, name),
        time: Tick(number_of(time)),
    }
}

fn stamps_act(alloc: Global, script: &Script, word: &[u8], bytes: &[u8]) -> Result<Act, AllocError>
    ensures { IfOk result (λ a. a ≡ format.stamps_act script.now word.now bytes.now) }
{
    if is(word, b"pre") {
        Ok(Act::Pre {
            tables: names_of(alloc, script, bytes)?,
        })
    } else if is(word, b"stamp") {
        Ok(Act::Stamp {
            tables: names_of(alloc, script, bytes)?,
        })
    } else {
        Ok(check_of(script, bytes))
    }
}

fn keep_of(alloc: Global, script: &Script, bytes: &[u8]) -> Result<Act, AllocError>
    ensures { IfOk result (λ a. a ≡ format.keep_of script.now bytes.now) }
{
    let (name, rest) = next(bytes);
    let (_, rest) = next(rest);
    let (time, rest) = next(rest);
    let (list, _) = cells_at(alloc, after_one(rest))?;
    Ok(Act::Keep {
        query: query_of(script, name),
        time: Tick(number_of(time)),
        list,
    })
}

fn results_act(alloc: Global, script: &Script, word: &[u8], bytes: &[u8]) -> Result<Act, AllocError>
    ensures { IfOk result (λ a. a ≡ format.results_act script.now word.now bytes.now) }
{
    if is(word, b"look") {
        Ok(Act::Look {
            query: query_of(script, next(bytes).0),
        })
    } else {
        keep_of(alloc, script, bytes)
    }
}

/// The act of a valid script that bytes look like; `part` is the word of the part that it is on. Fails for want of
/// memory alone.
#[tactic(auto, unfolding(crate::specs::Acts::act_of))]
pub fn act_of(
    alloc: Global,
    script: &Script,
    names: &SessionNames,
    part: &[u8],
    bytes: &[u8],
) -> Result<Act, AllocError>
    requires { is_valid script.now ≡ true }
    ensures { IfOk result (λ a. a ≡ format.act_of script.now part.now bytes.now) }
{
    let (word, rest) = piece(bytes);
    if is(part, b"own") {
        own_act(alloc, script, word, rest)
    } else if is(part, b"store") {
        store_act(alloc, script, word, rest)
    } else if is(part, b"stamps") {
        stamps_act(alloc, script, word, rest)
    } else if is(part, b"results") {
        results_act(alloc, script, word, rest)
    } else if is(part, b"region") {
        region_act(alloc, script, word, rest)
    } else {
        Ok(registry_act(script, names, word, rest))
    }
}
