// The numbers of the names that bytes look like. A name that the script doesn't have looks like the first one.
ghost use Rattle.hib_entry_fields.specs.Fields as format;
ghost use Rattle.std.specs.Prelude.{◌≡◌, ◌^◌, IfOk, bytes_eq, length, position};

use crate::fields::{next, number_of};
use hib_base::{ColumnDef, EntityDef, EntityNo, Key, Names, Query, QueryNo, Script, Seq};
use std::alloc::{AllocError, Global};

/// A place, if it has 16 bits at most; else 0.
fn small16(place: Option<usize>) -> u16
    ensures { result ≡ format.place (2 ^ 16) place }
{
    match place {
        Some(i) if i < 1 << 16 => i as u16,
        _ => 0,
    }
}

fn entity_place(mapping: &[EntityDef], name: &[u8]) -> Option<usize>
    ensures { result ≡ position (λ d. bytes_eq d.name name.now) mapping.now }
{
    mapping.iter().position(|d| d.name.as_slice() == name)
}

fn query_place(queries: &[Query], name: &[u8]) -> Option<usize>
    ensures { result ≡ position (λ d. bytes_eq d.name name.now) queries.now }
{
    queries.iter().position(|d| d.name.as_slice() == name)
}

fn column_place(columns: &[ColumnDef], name: &[u8]) -> Option<usize>
    ensures { result ≡ position (λ d. bytes_eq d.name name.now) columns.now }
{
    columns.iter().position(|d| d.name.as_slice() == name)
}

/// The entity that a name looks like, by its number.
#[tactic(auto, unfolding(crate::specs::Fields::entity_of))]
pub fn entity_of(script: &Script, name: &[u8]) -> EntityNo
    ensures { result ≡ format.entity_of script.now name.now }
{
    EntityNo(small16(entity_place(script.mapping.as_slice(), name)))
}

/// The query that a name looks like, by its number.
#[tactic(auto, unfolding(crate::specs::Fields::query_of))]
pub fn query_of(script: &Script, name: &[u8]) -> QueryNo
    ensures { result ≡ format.query_of script.now name.now }
{
    QueryNo(small16(query_place(script.queries.as_slice(), name)))
}

/// The column of an entity that a name looks like, by its place.
#[tactic(auto, unfolding(crate::specs::Fields::column_of))]
pub fn column_of(script: &Script, entity: EntityNo, name: &[u8]) -> u16
    ensures { result ≡ format.column_of script.now entity name.now }
{
    match script.mapping.as_slice().get(entity.0 as usize) {
        Some(def) => small16(column_place(def.columns.as_slice(), name)),
        None => 0,
    }
}

/// The key after a space, and what follows it.
#[tactic(auto, unfolding(crate::specs::Fields::key_at, crate::specs::Fields::after_key))]
pub fn key_at<'a>(script: &Script, bytes: &'a [u8]) -> (Key, &'a [u8])
    ensures key { result.0 ≡ format.key_at script.now bytes.now }
    ensures after { result.1.now ≡ format.after_key bytes.now }
{
    let (name, rest) = next(bytes);
    let (id, rest) = next(rest);
    (
        Key {
            entity: entity_of(script, name),
            id: number_of(id),
        },
        rest,
    )
}

/// The entities whose names stand here, each after a space. Fails for want of memory alone.
#[tactic(auto, using(crate::proofs::Loops::names_go_on, crate::proofs::Loops::names_stop, crate::proofs::Loops::names_end))]
pub fn names_of(alloc: Global, script: &Script, bytes: &[u8]) -> Result<Names, AllocError>
    ensures { IfOk result (λ n. n ≡ format.names_from script.now (length bytes.now) bytes.now) }
{
    let mut names = Vec::new(alloc);
    let mut rest = bytes;
    for _ in 0..bytes.len() {
        if rest.is_empty() {
            return Ok(Seq::from_vec(names));
        }
        let (name, after) = next(rest);
        names.push(entity_of(script, name))?;
        rest = after;
    }
    Ok(Seq::from_vec(names))
}
