// The members of an entry that have names of their own, in groups.
ghost use Rattle.std.specs.Prelude.{◌≡◌, ◌++◌, OnOk};
ghost use Rattle.hib_flat.specs.Forms.{pieces};
ghost use Rattle.hib_flat.specs.Members as flat;
ghost use Rattle.hib_flat.specs.Members.{headings, subjects, results, times, marks, members};

use crate::form::Form;
use crate::lists::{put_list_member, put_names_member};
use crate::parts::{
    dropped_in, evicted_in, expected_in, floor_in, found_in, holders_in, key_in, killed_in,
    late_in, list_in, lock_in, query_in, released_in, stamp_in, stored_in, table_in, tables_in,
    time_in, until_in, version_in,
};
use crate::values::{
    put_bool_member, put_entity_member, put_number_member, put_query_member, put_session_member,
    put_word_if, put_word_member,
};
use crate::words::{act_word, cause_word, part_word, reply_word};
use hib_base::{EntityNo, Entry, Key, Script};
use std::alloc::{AllocError, Global};

/// Who did what at which part, and the word of the reply.
fn put_headings(
    out: &mut Vec<u8>,
    form: Form,
    script: &Script,
    entry: &Entry,
) -> Result<(), AllocError>
    ensures { OnOk result (out.new.items
        ≡ out.old.items ++ pieces form (headings script.now entry.now)) }
{
    put_session_member(out, form, script, b"session", entry.session)?;
    put_word_member(out, form, b"part", part_word(entry.part))?;
    put_word_member(out, form, b"act", act_word(&entry.act))?;
    put_word_member(out, form, b"reply", reply_word(&entry.reply))?;
    put_word_if(out, form, b"cause", cause_word(&entry.reply))?;
    put_session_member(out, form, script, b"killed", killed_in(&entry.act))
}

fn key_entity(key: &Option<Key>) -> Option<EntityNo>
    ensures { result ≡ flat.key_entity key.now }
{
    match key {
        None => None,
        Some(key) => Some(key.entity),
    }
}

fn key_id(key: &Option<Key>) -> Option<u64>
    ensures { result ≡ flat.key_id key.now }
{
    match key {
        None => None,
        Some(key) => Some(key.id),
    }
}

/// The key of the row that an entry is about, and versions of the row.
fn put_subjects(
    alloc: Global,
    out: &mut Vec<u8>,
    form: Form,
    script: &Script,
    entry: &Entry,
) -> Result<(), AllocError>
    ensures { OnOk result (out.new.items
        ≡ out.old.items ++ pieces form (subjects script.now entry.now)) }
{
    let key = key_in(&entry.act, &entry.reply);
    let version = version_in(&entry.act, &entry.reply);
    put_entity_member(out, form, script, b"entity", key_entity(&key))?;
    put_number_member(alloc, out, form, b"id", key_id(&key))?;
    put_number_member(alloc, out, form, b"version", version)?;
    put_number_member(alloc, out, form, b"expected", expected_in(&entry.act))?;
    put_number_member(alloc, out, form, b"found", found_in(&entry.reply))
}

/// What an entry says of queries, of kept results and of the stamps by which these are fresh.
fn put_results(
    alloc: Global,
    out: &mut Vec<u8>,
    form: Form,
    script: &Script,
    entry: &Entry,
) -> Result<(), AllocError>
    ensures { OnOk result (out.new.items
        ≡ out.old.items ++ pieces form (results script.now entry.now)) }
{
    let list = list_in(&entry.act, &entry.reply);
    put_query_member(out, form, script, b"query", query_in(&entry.act))?;
    put_query_member(out, form, script, b"dropped", dropped_in(&entry.reply))?;
    put_list_member(alloc, out, form, b"list", list)?;
    put_names_member(alloc, out, form, script, b"tables", tables_in(&entry.act))?;
    put_entity_member(out, form, script, b"table", table_in(&entry.reply))?;
    put_number_member(alloc, out, form, b"stamp", stamp_in(&entry.reply))
}

/// The ticks and locks that an entry names.
fn put_times(alloc: Global, out: &mut Vec<u8>, form: Form, entry: &Entry) -> Result<(), AllocError>
    ensures { OnOk result (out.new.items ≡ out.old.items ++ pieces form (times entry.now)) }
{
    let time = time_in(&entry.act, &entry.reply);
    let floor = floor_in(&entry.act, &entry.reply);
    let lock = lock_in(&entry.act, &entry.reply);
    put_number_member(alloc, out, form, b"time", time)?;
    put_number_member(alloc, out, form, b"floor", floor)?;
    put_number_member(alloc, out, form, b"lock", lock)?;
    put_number_member(alloc, out, form, b"until", until_in(&entry.reply))?;
    put_number_member(alloc, out, form, b"released", released_in(&entry.reply))?;
    put_number_member(alloc, out, form, b"stored", stored_in(&entry.reply))
}

/// How many hold a lock, which key was evicted, and whether a put was late.
fn put_marks(alloc: Global, out: &mut Vec<u8>, form: Form, entry: &Entry) -> Result<(), AllocError>
    ensures { OnOk result (out.new.items ≡ out.old.items ++ pieces form (marks entry.now)) }
{
    put_number_member(alloc, out, form, b"holders", holders_in(&entry.reply))?;
    put_number_member(alloc, out, form, b"evicted", evicted_in(&entry.reply))?;
    put_bool_member(out, form, b"late", late_in(&entry.reply))
}

/// All members of an entry that have names of their own, but for its tick.
pub fn put_members(
    alloc: Global,
    out: &mut Vec<u8>,
    form: Form,
    script: &Script,
    entry: &Entry,
) -> Result<(), AllocError>
    ensures { OnOk result (out.new.items
        ≡ out.old.items ++ pieces form (members script.now entry.now)) }
{
    put_headings(out, form, script, entry)?;
    put_subjects(alloc, out, form, script, entry)?;
    put_results(alloc, out, form, script, entry)?;
    put_times(alloc, out, form, entry)?;
    put_marks(alloc, out, form, entry)?;
    Ok(())
}
