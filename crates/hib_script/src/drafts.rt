// A script as far as it was read.
ghost use Rattle.hib_script.specs.Drafts.{reader_of};
ghost use Rattle.hib_script.specs.Lines as lines;
ghost use Rattle.hib_script.specs.Outline.{outline_of};
ghost use Rattle.hib_script.specs.Script as order;
ghost use Rattle.std.specs.Prelude.{◌≡◌, OnOk, nat_lt};

use crate::places::{Part, Place};
use hib_base::{EntityDef, Script, Seq};
use hib_statements::{Given, NamedSessions};
use std::alloc::{AllocError, Global};
use std::mem::replace;

/// A script as far as it was read.
#[derive(Drop)]
pub struct Draft {
    /// What is finished, but for the rows and the sessions.
    pub script: Script,
    /// The rows so far.
    pub rows: Given,
    /// The sessions so far.
    pub sessions: NamedSessions,
    /// The entity whose columns are read, if there is one.
    pub entity: Option<EntityDef>,
    /// The statements of all sessions so far.
    pub statements: u32,
    /// Where the reader stands.
    pub place: Place,
}

/// The draft before the first line.
pub fn start(alloc: Global) -> Draft
    ensures { reader_of result ≡ order.start }
{
    Draft {
        script: Script {
            timeout: 1000,
            results: 100,
            mapping: Seq::new(alloc),
            rows: Seq::new(alloc),
            queries: Seq::new(alloc),
            sessions: Seq::new(alloc),
            schedule: Seq::new(alloc),
        },
        rows: Given::new(alloc),
        sessions: NamedSessions::new(alloc),
        entity: None,
        statements: 0,
        place: Place::Start,
    }
}

/// Notes that the reader stands after a line of this part of a script.
pub fn behind(part: Part, draft: &mut Draft)
    ensures { reader_of draft.new ≡ lines.behind part (reader_of draft.old) }
{
    draft.place = Place::Behind(part);
}

/// Notes that the reader stands at this place.
pub fn at(place: Place, draft: &mut Draft)
    ensures { reader_of draft.new ≡ lines.at place (reader_of draft.old) }
{
    draft.place = place;
}

/// Puts the entity whose columns were read among the finished ones, if there is one.
pub fn close(draft: &mut Draft) -> Result<(), AllocError>
    ensures { OnOk result (reader_of draft.new ≡ lines.closed (reader_of draft.old)) }
{
    match draft.entity.take() {
        Some(entity) => draft.script.mapping.push(entity),
        None => Ok(()),
    }
}

/// Takes the script out of a draft, with the rows and the sessions, and leaves a new draft.
pub fn take_script(alloc: Global, draft: &mut Draft) -> Script
    ensures { outline_of result ≡ (reader_of draft.old).outline }
{
    let Draft {
        mut script,
        rows,
        sessions,
        ..
    } = replace(draft, start(alloc));
    script.rows = rows.into_rows();
    script.sessions = sessions.into_sessions();
    script
}

/// Whether one more may come beside `count`, if `most` are the limit.
pub fn has_room(count: usize, most: usize) -> bool
    ensures { result ≡ nat_lt count most }
{
    count < most
}
