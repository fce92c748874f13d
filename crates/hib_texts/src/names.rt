// The names that numbers stand for. A number that the script doesn't know has no name.
ghost use Rattle.std.specs.Prelude.{◌≡◌};
ghost use Rattle.hib_texts.specs.Texts.{entity_text, query_text, session_text, column_text};

use hib_base::{EntityNo, QueryNo, Script, SessionNo};

/// The name of an entity.
pub fn entity_name(script: &Script, entity: EntityNo) -> &[u8]
    ensures { result.now ≡ entity_text script.now entity }
{
    match script.mapping.as_slice().get(entity.0 as usize) {
        Some(def) => def.name.as_slice(),
        None => b"",
    }
}

/// The name of a query.
pub fn query_name(script: &Script, query: QueryNo) -> &[u8]
    ensures { result.now ≡ query_text script.now query }
{
    match script.queries.as_slice().get(query.0 as usize) {
        Some(def) => def.name.as_slice(),
        None => b"",
    }
}

/// The name of a session.
pub fn session_name(script: &Script, session: SessionNo) -> &[u8]
    ensures { result.now ≡ session_text script.now session }
{
    match script.sessions.as_slice().get(session.0 as usize) {
        Some(def) => def.name.as_slice(),
        None => b"",
    }
}

/// The name of a column of an entity.
pub fn column_name(script: &Script, entity: EntityNo, column: u16) -> &[u8]
    ensures { result.now ≡ column_text script.now entity column }
{
    let Some(def) = script.mapping.as_slice().get(entity.0 as usize) else {
        return b"";
    };
    match def.columns.as_slice().get(column as usize) {
        Some(column) => column.name.as_slice(),
        None => b"",
    }
}
