// The sessions of a script by their names, for the reader of journals, who looks one up for each entry.
ghost use Rattle.hib_base.specs.Valid.{is_valid};
ghost use Rattle.hib_entry_fields.specs.Fields as format;
ghost use Rattle.std.specs.Prelude.{◌≡◌, ◌^◌, bytes_eq, position, slice_get, true};

use hib_base::{Script, SessionDef, SessionNo};
use indexmap::IndexMap;
use std::alloc::{AllocError, Global};

/// Where the sessions of a script stand, by their names: one is found without a look at all of them. No contract rests
/// on what it holds, since `session_of` tries what is found.
#[derive(Drop)]
pub struct SessionNames<'a> {
    places: IndexMap<&'a [u8], usize>,
}

impl<'a> SessionNames<'a> {
    /// The map for the sessions of a script. Fails for want of memory alone.
    pub fn of(alloc: Global, script: &'a Script) -> Result<SessionNames<'a>, AllocError> {
        let mut places = IndexMap::new(alloc);
        for (place, session) in script.sessions.as_slice().iter().enumerate() {
            places.insert(session.name.as_slice(), place)?;
        }
        Ok(SessionNames { places })
    }

    // Where a session of this name may stand; 0 if the map has none. What is found is tried, so nothing is claimed of
    // it.
    fn place(&self, name: &[u8]) -> usize {
        match self.places.get(name) {
            Some(place) => *place,
            None => 0,
        }
    }
}

// A place, if it has 32 bits at most; else 0.
fn small32(place: Option<usize>) -> u32
    ensures { result ≡ format.place (2 ^ 32) place }
{
    match place {
        Some(i) if i < 1 << 32 => i as u32,
        _ => 0,
    }
}

fn session_place(sessions: &[SessionDef], name: &[u8]) -> Option<usize>
    ensures { result ≡ position (λ d. bytes_eq d.name name.now) sessions.now }
{
    sessions.iter().position(|d| d.name.as_slice() == name)
}

// Whether the session at a place has this name.
fn is_called(script: &Script, place: usize, name: &[u8]) -> bool
    ensures { result ≡ format.is_called (slice_get script.now.sessions place) name.now }
{
    match script.sessions.as_slice().get(place) {
        Some(session) => session.name.as_slice() == name,
        None => false,
    }
}

// The session of a name that wasn't found by the map: it is searched for.
#[tactic(auto, unfolding(crate::specs::Fields::session_of))]
fn other_session(script: &Script, name: &[u8]) -> SessionNo
    ensures { result ≡ format.session_of script.now name.now }
{
    SessionNo(small32(session_place(script.sessions.as_slice(), name)))
}

/// The session of a valid script that a name looks like. If the script has it, it is found by the map.
#[tactic(auto, using(crate::proofs::NameLaws::called_session))]
pub fn session_of(script: &Script, names: &SessionNames, name: &[u8]) -> SessionNo
    requires { is_valid script.now ≡ true }
    ensures { result ≡ format.session_of script.now name.now }
{
    let place = names.place(name);
    if place < 1 << 32 && is_called(script, place, name) {
        SessionNo(place as u32)
    } else {
        other_session(script, name)
    }
}
