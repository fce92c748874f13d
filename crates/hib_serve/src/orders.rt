// What is done to sessions and regions from outside.
ghost use Rattle.hib_base.specs.declared.scripts.Order.{Order};
ghost use Rattle.hib_serve.specs.Sessions.{AreClosed, HasEvicted, HasKilled, HasObeyed, HasOnlyKilled, IsWhyKept, key_at, key_in};
ghost use Rattle.hib_serve_answers.specs.declared.refusals.Refusal.{Refusal};
ghost use Rattle.hib_statements.specs.Places.{place_of};
ghost use Rattle.std.specs.Prelude.{◌≡◌, ◌⊎◌, IfErr, None, OnErr, OnOk};

use crate::names::{Names, number_of};
use hib_base::{EntityNo, Key, Kind, Script, SessionNo};
use hib_live::{LiveCore, Name, Refusal as Undone};
use hib_mapping::entity_number;
use hib_outside::Keeper;
use hib_serve_answers::Refusal;
use std::alloc::{AllocError, Global};

/// Kills the session of a name, if it is open.
///
/// Errors: `Session` if the name has no session; `Memory` if there is none left. No entry is added then.
pub fn kill<K: Keeper, N: Name>(
    core: &mut LiveCore<K, N>,
    names: &Names,
    session: &[u8],
) -> Result<(), Refusal>
    ensures killed { OnOk result (HasKilled (place_of session.now names.now.entries)
        core.old core.new) }
    ensures why { IfErr result (λ r. (r ≡ Refusal.Memory) ⊎ ((r ≡ Refusal.Session)
        × (place_of session.now names.now.entries ≡ None))) }
    ensures asked { OnErr result (core.new.script ≡ core.old.script) }
    ensures journal { OnErr result (core.new.journal.list ≡ core.old.journal.list) }
{
    let Some(number) = number_of(names, session) else {
        return Err(Refusal::Session);
    };
    match core.kill(number) {
        Ok(()) => Ok(()),
        Err(_) => Err(Refusal::Memory),
    }
}

fn key_at(id: u64, entity: Option<EntityNo>) -> Option<Key>
    ensures { result ≡ key_at id entity }
{
    match entity {
        Some(entity) if id >= 1 && id < 1 << 63 => Some(Key { entity, id }),
        _ => None,
    }
}

// The key of an entity's name and an identifier.
fn key_in(script: &Script, entity: &[u8], id: u64) -> Option<Key>
    ensures { result ≡ key_in script.now entity.now id }
{
    key_at(id, entity_number(script.mapping.as_slice(), entity))
}

/// Evicts a row from its region, by the name of its entity and its identifier.
///
/// Errors: `Statement` if there is no such entity, or it is no identifier; `Unfit` if the entity isn't cached; `Memory`
/// if there is none left. No entry is added then.
pub fn evict<K: Keeper, N: Name>(
    alloc: Global,
    core: &mut LiveCore<K, N>,
    entity: &[u8],
    id: u64,
) -> Result<(), Refusal>
    ensures evicted { OnOk result (HasEvicted (key_in core.old.script entity.now id)
        core.old core.new) }
    ensures why { IfErr result (IsWhyKept (key_in core.old.script entity.now id) core.old.script) }
    ensures asked { OnErr result (core.new.script ≡ core.old.script) }
    ensures journal { OnErr result (core.new.journal.list ≡ core.old.journal.list) }
{
    let Some(key) = key_in(core.script(), entity, id) else {
        return Err(Refusal::Statement(Kind::Unknown));
    };
    match core.evict(alloc, key) {
        Ok(()) => Ok(()),
        Err(Undone::Unfit) => Err(Refusal::Unfit),
        Err(_) => Err(Refusal::Memory),
    }
}

/// A restart: the sessions that are open are killed, and nothing is cached any more. Fails for want of memory alone; no
/// entry is added then.
pub fn restart<K: Keeper, N: Name>(core: &mut LiveCore<K, N>) -> Result<(), Refusal>
    ensures restarted { OnOk result (HasObeyed Order.Restart core.old core.new) }
    ensures why { IfErr result (λ r. r ≡ Refusal.Memory) }
    ensures asked { OnErr result (core.new.script ≡ core.old.script) }
    ensures journal { OnErr result (core.new.journal.list ≡ core.old.journal.list) }
{
    match core.restart() {
        Ok(()) => Ok(()),
        Err(_) => Err(Refusal::Memory),
    }
}

/// Kills each session that is open. Fails for want of memory alone, so that some may be open still.
pub fn kill_all<K: Keeper, N: Name>(core: &mut LiveCore<K, N>) -> Result<(), AllocError>
    ensures killed { HasOnlyKilled core.old core.new }
    ensures closed { OnOk result (AreClosed core.new) }
{
    for place in 0..core.sessions() {
        let Ok(number) = u32::try_from(place) else {
            return Err(AllocError);
        };
        core.kill(SessionNo(number))?;
    }
    Ok(())
}
