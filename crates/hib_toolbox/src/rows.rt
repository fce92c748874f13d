// The rows that a keeper has of a script's entities (the word `rows`).
ghost use Rattle.std.specs.Prelude.{◌≡◌, IfOk, IfSome};
ghost use Rattle.std.specs.List.{range_with_len};
ghost use Rattle.hib_outside.specs.Causes.{FailsByCause};
ghost use Rattle.hib_outside.specs.Keeps.{rows_of};
ghost use Rattle.hib_call.specs.Ends.{Comes};
ghost use Rattle.hib_call.specs.Outside.{shared_of};
ghost use Rattle.hib_toolbox.specs.Listing.{listing};

use hib_base::{EntityNo, Rows as AllRows, Script};
use hib_call::{Lent, Outcome, Ran, SCRIPT_BYTES, Status, Task, tell_text};
use hib_outside::{KeepFault, Keeper, Listener, Sink};
use hib_script::ScriptError;
use std::alloc::{AllocError, Global};

/// The numbers of this many entities, from the first.
#[tactic(auto, using(crate::proofs::Ranges::one_more, crate::proofs::Ranges::none_left))]
fn entities(alloc: Global, count: u16) -> Result<Vec<EntityNo>, AllocError>
    ensures { IfOk result (λ v. v.items ≡ range_with_len 0 count) }
{
    let mut entities = Vec::new(alloc);
    for entity in 0..count {
        entities.push(EntityNo(entity))?;
    }
    Ok(entities)
}

/// All rows that a keeper has of this many entities. More than 65,535 are answered as want of memory.
fn listed<K: Keeper>(alloc: Global, keeper: &mut K, count: usize) -> Result<AllRows, KeepFault>
    ensures rows { IfOk result (λ rows. IfSome (K.tables keeper.old)
        (λ m. rows ≡ rows_of (range_with_len 0 count) m)) }
    ensures same { K.tables keeper.new ≡ K.tables keeper.old }
    ensures cause { FailsByCause (K.faults keeper.old) (K.faults keeper.new) result }
{
    let Ok(count) = u16::try_from(count) else {
        return Err(KeepFault::NoMemory);
    };
    let entities = entities(alloc, count)?;
    keeper.list(alloc, entities.as_slice())
}

/// The script with other rows.
fn with_rows(script: Script, rows: AllRows) -> Script
    ensures { result ≡ record script { rows = rows } }
{
    let mut script = script;
    script.rows = rows;
    script
}

/// Asks a keeper for all rows of a script's entities, and puts them in the place of the script's.
pub fn list_rows<K: Keeper, L: Listener>(
    alloc: Global,
    script: Script,
    lent: Lent<K, L>,
) -> Ran<Script, K, L>
    ensures { Comes listing script
        (shared_of K.Keeper L.Listener lent) (shared_of K.Keeper L.Listener result.lent) result.outcome }
{
    let Lent { keeper, listeners } = lent;
    let mut keeper = keeper;
    let outcome = match listed(alloc, &mut keeper, script.mapping.len()) {
        Ok(rows) => Outcome::Over(with_rows(script, rows)),
        Err(KeepFault::NoMemory) => Outcome::Stopped(Status::NoMemory, None),
        Err(KeepFault::Failed) => Outcome::Stopped(Status::StoreFault, None),
    };
    Ran {
        outcome,
        lent: Lent { keeper, listeners },
    }
}

/// Reads a script, asks a keeper for the rows of its entities and writes them as lines of the script.
#[derive(Clone, Copy)]
pub struct Rows;

impl Task for Rows {
    ghost use Rattle.std.specs.Prelude.{⊤};
    ghost use Rattle.hib_toolbox.specs.Listing.{listing};

    type Input = Script;

    type Run = Script;

    ghost command = { λ _. listing };

    ghost is_sound = { λ _. ⊤ };

    fn limit(&self) -> usize {
        SCRIPT_BYTES
    }

    fn read(&self, alloc: Global, text: &[u8]) -> Result<Script, ScriptError> {
        hib_script::read(alloc, text)
    }

    fn tell<W: Sink>(&self, alloc: Global, run: &Script, out: &mut W) -> Status {
        match hib_print::print_row_lines(alloc, run) {
            Ok(text) => tell_text(text.as_slice(), out),
            Err(_) => Status::NoMemory,
        }
    }
}
