// The loads of lists, by the keys of their queries.
ghost use Rattle.hib_trace_filed.specs.Keys.{earlier};
ghost use Rattle.hib_trace_law.specs.Certain.{ended_before};
ghost use Rattle.hib_trace_law.specs.declared.commits.Commit.{Commit};
ghost use Rattle.hib_trace_lists.specs.Lists.{changed, gives};
ghost use Rattle.hib_trace_lists.specs.Loads as loads;
ghost use Rattle.hib_trace_lists.specs.Loads.{AreStairs, IsOrdered, TellChanges, TellLoads};
ghost use Rattle.hib_traces.specs.Places.{stands_at};
ghost use Rattle.hib_traces.specs.declared.places.Place.{Place};
ghost use Rattle.std.specs.List.{All, AllZip, slice_index_or};
ghost use Rattle.std.specs.Prelude.{◌≡◌, ◌<◌, ◌&&◌, ◌||◌, ◌++◌, ◌∷◌, ℕ, [], IfOk, List, OnOk, Vec, if◌then◌else◌, length, nat_eq, not, vec_len};
ghost use Rattle.std.specs.declared.alloc.Global.{Global};

use crate::changes::change_after;
use hib_trace_calls::Call;
use hib_trace_filed::earlier_by;
use hib_trace_lines::Operation;
use hib_traces::{Mark, Place, ordered};
use std::alloc::{AllocError, Global};

// The key of the query whose list a call loaded, if it did.
fn loaded_key(call: &Call) -> Option<usize>
    ensures { result ≡ loads.loaded_key call.now.operation call.now.key }
{
    match call.operation {
        Operation::ListLoad => call.key,
        _ => None,
    }
}

// When the list that a call loaded may have been answered.
fn place_of(tables: &[Vec<Mark>], call: &Call, clock: u64) -> Place
    requires stairs { AreStairs tables.now }
    requires below { All (λ k. k < length tables.now) call.now.tables.items }
    ensures row { result.row ≡ call.now.row }
    ensures ready { result.ready ≡ earlier call.now.begin clock }
    ensures gone { (of : ℕ → List Commit) → TellChanges of tables.now
        → (t : ℕ) → changed of call.now.tables.items call.now.end t ≡ ended_before result.gone t }
{
    Place {
        row: call.row,
        ready: earlier_by(call.begin, clock),
        gone: change_after(tables, &call.tables, call.end),
    }
}

// No places for each of so many keys.
fn empty_files(alloc: Global, count: usize) -> Result<Vec<Vec<Place>>, AllocError>
    ensures count { IfOk result (λ v. vec_len v ≡ count) }
    ensures empty { IfOk result (λ v. (k : ℕ) (d : Vec Place Global) → k < count
        → (slice_index_or v.items k d).items ≡ []) }
{
    let mut files = Vec::new(alloc);
    for _at in 0..count {
        files.push(Vec::new(alloc))?;
    }
    Ok(files)
}

// Puts a place into the file of a key.
fn put_place(files: &mut Vec<Vec<Place>>, key: usize, place: Place) -> Result<(), AllocError>
    ensures count { OnOk result (vec_len files.new ≡ vec_len files.old) }
    ensures each { OnOk result ((k : ℕ) (d : Vec Place Global) → k < vec_len files.old
        → (slice_index_or files.new.items k d).items
        ≡ (slice_index_or files.old.items k d).items ++ (if nat_eq key k then place ∷ [] else [])) }
{
    if key < files.len() {
        files[key].push(place)?;
    }
    Ok(())
}

// Files a call, if it loaded a list.
fn file_load(
    files: &mut Vec<Vec<Place>>,
    tables: &[Vec<Mark>],
    call: &Call,
    clock: u64,
) -> Result<(), AllocError>
    requires stairs { AreStairs tables.now }
    requires below { All (λ k. k < length tables.now) call.now.tables.items }
    ensures count { OnOk result (vec_len files.new ≡ vec_len files.old) }
    ensures each { OnOk result ((of : ℕ → List Commit) → TellChanges of tables.now
        → (k r e t : ℕ) (d : Vec Place Global) → k < vec_len files.old
        → stands_at r e t (slice_index_or files.new.items k d).items
        ≡ (stands_at r e t (slice_index_or files.old.items k d).items
        || (gives clock k r e call.now && not (changed of call.now.tables.items call.now.end t)))) }
{
    match loaded_key(call) {
        None => Ok(()),
        Some(key) => put_place(files, key, place_of(tables, call, clock)),
    }
}

/// The loads of lists that calls tell, by the keys of their queries, which are below `keys`.
pub fn loads_in(
    alloc: Global,
    calls: &[Call],
    tables: &[Vec<Mark>],
    keys: usize,
    clock: u64,
) -> Result<Vec<Vec<Place>>, AllocError>
    requires stairs { AreStairs tables.now }
    requires below { All (λ c. All (λ k. k < length tables.now) c.tables.items) calls.now }
    ensures count { IfOk result (λ v. vec_len v ≡ keys) }
    ensures tell { IfOk result (λ v. (of : ℕ → List Commit) → TellChanges of tables.now
        → TellLoads clock of calls.now v.items) }
{
    let mut files = empty_files(alloc, keys)?;
    for call in calls {
        file_load(&mut files, tables, call, clock)?;
    }
    Ok(files)
}

/// Files of places, each in order.
pub fn all_ordered(alloc: Global, files: Vec<Vec<Place>>) -> Result<Vec<Vec<Place>>, AllocError>
    ensures { IfOk result (λ v. AllZip (λ f p. IsOrdered f.items p.items) files.items v.items) }
{
    let mut all = Vec::new(alloc);
    for places in files {
        all.push(ordered(alloc, places)?)?;
    }
    Ok(all)
}
