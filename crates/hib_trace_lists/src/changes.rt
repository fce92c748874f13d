// When the tables of a list were changed.
ghost use Rattle.hib_trace_law.specs.Certain.{ended_before};
ghost use Rattle.hib_trace_law.specs.declared.commits.Commit.{Commit};
ghost use Rattle.hib_trace_lists.specs.Lists.{changed};
ghost use Rattle.hib_trace_lists.specs.Loads.{AreStairs, IsChanges, TellChanges};
ghost use Rattle.std.specs.List.{All, AllZip};
ghost use Rattle.std.specs.Prelude.{◌≡◌, ◌<◌, ℕ, IfOk, List, length};

use hib_trace_law::Commit;
use hib_traces::{Mark, call_stairs, least_beyond, least_of};
use std::alloc::{AllocError, Global};

/// The end of the first commit on one of some tables to have ended, of those that began after an instant, if there is
/// one.
pub fn change_after(tables: &[Vec<Mark>], of: &[usize], instant: u64) -> Option<u64>
    requires stairs { AreStairs tables.now }
    requires below { All (λ k. k < length tables.now) of.now }
    ensures { (cs : ℕ → List Commit) → TellChanges cs tables.now
        → (t : ℕ) → changed cs of.now instant t ≡ ended_before result t }
{
    let mut first = None;
    for at in 0..of.len() {
        first = least_of(first, least_beyond(&tables[of[at]], instant));
    }
    first
}

/// The ends of the commits of each table at their begins, as far as they matter.
pub fn changes_of(alloc: Global, files: &[Vec<Commit>]) -> Result<Vec<Vec<Mark>>, AllocError>
    ensures { IfOk result (λ v. AllZip (λ f m. IsChanges f.items m.items) files.now v.items) }
{
    let mut tables = Vec::new(alloc);
    for commits in files {
        tables.push(call_stairs(alloc, commits)?)?;
    }
    Ok(tables)
}
