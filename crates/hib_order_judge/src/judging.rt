// One pass over the entries of a run, which says what is wrong with it. Unsound keys are found as the report finds
// them, in a pass of their own.
ghost use Rattle.hib_base.specs.Tables.{Tables, in_order};
ghost use Rattle.hib_base.specs.declared.scripts.Script.{Script};
ghost use Rattle.hib_journal.specs.Sessions.{Journal, committed, is_empty};
ghost use Rattle.hib_order_judge.specs.Dossiers.{AreDossiers};
ghost use Rattle.hib_order_judge.specs.Verdicts.{verdicts, verdicts_of};
ghost use Rattle.hib_order_law.specs.Judged.{is_lost_update};
ghost use Rattle.std.specs.Prelude.{◌≡◌, ◌∷◌, ◌||◌, [], IfOk, OnOk, false, true};

use crate::dossiers::Dossiers;
use crate::laying::rows_after;
use crate::tests_of::{is_old_list, is_refused, is_stale_hit};
use hib_base::{Entry, Key, Rows, Script};
use hib_journal::committer;
use hib_order_law::Verdicts;
use hib_report::unsound_keys;
use std::alloc::{AllocError, Global};
use std::collections::BTreeSet;

/// The verdicts of no entry: nothing is wrong.
fn none() -> Verdicts
    ensures { (script : Script) (start : Tables)
        → result ≡ record (verdicts script start []) { unsound_key = false } }
{
    Verdicts {
        stale_hit: false,
        old_list: false,
        lost_update: false,
        refused_commit: false,
        unsound_key: false,
    }
}

/// Whether an entry is a commit of a change that rests on a row which is not the committed one any more.
fn is_lost_update(entries: &[Entry], rows: &Rows, dossiers: &Dossiers<'_>, entry: &Entry) -> bool
    requires { in_order rows.now ≡ true }
    ensures { (start : Tables) (h : Journal) → AreDossiers entries.now h dossiers.now.all.items
        → rows.now ≡ committed start h → result ≡ is_lost_update start h entry.now }
{
    match committer(entry) {
        None => false,
        Some(session) => dossiers.has_lost_row(entries, session, rows),
    }
}

/// Whether one of both is so.
fn either(a: bool, b: bool) -> bool
    ensures { result ≡ (a || b) }
{
    a || b
}

/// Takes the next entry, one of these, before which these rows are committed and this is known of the sessions. Of keys
/// nothing is judged.
fn note(
    judged: &mut Verdicts,
    alloc: Global,
    script: &Script,
    entries: &[Entry],
    rows: &Rows,
    dossiers: &Dossiers<'_>,
    entry: &Entry,
) -> Result<(), AllocError>
    requires { in_order rows.now ≡ true }
    ensures { OnOk result ((start : Tables) (h : Journal) → AreDossiers entries.now h dossiers.now.all.items
        → rows.now ≡ committed start h
        → judged.old ≡ record (verdicts script.now start h) { unsound_key = false }
        → judged.new ≡ record (verdicts script.now start (entry.now ∷ h)) { unsound_key = false }) }
{
    let is_old = is_old_list(alloc, script, rows, dossiers.found(entry.session), entry)?;
    let old_list = either(is_old, judged.old_list);
    let stale_hit = either(is_stale_hit(rows, entry), judged.stale_hit);
    let is_lost = is_lost_update(entries, rows, dossiers, entry);
    let lost_update = either(is_lost, judged.lost_update);
    let refused_commit = either(is_refused(entry), judged.refused_commit);
    *judged = Verdicts {
        stale_hit,
        old_list,
        lost_update,
        refused_commit,
        unsound_key: judged.unsound_key,
    };
    Ok(())
}

/// Judges each entry of a run. Of keys nothing is judged.
fn judge_entries(
    alloc: Global,
    script: &Script,
    start: Rows,
    entries: &[Entry],
) -> Result<Verdicts, AllocError>
    requires { in_order start ≡ true }
    ensures { IfOk result (λ v. v ≡ record (verdicts_of script.now start entries.now)
        { unsound_key = false }) }
{
    let mut rows = start;
    let mut dossiers = Dossiers::new(alloc);
    let mut verdicts = none();
    for place in 0..entries.len() {
        let entry = &entries[place];
        note(
            &mut verdicts,
            alloc,
            script,
            entries,
            &rows,
            &dossiers,
            entry,
        )?;
        rows = rows_after(alloc, rows, &dossiers, entry)?;
        dossiers.note(alloc, place, entry)?;
    }
    Ok(verdicts)
}

/// Whether there is no key.
fn is_none(keys: &BTreeSet<Key>) -> bool
    ensures { result ≡ is_empty keys.now.keys }
{
    keys.is_empty()
}

/// Judges a run, of which these are the committed rows at the start and the entries, the oldest first. Want of memory
/// alone is an error.
pub fn judge(
    alloc: Global,
    script: &Script,
    start: Rows,
    entries: &[Entry],
) -> Result<Verdicts, AllocError>
    requires { in_order start ≡ true }
    ensures { IfOk result (λ v. v ≡ verdicts_of script.now start entries.now) }
{
    let unsound = unsound_keys(alloc, script, entries)?;
    let mut verdicts = judge_entries(alloc, script, start, entries)?;
    verdicts.unsound_key = !is_none(&unsound);
    Ok(verdicts)
}
