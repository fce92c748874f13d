//! The law behind what is written of a run: the entries of a legal journal are well formed.
//!
//! The crate has no code. Each function has an empty body, and its `ensures` is a theorem over all scripts, all rows at
//! the start and all journals. `specs/Fitting` says which rows it speaks of, `specs/Early` which journals, and
//! `proofs/` has the proofs.
#![tactic(auto)]

ghost use Rattle.hib_base.specs.Start.{start as start_with, widened};
ghost use Rattle.hib_base.specs.Tables.{Tables};
ghost use Rattle.hib_base.specs.Valid.{is_valid};
ghost use Rattle.hib_entry_texts.specs.WellFormed.{AreEntries};
ghost use Rattle.hib_formed.specs.Early.{AreEarly};
ghost use Rattle.hib_formed.specs.Fitting.{AreFit};
ghost use Rattle.hib_journal.specs.Legal.{IsLegal};
ghost use Rattle.hib_journal.specs.Runs.{IsNumbered, name_identifiers};
ghost use Rattle.hib_journal.specs.Sessions.{Journal};
ghost use Rattle.hib_journal.specs.Types.{Script};
ghost use Rattle.std.specs.Prelude.{◌≡◌, ◌≤◌, ◌^◌, Some, length, reverse, true};

/// Over rows that fit a valid script's mapping, each entry of a legal journal is well formed, if the ticks are early
/// enough that a timeout can be added to each, and what is evicted from outside has an identifier.
pub fn entries_are_formed()
    ensures formed { (script : Script) (start : Tables) (h : Journal)
        → is_valid script ≡ true → AreFit script start → length h ≤ 2 ^ 61 → AreEarly h
        → name_identifiers h ≡ true → IsLegal script (Some start) h
        → AreEntries script (reverse h) }
{}

/// If the k-th entry has tick k, the ticks are early.
pub fn ticks_are_early()
    ensures early { (h : Journal) → IsNumbered h → length h ≤ 2 ^ 61 → AreEarly h }
{}

/// If the rows that a keeper kept, widened, fit a valid script's mapping, so do those at the start: they and the
/// script's.
pub fn starts_fit()
    ensures start { (script : Script) (kept : Tables) → is_valid script ≡ true
        → AreFit script (widened script.mapping kept)
        → AreFit script (start_with script.mapping kept script.rows) }
{}
