//! The law of flat data: the line of an entry is JSON, and is read again as this entry.
//!
//! The crate has no code. Each function has an empty body, and its `ensures` is a theorem over all scripts and all
//! entries. `specs/Objects` says which object a line is, `specs/Reading` which entry an object looks like, and
//! `proofs/` has the proofs.
#![tactic(auto)]

ghost use Rattle.hib_base.specs.Valid.{is_valid};
ghost use Rattle.hib_entry_texts.specs.WellFormed.{IsEntry, AreEntries};
ghost use Rattle.hib_flat.specs.Lines.{flat_line, flat};
ghost use Rattle.hib_flat_law.specs.Objects.{object_of};
ghost use Rattle.hib_flat_law.specs.Reading.{read_flat};
ghost use Rattle.hib_journal.specs.Types.{Entry, Script};
ghost use Rattle.hib_lex.specs.Lines.{lines_of};
ghost use Rattle.json.specs.Json.{document};
ghost use Rattle.serde_json.specs.Written.{outline};
ghost use Rattle.std.specs.List.{AllZip};
ghost use Rattle.std.specs.Prelude.{◌≡◌, List, Some, true};

/// The line of a well-formed entry is the JSON of an object with exactly the members that `members` and `cells` say,
/// each of its type, in their order.
#[tactic(auto, using(crate::proofs::Whole::object_read))]
pub fn lines_are_objects()
    ensures object { (script : Script) (e : Entry) → is_valid script ≡ true → IsEntry script e
        → document (flat_line script e) ≡ Some (outline (object_of script e)) }
{}

/// The line of a well-formed entry is read again as this entry.
#[tactic(auto, using(crate::proofs::Whole::line_back))]
pub fn lines_are_read_back()
    ensures back { (script : Script) (e : Entry) → is_valid script ≡ true → IsEntry script e
        → read_flat script (flat_line script e) ≡ Some e }
{}

/// The lines of a journal whose entries are well formed are read again as these entries, one for each line.
#[tactic(auto, using(crate::proofs::Feeds::journal_back))]
pub fn journals_are_read_back()
    ensures lines { (script : Script) (es : List Entry) → is_valid script ≡ true → AreEntries script es
        → AllZip (λ l e. read_flat script l ≡ Some e) (lines_of (flat script es)) es }
{}
