//! The law that what a script says decides what may be told of it: which journals are legal, and the texts of them. A
//! text is read as a script in memory, whose conditions stand at some places there; so what holds of one holds of each
//! that says the same. The crate has no code: each function has an empty body, and its `ensures` is the theorem.
#![tactic(auto)]

ghost use Rattle.hib_base.specs.Tables.{Tables};
ghost use Rattle.hib_base.specs.declared.entries.Entry.{Entry};
ghost use Rattle.hib_base.specs.declared.scripts.Script.{Script};
ghost use Rattle.hib_journal.specs.Legal.{IsLegal};
ghost use Rattle.hib_journal.specs.Sessions.{Journal};
ghost use Rattle.hib_json_lines.specs.Line.{json_lines};
ghost use Rattle.hib_report.specs.Report.{report, summary};
ghost use Rattle.hib_script.specs.Outline.{outline_of};
ghost use Rattle.std.specs.declared.option.Option.{Option};
ghost use Rattle.std.specs.Prelude.{◌≡◌, List};

/// A journal that is legal for a script, from the rows at the start, is legal for each script that says the same.
pub fn legal_by_outline()
    ensures legal { (s t : Script) → outline_of s ≡ outline_of t → (told : Option Tables) (es : Journal)
        → IsLegal s told es → IsLegal t told es }
{}

/// Of scripts that say the same the same is written: the report of a journal, its summary, and its JSON lines.
pub fn texts_by_outline()
    ensures report { (s t : Script) → outline_of s ≡ outline_of t → (es : List Entry)
        → report s es ≡ report t es }
    ensures summary { (s t : Script) → outline_of s ≡ outline_of t → (es : List Entry)
        → summary s es ≡ summary t es }
    ensures lines { (s t : Script) → outline_of s ≡ outline_of t → (es : List Entry)
        → json_lines s es ≡ json_lines t es }
{}
