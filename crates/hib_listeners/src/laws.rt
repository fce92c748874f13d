// What noting and telling entries comes to; for proofs.
ghost use Rattle.std.specs.Prelude.{◌≡◌, ◌<◌, ℕ, Bool, false, not, List, [], ◌∷◌, ◌++◌, length};
ghost use Rattle.hib_journal.specs.Types.{Script, Entry};
ghost use Rattle.hib_listeners.specs.Told.{Told, AreTold};
ghost use Rattle.hib_listeners.specs.Heard.{HaveHeard};
ghost use Rattle.hib_listeners.specs.Statistics.{counted, noted, AreBelow};

/// To note an entry, if the counts are those of some entries, gives the counts of these and the entry. So whoever
/// opens the counts and notes the entries of a journal one by one has the counts of the journal.
pub fn noting_counts()
    ensures { (script : Script) (es : List Entry) (e : Entry)
        → noted e (counted script es) ≡ counted script (es ++ e ∷ []) }
{}

/// No count is greater than the number of entries that were noted. So they can be noted as long as a journal can grow.
pub fn counts_are_few()
    ensures { (script : Script) (es : List Entry) (m : ℕ) → length es < m
        → AreBelow m (counted script es) }
{}

/// At the start of a run nobody has heard anything of it.
pub fn nothing_was_told()
    ensures { (start : List Told) → HaveHeard false [] start start }
{}

/// What listeners have heard of a run goes on with each entry that they are told, until one has no memory. So whoever
/// tells each entry of a run as it comes hands back exactly the listeners that stay, and each that tells has heard,
/// after what it had heard before, the entries of the run.
pub fn telling_goes_on()
    ensures { (e : Entry) (whole : Bool) (es : List Entry) (start now next : List Told)
        → HaveHeard false es start now → AreTold e whole now next
        → HaveHeard (not whole) (es ++ e ∷ []) start next }
{}
