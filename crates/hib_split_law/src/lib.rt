//! The law behind locks for each part: what is legal by its parts and by its sessions is legal.
//!
//! The crate has no code. Each function has an empty body, and its `ensures` is a theorem over all scripts, all rows at
//! the start and all journals. `specs/Apart` says when the list of a part, and that of a session, is legal by itself,
//! `specs/Merged` what it is to merge the lists of parts, and `proofs/` has the proofs.
#![tactic(auto)]

ghost use Rattle.hib_base.specs.Tables.{Tables};
ghost use Rattle.hib_journal.specs.Legal.{IsLegal};
ghost use Rattle.hib_journal.specs.Lists.{IsStoreReply, of_part, seen_by};
ghost use Rattle.hib_journal.specs.Sessions.{Journal};
ghost use Rattle.hib_journal.specs.Types.{Entry, Part, Script};
ghost use Rattle.hib_split_law.specs.Apart.{AreLater, HaveSessions, IsLegalApart, IsStoreAlone, is_of_session};
ghost use Rattle.hib_split_law.specs.Merged.{Agrees, AreBounded, AreDue, AreOwnLegal, ArePartsLegal, IsMerged};
ghost use Rattle.std.specs.Prelude.{◌≡◌, ◌≤◌, ◌^◌, ◌∷◌, List, Option, false, length};

/// A journal whose ticks never fall is legal, if the list of each part and that of each session is legal by itself.
pub fn apart_is_legal()
    ensures legal { (script : Script) (told : Option Tables) (h : Journal)
        → HaveSessions h → AreLater h → IsLegalApart script told h → IsLegal script told h }
{}

/// The other way round: if each entry of a legal journal is a session's, the list of each part and that of each session
/// is legal by itself. The ticks of any legal journal never fall.
pub fn legal_is_apart()
    ensures apart { (script : Script) (told : Option Tables) (h : Journal)
        → HaveSessions h → IsLegal script told h → IsLegalApart script told h }
    ensures later { (script : Script) (told : Option Tables) (h : Journal)
        → IsLegal script told h → AreLater h }
{}

/// The reply to each entry of a legal journal depends only on what its part sees, except what a session answers itself.
pub fn replies_are_parts()
    ensures replies { (script : Script) (told : Option Tables) (e : Entry) (h : Journal)
        → IsLegal script told (e ∷ h) → is_of_session e.act ≡ false
        → IsStoreReply script told (seen_by e.part h) e }
{}

/// The committed rows of a legal journal, how often its store may have asked the keeper, and how often that failed, are
/// what the store's list alone says of them.
pub fn store_stands_alone()
    ensures seen { (script : Script) (told : Option Tables) (h : Journal)
        → IsLegal script told h → IsStoreAlone h (seen_by Part.Store h) }
    ensures listed { (script : Script) (told : Option Tables) (h : Journal)
        → HaveSessions h → IsLegal script told h → IsStoreAlone h (of_part Part.Store h) }
{}

/// The list that the parts' lists are merged into is legal, if each of them and of the sessions' lists is legal by
/// itself and the sessions' lists agree with it.
pub fn merged_is_legal()
    ensures legal { (script : Script) (told : Option Tables) (lists mine : List Journal)
        (h : Journal) → ArePartsLegal script told lists → AreOwnLegal script mine
        → IsMerged lists h → Agrees mine h → AreBounded h → IsLegal script told h }
{}

/// There is one merged list.
pub fn merged_once()
    ensures once { (lists : List Journal) (h g : Journal)
        → IsMerged lists h → IsMerged lists g → h ≡ g }
{}

/// If each tick is the one that is due, none is above the number of entries.
pub fn due_ticks_are_few()
    ensures few { (h : Journal) → AreDue h → length h ≤ 2 ^ 62 → AreBounded h }
{}
