//! The law: what holds of every legal journal.
//!
//! The crate has no code. Each function has an empty body, and its `ensures` is a theorem over all scripts, all rows at
//! the start and all legal journals. The files of `specs/` say each claim, `specs/Law` joins them, and `proofs/` has
//! the proofs. A caller that hands out a legal journal calls `law` once, and may then ensure all of it.
#![tactic(auto)]

ghost use Rattle.hib_base.specs.Tables.{Tables};
ghost use Rattle.hib_base.specs.Valid.{is_valid};
ghost use Rattle.hib_journal.specs.Legal.{IsLegal};
ghost use Rattle.hib_journal.specs.Next.{plan_of, strategy};
ghost use Rattle.hib_journal.specs.Plan.{InOrder};
ghost use Rattle.hib_journal.specs.Sessions.{Journal, own};
ghost use Rattle.hib_journal.specs.Types.{Key, Script, Strategy};
ghost use Rattle.hib_law.specs.Hits.{AreHitsTrue, AreListsGiven};
ghost use Rattle.hib_law.specs.Items.{IsItemGiven, IsItemOld};
ghost use Rattle.hib_law.specs.Law.{Coheres, Obeys};
ghost use Rattle.hib_law.specs.Locks.{AreLocksKept};
ghost use Rattle.hib_law.specs.Misses.{HasCause};
ghost use Rattle.hib_law.specs.Prefixes.{AtEachEntry, AtEachPrefix};
ghost use Rattle.hib_law.specs.Rows.{IsFindAnswered, IsKeyCoherent};
ghost use Rattle.hib_law.specs.Seen.{AreFloorsLow, AreSeenSafe};
ghost use Rattle.std.specs.Prelude.{◌≡◌, ℕ, IfSome, Option, Some, true};

/// Each session's entries are the acts of its plan, each once and in order, whether the rows at the start are told or
/// not.
pub fn steps_are_in_order()
    ensures steps { (script : Script) (told : Option Tables) (s : ℕ) (h : Journal)
        → IsLegal script told h → InOrder (plan_of script s) (own s h) }
{}

/// At every entry, of a read-write key that is sound there: the cached item is the committed row, and a hit answers it
/// to a session that has no change on the key.
pub fn rows_cohere()
    ensures rows { (script : Script) (start : Tables) (k : Key)
        → strategy script k.entity ≡ Strategy.ReadWrite → (h : Journal)
        → IsLegal script (Some start) h → IsKeyCoherent script start k h }
{}

/// At every entry, of any key: a hit answers a row that was committed since the restart, a load what the session has
/// written, else the committed row, and a find of what the session holds just that.
pub fn finds_are_answered()
    ensures finds { (script : Script) (start : Tables) (h : Journal)
        → IsLegal script (Some start) h → AtEachEntry (IsFindAnswered start) h }
{}

/// A list from the cache is what its query gave over the committed rows at a moment since which only commits that are
/// not stamped yet have changed its tables.
pub fn hits_are_true()
    ensures hits { (script : Script) (start : Tables) (h : Journal)
        → IsLegal script (Some start) h → AreHitsTrue script start h }
{}

/// Of a valid script, each list from the cache is what its query gave over the committed rows at the moment of the hit.
pub fn lists_are_given()
    ensures lists { (script : Script) (told : Option Tables) (h : Journal)
        → is_valid script ≡ true → IsLegal script told h
        → IfSome told (λ start. AreListsGiven script start h) }
{}

/// Each refusal of the cache has its cause in the journal before it, with its number.
pub fn misses_have_causes()
    ensures misses { (script : Script) (start : Tables) (h : Journal)
        → IsLegal script (Some start) h → AtEachEntry (HasCause script) h }
{}

/// At every entry the item of any key of any region is a row that was committed since the restart.
pub fn items_were_committed()
    ensures items { (script : Script) (start : Tables) (k : Key) (h : Journal)
        → IsLegal script (Some start) h → AtEachPrefix (IsItemOld script start k) h }
{}

/// At every entry the item of a key of a read-only region is the row that the rows at the start or a committed insert
/// gave it.
pub fn read_only_items_were_given()
    ensures given { (script : Script) (start : Tables) (k : Key)
        → strategy script k.entity ≡ Strategy.ReadOnly
        → (h : Journal) → IsLegal script (Some start) h → AtEachPrefix (IsItemGiven start k) h }
{}

/// At every entry at which a read-write key is sound, its lock counts the sessions that hold it, killed ones among
/// them. Each of them was told the identifier of the lock. A session that gives this lock back isn't answered
/// `Expired`.
pub fn locks_are_kept()
    ensures locks { (script : Script) (start : Tables) (k : Key)
        → strategy script k.entity ≡ Strategy.ReadWrite
        → (h : Journal) → IsLegal script (Some start) h → AreLocksKept script k h }
{}

/// At every entry, of a read-write key that is sound there: what an open session has seen of it is committed still, or
/// the key's slot will refuse a put of it. The claims on rows follow from this.
pub fn seen_rows_are_safe()
    ensures safe { (script : Script) (start : Tables) (k : Key)
        → strategy script k.entity ≡ Strategy.ReadWrite
        → (h : Journal) → IsLegal script (Some start) h
        → AtEachPrefix (AreSeenSafe script start k) h }
{}

/// At every entry the floor of an open session is no later than the time of any open session.
pub fn floors_are_low()
    ensures floors { (script : Script) (start : Tables) (h : Journal)
        → IsLegal script (Some start) h → AtEachPrefix AreFloorsLow h }
{}

/// The whole law: all of the above, of every legal journal over told rows. If the rows at the start aren't told, the
/// order of the acts alone.
pub fn law()
    ensures law { (script : Script) (start : Tables) (h : Journal)
        → IsLegal script (Some start) h → Coheres script start h }
    ensures obeyed { (script : Script) (told : Option Tables) (h : Journal)
        → IsLegal script told h → Obeys script told h }
{}
