// What a plan stands for, over the journal; for proofs.
ghost use Rattle.std.specs.Prelude.{◌≡◌};
ghost use Rattle.hib_journal.specs.Sessions.{Journal};
ghost use Rattle.hib_journal.specs.Held.{removed, pending};
ghost use Rattle.hib_identity_map.specs.Identity.{MapState};
ghost use Rattle.hib_identity_map.specs.Holds.{Holds};
ghost use Rattle.hib_flush.specs.Planned.{planned};

/// If the instances stand for a session's entries, and the removals come in the entries' order, what is planned is what
/// those entries leave pending.
pub fn planned_is_pending()
    ensures { (map : MapState) (mine : Journal) → Holds map.held mine → map.removals ≡ removed mine
        → planned map ≡ pending mine }
{}
