// A session may be given more statements behind its own, and more sessions may come.
ghost use Rattle.std.specs.Prelude.{◌≡◌, ◌+◌, [], ◌∷◌, ◌++◌, List, length, false};
ghost use Rattle.hib_journal.specs.Types.{Script};
ghost use Rattle.hib_journal.specs.Sessions.{Journal};
ghost use Rattle.hib_live_law.specs.Grown.{HasGrown, IsUnused};
ghost use Rattle.hib_session.specs.declared.session.Session.{Session};
ghost use Rattle.hib_session.specs.Session.{Follows, is_killed, number_of};
ghost use Rattle.hib_session.specs.Sessions.{AreSessions};

/// A session that has come so far by its script has come so far by each script that this may grow into; so all sessions
/// of a script have, and one more may begin behind them. It does nothing.
pub fn sessions_may_grow()
    ensures follows { (s t : Script) → HasGrown s t → (y : Session) (mine : Journal)
        → Follows s y mine → Follows t y mine }
    ensures all { (s t : Script) → HasGrown s t → length s.sessions ≡ length t.sessions
        → (h : Journal) (xs : List Session) → AreSessions s h xs → AreSessions t h xs }
    ensures more { (s t : Script) → HasGrown s t → length t.sessions ≡ length s.sessions + 1
        → (h : Journal) (xs : List Session) (y : Session) → IsUnused (length s.sessions) h
        → AreSessions s h xs → number_of y ≡ length s.sessions → is_killed y ≡ false
        → ((script : Script) → Follows script y []) → AreSessions t h (xs ++ y ∷ []) }
{}
