// What a thread leaves of a session that is at its end: its entries alone, so that its memory is given back.
ghost use Rattle.std.specs.Prelude.{◌≡◌, [], None, Some, slice_get, IfSome, MatchOption};
ghost use Rattle.hib_journal.specs.Kept.{past};
ghost use Rattle.hib_journal.specs.Next.{next};
ghost use Rattle.hib_split_law.specs.Apart.{IsOwnLegal};
ghost use Rattle.hib_split.specs.Ended.{EndedState};

use hib_base::SessionNo;
use hib_engines::Name;
use hib_journal::Journal;
use hib_parts::Worker;
use std::marker::{Model, PhantomData};

/// A session at its end: its number and its entries, without what it remembered of them. The entries are legal by
/// themselves, and no act is due after them.
#[derive(Drop)]
pub struct Ended<N: Name> {
    number: SessionNo,
    list: Journal,
    of: PhantomData<N>,
}

impl<N: Name> Model for Ended<N> {
    ghost use Rattle.std.specs.Prelude.{◌≡◌, None};
    ghost use Rattle.hib_journal.specs.Kept.{past};
    ghost use Rattle.hib_journal.specs.Next.{next};
    ghost use Rattle.hib_split_law.specs.Apart.{IsOwnLegal};
    ghost use Rattle.hib_split.specs.Ended.{EndedState};

    ghost Value = { EndedState };

    ghost view = { λ e. record {
      number = e.number;
      list = past e.list;
    } };

    ghost invariant = { λ e. IsOwnLegal N.script e.number (past e.list)
        × (next N.script e.number (past e.list) ≡ None) };
}

impl<N: Name> Ended<N> {
    /// What is left of a worker. Its session must be at its end.
    pub fn of(worker: Worker<N>) -> Ended<N>
        requires { next N.script worker.number worker.list ≡ None }
        ensures number { result.number ≡ worker.number }
        ensures list { result.list ≡ worker.list }
    {
        let (number, list) = worker.close();
        Ended {
            number,
            list,
            of: PhantomData,
        }
    }

    /// Which session it is.
    pub fn number(&self) -> SessionNo
        ensures { result ≡ self.now.number }
    {
        self.number
    }

    /// The session's entries, if it has this number; else none. What stood behind a lock is known by its type alone.
    fn list_as(self, number: SessionNo) -> Option<Journal>
        ensures legal { IfSome result (λ l. IsOwnLegal N.script number (past l)) }
        ensures over { IfSome result (λ l. next N.script number (past l) ≡ None) }
        ensures own { self.number ≡ number → MatchOption result ⊥ (λ l. past l ≡ self.list) }
    {
        let Ended {
            number: own,
            list,
            of: _,
        } = self;
        if own == number { Some(list) } else { None }
    }
}

/// The entries of a session that is at its end, if they stand at its place. They are taken from there.
pub fn list_at<N: Name>(ended: &mut Vec<Option<Ended<N>>>, number: SessionNo) -> Option<Journal>
    ensures legal { IfSome result (λ l. IsOwnLegal N.script number (past l)) }
    ensures over { IfSome result (λ l. next N.script number (past l) ≡ None) }
    ensures there { (left : EndedState) → slice_get ended.old.items number ≡ Some (Some left)
        → left.number ≡ number → MatchOption result ⊥ (λ l. past l ≡ left.list) }
    ensures none { ended.old.items ≡ [] → result ≡ None }
    ensures same { ended.old.items ≡ [] → ended.new.items ≡ [] }
{
    let place = number.0 as usize;
    if place >= ended.len() {
        return None;
    }
    match ended[place].take() {
        Some(left) => left.list_as(number),
        None => None,
    }
}
