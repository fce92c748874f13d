// Lists that are worked out beside the store, over the rows at the start.
ghost use Rattle.std.specs.Prelude.{◌≡◌, true, is_some, slice_get, MatchOption, IfOk, IfSome};
ghost use Rattle.hib_base.specs.declared.entries.Act.{Act};
ghost use Rattle.hib_store.specs.Stores.{IsSnapshotOf, ReadsBelow};
ghost use Rattle.hib_parts.specs.Stored.{IsStartReply};

use crate::copied::copied;
use hib_base::{QueryNo, Reply, Script};
use hib_engines::Name;
use hib_store::Snapshot;
use std::alloc::{AllocError, Global};
use std::marker::{Model, PhantomData};

/// What a query gives over the rows at the start to a session without changes of its own, as two replies that are
/// equal: one for the list of the store, and one for that of the session.
#[derive(Drop)]
pub struct StartList<N: Name> {
    query: QueryNo,
    reply: Reply,
    twin: Reply,
    of: PhantomData<N>,
}

impl<N: Name> Model for StartList<N> {
    ghost use Rattle.std.specs.Prelude.{◌≡◌};
    ghost use Rattle.hib_base.specs.declared.entries.Act.{Act};
    ghost use Rattle.hib_parts.specs.Stored.{IsStartReply, StartListState};

    ghost Value = { StartListState };

    ghost view = { λ l. record {
      query = l.query;
      reply = l.reply;
    } };

    ghost invariant = { λ l. (l.twin ≡ l.reply)
        × IsStartReply N.script N.from.tables (Act.List l.query) l.reply };
}

impl<N: Name> StartList<N> {
    /// Which query it is.
    pub fn query(&self) -> QueryNo
        ensures { result ≡ self.now.query }
    {
        self.query
    }

    /// The replies.
    pub fn replies(self) -> (Reply, Reply)
        ensures twin { result.1 ≡ result.0 }
        ensures reply { result.0 ≡ self.reply }
        ensures given { IsStartReply N.script N.from.tables (Act.List self.query) result.0 }
    {
        let StartList {
            query: _,
            reply,
            twin,
            of: _,
        } = self;
        (reply, twin)
    }
}

/// The committed rows at the start, if the keeper tells them. Threads share them.
#[derive(Drop)]
pub struct StartRows<N: Name> {
    snapshot: Snapshot,
    of: PhantomData<N>,
}

impl<N: Name> Model for StartRows<N> {
    ghost use Rattle.hib_store.specs.Stores.{IsSnapshotOf, SnapshotState};

    ghost Value = { SnapshotState };

    ghost view = { λ r. r.snapshot };

    ghost invariant = { λ r. IsSnapshotOf N.from.tables r.snapshot };
}

impl<N: Name> StartRows<N> {
    /// The rows of a snapshot, which must be those at the start.
    pub(crate) fn of(snapshot: Snapshot) -> StartRows<N>
        requires { IsSnapshotOf N.from.tables snapshot }
        ensures { result ≡ snapshot }
    {
        StartRows {
            snapshot,
            of: PhantomData,
        }
    }

    /// What a query of the script gives over the rows. None if and only if there is no such query, or it reads other
    /// entities than the first ones, whose rows these are. Fails for want of memory alone.
    pub fn list(
        &self,
        alloc: Global,
        script: &Script,
        query: QueryNo,
    ) -> Result<Option<StartList<N>>, AllocError>
        requires { script.now ≡ N.script }
        ensures query { IfOk result (λ found. IfSome found (λ l. l.query ≡ query)) }
        ensures there { IfOk result (λ found. IfSome (slice_get N.script.queries query)
            (λ d. ReadsBelow self.now.entities d → is_some found ≡ true)) }
        ensures only { IfOk result (λ found. is_some found ≡ true
            → MatchOption (slice_get N.script.queries query) ⊥
            (λ d. ReadsBelow self.now.entities d)) }
    {
        let Some(asked) = script.queries.as_slice().get(query.0 as usize) else {
            return Ok(None);
        };
        let Some(cells) = self.snapshot.list(alloc, asked)? else {
            return Ok(None);
        };
        let reply = Reply::Listed(cells);
        let twin = copied(alloc, &reply)?;
        Ok(Some(StartList {
            query,
            reply,
            twin,
            of: PhantomData,
        }))
    }
}
