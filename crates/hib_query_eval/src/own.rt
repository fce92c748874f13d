// A session's own changes, and what they leave: its view of the store is made of these and of the committed rows.
ghost use Rattle.std.specs.Prelude.{◌≡◌, ◌∷◌, ◌++◌, List, [], true, if◌then◌else◌, is_some, IfOk, IfSome, OnOk, OnErr, option_copied};
ghost use Rattle.hib_base.specs.Tables.{in_order, row_at, row_left, key_of};
ghost use Rattle.hib_journal.specs.Types.{Change as ChangeSpec, Key as KeySpec};
ghost use Rattle.hib_query_eval.specs.Views.{has_key, has_changed, Lays};

use crate::index::Index;
use crate::reading;
use hib_base::{Change, Key, Query, Row};
use hib_outside::keyed;
use std::alloc::{AllocError, Global};
use std::collections::BTreeSet;
use std::marker::Model;

/// What changes leave if they are done to no rows: an index of the rows that they leave, and the keys that were deleted
/// last. Each key that they change is one of these, or has a row here.
#[derive(Drop)]
pub struct Laid {
    pub gone: BTreeSet<Key>,
    pub left: Index,
}

/// A session's changes in the order in which they were written. Once a query was asked that reads what they touch, the
/// rows that they leave are found by their cells, too. Contracts see the changes.
#[derive(Drop)]
pub struct Own {
    changes: Vec<Change>,
    laid: Option<Laid>,
}

impl Model for Own {
    ghost use Rattle.std.specs.Prelude.{List, IfSome};
    ghost use Rattle.hib_journal.specs.Types.{Change};
    ghost use Rattle.hib_query_eval.specs.Views.{Lays};

    ghost Value = { List Change };

    ghost view = { λ o. o.changes.items };

    ghost invariant = { λ o. IfSome o.laid (Lays o.changes.items) };
}

impl Own {
    /// No changes. It takes no memory.
    pub fn new(alloc: Global) -> Own
        ensures { result ≡ [] }
    {
        Own {
            changes: Vec::new(alloc),
            laid: None,
        }
    }

    /// The changes, in order.
    pub fn as_slice(&self) -> &[Change]
        ensures { result.now ≡ self.now }
    {
        self.changes.as_slice()
    }

    /// Adds a change at the end. At an error nothing has changed.
    pub fn push(&mut self, alloc: Global, change: Change) -> Result<(), AllocError>
        ensures ok { OnOk result (self.new ≡ self.old ++ change ∷ []) }
        ensures err { OnErr result (self.new ≡ self.old) }
    {
        let laid = with_change(alloc, self.laid.take(), &change);
        self.changes.push(change)?;
        self.laid = laid;
        Ok(())
    }

    /// Makes ready for a query, if it reads a table that the changes touch: the rows that they leave are then found by
    /// their cells. Fails for want of memory alone.
    pub fn lay(&mut self, alloc: Global, query: &Query) -> Result<(), AllocError>
        ensures { self.new ≡ self.old }
    {
        if !reading::is_touched(query, self.changes.as_slice()) {
            return Ok(());
        }
        if self.laid.is_none() {
            self.laid = Some(all_laid(alloc, self.changes.as_slice())?);
        }
        match &mut self.laid {
            Some(laid) => laid.left.ready(alloc, query),
            None => Ok(()),
        }
    }

    /// What the changes leave, if it is known.
    pub(crate) fn laid(&self) -> Option<&Laid>
        ensures { IfSome (option_copied result) (Lays self.now) }
    {
        self.laid.as_ref()
    }
}

/// What changes leave once there is one more; none if it wasn't known before, or if there is no memory for it. Then the
/// next query that needs it makes it of all changes.
fn with_change(alloc: Global, laid: Option<Laid>, change: &Change) -> Option<Laid>
    ensures { (cs : List ChangeSpec) → IfSome laid (Lays cs)
        → IfSome result (Lays (cs ++ change.now ∷ [])) }
{
    match one_more(alloc, laid?, change) {
        Ok(laid) => Some(laid),
        Err(_) => None,
    }
}

/// What changes leave once there is one more.
fn one_more(alloc: Global, laid: Laid, change: &Change) -> Result<Laid, AllocError>
    ensures { IfOk result (λ l. (cs : List ChangeSpec) → Lays cs laid
        → Lays (cs ++ change.now ∷ []) l) }
{
    let Laid { mut gone, left } = laid;
    note_gone(&mut gone, change)?;
    let left = left.with_change(alloc, change)?;
    Ok(Laid { gone, left })
}

/// What changes leave.
pub fn all_laid(alloc: Global, changes: &[Change]) -> Result<Laid, AllocError>
    ensures { IfOk result (Lays changes.now) }
{
    let mut laid = Laid {
        gone: BTreeSet::new(alloc),
        left: Index::empty(alloc),
    };
    for change in changes {
        laid = one_more(alloc, laid, change)?;
    }
    Ok(laid)
}

/// Whether these changes change a key.
#[inline]
pub fn is_changed(laid: &Laid, key: &Key) -> bool
    ensures { result ≡ has_changed laid.now key.now }
{
    has_row(laid.left.as_slice(), key) || is_in(&laid.gone, key)
}

/// Whether a key has a row.
#[inline]
fn has_row(rows: &[(Key, Row)], key: &Key) -> bool
    requires { in_order rows.now ≡ true }
    ensures { result ≡ is_some (row_at rows.now key.now) }
{
    keyed::row_of(rows, key).is_some()
}

/// Whether a key is one of these.
#[inline]
fn is_in(keys: &BTreeSet<Key>, key: &Key) -> bool
    ensures { result ≡ has_key keys.now.keys key.now }
{
    keys.contains(key)
}

/// Adds the key of a change that leaves no row.
fn note_gone(keys: &mut BTreeSet<Key>, change: &Change) -> Result<(), AllocError>
    ensures { OnOk result ((k : KeySpec) → has_key keys.new.keys k
        ≡ (if is_some (row_left change.now) then has_key keys.old.keys k
        else has_key (key_of change.now ∷ keys.old.keys) k)) }
{
    match change {
        Change::Insert { .. } | Change::Update { .. } => Ok(()),
        Change::Delete { key, .. } => add_key(keys, *key),
    }
}

/// Adds a key to a set.
fn add_key(keys: &mut BTreeSet<Key>, key: Key) -> Result<(), AllocError>
    ensures { OnOk result ((k : KeySpec)
        → has_key keys.new.keys k ≡ has_key (key ∷ keys.old.keys) k) }
{
    keys.insert(key)?;
    Ok(())
}
