// Rows, found by their keys and by their cells. There is an index of the committed rows in hib_store, and one of the
// rows that a session's own changes leave.
ghost use Rattle.std.specs.Prelude.{◌≡◌, ◌≢◌, [], true, map, IfOk, MatchOption};
ghost use Rattle.hib_base.specs.Tables.{in_order, after_change, after_changes, commit_answer};
ghost use Rattle.hib_journal.specs.Query.{gives};
ghost use Rattle.hib_journal.specs.Types.{Commit};
ghost use Rattle.hib_query_eval.specs.Met.{met};
ghost use Rattle.hib_query_eval.specs.Places.{AreIndexes};

use crate::columns::Column;
use crate::own::Own;
use crate::{changing, columns, met, overlay};
use hib_base::{Change, Cond, EntityNo, Key, Listing, Query, Row, Rows};
use std::alloc::{AllocError, Global};
use std::marker::Model;

/// The rows of tables, which are found by their keys and by their cells. Contracts see the rows with their keys, in
/// order of keys.
#[derive(Drop)]
pub struct Index {
    rows: Vec<(Key, Row)>,
    // The columns of which a query has asked.
    columns: Vec<Column>,
}

impl Model for Index {
    ghost use Rattle.hib_base.specs.Tables.{Tables};

    ghost Value = { Tables };

    ghost use Rattle.std.specs.Prelude.{◌≡◌, true};
    ghost use Rattle.hib_base.specs.Tables.{in_order};
    ghost use Rattle.hib_query_eval.specs.Places.{AreIndexes};

    ghost view = { λ i. i.rows.items };

    ghost invariant = { λ i. (in_order i.rows.items ≡ true)
        × AreIndexes i.columns.items i.rows.items };
}

impl Index {
    /// The index of these rows, which must stand in order of keys. Fails for want of memory alone.
    pub fn build(alloc: Global, rows: Rows) -> Result<Index, AllocError>
        requires { in_order rows ≡ true }
        ensures { IfOk result (λ index. index ≡ rows) }
    {
        Ok(Index {
            rows: rows.into_vec(),
            columns: Vec::new(alloc),
        })
    }

    /// The index of no rows. It takes no memory.
    pub(crate) fn empty(alloc: Global) -> Index
        ensures { result ≡ [] }
    {
        Index {
            rows: Vec::new(alloc),
            columns: Vec::new(alloc),
        }
    }

    /// The rows, in order of keys.
    pub(crate) fn as_slice(&self) -> &[(Key, Row)]
        ensures ordered { in_order result.now ≡ true }
        ensures rows { result.now ≡ self.now }
    {
        self.rows.as_slice()
    }

    /// The columns by whose cells rows are found so far.
    pub(crate) fn columns(&self) -> &[Column]
        ensures { AreIndexes result.now self.now }
    {
        self.columns.as_slice()
    }

    /// Makes ready for a query: rows are found from then on by the cells of the columns that its condition asks for.
    /// Fails for want of memory alone.
    pub fn ready(&mut self, alloc: Global, query: &Query) -> Result<(), AllocError>
        ensures { self.new ≡ self.old }
    {
        match &query.condition {
            Some(condition) => columns::add_asked(
                alloc,
                &mut self.columns,
                self.rows.as_slice(),
                query.entity,
                condition,
            ),
            None => Ok(()),
        }
    }

    /// The index after one more change of a session, whether or not it applies. At an error the index is dropped.
    pub(crate) fn with_change(self, alloc: Global, change: &Change) -> Result<Index, AllocError>
        ensures { IfOk result (λ index. index ≡ after_change change.now self) }
    {
        let Index {
            mut rows,
            mut columns,
        } = self;
        changing::lay_one(alloc, &mut rows, &mut columns, change)?;
        Ok(Index { rows, columns })
    }

    /// The index after changes one after the other; none if and only if they don't apply so. At none and at an error
    /// the index is dropped.
    pub fn apply(self, alloc: Global, changes: &[Change]) -> Result<Option<Index>, AllocError>
        ensures { IfOk result (λ applied. MatchOption applied
            (commit_answer changes.now self ≢ Commit.Committed)
            (λ index. (commit_answer changes.now self ≡ Commit.Committed)
            × (index ≡ after_changes changes.now self))) }
    {
        let Index {
            mut rows,
            mut columns,
        } = self;
        for change in changes {
            if !changing::change_one(alloc, &mut rows, &mut columns, change)? {
                return Ok(None);
            }
        }
        Ok(Some(Index { rows, columns }))
    }

    /// What a query gives over the rows with a session's own changes laid over them. The rows aren't copied.
    /// Fails for want of memory alone; an identifier that no cell can hold, 2^63 or more, is answered so too.
    pub fn gives(&self, alloc: Global, query: &Query, own: &Own) -> Result<Listing, AllocError>
        ensures ordered { in_order self.now ≡ true }
        ensures given { IfOk result (λ l. l ≡ gives query.now (after_changes own.now self.now)) }
    {
        overlay::gives(
            alloc,
            query,
            self.rows.as_slice(),
            self.columns.as_slice(),
            own,
        )
    }

    /// The rows of an entity that meet a condition, if there is one. Fails for want of memory alone.
    pub fn rows_met(
        &self,
        alloc: Global,
        entity: EntityNo,
        condition: &Option<Cond>,
    ) -> Result<Vec<&(Key, Row)>, AllocError>
        ensures ordered { in_order self.now ≡ true }
        ensures met { IfOk result (λ v. map (λ r. r.now) v.items
            ≡ met entity condition.now self.now) }
    {
        met::rows_met(alloc, entity, condition, self.rows.as_slice())
    }
}
