// Rows with changes laid over them, without a copy of the rows: conditions are tested over a view.
ghost use Rattle.std.specs.Prelude.{◌≡◌, true, option_copied};
ghost use Rattle.hib_base.specs.Tables.{in_order, row_at, after_changes};
ghost use Rattle.hib_query_eval.specs.Found.{row_in};
ghost use Rattle.hib_query_eval.specs.Views.{Lays};

use crate::own::{self, Laid};
use hib_base::{Change, Key, Row};
use hib_outside::keyed;
use std::marker::Model;

/// Rows in order of keys, with changes laid over them. Contracts see the rows that the changes leave.
#[derive(Drop)]
pub struct View<'a> {
    rows: &'a [(Key, Row)],
    changes: &'a [Change],
    // What the changes leave of no rows. None if there are no changes.
    laid: Option<&'a Laid>,
}

impl<'a> Model for View<'a> {
    ghost use Rattle.std.specs.Prelude.{option_copied};
    ghost use Rattle.hib_base.specs.Tables.{Tables, after_changes};

    ghost Value = { Tables };

    ghost use Rattle.hib_query_eval.specs.Views.{IsLaid};

    ghost view = { λ v. after_changes v.changes.now v.rows.now };

    ghost invariant = { λ v. IsLaid v.rows.now v.changes.now (option_copied v.laid) };
}

impl<'a> View<'a> {
    /// The view of rows, which must be in order of keys, with changes laid over them; `laid` is what the changes leave.
    pub fn over(rows: &'a [(Key, Row)], changes: &'a [Change], laid: &'a Laid) -> View<'a>
        requires ordered { in_order rows.now ≡ true }
        requires laid { Lays changes.now laid.now }
        ensures view { result ≡ after_changes changes.now rows.now }
        ensures ordered { in_order result ≡ true }
    {
        View {
            rows,
            changes,
            laid: Some(laid),
        }
    }

    /// The view of rows, which must be in order of keys, as they are.
    pub fn of(rows: &'a [(Key, Row)]) -> View<'a>
        requires { in_order rows.now ≡ true }
        ensures { result ≡ rows.now }
    {
        View {
            rows,
            changes: &[],
            laid: None,
        }
    }

    /// The rows among which a key's row stands: those that the changes leave, or the rows as they are.
    fn part(&self, key: &Key) -> &[(Key, Row)]
        ensures ordered { in_order result.now ≡ true }
        ensures row { row_at result.now key.now ≡ row_at self.now key.now }
        ensures entry { row_in result.now key.now ≡ row_in self.now key.now }
    {
        match self.laid {
            Some(laid) if own::is_changed(laid, key) => laid.left.as_slice(),
            _ => self.rows,
        }
    }

    /// The row of a key.
    pub fn row_of(&self, key: &Key) -> Option<&Row>
        ensures { option_copied result ≡ row_at self.now key.now }
    {
        keyed::row_of(self.part(key), key)
    }

    /// A key with its row.
    pub fn entry_of(&self, key: &Key) -> Option<&(Key, Row)>
        ensures { option_copied result ≡ row_in self.now key.now }
    {
        entry_of(self.part(key), key)
    }
}

/// A key with its row.
fn entry_of<'a>(rows: &'a [(Key, Row)], key: &Key) -> Option<&'a (Key, Row)>
    requires { in_order rows.now ≡ true }
    ensures { option_copied result ≡ row_in rows.now key.now }
{
    match keyed::find(rows, key) {
        Ok(at) => Some(&rows[at]),
        Err(_) => None,
    }
}
