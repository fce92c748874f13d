// Which rows transactions wrote themselves.
ghost use Rattle.hib_trace_filed.specs.Own.{has_own, is_own, own_written, same_own};
ghost use Rattle.hib_trace_filed.specs.declared.own.Own.{Own};
ghost use Rattle.std.specs.List.{list_any};
ghost use Rattle.std.specs.Prelude.{◌≡◌, ℕ, IfOk, OnOk, Option, if◌then◌else◌, true};

use hib_trace_calls::Write;
use std::alloc::{AllocError, Global};
use std::collections::HashSet;

/// A row that a transaction wrote.
#[derive(Clone, Copy, Debug, PartialEq, Eq, Hash)]
pub struct Own {
    /// The number of the transaction.
    pub transaction: usize,
    /// The number of the key.
    pub key: usize,
    /// The number of the row.
    pub row: usize,
}

/// The rows that transactions wrote.
#[derive(Drop)]
pub struct Owns {
    /// The rows, each once.
    pub rows: HashSet<Own>,
}

// Adds a row.
fn add(owns: &mut Owns, own: Own) -> Result<(), AllocError>
    ensures { OnOk result ((x : Own) → list_any (same_own x) owns.new.rows.keys
        ≡ (if same_own own x then true else list_any (same_own x) owns.old.rows.keys)) }
{
    owns.rows.insert(own)?;
    Ok(())
}

// Notes the row of a write, if its transaction is told.
fn note_own(owns: &mut Owns, write: &Write) -> Result<(), AllocError>
    ensures { OnOk result ((t : Option ℕ) (k r : ℕ) → has_own owns.new t k r
        ≡ (if is_own t k r write.now then true else has_own owns.old t k r)) }
{
    match write.transaction {
        None => Ok(()),
        Some(transaction) => add(
            owns,
            Own {
                transaction,
                key: write.key,
                row: write.row,
            },
        ),
    }
}

/// The rows that transactions wrote.
pub fn owns_of(alloc: Global, writes: &[Write]) -> Result<Owns, AllocError>
    ensures { IfOk result (λ o. (t : Option ℕ) (k r : ℕ) → has_own o t k r ≡ own_written writes.now t k r) }
{
    let mut owns = Owns {
        rows: HashSet::new(alloc),
    };
    for write in writes {
        note_own(&mut owns, write)?;
    }
    Ok(owns)
}

impl Owns {
    /// Whether a transaction, if it is told, wrote this row of a key.
    pub fn has(&self, transaction: Option<usize>, key: usize, row: usize) -> bool
        ensures { result ≡ has_own self.now transaction key row }
    {
        match transaction {
            None => false,
            Some(transaction) => self.rows.contains(&Own {
                transaction,
                key,
                row,
            }),
        }
    }
}
