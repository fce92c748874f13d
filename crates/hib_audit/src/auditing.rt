// The audit of a journal, which hib_top asks for `audit`, and hib_toolbox before it tells states.
ghost use Rattle.std.specs.Prelude.{◌≡◌, ◌↔◌, ◌<◌, ◌^◌, [], length, reverse, true, IfOk, Some};
ghost use Rattle.hib_base.specs.Valid.{is_valid};
ghost use Rattle.hib_journal.specs.Kept.{past};
ghost use Rattle.hib_journal.specs.Legal.{IsLegal};
ghost use Rattle.hib_audit.specs.Breaks.{start_rows};
ghost use Rattle.hib_audit.specs.Standing.{Knows};
ghost use Rattle.hib_audit.specs.Audit.{IsFound, IsLawful, IsVerdict};

use crate::auditor::Auditor;
use crate::verdict::Audit;
use hib_base::{Entry, Script};
use hib_journal::Journal;
use hib_law::{law, lists_are_given};
use std::alloc::{AllocError, Global};

/// Takes the entries one after another, up to the first that isn't legal.
fn first_bad(
    alloc: Global,
    script: &Script,
    auditor: &mut Auditor,
    entries: &[Entry],
) -> Result<Audit, AllocError>
    requires known { Knows script.now (start_rows script.now) [] auditor.old }
    requires few { length entries.now < 2 ^ 32 }
    ensures { IfOk result (λ a. auditor.new.engines.store.faults ≡ 0
        → IsVerdict script.now (start_rows script.now) (reverse entries.now) a) }
{
    for at in 0..entries.len() {
        if let Some(kind) = auditor.pass(alloc, script, &entries[at])? {
            let entry = at as u32 + 1;
            return Ok(Audit::Illegal { entry, kind });
        }
    }
    Ok(Audit::Legal)
}

/// Whether a journal is legal for a script from the script's rows; else its first entry that isn't, and the first point
/// that this entry breaks. A fault in the journal is taken if the act may fail there. The entries after the first bad
/// one are not looked at.
pub fn audit(alloc: Global, script: &Script, journal: &Journal) -> Result<Audit, AllocError>
    requires valid { is_valid script.now ≡ true }
    requires few { length (past journal.now) < 2 ^ 32 }

    // It is legal exactly if the audit says so, and then it obeys the law.
    ensures legal { IfOk result (λ a. (a ≡ Audit.Legal)
        ↔ IsLegal script.now (Some (start_rows script.now)) (past journal.now)) }
    ensures law { IfOk result (IsLawful script.now (start_rows script.now) (past journal.now)) }

    // The entry that is named is the first that isn't legal, and the point the first that it breaks.
    ensures illegal { IfOk result (IsFound script.now (start_rows script.now) (past journal.now)) }
{
    law();
    lists_are_given();
    let mut auditor = Auditor::open(alloc, script)?;
    let audit = first_bad(alloc, script, &mut auditor, journal.as_slice());
    auditor.close();
    audit
}
