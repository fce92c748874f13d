// What may be found of orders, by number and name, and the text of each finding.
ghost use Rattle.hib_order_text.specs.Texts.{finding_text, first_text, found_of, name_of, number_of};
ghost use Rattle.std.specs.Prelude.{◌≡◌, ◌++◌, OnOk};

use crate::schedules::put_order;
use hib_base::Script;
use hib_order_tries::{Findings, First, Found};
use hib_texts::put_labelled;
use std::alloc::{AllocError, Global};

/// What may be found of an order, as the text lists it.
#[derive(Clone, Copy, Debug, PartialEq, Eq)]
pub enum Finding {
    /// A hit answers a row that is not the committed one.
    StaleHit,
    /// A kept list is called fresh that is not what its query gives.
    OldList,
    /// A commit overwrites a row that it never read.
    LostUpdate,
    /// The claims on the cache don't speak of a read-write key.
    UnsoundKey,
    /// A commit is answered stale or duplicate.
    RefusedCommit,
}

impl Finding {
    /// Its number, from 1.
    fn number(self) -> u64
        ensures { result ≡ number_of self }
    {
        match self {
            Finding::StaleHit => 1,
            Finding::OldList => 2,
            Finding::LostUpdate => 3,
            Finding::UnsoundKey => 4,
            Finding::RefusedCommit => 5,
        }
    }

    /// Its name.
    fn name<'a>(self) -> &'a [u8]
        ensures { result.now ≡ name_of self }
    {
        match self {
            Finding::StaleHit => b" stale-hit ",
            Finding::OldList => b" old-list ",
            Finding::LostUpdate => b" lost-update ",
            Finding::UnsoundKey => b" unsound-key ",
            Finding::RefusedCommit => b" refused-commit ",
        }
    }
}

/// What was found of one kind: in how many orders it is, and a first one of these.
pub fn found_of<'a>(findings: &'a Findings, finding: Finding) -> &'a Found
    ensures { result.now ≡ found_of findings.now finding }
{
    match finding {
        Finding::StaleHit => &findings.stale_hit,
        Finding::OldList => &findings.old_list,
        Finding::LostUpdate => &findings.lost_update,
        Finding::UnsoundKey => &findings.unsound_key,
        Finding::RefusedCommit => &findings.refused_commit,
    }
}

/// Adds with how many switches the first order comes, and its schedule, if there is such an order.
fn put_first(
    alloc: Global,
    out: &mut Vec<u8>,
    script: &Script,
    first: &Option<First>,
) -> Result<(), AllocError>
    ensures { OnOk result (out.new.items ≡ out.old.items ++ first_text script.now first.now) }
{
    match first {
        None => out.extend_from_slice(b"\n"),
        Some(first) => {
            put_labelled(alloc, out, b" switches ", first.switches as u64)?;
            out.extend_from_slice(b"\n")?;
            put_order(alloc, out, script, first.order.as_slice())
        }
    }
}

/// Adds the number and the name of a finding, in how many orders it is, and the schedule of one with the fewest
/// switches.
pub fn put_finding(
    alloc: Global,
    out: &mut Vec<u8>,
    script: &Script,
    findings: &Findings,
    finding: Finding,
) -> Result<(), AllocError>
    ensures { OnOk result (out.new.items
        ≡ out.old.items ++ finding_text script.now findings.now finding) }
{
    let found = found_of(findings, finding);
    put_labelled(alloc, out, b"", finding.number())?;
    put_labelled(alloc, out, finding.name(), found.count)?;
    put_first(alloc, out, script, &found.first)
}
