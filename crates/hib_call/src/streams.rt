// A source is read to its end, up to the limit of a command.
ghost use Rattle.std.specs.Prelude.{◌≡◌, ◌⊎◌, ◌+◌, ◌<◌, ◌≤◌, length, Err, IfErr, IfOk, OnOk, IfSome};
ghost use Rattle.std.specs.Io.KnownBytes.{IsAtEnd};
ghost use Rattle.hib_outside.specs.Causes.{Rose};
ghost use Rattle.hib_call.specs.Limits.{max_journal, max_piece};
ghost use Rattle.hib_call.specs.Streams.{ReadsFew};

use crate::status::Status;
use hib_outside::{Failed, Source};
use std::alloc::{AllocError, Global};

/// The most bytes that are read at once.
const PIECE: usize = 4_096;

/// A source that has nothing left, for a command whose input doesn't come from one.
#[derive(Clone, Copy)]
pub struct NothingLeft;

impl Source for NothingLeft {
    ghost use Rattle.std.specs.Prelude.{[], Some};

    ghost left = { λ _. Some [] };

    ghost faults = { λ _. 0 };

    fn read(&mut self, _buf: &mut [u8]) -> Result<usize, Failed> {
        Ok(0)
    }
}

/// Makes room in a text for this many more bytes. If the text must grow, it grows by at least a quarter, so that it is
/// seldom moved and little of its room is left unused. At an error the text is as before.
fn make_room(text: &mut Vec<u8>, bytes: usize) -> Result<(), AllocError>
    ensures { text.new.items ≡ text.old.items }
{
    if text.capacity().saturating_sub(text.len()) >= bytes {
        return Ok(());
    }
    let quarter = text.len() / 4;
    text.reserve_exact(if quarter > bytes { quarter } else { bytes })
}

/// All that the source has left, up to the limit. Then the source is at its end, and has not failed. Each turn takes a
/// byte at least, meets the end or fails. At most one piece beyond the limit is read.
///
/// Errors: `TooLong` if there is more than the limit; `ReadFault` if the source failed; `NoMemory` if there is none
/// left.
#[tactic(auto, using(crate::proofs::Taken::reads_more, crate::proofs::Taken::reads_still))]
pub fn read_all<S: Source>(alloc: Global, source: &mut S, limit: usize) -> Result<Vec<u8>, Status>
    requires { limit ≤ max_journal }
    ensures bytes { IfOk result (λ v. IfSome (S.left source.old) (λ bytes. bytes ≡ v.items)) }
    ensures few { IfOk result (λ v. length v.items ≤ limit) }
    ensures long { result ≡ Err Status.TooLong
        → IfSome (S.left source.old) (λ bytes. limit < length bytes) }
    ensures taken { ReadsFew (limit + max_piece) (S.left source.old) (S.left source.new) }
    ensures end { IfOk result (λ _. IsAtEnd (S.left source.new)) }
    ensures calm { OnOk result (S.faults source.new ≡ S.faults source.old) }
    ensures later { S.faults source.old ≤ S.faults source.new }
    ensures failed { result ≡ Err Status.ReadFault
        → Rose (S.faults source.old) (S.faults source.new) }
    ensures stops { IfErr result (λ status. (status ≡ Status.TooLong)
        ⊎ ((status ≡ Status.ReadFault) ⊎ (status ≡ Status.NoMemory))) }
{
    let mut text = Vec::new(alloc);
    let mut piece = [0u8; PIECE];
    for turn in 0..limit + 1 {
        let Ok(n) = source.read(&mut piece) else {
            return Err(Status::ReadFault);
        };
        if n == 0 {
            return Ok(text);
        }
        if make_room(&mut text, n).is_err() || text.extend_from_slice(&piece[..n]).is_err() {
            return Err(Status::NoMemory);
        }
        if text.len() > limit {
            return Err(Status::TooLong);
        }
    }
    Err(Status::TooLong)
}
