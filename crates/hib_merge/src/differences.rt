// Where a session's list and its entries in the merged list differ.
ghost use Rattle.std.specs.Prelude.{◌≡◌, ◌↔◌, IsTrue, MatchOption};
ghost use Rattle.hib_merge.specs.Tearing.{PartAt};

use crate::pointed::Pointed;
use hib_base::{Act, Entry, Reply};

/// Whether two acts are equal.
#[tactic(auto, using(hib_base::proofs::Equality::act_decides))]
fn is_same_act(act: &Act, other: &Act) -> bool
    ensures { IsTrue result ↔ (act.now ≡ other.now) }
{
    *act == *other
}

/// Whether two replies are equal.
#[tactic(auto, using(hib_base::proofs::Equality::reply_decides))]
fn is_same_reply(reply: &Reply, other: &Reply) -> bool
    ensures { IsTrue result ↔ (reply.now ≡ other.now) }
{
    *reply == *other
}

/// Whether two entries are equal.
fn is_same(entry: &Entry, other: &Entry) -> bool
    ensures { IsTrue result ↔ (entry.now ≡ other.now) }
{
    entry.tick == other.tick
        && entry.session == other.session
        && entry.part == other.part
        && is_same_act(&entry.act, &other.act)
        && is_same_reply(&entry.reply, &other.reply)
}

/// The first place at which a session's list differs from its entries in the merged list, or none if they are the same.
pub fn difference(entries: &[Entry], others: &Pointed<'_>) -> Option<usize>
    ensures { MatchOption result (entries.now ≡ others.now)
        (λ place. PartAt entries.now others.now place) }
{
    for (place, entry) in entries.iter().enumerate() {
        match others.get(place) {
            Some(other) => {
                if !is_same(entry, other) {
                    return Some(place);
                }
            }
            None => return Some(place),
        }
    }
    if entries.len() < others.len() {
        return Some(entries.len());
    }
    None
}
