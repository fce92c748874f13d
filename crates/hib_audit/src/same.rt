// When two acts, or two replies, are equal: an entry's and the one that is due.
ghost use Rattle.std.specs.Prelude.{◌≡◌, ◌↔◌, IsTrue};

use hib_base::{Act, Reply};

/// Whether two acts are equal.
#[tactic(auto, using(hib_base::proofs::Equality::act_decides))]
pub fn is_same_act(a: &Act, b: &Act) -> bool
    ensures { IsTrue result ↔ (a.now ≡ b.now) }
{
    *a == *b
}

/// Whether two replies are equal.
#[tactic(auto, using(hib_base::proofs::Equality::reply_decides))]
pub fn is_same_reply(a: &Reply, b: &Reply) -> bool
    ensures { IsTrue result ↔ (a.now ≡ b.now) }
{
    *a == *b
}
