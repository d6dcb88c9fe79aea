// Laws of passes. A law is a function with nothing to do: its contract is the law.
ghost use Rattle.turn_lock.specs.Rule.{PassesAgree};
ghost use Rattle.shared_kv.specs.Desks.{book_in, stands_in};

use crate::desk::Desk;
use kv_model::Kv;
use turn_lock::passes_agree;

/// Of any two passes of one shared store, at any moment: they don't both have the turn, one has
/// seen a beginning of what the other has seen, and no position is own of both.
pub fn callers_agree<K: Kv>()
    ensures { PassesAgree (stands_in K.rules_by K.state) (book_in K.state) }
{
    passes_agree::<Desk<K>>();
}
