// Laws of the rule. The functions do nothing: their contracts are the laws.
ghost use Rattle.turn_lock.specs.Rule.{PassesAgree};

use crate::booked::Booked;

/// Of any two passes of one table, at any moment: they don't both have the turn, one has seen a
/// beginning of what the other has seen, and no position is own of both.
pub fn passes_agree<S: Booked>()
    ensures { PassesAgree S.stands_for S.book }
{}
