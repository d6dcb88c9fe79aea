// The table behind the turn: two words and a slot.
//
// Word 0 is 1 while a pass has the turn, and else 0. Word 1 is the length of the history. The slot
// has the value while no pass has the turn.
ghost use Rattle.std.specs.Prelude.{◌≡◌};

use crate::booked::Booked;
use crate::view::View;
use atomic_table::{Table, TableRule};
use std::alloc::Global;
use std::snapshot::Snapshot;

pub(crate) const TURN: usize = 0;

pub(crate) const LENGTH: usize = 1;

pub(crate) const SLOT: usize = 0;

/// What holds of the table at any moment.
pub struct TurnRule;

impl<S: Booked> TableRule<Option<S>, View, Snapshot<S>> for TurnRule {
    ghost use Rattle.turn_lock.specs.Views.{first_view};
    ghost use Rattle.turn_lock.specs.Rule.{Kept};

    ghost holds = { λ _. Kept S.stands_for S.book };

    ghost first = { λ key. first_view (S.book key.value).opening };
}

/// A value behind a turn. Any number of threads may share it by reference; each uses a pass of its
/// own.
pub struct Turns<S: Booked> {
    pub(crate) table: Table<Option<S>, View, Snapshot<S>, TurnRule, Global>,
    pub ghost sized: { (table.shared.table_id.words ≡ 2) × (table.shared.table_id.slots ≡ 1) },
}
