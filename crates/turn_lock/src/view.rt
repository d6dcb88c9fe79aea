// What a seat at the table knows. No value of these types is made: they stand in proofs alone.
use kv_model::Entry;
use std::collections::LinkedList;
use std::marker::Model;

/// What the value was when it was handed in.
pub struct Origin {
    marker: (),
}

impl Model for Origin {
    ghost use Rattle.kv_model.specs.Opening.{Opening, opening_code};

    ghost Value = { Opening };

    ghost coded = { opening_code };

    ghost use Rattle.turn_lock.specs.Books.{no_opening};

    ghost view = { λ _. no_opening };
}

/// Where a pass stands in its turn.
pub enum Phase {
    /// It hasn't the turn.
    Idle,
    /// It has the turn, and hasn't yet read how long the history is.
    Taken,
    /// It has the turn and has seen the whole history.
    Loaded,
    /// It has the last turn, and the value is back in its slot.
    Closing,
    /// It went into another pass, and knows nothing.
    Spent,
}

pub struct View {
    /// The caller's number.
    pub who: u8,
    pub opening: Origin,
    /// The history as far as it was seen.
    pub seen: LinkedList<Entry>,
    /// The shorter of the two lists that a join brought together.
    pub shorter: LinkedList<Entry>,
    /// The positions in the history that are this pass's own, from 1.
    pub own: LinkedList<u32>,
    /// How many positions it may own.
    pub parts: u32,
    /// The numbers under which it was the first to quit.
    pub marks: LinkedList<u8>,
    pub phase: Phase,
    /// In its turn, the history and the first that quit, as last noted.
    pub noted: LinkedList<Entry>,
    pub quitter: Option<u8>,
    /// How many turns it had.
    pub had: u64,
    /// What its exchanges found that missed.
    pub found: LinkedList<u64>,
}
