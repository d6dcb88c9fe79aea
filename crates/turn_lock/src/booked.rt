// What stands behind the turn.
ghost use Rattle.std.specs.Prelude.{◌≡◌, [], length};

/// A value behind a turn. It keeps a history of its calls, which begins empty, and the number of the first caller
/// that quit, if one did. What it was when it was handed in is its opening: contracts say by `stands_for` whether a
/// value may have come from an opening.
pub trait Booked {
    ghost use Rattle.kv_model.specs.Opening.{Opening};
    ghost use Rattle.turn_lock.specs.Books.{Book};

    // The present opening, the history, and the first caller that quit.
    ghost book: { Self → Book };

    ghost stands_for: { Self → Opening → Type 0 };

    /// How many entries the history has.
    fn count(&self) -> u64
        ensures { result ≡ length (book self.now).entries };

    // A value with an empty history has its present opening.
    ghost begins: { (x : Self) → (book x).entries ≡ [] → stands_for x (book x).opening };
}
