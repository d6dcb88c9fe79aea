// The value, while a pass has the turn.
ghost use Rattle.std.specs.Prelude.{◌≡◌};
ghost use Rattle.std.specs.Borrow.{sem};
ghost use Rattle.turn_lock.specs.Lending.{LendsState};

/// The value, while a pass has the turn. It can't be dropped: it ends by `Turns::give`.
pub struct Held<S> {
    pub(crate) state: S,
}

impl<S> Held<S> {
    /// Lends the value for writing.
    pub fn state(&mut self) -> &mut S
        ensures* writes_back { sem 𝓛 (LendsState S.row self.entry result) }
        ensures value { result.now ≡ self.old.state }
    {
        &mut self.state
    }
}

/// Another pass has the turn.
#[derive(Clone, Copy, Debug, PartialEq, Eq)]
pub struct Taken {
    /// What this call's one exchange found. It is not 0.
    pub word: u64,
}
