/// What a torn program or erase leaves of its range.
#[derive(Clone, Copy, Debug, PartialEq, Eq)]
pub enum Pattern {
    /// The bytes from before the call.
    None,
    /// The first half of what a whole call leaves, rounded down, and then the bytes from before it.
    Half,
    /// Zeros.
    Zero,
    /// What a whole call leaves.
    All,
    /// The high bytes of the generator's numbers from this seed.
    Mix { seed: u32 },
}
