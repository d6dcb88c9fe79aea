use script_core::Side;

/// How the lines of a script ended on a session.
#[derive(Clone, Copy, Debug, PartialEq, Eq)]
pub enum Ended {
    /// All were run.
    Whole,
    /// A torn chip holds a record by chance, that nobody wrote: the first one of this chip stands at
    /// this place. Nothing was mounted.
    Chance { side: Side, place: u32 },
    /// There was no memory.
    Memory,
}
