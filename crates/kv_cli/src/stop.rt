ghost use Rattle.std.specs.Prelude.{◌≡◌};
ghost use Rattle.kv_cli.specs.declared.stop.Stop.TheVariants as of;

use crate::refusal::Refusal;
use kv_model::NoMemory;

/// Why a replay stopped before its end.
#[derive(Clone, Copy, Debug, PartialEq, Eq)]
pub enum Stop {
    /// The files are to blame.
    Refused { refusal: Refusal },
    /// A call of the host failed.
    Fault,
    /// There was no memory.
    Memory,
}

impl From<NoMemory> for Stop {
    ghost from_gives = { λ _ stop. stop ≡ of.Memory };

    fn from(_: NoMemory) -> Self {
        Stop::Memory
    }
}
