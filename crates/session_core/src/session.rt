// The type of a session.
ghost use Rattle.std.specs.Prelude.{◌≡◌, ◌≤◌, is_none, is_some};
ghost use Rattle.std.specs.Option.{ForSome};
ghost use Rattle.session_core.specs.Backing.{told_by};

use crate::backing::{Chips, Store};

/// A store over chips that can be torn, and mounted again.
#[derive(Drop)]
pub struct Session {
    pub(crate) hash_bits: u8,
    pub(crate) store: Option<Store>,
    pub(crate) chips: Option<Chips>,
    ghost bits: { hash_bits ≤ 32 },
    ghost one: { is_some chips ≡ is_none store },
    ghost same_bits: { ForSome store
        (λ s. (told_by s).known.constants.hash_bits ≡ hash_bits) },
}
