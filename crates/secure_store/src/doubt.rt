// The note of a call that is in doubt.
ghost use Rattle.std.specs.Prelude.{◌≡◌};
ghost use Rattle.secure_store.specs.Asking.{operation_asked};
ghost use Rattle.secure_store.specs.Asked.{asked_state};
ghost use Rattle.secure_store.specs.Doubts.{doubted};
ghost use Rattle.secure_store.specs.SecureState.{state_in};

use crate::asking::Asking;
use crate::store::SecureStore;
use kv_model::Kv;
use store_note::{Noted, Notes};

/// A call that a store is about to make.
#[derive(Drop)]
pub(crate) struct Asked<'a, U: Kv, R: Kv> {
    store: &'a SecureStore<U, R>,
    who: u8,
    call: Asking<'a>,
}

struct Doubtful;

impl<'a, U: Kv, R: Kv> Notes<Asked<'a, U, R>> for Doubtful {
    ghost state = { asked_state };
}

/// The state that the store tells if a write of this call fails.
pub(crate) fn in_doubt<U: Kv, R: Kv>(store: &SecureStore<U, R>, who: u8, call: Asking) -> Noted
    ensures { result.state ≡ doubted (state_in store.now) who (operation_asked call.entry) }
{
    Noted::of::<Asked<U, R>, Doubtful>(&Asked { store, who, call })
}
