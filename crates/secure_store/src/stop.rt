// Why a secure store makes no call any more.

use store_note::Noted;

/// Why a store makes no call of its two stores any more.
#[derive(Drop)]
pub(crate) enum Stop {
    /// A write failed in a call. This is what the store tells of it.
    InCall(Noted),
    /// A write failed in a recover. The store tells no state.
    InRecover,
}
