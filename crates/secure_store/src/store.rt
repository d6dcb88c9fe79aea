// A secure store over two others.
ghost use Rattle.std.specs.Prelude.{is_none};
ghost use Rattle.sealed_pair.specs.Active.{IsActive, share_above, share_below};
ghost use Rattle.secure_store.specs.Doubts.{WhereStopped, noted_in};
ghost use Rattle.sealed_pair.specs.Store.{IsPlainWhile};
ghost use Rattle.secure_store.specs.Facts.{active_prop, plain_prop};

use crate::stop::Stop;
use kv_model::Kv;
use sealed_pair::Active;

/// A store over two others. Values stand in the primary store as sealed records, authenticated and
/// where asked enciphered; of keys that are write-once or protected from replay the rollback store
/// keeps the tag, so that an old primary image is noticed.
#[derive(Drop)]
pub struct SecureStore<U: Kv, R: Kv> {
    pub(crate) primary: U,
    pub(crate) rollback: R,
    pub(crate) root: [u8; 16],
    /// The number of the next set that takes one.
    pub(crate) iv: u64,
    pub(crate) active: Option<Active>,
    pub(crate) stopped: Option<Stop>,
    ghost above: { IsPlainWhile (is_none stopped) (share_above root iv active) U.rules_by
        (U.state primary) } by { plain_prop },
    ghost below: { IsPlainWhile (is_none stopped) (share_below active) R.rules_by
        (R.state rollback) } by { plain_prop },
    ghost sealing: { IsActive root iv active } by { active_prop root iv active },
    ghost in_doubt: { ∥ WhereStopped root (noted_in stopped) (U.state primary)
        (R.state rollback) ∥₁ },
}
