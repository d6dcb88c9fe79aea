// The type of the plain store.
ghost use Rattle.plain_store.specs.Stores.{Is};

use flash_core::Flash;
use plain_store::PlainStore;

/// A key-value store over a flash device of two areas. It keeps where each key's last record
/// stands in memory, and nothing else of the device.
#[derive(Drop)]
pub struct TdbStore<F: Flash> {
    pub(crate) store: PlainStore<F>,
    ghost kept: { ∥ Is F.state store ∥₁ },
}
