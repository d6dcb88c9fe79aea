// How a store comes to be from a device, and gives it back.
ghost use Rattle.std.specs.Prelude.{◌≡◌, ◌≤◌, IfOk, IfErr, MatchResult};
ghost use Rattle.flash_core.specs.Sizes.{IsValid};
ghost use Rattle.plain_store.specs.Mounting.{IsFresh};
ghost use Rattle.plain_store.specs.Stores.{state_of, store_view};
ghost use Rattle.tdb_mount.specs.declared.mount.MountError.TheVariants.{BadGeometry};
ghost use Rattle.tdb_read.specs.Mounting.{IsMounted, IsUnmounted};
ghost use Rattle.tdb_read.specs.Views.{view_of};

use crate::TdbStore;
use flash_core::Flash;
use plain_store::PlainStore;
use std::alloc::Global;
use tdb_mount::MountError;

impl<F: Flash> TdbStore<F> {
    /// Mounts a device whose keys are hashed to so many bits. The store stands for the map of the
    /// device's image, and has no active set and no iterators.
    pub fn mount(alloc: Global, flash: F, hash_bits: u8) -> Result<TdbStore<F>, (F, MountError)>
        requires bits { hash_bits ≤ 32 }
        ensures mounted { MatchResult result
            (λ store. IsMounted (F.state flash) hash_bits (view_of F.state store.store.log))
            (λ refused. IsUnmounted (F.state flash) (F.state refused.0) refused.1) }
        ensures bad_geometry { (IsValid (F.state flash).geometry → ⊥)
            → IfErr result (λ refused. (refused.1 ≡ BadGeometry) × (refused.0 ≡ flash)) }
        ensures fresh { IfOk result (λ store.
            IsFresh (F.state flash) hash_bits (state_of (store_view F.state store.store))) }
    {
        match PlainStore::mount(alloc, flash, hash_bits) {
            Ok(store) => Ok(TdbStore { store }),
            Err(refused) => Err(refused),
        }
    }

    /// Mounts the store's device anew, also where a failed write stopped the store.
    #[tactic(auto, using(plain_store::proofs::RestoredLemmas::is_kept))]
    pub fn remount(self) -> Result<TdbStore<F>, (F, MountError)>
        ensures mounted { MatchResult result
            (λ store. IsMounted (F.state self.store.log.flash) self.store.log.hash_bits
            (view_of F.state store.store.log))
            (λ refused. IsUnmounted (F.state self.store.log.flash) (F.state refused.0)
            refused.1) }
        ensures bad_geometry { (IsValid (F.state self.store.log.flash).geometry → ⊥)
            → IfErr result (λ refused. (refused.1 ≡ BadGeometry)
            × (refused.0 ≡ self.store.log.flash)) }
        ensures fresh { IfOk result (λ store. IsFresh (F.state self.store.log.flash)
            self.store.log.hash_bits (state_of (store_view F.state store.store))) }
    {
        let TdbStore { store } = self;
        match store.remount() {
            Ok(store) => Ok(TdbStore { store }),
            Err(refused) => Err(refused),
        }
    }

    /// Lends the device.
    pub fn flash(&self) -> &F
        ensures { result.now ≡ self.now.store.log.flash }
    {
        self.store.flash()
    }

    /// Gives back the device. It takes no memory.
    pub fn into_flash(self) -> F
        ensures { result ≡ self.store.log.flash }
    {
        let TdbStore { store } = self;
        store.into_flash()
    }
}
