// How a store comes to be from a device, and gives it back.
ghost use Rattle.std.specs.Prelude.{◌≡◌, ◌≤◌, IfOk, IfErr, MatchResult, None};
ghost use Rattle.flash_core.specs.Sizes.{IsValid};
ghost use Rattle.kv_model.specs.Kv.{IsLawful};
ghost use Rattle.kv_model.specs.PlainStep.{plain_rules};
ghost use Rattle.tdb_mount.specs.declared.mount.MountError.TheVariants.{BadGeometry};
ghost use Rattle.tdb_read.specs.Mounting.{IsMounted, IsUnmounted};
ghost use Rattle.tdb_read.specs.Views.{view_of};
ghost use Rattle.plain_store.specs.Mounting.{IsFresh};
ghost use Rattle.plain_store.specs.Stores.{Is, state_of, store_view};

use crate::PlainStore;
use flash_core::Flash;
use std::alloc::Global;
use tdb_mount::MountError;
use tdb_read::MountedLog;

impl<F: Flash> PlainStore<F> {
    // Mounts a device, as `MountedLog::mount` does. The store stands for the map of the device's
    // image, and has no active set and no iterators.
    pub fn mount(alloc: Global, flash: F, hash_bits: u8) -> Result<PlainStore<F>, (F, MountError)>
        requires bits { hash_bits ≤ 32 }
        ensures mounted { MatchResult result
            (λ store. IsMounted (F.state flash) hash_bits (view_of F.state store.log))
            (λ refused. IsUnmounted (F.state flash) (F.state refused.0) refused.1) }
        ensures bad_geometry { (IsValid (F.state flash).geometry → ⊥)
            → IfErr result (λ refused. (refused.1 ≡ BadGeometry) × (refused.0 ≡ flash)) }
        ensures is { IfOk result (Is F.state) }
        ensures fresh { IfOk result (λ store.
            IsFresh (F.state flash) hash_bits (state_of (store_view F.state store))) }
    {
        match MountedLog::mount(alloc, flash, hash_bits) {
            Ok(log) => Ok(PlainStore::over(log)),
            Err(refused) => Err(refused),
        }
    }

    // Mounts the store's device anew, also where a failed write stopped the store.
    pub fn remount(self) -> Result<PlainStore<F>, (F, MountError)>
        requires is { Is F.state self }
        ensures mounted { MatchResult result
            (λ store. IsMounted (F.state self.log.flash) self.log.hash_bits
            (view_of F.state store.log))
            (λ refused. IsUnmounted (F.state self.log.flash) (F.state refused.0) refused.1) }
        ensures bad_geometry { (IsValid (F.state self.log.flash).geometry → ⊥)
            → IfErr result (λ refused. (refused.1 ≡ BadGeometry) × (refused.0 ≡ self.log.flash)) }
        ensures is { IfOk result (Is F.state) }
        ensures fresh { IfOk result (λ store. IsFresh (F.state self.log.flash)
            self.log.hash_bits (state_of (store_view F.state store))) }
    {
        let PlainStore {
            log,
            active: _,
            stopped: _,
        } = self;
        match log.remount() {
            Ok(log) => Ok(PlainStore::over(log)),
            Err(refused) => Err(refused),
        }
    }

    // Lends the device. What the store tells is lawful.
    pub fn flash(&self) -> &F
        ensures device { result.now ≡ self.now.log.flash }
        ensures lawful { Is F.state self.now
            → IsLawful plain_rules (state_of (store_view F.state self.now)) }
    {
        self.log.flash()
    }

    // Gives back the device. It takes no memory.
    pub fn into_flash(self) -> F
        ensures { result ≡ self.log.flash }
    {
        self.log.into_flash()
    }
}
