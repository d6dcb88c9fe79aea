// One chip as a plain store.
ghost use Rattle.std.specs.Prelude.{◌≡◌, ◌≤◌, MatchResult};
ghost use Rattle.flash_sim.specs.Views.{view_of};
ghost use Rattle.chip_stores.specs.Chips.{powered};
ghost use Rattle.chip_stores.specs.Mounting.{HasKept, HasMounted};
ghost use Rattle.chip_stores.specs.Stores.{plain_told};

use flash_sim::Chip;
use std::alloc::Global;
use tdb_store::TdbStore;

/// Puts power on. No call of the chip is to fail then. It takes no memory.
pub fn power_on(alloc: Global, chip: &mut Chip)
    ensures { view_of chip.new ≡ powered (view_of chip.old) }
{
    chip.set_faults(Vec::new(alloc), Vec::new(alloc));
    chip.power_on();
}

/// Puts power on, and mounts the chip as a plain store with so many bits of hash. It refuses for
/// want of memory alone, and gives the chip back: its image mounts to the map to which it did.
pub fn mount_plain(alloc: Global, mut chip: Chip, hash_bits: u8) -> Result<TdbStore<Chip>, Chip>
    requires { hash_bits ≤ 32 }
    ensures { MatchResult result
        (λ store. HasMounted (view_of chip) (view_of store.store.log.flash) hash_bits
        (plain_told store.store))
        (λ kept. HasKept (view_of chip) (view_of kept)) }
{
    power_on(alloc, &mut chip);
    match TdbStore::mount(alloc, chip, hash_bits) {
        Ok(store) => Ok(store),
        Err((chip, _)) => Err(chip),
    }
}
