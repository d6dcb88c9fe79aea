// What stands behind a session.
ghost use Rattle.std.specs.Prelude.{◌≡◌, ◌≤◌, MatchResult, is_none, is_some};
ghost use Rattle.flash_sim.specs.Views.{view_of};
ghost use Rattle.plain_store.specs.Stores.{state_of, store_view};
ghost use Rattle.session_core.specs.Backing.{chip_behind, chip_in, primary_by, told_by};
ghost use Rattle.session_core.specs.Chips.{device_in, powered};
ghost use Rattle.session_core.specs.Mounting.{HasKept, HasMounted};

use flash_sim::Chip;
use std::alloc::Global;
use tdb_store::TdbStore;

/// The store of a session, while it is mounted.
#[derive(Drop)]
pub enum Store {
    Plain(TdbStore<Chip>),
}

/// The chips of a session, while no store has them.
#[derive(Drop)]
pub enum Chips {
    One(Chip),
}

// Puts power on. No call of the chip is to fail then. It takes no memory.
fn power_on(alloc: Global, chip: &mut Chip)
    ensures { view_of chip.new ≡ powered (view_of chip.old) }
{
    chip.set_faults(Vec::new(alloc), Vec::new(alloc));
    chip.power_on();
}

// Puts power on, and mounts the chip as a plain store.
fn mount_plain(alloc: Global, mut chip: Chip, hash_bits: u8) -> Result<TdbStore<Chip>, Chip>
    requires { hash_bits ≤ 32 }
    ensures { MatchResult result
        (λ store. HasMounted (view_of chip) (view_of store.store.log.flash) hash_bits
        (state_of (store_view device_in store.store)))
        (λ kept. HasKept (view_of chip) (view_of kept)) }
{
    power_on(alloc, &mut chip);
    match TdbStore::mount(alloc, chip, hash_bits) {
        Ok(store) => Ok(store),
        Err((chip, _)) => Err(chip),
    }
}

impl Store {
    /// Lends the primary chip.
    pub(crate) fn primary(&self) -> &Chip
        ensures { view_of result.now ≡ chip_behind self.now }
    {
        match self {
            Store::Plain(store) => store.flash(),
        }
    }

    /// Gives the chips back.
    pub(crate) fn into_chips(self) -> Chips
        ensures { chip_in result ≡ chip_behind self }
    {
        match self {
            Store::Plain(store) => Chips::One(store.into_flash()),
        }
    }
}

impl Chips {
    /// Lends the primary chip.
    pub(crate) fn primary(&self) -> &Chip
        ensures { view_of result.now ≡ chip_in self.now }
    {
        match self {
            Chips::One(chip) => chip,
        }
    }

    /// Puts power on, and mounts the chips with so many bits of hash. Where there is no memory it
    /// gives them back.
    pub(crate) fn mount(self, alloc: Global, hash_bits: u8) -> Result<Store, Chips>
        requires { hash_bits ≤ 32 }
        ensures { MatchResult result
            (λ store. HasMounted (chip_in self) (chip_behind store) hash_bits (told_by store))
            (λ chips. HasKept (chip_in self) (chip_in chips)) }
    {
        match self {
            Chips::One(chip) => match mount_plain(alloc, chip, hash_bits) {
                Ok(store) => Ok(Store::Plain(store)),
                Err(chip) => Err(Chips::One(chip)),
            },
        }
    }
}

/// The chips that stand behind a session.
pub(crate) fn chips_of(store: Option<Store>, chips: Option<Chips>) -> Chips
    requires { is_some chips ≡ is_none store }
    ensures { chip_in result ≡ primary_by store chips }
{
    match store {
        Some(store) => store.into_chips(),
        None => match chips {
            Some(chips) => chips,
            None => unreachable!(),
        },
    }
}
