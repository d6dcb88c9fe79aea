//! The table of an area's records, built as a walk shows them.
ghost use Rattle.std.specs.Prelude.{◌≡◌, ◌+◌, ◌≤◌, ℕ, [], length, IfErr, OnOk};
ghost use Rattle.base_core.specs.Counts.{counted};
ghost use Rattle.kv_model.specs.declared.error.KvError.TheVariants.{Memory};
ghost use Rattle.area_log.specs.Areas.{end_of};
ghost use Rattle.area_log.specs.Listing.{CountsRefusals};
ghost use Rattle.ram_table.specs.Find.{IsInside};
ghost use Rattle.ram_table.specs.Table.{changed};
ghost use Rattle.tdb_mount.specs.Room.{AreIn, HasRoomFor};

use crate::place_of;
use area_log::{Area, Visitor};
use flash_core::Flash;
use kv_model::{Key, KvError};
use ram_table::{Place, RamTable};
use record_core::{Header, REMOVE, hash_of};
use std::alloc::Global;
use std::marker::{Brand, PhantomData};

/// A number of hash bits that stays the same over a walk.
pub trait HashBits {
    ghost bits: { ℕ };
}

impl HashBits for Brand {
    ghost bits = { 0 };
}

/// A table of the last record of each key that was shown, and a spare table with room for as many
/// entries.
#[derive(Drop)]
pub struct Builder<B: HashBits> {
    table: RamTable,
    spare: RamTable,
    area: Area,
    hash_bits: u8,
    refusals: u64,
    fixed: PhantomData<B>,
    ghost same_bits: { hash_bits ≡ B.bits },
    ghost bits: { hash_bits ≤ 32 },
    ghost within: { AreIn area table.entries },
    ghost room: { HasRoomFor spare table },
    ghost empty: { spare.entries ≡ [] },
}

impl<B: HashBits> Builder<B> {
    ghost use Rattle.std.specs.Prelude.{[]};

    /// A builder for an area, of which no record was shown yet. It takes no memory.
    pub fn new(alloc: Global, area: Area, hash_bits: u8) -> Builder<B>
        requires most { hash_bits ≤ 32 }
        requires same { hash_bits ≡ B.bits }
        ensures area { result.area ≡ area }
        ensures bits { result.hash_bits ≡ hash_bits }
        ensures none { result.table.entries ≡ [] }
    {
        Builder {
            table: RamTable::new(alloc),
            spare: RamTable::new(alloc),
            area,
            hash_bits,
            refusals: 0,
            fixed: PhantomData,
        }
    }

    /// The table and the spare one.
    pub fn into_tables(self) -> (RamTable, RamTable)
        ensures table { result.0 ≡ self.table }
        ensures spare { result.1 ≡ self.spare }
    {
        let Builder {
            table,
            spare,
            area: _,
            hash_bits: _,
            refusals: _,
            fixed: _,
        } = self;
        (table, spare)
    }

    // Counts a refusal, which is handed on.
    fn refuse(&mut self, error: KvError) -> KvError
        ensures same { result ≡ error }
        ensures table { self.new.table ≡ self.old.table }
        ensures spare { self.new.spare ≡ self.old.spare }
        ensures area { self.new.area ≡ self.old.area }
        ensures bits { self.new.hash_bits ≡ self.old.hash_bits }
        ensures refusals { self.new.refusals ≡ counted self.old.refusals }
    {
        self.refusals = self.refusals.saturating_add(1);
        error
    }

    // Makes room for one entry more in both tables.
    fn reserve(&mut self) -> Result<(), KvError>
        ensures entries { self.new.table.entries ≡ self.old.table.entries }
        ensures spare { OnOk result (1 ≤ self.new.table.spare) }
        ensures room { OnOk result (length self.new.table.entries + 1
            ≤ length self.new.spare.entries + self.new.spare.spare) }
        ensures area { self.new.area ≡ self.old.area }
        ensures bits { self.new.hash_bits ≡ self.old.hash_bits }
        ensures refusals { CountsRefusals self.old.refusals self.new.refusals result }
        ensures only { IfErr result (λ e. e ≡ Memory) }
    {
        let Some(entries) = self.table.len().checked_add(1) else {
            return Err(self.refuse(KvError::Memory));
        };
        if self.table.reserve_one().is_err() || self.spare.reserve(entries).is_err() {
            return Err(self.refuse(KvError::Memory));
        }
        Ok(())
    }

    // Takes in a record at `at`, whose key has this place and this hash.
    fn take_in(&mut self, place: Place, hash: u32, at: u32, is_remove: bool) -> Result<(), KvError>
        requires inside { IsInside self.old.table.entries place }
        requires from { self.old.area.base ≤ at }
        requires to { at + 24 ≤ end_of self.old.area }
        ensures entries { OnOk result (self.new.table.entries
            ≡ changed self.old.table.entries place hash at is_remove) }
        ensures area { self.new.area ≡ self.old.area }
        ensures bits { self.new.hash_bits ≡ self.old.hash_bits }
        ensures refusals { CountsRefusals self.old.refusals self.new.refusals result }
        ensures only { IfErr result (λ e. e ≡ Memory) }
    {
        if is_remove || place.found {
            self.table.take_in(place, hash, at, is_remove);
            return Ok(());
        }
        self.reserve()?;
        self.table.take_in(place, hash, at, is_remove);
        Ok(())
    }
}

impl<B: HashBits> Visitor for Builder<B> {
    ghost use Rattle.tdb_mount.specs.Index.{IsTable, places_of};

    ghost area = { λ builder. builder.area };

    ghost stands_for = { λ builder list.
        IsTable builder.hash_bits (places_of list) builder.table.entries };

    ghost refusals = { λ builder. builder.refusals };

    ghost ran_out = { λ _. Unit {0} };

    fn found<F: Flash>(
        &mut self,
        flash: &mut F,
        at: u32,
        key: &Key,
        header: &Header,
    ) -> Result<(), KvError> {
        match place_of(&self.table, flash, self.area, self.hash_bits, key) {
            Ok(place) => {
                let hash = hash_of(key, self.hash_bits);
                self.take_in(place, hash, at, header.flags == REMOVE)
            }
            // The header that the entry stands for can't be read any more: its record is left out.
            Err(KvError::Corrupt { .. }) => Ok(()),
            Err(error) => Err(self.refuse(error)),
        }
    }
}
