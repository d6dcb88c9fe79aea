// Keys in memory, and how they are looked up in a table.
ghost use Rattle.std.specs.Prelude.{◌≡◌, ◌+◌, ◌<◌, [], length, get_or, IfOk};
ghost use Rattle.ram_table.specs.Find.{IsIndexOf, IsInside, IsPlaceOf};
ghost use Rattle.kv_bench.specs.Lookups.{told, HasLooked, HasLookedUp};

use kv_model::{Key, KvError};
use ram_table::{KeyReader, Place, RamTable, Steps};
use record_core::hash_of;
use std::alloc::Global;
use std::marker::Brand;
use std::sync::ledger::{Blank, Ledger};

// Reads keys by their numbers. All bits of a key's CRC are its hash.
#[derive(Drop)]
struct ListedKeys<'a> {
    keys: &'a [Key],
}

impl KeyReader for ListedKeys<'_> {
    ghost use Rattle.std.specs.Prelude.{◌≡◌, refl};
    ghost use Rattle.std.proofs.Common.{◌∙◌};
    ghost use Rattle.kv_bench.specs.Lookups.{told_state};

    ghost state = { λ reader. told_state reader.keys.now };

    ghost may_follow = { λ a b. b ≡ a };

    ghost read_last = { λ _ _ _. Unit {0} };

    fn key_at(&mut self, offset: u32, out: &mut Key) -> Result<(), KvError> {
        *out = self.keys[offset as usize].copied();
        Ok(())
    }

    ghost stays = { λ a. refl };

    ghost chains = { λ a b c first second. second ∙ first };
}

// The place of the key of this number.
fn place_of<L: Ledger>(
    table: &RamTable,
    reader: &mut ListedKeys,
    number: u32,
    steps: &mut Steps<L>,
) -> Result<Place, KvError>
    requires number { number < length reader.old.keys.now }
    requires index { IsIndexOf 32 (told reader.old.keys.now) table.now.entries }
    ensures keys { reader.new ≡ reader.old }
    ensures inside { IfOk result (IsInside table.now.entries) }
    ensures place { IfOk result (IsPlaceOf 32 (told reader.old.keys.now) table.now.entries
        (get_or reader.old.keys.now number [])) }
{
    let keys = reader.keys;
    let key = &keys[number as usize];
    table.find(reader, hash_of(key, 32), key, steps)
}

// The key of this number goes into the table. `InvalidKey` comes where it is in it already.
fn add<L: Ledger>(
    table: &mut RamTable,
    reader: &mut ListedKeys,
    number: u32,
    steps: &mut Steps<L>,
) -> Result<(), KvError>
    requires number { number < length reader.old.keys.now }
    requires index { IsIndexOf 32 (told reader.old.keys.now) table.old.entries }
    ensures keys { reader.new ≡ reader.old }
    ensures index { IfOk result (λ _. IsIndexOf 32 (told reader.old.keys.now) table.new.entries) }
    ensures longer { IfOk result (λ _.
        length table.new.entries ≡ length table.old.entries + 1) }
{
    let place = place_of(table, reader, number, steps)?;
    if place.found {
        return Err(KvError::InvalidKey);
    }
    if table.reserve_one().is_err() {
        return Err(KvError::Memory);
    }
    let keys = reader.keys;
    let hash = hash_of(&keys[number as usize], 32);
    table.insert(place.at, hash, number);
    Ok(())
}

// An index of all keys.
fn index_of<L: Ledger>(
    alloc: Global,
    reader: &mut ListedKeys,
    count: u32,
    steps: &mut Steps<L>,
) -> Result<RamTable, KvError>
    requires count { count ≡ length reader.old.keys.now }
    ensures keys { reader.new ≡ reader.old }
    ensures index { IfOk result (λ table.
        IsIndexOf 32 (told reader.old.keys.now) table.entries) }
    ensures whole { IfOk result (λ table. length table.entries ≡ count) }
{
    let mut table = RamTable::new(alloc);
    for number in 0..count {
        add(&mut table, reader, number, steps)?;
    }
    Ok(table)
}

// So many of these may be added up without an overflow.
fn widened(number: u32) -> u64
    ensures same { result ≡ number }
    ensures small { result < 4294967296 }
{
    u64::from(number)
}

// The total of the places at which so many keys are found.
fn total_of<L: Ledger>(
    table: &RamTable,
    reader: &mut ListedKeys,
    count: u32,
    finds: u32,
    steps: &mut Steps<L>,
) -> Result<u64, KvError>
    requires count { count ≡ length reader.old.keys.now }
    requires some { 0 < count }
    requires index { IsIndexOf 32 (told reader.old.keys.now) table.now.entries }
    ensures { IfOk result (HasLooked reader.old.keys.now table.now.entries finds) }
{
    let mut total = 0u64;
    for find in 0..finds {
        let place = place_of(table, reader, find % count, steps)?;
        if !place.found {
            return Err(KvError::NotFound);
        }
        total += widened(place.at);
    }
    Ok(total)
}

fn total_by<L: Ledger>(
    blank: Blank,
    alloc: Global,
    keys: &[Key],
    finds: u32,
) -> Result<u64, KvError>
    requires name { blank.name ≡ L.name }
    requires parts { blank.parts ≡ L.parts }
    requires some { 0 < blank.parts }
    ensures { IfOk result (HasLookedUp keys.now finds) }
{
    if keys.is_empty() || keys.len() > u32::MAX as usize {
        return Err(KvError::InvalidSize);
    }
    let count = keys.len() as u32;
    let mut steps = Steps::<L>::new(blank);
    let mut reader = ListedKeys { keys };
    let table = index_of(alloc, &mut reader, count, &mut steps)?;
    total_of(&table, &mut reader, count, finds, &mut steps)
}

/// Makes an index of the keys, looks so many of them up, from the first on and round again, and
/// gives the total of the places at which they were found. `InvalidSize` comes for no keys and for
/// more than 32 bits can number, and `InvalidKey` where one stands twice.
pub fn lookup_total(alloc: Global, keys: &[Key], finds: u32) -> Result<u64, KvError>
    ensures { IfOk result (HasLookedUp keys.now finds) }
{
    total_by::<Brand>(Blank::new(1), alloc, keys, finds)
}
