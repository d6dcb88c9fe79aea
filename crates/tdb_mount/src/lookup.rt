//! Looking for a key with a table of an area's records.
ghost use Rattle.std.specs.Prelude.{◌≡◌, ◌<◌, ◌≤◌, None, true, false, IfOk, IfErr};
ghost use Rattle.std.specs.Option.{ForSome};
ghost use Rattle.flash_core.specs.Runs.{ReadsBy};
ghost use Rattle.flash_core.specs.Sizes.{IsValid};
ghost use Rattle.record_core.specs.Endings.{kv_ended};
ghost use Rattle.area_log.specs.Areas.{IsAreaOf};
ghost use Rattle.ram_table.specs.Find.{CanFind, IsInside, IsPlaceOf};
ghost use Rattle.ram_table.specs.Reader.{IsRefusal};
ghost use Rattle.tdb_mount.specs.Keys.{HasHead, keys_in, keys_of};

use crate::DeviceKeys;
use area_log::{Area, PlacedHeader};
use flash_core::Flash;
use kv_model::{Key, KvError};
use ram_table::{Place, RamTable, Steps};
use record_core::hash_of;
use std::marker::Brand;
use std::sync::ledger::{Blank, Ledger};

/// Where a key stands in a table, or would stand, and the header of its record where it was found.
#[derive(Clone, Copy, Debug, PartialEq, Eq)]
pub struct Seen {
    pub place: Place,
    pub head: Option<PlacedHeader>,
}

// The place with the header that was read last, where the key was found.
fn seen_at(place: Place, last: Option<PlacedHeader>) -> Seen
    ensures place { result.place ≡ place }
    ensures found { place.found ≡ true → result.head ≡ last }
    ensures absent { place.found ≡ false → result.head ≡ None }
{
    Seen {
        place,
        head: if place.found { last } else { None },
    }
}

// As `look_up`, with a ledger for the counter that `find` is handed.
fn look_up_by<L: Ledger, F: Flash>(
    blank: Blank,
    table: &RamTable,
    flash: &mut F,
    area: Area,
    hash_bits: u8,
    key: &Key,
) -> Result<Seen, KvError>
    requires name { blank.name ≡ L.name }
    requires parts { blank.parts ≡ L.parts }
    requires some { 0 < blank.parts }
    requires valid { IsValid (F.state flash.old).geometry }
    requires area { IsAreaOf (F.state flash.old).geometry area }
    requires bits { hash_bits ≤ 32 }
    requires can { CanFind (keys_of (F.state flash.old) area hash_bits 0) table.now.entries }
    ensures reads { ReadsBy (F.state flash.old) (F.state flash.new) (kv_ended result) }
    ensures inside { IfOk result (λ seen. IsInside table.now.entries seen.place) }
    ensures place { ForSome (F.state flash.old).image (λ image. IfOk result (λ seen.
        IsPlaceOf hash_bits (keys_in (F.state flash.old).geometry area image) table.now.entries
        key.now seen.place)) }
    ensures head { IfOk result (HasHead (F.state flash.new) area table.now.entries key.now) }
    ensures cause { IfErr result (IsRefusal (keys_of (F.state flash.old) area hash_bits 0)
        (keys_of (F.state flash.new) area hash_bits 0)) }
{
    let mut reader = DeviceKeys {
        flash,
        area,
        hash_bits,
        refusals: 0,
        last: None,
    };
    let mut steps = Steps::<L>::new(blank);
    match table.find(&mut reader, hash_of(key, hash_bits), key, &mut steps) {
        Ok(place) => Ok(seen_at(place, reader.last)),
        Err(error) => Err(error),
    }
}

/// Where the key stands in the table, whose entries are of this area, or would stand, and the
/// header of its record. The header and the key of each record that the search comes to are read
/// once. It refuses as `RamTable::find` does over the keys of the area: `ReadFault` comes exactly
/// where the count of read faults rose, and `Corrupt` only from a device that doesn't tell its
/// bytes.
pub fn look_up<F: Flash>(
    table: &RamTable,
    flash: &mut F,
    area: Area,
    hash_bits: u8,
    key: &Key,
) -> Result<Seen, KvError>
    requires valid { IsValid (F.state flash.old).geometry }
    requires area { IsAreaOf (F.state flash.old).geometry area }
    requires bits { hash_bits ≤ 32 }
    requires can { CanFind (keys_of (F.state flash.old) area hash_bits 0) table.now.entries }
    ensures reads { ReadsBy (F.state flash.old) (F.state flash.new) (kv_ended result) }
    ensures inside { IfOk result (λ seen. IsInside table.now.entries seen.place) }
    ensures place { ForSome (F.state flash.old).image (λ image. IfOk result (λ seen.
        IsPlaceOf hash_bits (keys_in (F.state flash.old).geometry area image) table.now.entries
        key.now seen.place)) }
    ensures head { IfOk result (HasHead (F.state flash.new) area table.now.entries key.now) }
    ensures cause { IfErr result (IsRefusal (keys_of (F.state flash.old) area hash_bits 0)
        (keys_of (F.state flash.new) area hash_bits 0)) }
{
    look_up_by::<Brand, F>(Blank::new(1), table, flash, area, hash_bits, key)
}

/// Where the key stands in the table, or would stand, as `look_up` finds it.
pub fn place_of<F: Flash>(
    table: &RamTable,
    flash: &mut F,
    area: Area,
    hash_bits: u8,
    key: &Key,
) -> Result<Place, KvError>
    requires valid { IsValid (F.state flash.old).geometry }
    requires area { IsAreaOf (F.state flash.old).geometry area }
    requires bits { hash_bits ≤ 32 }
    requires can { CanFind (keys_of (F.state flash.old) area hash_bits 0) table.now.entries }
    ensures reads { ReadsBy (F.state flash.old) (F.state flash.new) (kv_ended result) }
    ensures inside { IfOk result (IsInside table.now.entries) }
    ensures place { ForSome (F.state flash.old).image (λ image. IfOk result (λ place.
        IsPlaceOf hash_bits (keys_in (F.state flash.old).geometry area image) table.now.entries
        key.now place)) }
    ensures cause { IfErr result (IsRefusal (keys_of (F.state flash.old) area hash_bits 0)
        (keys_of (F.state flash.new) area hash_bits 0)) }
{
    match look_up(table, flash, area, hash_bits, key) {
        Ok(seen) => Ok(seen.place),
        Err(error) => Err(error),
    }
}
