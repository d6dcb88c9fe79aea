// Collections on devices in memory with areas of 256 bytes.
ghost use Rattle.std.specs.Prelude.{◌≡◌, ◌+◌, ◌≤◌, length, IfOk, OnOk};
ghost use Rattle.flash_core.specs.RecordDevice.{IsMemoryOf};
ghost use Rattle.flash_core.specs.Sizes.{IsValid};
ghost use Rattle.area_log.specs.Areas.{IsRange};
ghost use Rattle.area_collect.specs.Copies.{AreIn};

use super::*;
use area_log::Area;
use flash_core::{Flash, Geometry, RecordFlash};
use ram_table::RamTable;
use std::alloc::Global;
use std::process::Abort;
use std::test::Fail;

pub(crate) const FIRST: Area = Area { base: 0, size: 256 };

pub(crate) const SECOND: Area = Area {
    base: 256,
    size: 256,
};

// The CRCs are the complements of what Python's zlib gives. A master record of version 8.
pub(crate) const MASTER_HEADER: [u8; 24] = [
    0x4b, 0x56, 0x52, 0x31, 0x18, 0, 1, 0, 0, 0, 0, 0, 4, 0, 0, 0, 8, 0, 0, 0, 0x81, 0x2c, 0xb8,
    0x01,
];

// Of key `a` and value `00ff`.
pub(crate) const SET_HEADER: [u8; 24] = [
    0x4b, 0x56, 0x52, 0x31, 0x18, 0, 1, 0, 0, 0, 0, 0, 1, 0, 0, 0, 2, 0, 0, 0, 0x21, 0x78, 0x5e,
    0x84,
];

// Of key `c` and a value of 127 bytes 7.
pub(crate) const LONG_HEADER: [u8; 24] = [
    0x4b, 0x56, 0x52, 0x31, 0x18, 0, 1, 0, 0, 0, 0, 0, 1, 0, 0, 0, 0x7f, 0, 0, 0, 0x20, 0x09, 0x59,
    0x9e,
];

fn geometry_of(prog: u32) -> Geometry
    ensures { result ≡ record { prog = prog; erase = 256; units_per_area = 1 } }
{
    Geometry {
        prog,
        erase: 256,
        units_per_area: 1,
    }
}

fn device_of(alloc: Global, prog: u32, image: &[u8; 512]) -> Result<RecordFlash, Fail>
    requires { IsValid (record { prog = prog; erase = 256; units_per_area = 1 }) }
    ensures { IfOk result (λ flash.
        IsMemoryOf (⟦<RecordFlash as Flash>⟧.state flash)
        (record { prog = prog; erase = 256; units_per_area = 1 }) image.now) }
{
    let image = image.to_vec(alloc)?;
    Ok(RecordFlash::new(alloc, geometry_of(prog), image)?)
}

// Adds an entry whose header lies in the area.
fn push_entry(table: &mut RamTable, area: Area, place: u32) -> Result<(), Fail>
    requires place { IsRange area place 24 }
    requires entries { AreIn area table.old.entries }
    ensures entries { OnOk result (AreIn area table.new.entries) }
{
    table.reserve_one()?;
    table.insert(table.len(), place, place);
    Ok(())
}

// A table with these places for hashes, too.
pub(crate) fn table_of(
    rt: &impl Abort,
    alloc: Global,
    area: Area,
    places: &[u32],
) -> Result<RamTable, Fail>
    ensures { IfOk result (λ table. AreIn area table.entries) }
{
    let mut table = RamTable::new(alloc);
    assert!(rt; area.base <= 65_536 && area.size <= 65_536);
    for place in places {
        assert!(rt; *place <= 65_536 && *place >= area.base);
        assert!(rt; *place + 24 <= area.base + area.size);
        push_entry(&mut table, area, *place)?;
    }
    Ok(table)
}

// Puts a header, and `ahead` bytes behind it a payload.
pub(crate) fn put_record(
    image: &mut [u8],
    at: usize,
    ahead: usize,
    header: &[u8; 24],
    payload: &[u8],
)
    requires header { at + 24 ≤ length image.old }
    requires payload { at + ahead + length payload.now ≤ length image.old }
    ensures { length image.new ≡ length image.old }
{
    image[at..at + 24].copy_from_slice(header);
    image[at + ahead..at + ahead + payload.len()].copy_from_slice(payload);
}

// The payload of key `c` and a value of 127 bytes 7.
pub(crate) fn long_payload() -> [u8; 128] {
    let mut payload = [7; 128];
    payload[0] = b'c';
    payload
}

// What a collection of the records at these places to the second area answers, where the copies
// stand, and the image that it leaves.
fn collected(
    rt: &impl Abort,
    alloc: Global,
    prog: u32,
    image: &[u8; 512],
    places: &[u32],
) -> Result<(u32, Vec<u32>, Vec<u8>), Fail> {
    assert!(rt; geometry_of(prog).is_valid());
    assert!(rt; prog <= 64);
    let table = table_of(rt, alloc, FIRST, places)?;
    let mut spare = RamTable::new(alloc);
    spare.reserve(table.len())?;
    let mut flash = device_of(alloc, prog, image)?;
    let mut work = [0; 64];
    let end = collect(
        &mut flash, &FIRST, &SECOND, 8, &table, &mut spare, &mut work,
    )?;
    let mut copies = Vec::new(alloc);
    for at in 0..spare.len() {
        copies.push(spare.entry(at).1)?;
    }
    Ok((end, copies, flash.into_image()))
}

// The program unit, the size of a padded header, the place behind a master record, and that behind
// a copy of key `a` there.
const LOGS: [(u32, usize, usize, u32); 3] = [(1, 24, 36, 319), (8, 24, 40, 328), (32, 32, 64, 384)];

#[test]
fn a_collection_over_an_empty_table_leaves_a_master_alone(rt: HostRuntime) -> Result<(), Fail> {
    for (prog, ahead, first, _) in LOGS {
        assert!(rt; ahead <= 64 && first <= 64);
        let mut image = [0xff; 512];
        put_record(&mut image, first, ahead, &SET_HEADER, &[0x61, 0, 0xff]);
        let mut want = image;
        put_record(
            &mut want,
            256,
            ahead,
            &MASTER_HEADER,
            b"TDBS\x08\0\x01\0\0\0\0\0",
        );
        let (end, copies, left) = collected(&rt, rt.alloc(), prog, &image, &[])?;
        assert_eq!(rt; end as usize, 256 + first, "program unit {prog}");
        assert_eq!(rt; copies.len(), 0);
        assert_eq!(rt; left.as_slice(), want.as_slice());
    }
    Ok(())
}

#[test]
fn a_record_is_copied_whole_behind_the_master(rt: HostRuntime) -> Result<(), Fail> {
    for (prog, ahead, first, behind) in LOGS {
        assert!(rt; ahead <= 64 && first <= 64);
        let mut image = [0xff; 512];
        put_record(&mut image, 128, ahead, &SET_HEADER, &[0x61, 0, 0xff]);
        let mut want = image;
        put_record(
            &mut want,
            256,
            ahead,
            &MASTER_HEADER,
            b"TDBS\x08\0\x01\0\0\0\0\0",
        );
        put_record(&mut want, 256 + first, ahead, &SET_HEADER, &[0x61, 0, 0xff]);
        let (end, copies, left) = collected(&rt, rt.alloc(), prog, &image, &[128])?;
        assert_eq!(rt; end, behind, "program unit {prog}");
        assert_eq!(rt; copies.as_slice(), [256 + first as u32].as_slice());
        assert_eq!(rt; left.as_slice(), want.as_slice());
    }
    Ok(())
}

// In the table's order, the last one up to the area's last byte and in three pieces.
#[test]
fn records_are_copied_in_the_order_of_the_table(rt: HostRuntime) -> Result<(), Fail> {
    let mut image = [0xff; 512];
    put_record(&mut image, 40, 24, &LONG_HEADER, &long_payload());
    put_record(&mut image, 192, 24, &SET_HEADER, &[0x61, 0, 0xff]);
    let mut want = image;
    put_record(
        &mut want,
        256,
        24,
        &MASTER_HEADER,
        b"TDBS\x08\0\x01\0\0\0\0\0",
    );
    put_record(&mut want, 296, 24, &SET_HEADER, &[0x61, 0, 0xff]);
    put_record(&mut want, 328, 24, &SET_HEADER, &[0x61, 0, 0xff]);
    put_record(&mut want, 360, 24, &LONG_HEADER, &long_payload());
    let (end, copies, left) = collected(&rt, rt.alloc(), 8, &image, &[192, 192, 40])?;
    assert_eq!(rt; end, 512);
    assert_eq!(rt; copies.as_slice(), [296, 328, 360].as_slice());
    assert_eq!(rt; left.as_slice(), want.as_slice());
    Ok(())
}
