// Collections over devices that tell their moments and over chips, each image mounted again.
ghost use Rattle.std.specs.Prelude.{◌≡◌, length, IfOk};
ghost use Rattle.flash_core.specs.RecordDevice.{IsLoggedOf};
ghost use Rattle.flash_core.specs.Sizes.{IsValid, size_of};

use super::tests::{
    FIRST, LONG_HEADER, MASTER_HEADER, SECOND, SET_HEADER, long_payload, put_record, table_of,
};
use super::*;
use flash_core::{Flash, Geometry, RecordFlash};
use flash_sim::Chip;
use kv_model::{KvError, Pattern};
use ram_table::RamTable;
use std::alloc::Global;
use std::process::Abort;
use std::test::Fail;
use tdb_mount::{area_at, mount_parts};

// A master record of version 7.
const OLD_MASTER_HEADER: [u8; 24] = [
    0x4b, 0x56, 0x52, 0x31, 0x18, 0, 0x01, 0, 0, 0, 0, 0, 0x04, 0, 0, 0, 0x08, 0, 0, 0, 0x2d, 0x3e,
    0x98, 0xd8,
];

const OLD_MASTER: &[u8] = b"TDBS\x07\0\x01\0\0\0\0\0";

const MASTER: &[u8] = b"TDBS\x08\0\x01\0\0\0\0\0";

const SMALL: Geometry = Geometry {
    prog: 8,
    erase: 64,
    units_per_area: 4,
};

fn large(prog: u32) -> Geometry {
    Geometry {
        prog,
        erase: 4096,
        units_per_area: 8,
    }
}

// What a collection of the records at these places from the first area to the second answers, with
// version 8, and where the copies stand.
fn collected<F: Flash>(
    rt: &impl Abort,
    alloc: Global,
    flash: &mut F,
    places: &[u32],
) -> Result<(Result<u32, KvError>, Vec<u32>), Fail> {
    let geometry = flash.geometry();
    assert!(rt; geometry.is_valid() && geometry.prog <= 4096);
    let from = area_at(geometry, 0);
    let to = area_at(geometry, 1);
    assert!(rt; from.base != to.base);
    let table = table_of(rt, alloc, from, places)?;
    let mut spare = RamTable::new(alloc);
    spare.reserve(table.len())?;
    let mut work = [0; 4096];
    let answer = collect(flash, &from, &to, 8, &table, &mut spare, &mut work);
    let mut copies = Vec::new(alloc);
    for at in 0..spare.len() {
        copies.push(spare.entry(at).1)?;
    }
    Ok((answer, copies))
}

fn logged(alloc: Global, geometry: Geometry, image: &[u8], log: u32) -> Result<RecordFlash, Fail>
    requires valid { IsValid geometry }
    requires size { size_of geometry ≡ length image.now }
    ensures { IfOk result (λ flash.
        IsLoggedOf (⟦<RecordFlash as Flash>⟧.state flash) geometry image.now) }
{
    let image = image.to_vec(alloc)?;
    Ok(RecordFlash::with_log(alloc, geometry, image, log)?)
}

fn chip_of(alloc: Global, geometry: Geometry, image: &[u8]) -> Result<Chip, Fail>
    requires valid { IsValid geometry }
    requires size { size_of geometry ≡ length image.now }
{
    Ok(Chip::new(geometry, image.to_vec(alloc)?))
}

// ---- each program unit, over both devices

// Of a program unit: the sizes of a padded header, of a master record and of a record of key `a`
// and value `00ff`, and of key `c` the size of a value of bytes 7 that ends the area behind a master
// and two such records, with its size and CRC as its header has them.
#[derive(Clone, Copy)]
struct Unit {
    prog: u32,
    ahead: usize,
    first: usize,
    record: usize,
    longest: usize,
    size_and_crc: [u8; 8],
}

const UNITS: [Unit; 4] = [
    Unit {
        prog: 1,
        ahead: 24,
        first: 36,
        record: 27,
        longest: 32_653,
        size_and_crc: [0x8d, 0x7f, 0, 0, 0x23, 0x4e, 0xed, 0x70],
    },
    Unit {
        prog: 8,
        ahead: 24,
        first: 40,
        record: 32,
        longest: 32_639,
        size_and_crc: [0x7f, 0x7f, 0, 0, 0xbc, 0xb5, 0x3d, 0xa6],
    },
    Unit {
        prog: 32,
        ahead: 32,
        first: 64,
        record: 64,
        longest: 32_543,
        size_and_crc: [0x1f, 0x7f, 0, 0, 0xd5, 0x73, 0x6b, 0x81],
    },
    Unit {
        prog: 4096,
        ahead: 4096,
        first: 8192,
        record: 8192,
        longest: 4095,
        size_and_crc: [0xff, 0x0f, 0, 0, 0x6c, 0x60, 0x08, 0xe4],
    },
];

// Puts an area's first records: two of key `a`, and the longest one of key `c` that fits behind
// them, of which the first `count` stand.
fn put_records(
    rt: &impl Abort,
    alloc: Global,
    image: &mut [u8],
    unit: &Unit,
    base: usize,
    count: usize,
) -> Result<(), Fail>
    requires { length image.old ≡ 65536 }
    ensures { length image.new ≡ length image.old }
{
    assert!(rt; base <= 32_768 && unit.ahead <= 4096 && unit.first <= 8192);
    assert!(rt; unit.record <= 8192 && unit.longest <= 32_700);
    let mut header = LONG_HEADER;
    header[16..24].copy_from_slice(&unit.size_and_crc);
    let mut payload = vec![in alloc; 7; unit.longest + 1]?;
    payload[0] = b'c';
    for at in 0..count.min(2) {
        let place = base + unit.first + at * unit.record;
        put_record(image, place, unit.ahead, &SET_HEADER, &[b'a', 0, 0xff]);
    }
    if count == 3 {
        let place = base + unit.first + 2 * unit.record;
        assert!(rt; place + unit.ahead + payload.len() <= 65_536);
        put_record(image, place, unit.ahead, &header, &payload);
    }
    Ok(())
}

// The place of each of the first `count` records of an area.
fn places_of(
    rt: &impl Abort,
    alloc: Global,
    unit: &Unit,
    base: u32,
    count: u32,
) -> Result<Vec<u32>, Fail> {
    assert!(rt; base <= 32_768 && unit.first <= 8192 && unit.record <= 8192 && count <= 3);
    let mut places = Vec::new(alloc);
    for at in 0..count {
        places.push(base + unit.first as u32 + at * unit.record as u32)?;
    }
    Ok(places)
}

// A device with the records in its first area, and one that was collected.
fn images_of(
    rt: &impl Abort,
    alloc: Global,
    unit: &Unit,
    count: usize,
) -> Result<(Vec<u8>, Vec<u8>), Fail> {
    assert!(rt; unit.ahead <= 4096);
    let mut image = vec![in alloc; 0xff; 65_536]?;
    put_record(&mut image, 0, unit.ahead, &OLD_MASTER_HEADER, OLD_MASTER);
    put_records(rt, alloc, &mut image, unit, 0, count)?;
    let mut want = image.as_slice().to_vec(alloc)?;
    put_record(&mut want, 32_768, unit.ahead, &MASTER_HEADER, MASTER);
    put_records(rt, alloc, &mut want, unit, 32_768, count)?;
    Ok((image, want))
}

fn check_collection(rt: &impl Abort, alloc: Global, unit: &Unit, count: u32) -> Result<(), Fail> {
    let geometry = large(unit.prog);
    assert!(rt; geometry.is_valid() && unit.first <= 8192 && unit.record <= 8192);
    let (image, want) = images_of(rt, alloc, unit, count as usize)?;
    let places = places_of(rt, alloc, unit, 0, count)?;
    let copies = places_of(rt, alloc, unit, 32_768, count)?;
    let end = match count {
        0 => 32_768 + unit.first as u32,
        1 => 32_768 + unit.first as u32 + unit.record as u32,
        _ => 65_536,
    };
    assert!(rt; image.len() == 65_536 && geometry.size() == 65_536);
    let mut flash = logged(alloc, geometry, &image, 200_000)?;
    let got = collected(rt, alloc, &mut flash, &places)?;
    assert_eq!(rt; got.0, Ok(end), "program unit {}", unit.prog);
    assert_eq!(rt; got.1.as_slice(), copies.as_slice());
    assert!(rt; flash.into_image().as_slice() == want.as_slice());
    let mut chip = chip_of(alloc, geometry, &image)?;
    let got = collected(rt, alloc, &mut chip, &places)?;
    assert_eq!(rt; got.0, Ok(end));
    assert_eq!(rt; got.1.as_slice(), copies.as_slice());
    assert!(rt; chip.into_image().as_slice() == want.as_slice());
    Ok(())
}

#[test]
fn no_one_and_many_records_up_to_an_areas_end(rt: HostRuntime) -> Result<(), Fail> {
    for unit in UNITS {
        for count in [0, 1, 3] {
            check_collection(&rt, rt.alloc(), &unit, count)?;
        }
    }
    Ok(())
}

// ---- each moment

// Keys `a` and `c` behind a master record of version 7, on a device of 512 bytes.
fn small_image() -> [u8; 512] {
    let mut image = [0xff; 512];
    put_record(&mut image, 0, 24, &OLD_MASTER_HEADER, OLD_MASTER);
    put_record(&mut image, 40, 24, &SET_HEADER, &[b'a', 0, 0xff]);
    put_record(&mut image, 72, 24, &LONG_HEADER, &long_payload());
    image
}

// Mounts an image: the active area, the version, and whether both keys are there.
fn mounted(rt: &impl Abort, alloc: Global, image: Vec<u8>) -> Result<(u8, u16, u32), Fail> {
    assert!(rt; SMALL.is_valid() && SMALL.size() == 512 && image.len() == 512);
    let mut flash = RecordFlash::new(alloc, SMALL, image)?;
    let parts = mount_parts(alloc, &mut flash, 32)?;
    let mut payload = [0; 128];
    for at in 0..parts.table.len() {
        let place = parts.table.entry(at).1 as usize;
        assert!(rt; place <= 360);
        payload.copy_from_slice(&flash.image()[place + 24..place + 152]);
        assert!(rt; payload == long_payload() || payload[..3] == [b'a', 0, 0xff]);
    }
    Ok((parts.active, parts.version, parts.table.len()))
}

// A collection erases 256 bytes and writes 32, 152 and 40.
#[test]
fn a_collection_is_run_at_every_moment(rt: HostRuntime) -> Result<(), Fail> {
    assert!(rt; SMALL.is_valid() && SMALL.size() == 512);
    for step in 0..62 {
        let log = step * 8;
        let mut flash = logged(rt.alloc(), SMALL, &small_image(), log)?;
        let (answer, _) = collected(&rt, rt.alloc(), &mut flash, &[40, 72])?;
        let is_whole = log >= 480;
        let want = if is_whole {
            Ok(480)
        } else {
            Err(KvError::WriteFault)
        };
        assert_eq!(rt; answer, want, "{log}");
        let found = mounted(&rt, rt.alloc(), flash.into_image())?;
        let want = if is_whole { (1, 8, 2) } else { (0, 7, 2) };
        assert_eq!(rt; found, want, "{log}");
    }
    Ok(())
}

// Of key `a` alone: four erases, and for the record and the master a payload and a header.
#[test]
fn a_collection_is_torn_at_every_write(rt: HostRuntime) -> Result<(), Fail> {
    assert!(rt; SMALL.is_valid() && SMALL.size() == 512);
    for n in 1..9 {
        for pattern in [
            Pattern::None,
            Pattern::Half,
            Pattern::Zero,
            Pattern::All,
            Pattern::Mix { seed: 5 },
        ] {
            let is_last = n == 8 && pattern == Pattern::All;
            let mut chip = chip_of(rt.alloc(), SMALL, &small_image())?;
            chip.arm(rt.alloc(), n, pattern)?;
            let (answer, _) = collected(&rt, rt.alloc(), &mut chip, &[40])?;
            assert_eq!(rt; answer, Err(KvError::WriteFault), "{n}");
            let found = mounted(&rt, rt.alloc(), chip.into_image())?;
            assert_eq!(rt; found, if is_last { (1, 8, 1) } else { (0, 7, 2) }, "{n}");
        }
    }
    Ok(())
}

// ---- what is left out, and what does not match

#[test]
fn a_copy_without_an_entry_has_no_master(rt: HostRuntime) -> Result<(), Fail> {
    assert!(rt; SMALL.is_valid() && SMALL.size() == 512);
    for (left_out, end, copy) in [(0, 448, 296), (1, 328, 296)] {
        let image = small_image();
        let mut want = image;
        if left_out == 0 {
            put_record(&mut want, 296, 24, &LONG_HEADER, &long_payload());
        } else {
            put_record(&mut want, 296, 24, &SET_HEADER, &[b'a', 0, 0xff]);
        }
        let mut flash = logged(rt.alloc(), SMALL, &image, 1000)?;
        let table = table_of(&rt, rt.alloc(), FIRST, &[40, 72])?;
        let mut spare = RamTable::new(rt.alloc());
        spare.reserve(table.len())?;
        assert!(rt; left_out < table.len());
        let mut work = [0; 64];
        let got = copy_without(
            &mut flash, &FIRST, &SECOND, &table, &mut spare, left_out, &mut work,
        )?;
        assert_eq!(rt; got, end);
        assert!(rt; spare.len() == 1);
        assert_eq!(rt; spare.entry(0).1, copy);
        assert_eq!(rt; flash.image(), want.as_slice());
        let found = mounted(&rt, rt.alloc(), flash.into_image())?;
        assert_eq!(rt; found, (0, 7, 2));
    }
    Ok(())
}

// A byte of the value that was changed is told with the CRC of the header and that of the bytes, and
// a header that was broken with its CRC and the complement of that.
#[test]
fn a_record_that_does_not_match_is_told_with_both_values(rt: HostRuntime) -> Result<(), Fail> {
    assert!(rt; SMALL.is_valid() && SMALL.size() == 512);
    for (at, stored, computed) in [
        (66, 0x845e_7821, 0xa95c_97ac),
        (40, 0x845e_7821, !0x845e_7821),
        (63, 0x7b5e_7821, 0x845e_7821),
    ] {
        let mut image = small_image();
        image[at] ^= 0xff;
        let mut flash = logged(rt.alloc(), SMALL, &image, 1000)?;
        let (answer, _) = collected(&rt, rt.alloc(), &mut flash, &[40, 72])?;
        assert_eq!(rt; answer, Err(KvError::Corrupt { stored, computed }));
    }
    Ok(())
}
