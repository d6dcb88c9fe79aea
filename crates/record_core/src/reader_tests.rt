// What the readers make of the bytes of a device of 512 bytes.
ghost use Rattle.std.specs.Prelude.{◌≡◌, IfOk};
ghost use Rattle.flash_core.specs.Sizes.{IsValid, size_of};

use super::*;
use flash_core::{Flash, Geometry, RecordFlash};
use kv_model::Key;
use std::alloc::Global;
use std::process::Abort;
use std::test::Fail;

const SMALL: Geometry = Geometry {
    prog: 8,
    erase: 64,
    units_per_area: 4,
};

// One in which a header has padding too.
const WIDE: Geometry = Geometry {
    prog: 32,
    erase: 64,
    units_per_area: 4,
};

// Flags 0, key `a`, value `00ff`: 24 bytes of header, and then the payload in program units of 8.
const RECORD: [u8; 32] = [
    0x4b, 0x56, 0x52, 0x31, 0x18, 0, 1, 0, 0, 0, 0, 0, 1, 0, 0, 0, 2, 0, 0, 0, 0x21, 0x78, 0x5e,
    0x84, 0x61, 0, 0xff, 0xff, 0xff, 0xff, 0xff, 0xff,
];

// Of version 1.
const MASTER: [u8; 40] = [
    0x4b, 0x56, 0x52, 0x31, 0x18, 0, 1, 0, 0, 0, 0, 0, 4, 0, 0, 0, 8, 0, 0, 0, 0xaa, 0x37, 0xf7,
    0x1e, 0x54, 0x44, 0x42, 0x53, 1, 0, 1, 0, 0, 0, 0, 0, 0xff, 0xff, 0xff, 0xff,
];

fn device_of(alloc: Global, geometry: Geometry, image: &[u8; 512]) -> Result<RecordFlash, Fail>
    requires valid { IsValid geometry }
    requires size { size_of geometry ≡ 512 }
    ensures { IfOk result (λ flash. (⟦<RecordFlash as Flash>⟧.state flash).geometry ≡ geometry) }
{
    let image = image.to_vec(alloc)?;
    Ok(RecordFlash::new(alloc, geometry, image)?)
}

// The header and the key of the record at place 40 that ends at or before this end.
fn record_at_40(
    rt: &impl Abort,
    alloc: Global,
    image: &[u8; 512],
    end: u32,
) -> Result<Option<(Header, Key)>, Fail> {
    assert!(rt; SMALL.is_valid());
    assert!(rt; end >= 40);
    assert!(rt; end <= 512);
    let mut flash = device_of(alloc, SMALL, image)?;
    let mut key = Key::new(b"other")?;
    let mut work = [0; 64];
    match read_record(&mut flash, 40, end, &mut key, &mut work)? {
        Some(header) => Ok(Some((header, key))),
        None => Ok(None),
    }
}

#[test]
fn the_example_is_read(rt: HostRuntime) -> Result<(), Fail> {
    let mut image = [0xff; 512];
    image[40..72].copy_from_slice(&RECORD);
    let (header, key) = record_at_40(&rt, rt.alloc(), &image, 512)?.ok_or("a record")?;
    let want = Header {
        flags: 0,
        key_size: 1,
        value_size: 2,
        crc: 0x845e_7821,
    };
    assert_eq!(rt; header, want);
    assert_eq!(rt; key.as_slice(), b"a".as_slice());
    Ok(())
}

// The magic, the flags, the reserved bytes, the CRC, the key, the value and the padding.
#[test]
fn with_one_byte_changed_no_record_stands(rt: HostRuntime) -> Result<(), Fail> {
    for (place, byte) in [
        (0, 0x4c),
        (8, 1),
        (14, 1),
        (20, 0x22),
        (24, 0x62),
        (25, 1),
        (26, 0xfe),
        (27, 0),
        (31, 0xfe),
    ] {
        let mut image = [0xff; 512];
        image[40..72].copy_from_slice(&RECORD);
        assert!(rt; place < 32);
        image[40 + place] = byte;
        let found = record_at_40(&rt, rt.alloc(), &image, 512)?;
        assert!(rt; found.is_none(), "byte {byte} at {place}");
    }
    Ok(())
}

#[test]
fn a_record_ends_at_or_before_the_end(rt: HostRuntime) -> Result<(), Fail> {
    let mut image = [0xff; 512];
    image[40..72].copy_from_slice(&RECORD);
    for (end, want) in [
        (512, true),
        (72, true),
        (71, false),
        (63, false),
        (40, false),
    ] {
        let found = record_at_40(&rt, rt.alloc(), &image, end)?;
        assert_eq!(rt; found.is_some(), want, "end {end}");
    }
    Ok(())
}

// The header of a write-once value of 100 bytes 7 for the key `b`, which is read in two pieces.
#[test]
fn a_long_value_is_read_in_pieces(rt: HostRuntime) -> Result<(), Fail> {
    let mut image = [0xff; 512];
    image[40..64].copy_from_slice(&[
        0x4b, 0x56, 0x52, 0x31, 0x18, 0, 1, 0, 1, 0, 0, 0, 1, 0, 0, 0, 0x64, 0, 0, 0, 0x74, 0x96,
        0xe9, 0x53,
    ]);
    image[64] = b'b';
    image[65..165].fill(7);
    let (header, key) = record_at_40(&rt, rt.alloc(), &image, 512)?.ok_or("a record")?;
    assert_eq!(rt; header.flags, 1);
    assert_eq!(rt; header.value_size, 100);
    assert_eq!(rt; key.as_slice(), b"b".as_slice());
    image[164] = 8;
    assert!(rt; record_at_40(&rt, rt.alloc(), &image, 512)?.is_none());
    Ok(())
}

// Program units of 32: 8 bytes of padding behind the header, and 29 behind the payload.
#[test]
fn both_paddings_are_erased(rt: HostRuntime) -> Result<(), Fail> {
    assert!(rt; WIDE.is_valid());
    for (place, byte, want) in [
        (0, 0xff, true),
        (88, 0, false),
        (95, 0xfe, false),
        (99, 0, false),
        (127, 0, false),
        (128, 0, true),
    ] {
        let mut image = [0xff; 512];
        image[64..88].copy_from_slice(&RECORD[..24]);
        image[96..99].copy_from_slice(&RECORD[24..27]);
        assert!(rt; place < image.len());
        image[place] = byte;
        let mut flash = device_of(rt.alloc(), WIDE, &image)?;
        let mut key = Key::new(b"other")?;
        let mut work = [0; 64];
        let header = read_record(&mut flash, 64, 128, &mut key, &mut work)?;
        assert_eq!(rt; header.is_some(), want, "byte {byte} at {place}");
    }
    Ok(())
}

// The version of the master record of the second area.
fn second_master(rt: &impl Abort, alloc: Global, image: &[u8; 512]) -> Result<Option<u16>, Fail> {
    assert!(rt; SMALL.is_valid());
    let mut flash = device_of(alloc, SMALL, image)?;
    let mut work = [0; 64];
    Ok(read_master(&mut flash, 256, &mut work)?)
}

#[test]
fn a_master_has_any_version(rt: HostRuntime) -> Result<(), Fail> {
    for (version, low, high, crc) in [
        (0, 0, 0, [0x34, 0x37, 0x5d, 0xd2]),
        (1, 1, 0, [0xaa, 0x37, 0xf7, 0x1e]),
        (65535, 0xff, 0xff, [0xe2, 0x7b, 0x20, 0x66]),
    ] {
        let mut image = [0xff; 512];
        image[256..296].copy_from_slice(&MASTER);
        image[276..280].copy_from_slice(&crc);
        image[284] = low;
        image[285] = high;
        let found = second_master(&rt, rt.alloc(), &image)?;
        assert_eq!(rt; found, Some(version));
    }
    Ok(())
}

// A changed byte in each part, and three masters with the right CRC but for flags, a revision or a
// zero.
#[test]
fn other_bytes_are_no_master(rt: HostRuntime) -> Result<(), Fail> {
    let right = [0xaa, 0x37, 0xf7, 0x1e];
    for (place, byte, crc) in [
        (0, 0xff, right),
        (4, 0x19, right),
        (20, 0xab, right),
        (24, 0x55, right),
        (28, 2, right),
        (36, 0, right),
        (39, 0xfe, right),
        (8, 1, [0x8d, 0x52, 0xd2, 0x9f]),
        (30, 2, [4, 0x45, 0x63, 0x98]),
        (32, 1, [0xcf, 0x50, 0x4b, 0xa6]),
    ] {
        let mut image = [0xff; 512];
        image[256..296].copy_from_slice(&MASTER);
        image[276..280].copy_from_slice(&crc);
        assert!(rt; place < 40);
        image[256 + place] = byte;
        let found = second_master(&rt, rt.alloc(), &image)?;
        assert_eq!(rt; found, None, "byte {byte} at {place}");
    }
    let erased = second_master(&rt, rt.alloc(), &[0xff; 512])?;
    assert_eq!(rt; erased, None);
    Ok(())
}
