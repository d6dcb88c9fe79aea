// Records that are fed in pieces, on devices of two areas of 32,768 bytes. The CRCs are the
// complements of what Python's zlib gives.
ghost use Rattle.std.specs.Prelude.{◌≡◌, ◌≤◌, [], length, IfOk, OnOk};
ghost use Rattle.std.specs.Option.{ForSome};
ghost use Rattle.flash_core.specs.Images.{IsErased};
ghost use Rattle.flash_core.specs.Sizes.{IsValid, size_of};
ghost use Rattle.inc_set.specs.Sets.{Holds};

use super::*;
use flash_core::{Flash, Geometry, RecordFlash};
use flash_sim::Chip;
use kv_model::{Key, KvError};
use record_core::{Header, size_of_record};
use std::alloc::Global;
use std::process::Abort;
use std::test::Fail;

const AT: u32 = 8192;

const PROGRAM_UNITS: [u32; 4] = [1, 8, 32, 4096];

// The front of a header with no flags and a key of one byte, up to the size of the value.
const FRONT: [u8; 16] = [
    0x4b, 0x56, 0x52, 0x31, 0x18, 0, 1, 0, 0, 0, 0, 0, 1, 0, 0, 0,
];

fn geometry_of(prog: u32) -> Geometry
    ensures { result ≡ record { prog = prog; erase = 4096; units_per_area = 8 } }
{
    Geometry {
        prog,
        erase: 4096,
        units_per_area: 8,
    }
}

// The bytes of an erased device.
fn erased_image(alloc: Global, geometry: Geometry) -> Result<Vec<u8>, Fail>
    requires { IsValid geometry }
    ensures size { IfOk result (λ image. length image.items ≡ size_of geometry) }
    ensures erased { IfOk result (λ image. IsErased image.items 0 (size_of geometry)) }
{
    let size = 2 * geometry.units_per_area as usize * geometry.erase as usize;
    Ok(vec![in alloc; 0xFF; size]?)
}

// Feeds the value in pieces of so many bytes.
fn feed_all<F: Flash>(
    set: &mut OpenSet,
    flash: &mut F,
    value: &[u8],
    piece: usize,
    rest: &mut [u8],
) -> Result<(), KvError>
    requires some { 1 ≤ piece }
    requires size { set.old.size ≡ length value.now }
    requires holds { Holds (F.state flash.old).geometry (F.state flash.old).image rest.old set.old
        [] }
    ensures size { OnOk result (set.new.size ≡ length value.now) }
    ensures holds { OnOk result (Holds (F.state flash.new).geometry (F.state flash.new).image
        rest.new set.new value.now) }
{
    let mut done = 0;
    while done < value.len() {
        let count = piece.min(value.len() - done);
        set.feed(flash, &value[done..done + count], rest)?;
        done += count;
    }
    Ok(())
}

// Feeds a value under this key in pieces of so many bytes, and seals the set where that is asked.
// The answer is the place behind the record.
fn write_in_pieces<F: Flash>(
    rt: &impl Abort,
    flash: &mut F,
    geometry: Geometry,
    key: &[u8],
    value: &[u8],
    piece: usize,
    is_sealed: bool,
) -> Result<u32, Fail>
    requires geometry { (F.state flash.old).geometry ≡ geometry }
    requires erased { ForSome (F.state flash.old).image
        (λ image. IsErased image 0 (size_of geometry)) }
{
    assert!(rt; geometry.is_valid() && AT % geometry.prog == 0 && piece >= 1);
    assert!(rt; value.len() <= 65_592);
    let key = Key::new(key)?;
    let header = Header {
        flags: 0,
        key_size: key.as_slice().len() as u16,
        value_size: value.len() as u32,
        crc: 0,
    };
    assert!(rt; header.is_valid());
    let size = size_of_record(geometry.prog, u32::from(header.key_size), header.value_size);
    assert!(rt; size <= 24_576 && geometry.erase == 4096 && geometry.units_per_area == 8);
    let mut buffer = [0; 4096];
    let rest = &mut buffer[..geometry.prog as usize];
    let mut set = OpenSet::begin(&key, 0, header.value_size, AT, rest);
    feed_all(&mut set, flash, value, piece, rest)?;
    if !is_sealed {
        return Ok(AT);
    }
    Ok(set.seal(flash, rest)?)
}

// What that leaves on an erased device in memory with a log, and the place behind the record.
fn logged(
    rt: &impl Abort,
    alloc: Global,
    prog: u32,
    value: &[u8],
    piece: usize,
    is_sealed: bool,
) -> Result<(u32, Vec<u8>), Fail> {
    let geometry = geometry_of(prog);
    assert!(rt; geometry.is_valid());
    let image = erased_image(alloc, geometry)?;
    let mut flash = RecordFlash::with_log(alloc, geometry, image, 65_536)?;
    let end = write_in_pieces(rt, &mut flash, geometry, b"a", value, piece, is_sealed)?;
    Ok((end, flash.into_image()))
}

// The same on an erased chip.
fn on_chip(
    rt: &impl Abort,
    alloc: Global,
    prog: u32,
    value: &[u8],
    piece: usize,
) -> Result<(u32, Vec<u8>), Fail> {
    let geometry = geometry_of(prog);
    assert!(rt; geometry.is_valid());
    let image = erased_image(alloc, geometry)?;
    let mut chip = Chip::new(geometry, image);
    let end = write_in_pieces(rt, &mut chip, geometry, b"a", value, piece, true)?;
    Ok((end, chip.into_image()))
}

// The bytes 0, 7, 14 and so on, modulo 251.
fn long_value() -> [u8; 5000] {
    let mut value = [0; 5000];
    let mut byte = 0u8;
    for at in value.iter_mut() {
        *at = byte;
        byte = if byte < 244 { byte + 7 } else { byte - 244 };
    }
    value
}

fn padded(prog: u32, size: u32) -> u32 {
    match size % prog.max(1) {
        0 => size,
        rest => size.saturating_add(prog.saturating_sub(rest)),
    }
}

#[test]
fn pieces_of_any_size_leave_one_image(rt: HostRuntime) -> Result<(), Fail> {
    let value = long_value();
    for prog in PROGRAM_UNITS {
        let (end, whole) = logged(&rt, rt.alloc(), prog, &value, 5000, true)?;
        for piece in [1, 33, 4096] {
            let (got, image) = logged(&rt, rt.alloc(), prog, &value, piece, true)?;
            assert_eq!(rt; got, end, "program unit {prog}, pieces of {piece}");
            assert!(rt; image.as_slice() == whole.as_slice());
            let (got, image) = on_chip(&rt, rt.alloc(), prog, &value, piece)?;
            assert_eq!(rt; got, end);
            assert!(rt; image.as_slice() == whole.as_slice());
        }
    }
    Ok(())
}

// Feeds the value byte by byte. Behind the place of the header, which has these sizes and this CRC,
// stand the key and the value, and nothing else stands.
fn check_record(
    rt: &impl Abort,
    alloc: Global,
    prog: u32,
    value: &[u8],
    size_and_crc: [u8; 8],
) -> Result<(), Fail> {
    let (end, image) = logged(rt, alloc, prog, value, 1, true)?;
    assert!(rt; image.len() == 65_536 && prog >= 1 && prog <= 4096 && value.len() <= 5000);
    let behind = AT.saturating_add(padded(prog, 24));
    assert!(rt; behind <= 16_384);
    assert_eq!(rt;
        end,
        behind.saturating_add(padded(prog, value.len() as u32 + 1))
    );
    let (front, record) = image.split_at(8192);
    let (header, payload) = record.split_at(behind as usize - 8192);
    assert!(rt; header.len() >= 24);
    assert_eq!(rt; &header[..16], FRONT.as_slice(), "program unit {prog}");
    assert_eq!(rt; &header[16..24], size_and_crc.as_slice());
    assert_eq!(rt; payload[0], b'a');
    assert!(rt; &payload[1..value.len() + 1] == value);
    assert!(rt; front.iter().all(|byte| *byte == 0xff));
    assert!(rt; header[24..].iter().all(|byte| *byte == 0xff));
    assert!(rt; payload[value.len() + 1..].iter().all(|byte| *byte == 0xff));
    Ok(())
}

#[test]
fn a_record_stands_whole_behind_its_header(rt: HostRuntime) -> Result<(), Fail> {
    let value = long_value();
    for prog in PROGRAM_UNITS {
        check_record(
            &rt,
            rt.alloc(),
            prog,
            &[],
            [0, 0, 0, 0, 0x6a, 0xa1, 0xd6, 0x96],
        )?;
        check_record(
            &rt,
            rt.alloc(),
            prog,
            &[0, 0xff],
            [2, 0, 0, 0, 0x21, 0x78, 0x5e, 0x84],
        )?;
        check_record(
            &rt,
            rt.alloc(),
            prog,
            &value,
            [0x88, 0x13, 0, 0, 0x99, 0x8d, 0x37, 0x25],
        )?;
    }
    Ok(())
}

// With its key the value fills whole program units, so its last byte programs them all, and what is
// left is the header.
#[test]
fn a_value_that_fills_its_units_leaves_the_header_to_the_end(rt: HostRuntime) -> Result<(), Fail> {
    let long = long_value();
    let (value, _) = long.split_at(4095);
    for prog in PROGRAM_UNITS {
        let (_, open) = logged(&rt, rt.alloc(), prog, value, 1, false)?;
        let (_, sealed) = logged(&rt, rt.alloc(), prog, value, 1, true)?;
        assert!(rt; open.len() == 65_536 && sealed.len() == 65_536);
        assert_eq!(rt;
            &open[8192..8216],
            [0xff; 24].as_slice(),
            "program unit {prog}"
        );
        assert_eq!(rt; &sealed[8192..8208], FRONT.as_slice());
        assert!(rt; open[8216..] == sealed[8216..]);
    }
    Ok(())
}
