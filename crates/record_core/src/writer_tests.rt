// What the writers leave on a device of 512 bytes.
ghost use Rattle.std.specs.Prelude.{◌≡◌, IfOk, Some, replicate};
ghost use Rattle.flash_core.specs.RecordDevice.{IsLoggedOf, IsMemoryOf};
ghost use Rattle.flash_core.specs.Sizes.{IsValid};

use super::*;
use flash_core::{Flash, Geometry, RecordFlash};
use kv_model::Key;
use std::alloc::Global;
use std::process::Abort;
use std::test::Fail;

const SMALL: Geometry = Geometry {
    prog: 8,
    erase: 64,
    units_per_area: 4,
};

fn erased_device(alloc: Global) -> Result<RecordFlash, Fail>
    requires { IsValid SMALL }
    ensures { IfOk result (λ flash.
        IsMemoryOf (⟦<RecordFlash as Flash>⟧.state flash) SMALL (replicate 512 255)) }
{
    let image = vec![in alloc; 0xFF; 512]?;
    Ok(RecordFlash::new(alloc, SMALL, image)?)
}

#[test]
fn a_master_record_begins_an_area(rt: HostRuntime) -> Result<(), Fail> {
    assert!(rt; SMALL.is_valid());
    let mut flash = erased_device(rt.alloc())?;
    let mut work = [0; 64];
    write_master(&mut flash, 256, 1, &mut work)?;
    let mut want = [0xFF; 512];
    want[256..292].copy_from_slice(&[
        0x4b, 0x56, 0x52, 0x31, 0x18, 0, 1, 0, 0, 0, 0, 0, 4, 0, 0, 0, 8, 0, 0, 0, 0xaa, 0x37,
        0xf7, 0x1e, 0x54, 0x44, 0x42, 0x53, 1, 0, 1, 0, 0, 0, 0, 0,
    ]);
    assert_eq!(rt; flash.image(), want.as_slice());
    Ok(())
}

// The same with a log that has room for so many bytes.
fn logged_device(alloc: Global, room: u32) -> Result<RecordFlash, Fail>
    requires { IsValid SMALL }
    ensures { IfOk result (λ flash.
        IsLoggedOf (⟦<RecordFlash as Flash>⟧.state flash) SMALL (replicate 512 255)) }
{
    let image = vec![in alloc; 0xFF; 512]?;
    Ok(RecordFlash::with_log(alloc, SMALL, image, room)?)
}

// Whether this record was written at place 40 of an erased device.
fn write_at_40(
    rt: &impl Abort,
    flash: &mut RecordFlash,
    key: &[u8],
    value: &[u8],
    flags: u32,
) -> Result<bool, Fail>
    requires geometry { (⟦<RecordFlash as Flash>⟧.state flash.old).geometry ≡ SMALL }
    requires erased { (⟦<RecordFlash as Flash>⟧.state flash.old).image ≡ Some (replicate 512 255) }
    ensures { (⟦<RecordFlash as Flash>⟧.state flash.new).geometry ≡ SMALL }
{
    assert!(rt; SMALL.is_valid());
    let key = Key::new(key)?;
    assert!(rt; value.len() <= 400);
    let header = Header {
        flags,
        key_size: key.as_slice().len() as u16,
        value_size: value.len() as u32,
        crc: 0,
    };
    assert!(rt; header.is_valid());
    let size = size_of_record(SMALL.prog, u32::from(header.key_size), header.value_size);
    assert!(rt; size <= 472);
    let mut work = [0; 64];
    Ok(write_record(flash, 40, &key, value, flags, &mut work).is_ok())
}

// An erased device on which this record was written at place 40.
fn device_with(
    rt: &impl Abort,
    alloc: Global,
    key: &[u8],
    value: &[u8],
    flags: u32,
) -> Result<RecordFlash, Fail> {
    assert!(rt; SMALL.is_valid());
    let mut flash = erased_device(alloc)?;
    assert!(rt; write_at_40(rt, &mut flash, key, value, flags)?);
    Ok(flash)
}

#[test]
fn a_record_is_written_whole(rt: HostRuntime) -> Result<(), Fail> {
    let flash = device_with(&rt, rt.alloc(), b"a", &[0, 0xFF], 0)?;
    let mut want = [0xFF; 512];
    want[40..66].copy_from_slice(&[
        0x4b, 0x56, 0x52, 0x31, 0x18, 0, 1, 0, 0, 0, 0, 0, 1, 0, 0, 0, 2, 0, 0, 0, 0x21, 0x78,
        0x5e, 0x84, 0x61, 0,
    ]);
    assert_eq!(rt; flash.image(), want.as_slice());
    Ok(())
}

#[test]
fn a_long_payload_is_written_in_pieces(rt: HostRuntime) -> Result<(), Fail> {
    let flash = device_with(&rt, rt.alloc(), b"b", &[7; 100], 1)?;
    let mut want = [0xFF; 512];
    want[40..64].copy_from_slice(&[
        0x4b, 0x56, 0x52, 0x31, 0x18, 0, 1, 0, 1, 0, 0, 0, 1, 0, 0, 0, 0x64, 0, 0, 0, 0x74, 0x96,
        0xe9, 0x53,
    ]);
    want[64] = b'b';
    want[65..165].fill(7);
    assert_eq!(rt; flash.image(), want.as_slice());
    Ok(())
}

// Whether a record of 128 bytes was written where the log has so much room, and whether one is
// read.
fn record_over_log(rt: &impl Abort, alloc: Global, room: u32) -> Result<(bool, bool), Fail> {
    assert!(rt; SMALL.is_valid());
    let mut flash = logged_device(alloc, room)?;
    let written = write_at_40(rt, &mut flash, b"b", &[7; 100], 1)?;
    let mut key = Key::new(b"other")?;
    let mut work = [0; 64];
    let found = read_record(&mut flash, 40, 512, &mut key, &mut work)?;
    Ok((written, found.is_some()))
}

#[test]
fn a_record_is_read_once_its_header_is_written(rt: HostRuntime) -> Result<(), Fail> {
    for room in 0..130 {
        let got = record_over_log(&rt, rt.alloc(), room)?;
        assert_eq!(rt; got, (room >= 128, room >= 128), "{room}");
    }
    Ok(())
}

// Whether a master record of 40 bytes was written where the log has so much room, and what is read
// of it.
fn master_over_log(rt: &impl Abort, alloc: Global, room: u32) -> Result<(bool, Option<u16>), Fail> {
    assert!(rt; SMALL.is_valid());
    let mut flash = logged_device(alloc, room)?;
    let mut work = [0; 64];
    let written = write_master(&mut flash, 256, 513, &mut work).is_ok();
    let found = read_master(&mut flash, 256, &mut work)?;
    Ok((written, found))
}

#[test]
fn a_master_record_is_read_once_its_header_is_written(rt: HostRuntime) -> Result<(), Fail> {
    for room in 0..42 {
        let got = master_over_log(&rt, rt.alloc(), room)?;
        let want = if room >= 40 { Some(513) } else { None };
        assert_eq!(rt; got, (room >= 40, want), "{room}");
    }
    Ok(())
}
