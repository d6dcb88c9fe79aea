// Records written to devices of 512 bytes, in pieces. Another program spelled the image that they
// leave.
ghost use Rattle.std.specs.Prelude.{◌≡◌, IfOk, OnOk};
ghost use Rattle.flash_core.specs.declared.record_flash.RecordFlash.{RecordFlash};
ghost use Rattle.flash_core.specs.RecordDevice.{device_state};
ghost use Rattle.flash_core.specs.Sizes.{IsValid, size_of};
ghost use Rattle.tdb_read.specs.Views.{Ready};

use super::*;
use flash_core::{Flash, Geometry, RecordFlash};
use kv_model::Key;
use record_core::{Header, size_of_record};
use std::alloc::Global;
use std::process::Abort;
use std::test::Fail;
use tdb_read::MountedLog;

const SMALL: Geometry = Geometry {
    prog: 8,
    erase: 64,
    units_per_area: 4,
};

// Of version 1, and behind it: `a` is set to 01, `b` to 02, `a` again to 0304, and `c` to nothing.
const LOG: [u8; 168] = [
    0x4b, 0x56, 0x52, 0x31, 0x18, 0, 1, 0, 0, 0, 0, 0, 4, 0, 0, 0, 8, 0, 0, 0, 0xaa, 0x37, 0xf7,
    0x1e, 0x54, 0x44, 0x42, 0x53, 1, 0, 1, 0, 0, 0, 0, 0, 0xff, 0xff, 0xff, 0xff, 0x4b, 0x56, 0x52,
    0x31, 0x18, 0, 1, 0, 0, 0, 0, 0, 1, 0, 0, 0, 1, 0, 0, 0, 0xd4, 0xbd, 0xaa, 0x11, 0x61, 1, 0xff,
    0xff, 0xff, 0xff, 0xff, 0xff, 0x4b, 0x56, 0x52, 0x31, 0x18, 0, 1, 0, 0, 0, 0, 0, 1, 0, 0, 0, 1,
    0, 0, 0, 0xad, 0xbf, 0x8e, 0xa3, 0x62, 2, 0xff, 0xff, 0xff, 0xff, 0xff, 0xff, 0x4b, 0x56, 0x52,
    0x31, 0x18, 0, 1, 0, 0, 0, 0, 0, 1, 0, 0, 0, 2, 0, 0, 0, 0x76, 0, 0x1c, 0x85, 0x61, 3, 4, 0xff,
    0xff, 0xff, 0xff, 0xff, 0x4b, 0x56, 0x52, 0x31, 0x18, 0, 1, 0, 0, 0, 0, 0, 1, 0, 0, 0, 0, 0, 0,
    0, 0x46, 0xc0, 0xd8, 0x78, 0x63, 0xff, 0xff, 0xff, 0xff, 0xff, 0xff, 0xff,
];

// A log without records, on an erased device.
fn fresh_log(rt: &impl Abort, alloc: Global) -> Result<MountedLog<RecordFlash>, Fail>
    ensures { IfOk result (Ready (λ (flash : RecordFlash).
        device_state flash.geometry flash.image.items flash.log)) }
{
    assert!(rt; SMALL.is_valid());
    let flash = RecordFlash::new(alloc, SMALL, vec![in alloc; 0xFF; 512]?)?;
    match MountedLog::mount(alloc, flash, 32) {
        Ok(log) => Ok(log),
        Err((_, error)) => Err(error)?,
    }
}

// Writes a record whose value comes in two pieces, the first of so many bytes.
pub(crate) fn write<F: Flash>(
    rt: &impl Abort,
    log: &mut MountedLog<F>,
    key: &[u8],
    value: &[u8],
    first: usize,
) -> Result<(), Fail>
    requires ready { Ready F.state log.old }
    ensures ready { OnOk result (Ready F.state log.new) }
{
    let key = Key::new(key)?;
    let place = log.find(&key)?;
    reserve(log)?;
    assert!(rt; value.len() <= 65_592);
    assert!(rt; first <= value.len());
    let header = Header {
        flags: 0,
        key_size: key.as_slice().len() as u16,
        value_size: value.len() as u32,
        crc: 0,
    };
    assert!(rt; header.is_valid() && log.is_clean);
    let prog = log.flash().geometry().prog;
    let size = size_of_record(prog, u32::from(header.key_size), header.value_size);
    let area = log.area();
    assert!(rt; size <= area.base + area.size - log.end);
    let mut set = begin(log, &key, 0, header.value_size);
    let (front, back) = value.split_at(first);
    feed(log, &mut set, front)?;
    feed(log, &mut set, back)?;
    seal(log, &mut set, place)?;
    Ok(())
}

#[test]
fn records_stand_as_they_are_spelled(rt: HostRuntime) -> Result<(), Fail> {
    for first in [0, 1] {
        let mut log = fresh_log(&rt, rt.alloc())?;
        write(&rt, &mut log, b"a", &[1], first)?;
        write(&rt, &mut log, b"b", &[2], first)?;
        write(&rt, &mut log, b"a", &[3, 4], first)?;
        write(&rt, &mut log, b"c", &[], 0)?;
        let mut buf = [1; 4];
        assert_eq!(rt; log.get(b"a", 0, &mut buf)?.read, 2);
        assert_eq!(rt; buf, [3, 4, 0, 0]);
        assert_eq!(rt; log.info(b"b")?.size, 1);
        assert_eq!(rt; log.info(b"c")?.size, 0);
        let mut image = [0xff; 512];
        image[..168].copy_from_slice(&LOG);
        assert_eq!(rt; log.into_flash().image(), image.as_slice());
    }
    Ok(())
}
