// A log's life on a device with areas of 128 bytes: appended to, collected and reset. The records
// are spelled by another program.
ghost use Rattle.std.specs.Prelude.{◌≡◌, IfOk, OnOk};
ghost use Rattle.flash_core.specs.declared.record_flash.RecordFlash.{RecordFlash};
ghost use Rattle.flash_core.specs.RecordDevice.{device_state};
ghost use Rattle.flash_core.specs.Sizes.{IsValid, size_of};
ghost use Rattle.tdb_read.specs.Views.{Ready};

use super::tests::write;
use super::*;
use flash_core::{Flash, Geometry, RecordFlash};
use kv_model::KvError;
use std::alloc::Global;
use std::process::Abort;
use std::test::Fail;
use tdb_read::MountedLog;

const TINY: Geometry = Geometry {
    prog: 8,
    erase: 128,
    units_per_area: 1,
};

// Of version 1.
const FIRST_MASTER: [u8; 40] = [
    0x4b, 0x56, 0x52, 0x31, 0x18, 0, 1, 0, 0, 0, 0, 0, 4, 0, 0, 0, 8, 0, 0, 0, 0xaa, 0x37, 0xf7,
    0x1e, 0x54, 0x44, 0x42, 0x53, 1, 0, 1, 0, 0, 0, 0, 0, 0xff, 0xff, 0xff, 0xff,
];

// Of version 2.
const SECOND_MASTER: [u8; 40] = [
    0x4b, 0x56, 0x52, 0x31, 0x18, 0, 1, 0, 0, 0, 0, 0, 4, 0, 0, 0, 8, 0, 0, 0, 0x49, 0x30, 0x78,
    0x90, 0x54, 0x44, 0x42, 0x53, 2, 0, 1, 0, 0, 0, 0, 0, 0xff, 0xff, 0xff, 0xff,
];

// Of version 3.
const THIRD_MASTER: [u8; 40] = [
    0x4b, 0x56, 0x52, 0x31, 0x18, 0, 1, 0, 0, 0, 0, 0, 4, 0, 0, 0, 8, 0, 0, 0, 0xd7, 0x30, 0xd2,
    0x5c, 0x54, 0x44, 0x42, 0x53, 3, 0, 1, 0, 0, 0, 0, 0, 0xff, 0xff, 0xff, 0xff,
];

// `a` is set to 01.
const OLD_A: [u8; 32] = [
    0x4b, 0x56, 0x52, 0x31, 0x18, 0, 1, 0, 0, 0, 0, 0, 1, 0, 0, 0, 1, 0, 0, 0, 0xd4, 0xbd, 0xaa,
    0x11, 0x61, 1, 0xff, 0xff, 0xff, 0xff, 0xff, 0xff,
];

// `a` is set to 02.
const NEW_A: [u8; 32] = [
    0x4b, 0x56, 0x52, 0x31, 0x18, 0, 1, 0, 0, 0, 0, 0, 1, 0, 0, 0, 1, 0, 0, 0, 0x6e, 0xec, 0xa3,
    0x88, 0x61, 2, 0xff, 0xff, 0xff, 0xff, 0xff, 0xff,
];

// `b` is set to 03.
const B: [u8; 32] = [
    0x4b, 0x56, 0x52, 0x31, 0x18, 0, 1, 0, 0, 0, 0, 0, 1, 0, 0, 0, 1, 0, 0, 0, 0x3b, 0x8f, 0x89,
    0xd4, 0x62, 3, 0xff, 0xff, 0xff, 0xff, 0xff, 0xff,
];

// A log without records, on an erased device.
fn tiny_log(rt: &impl Abort, alloc: Global) -> Result<MountedLog<RecordFlash>, Fail>
    ensures { IfOk result (Ready (λ (flash : RecordFlash).
        device_state flash.geometry flash.image.items flash.log)) }
{
    assert!(rt; TINY.is_valid());
    let flash = RecordFlash::new(alloc, TINY, vec![in alloc; 0xFF; 256]?)?;
    match MountedLog::mount(alloc, flash, 32) {
        Ok(log) => Ok(log),
        Err((_, error)) => Err(error)?,
    }
}

// Makes room for a record of this size, where the map's records and this one fit in an area.
fn room_for<F: Flash>(log: &mut MountedLog<F>, size: u32) -> Result<(), KvError>
    requires ready { Ready F.state log.old }
    ensures ready { OnOk result (Ready F.state log.new) }
{
    if size > 1_000_000 {
        return Err(KvError::InvalidSize);
    }
    check_room(log, size)?;
    make_room(log, size)
}

// The image of a device whose area 0 begins with these records, and area 1 with those.
fn image_of(first: &[&[u8]], second: &[&[u8]]) -> [u8; 256] {
    let mut image = [0xff; 256];
    put_all(&mut image, 0, first);
    put_all(&mut image, 128, second);
    image
}

fn put_all(image: &mut [u8; 256], from: usize, records: &[&[u8]]) {
    let mut at = from;
    for record in records {
        if at <= 256 && record.len() <= 256 - at {
            image[at..at + record.len()].copy_from_slice(record);
            at += record.len();
        }
    }
}

#[test]
fn a_log_is_appended_to_collected_and_reset(rt: HostRuntime) -> Result<(), Fail> {
    let mut log = tiny_log(&rt, rt.alloc())?;
    assert_eq!(rt;
        log.flash().image(),
        image_of(&[&FIRST_MASTER], &[]).as_slice()
    );
    room_for(&mut log, 32)?;
    write(&rt, &mut log, b"a", &[1], 0)?;
    room_for(&mut log, 32)?;
    write(&rt, &mut log, b"a", &[2], 0)?;
    let old = [FIRST_MASTER.as_slice(), OLD_A.as_slice(), NEW_A.as_slice()];
    assert_eq!(rt; log.flash().image(), image_of(&old, &[]).as_slice());
    // the tail has 24 bytes
    room_for(&mut log, 32)?;
    write(&rt, &mut log, b"b", &[3], 0)?;
    let new = [SECOND_MASTER.as_slice(), NEW_A.as_slice(), B.as_slice()];
    assert_eq!(rt; log.flash().image(), image_of(&old, &new).as_slice());
    assert_eq!(rt;
        check_room(&mut log, 32),
        Err(KvError::MediaFull { need: 96, room: 88 })
    );
    assert_eq!(rt; log.info(b"a")?.size, 1);
    reset(&mut log)?;
    assert_eq!(rt; log.info(b"a"), Err(KvError::NotFound));
    assert_eq!(rt;
        log.into_flash().image(),
        image_of(&[&THIRD_MASTER], &new).as_slice()
    );
    Ok(())
}
