// Logs of 512 bytes whose master and records another program spelled, mounted and read.
ghost use Rattle.std.specs.Prelude.{◌≡◌, IfOk};
ghost use Rattle.flash_core.specs.declared.record_flash.RecordFlash.{RecordFlash};
ghost use Rattle.flash_core.specs.RecordDevice.{device_state};
ghost use Rattle.flash_core.specs.Sizes.{IsValid, size_of};
ghost use Rattle.tdb_read.specs.Views.{Ready};

use super::*;
use flash_core::{Flash, Geometry, RecordFlash};
use kv_model::KvError;
use std::alloc::Global;
use std::process::Abort;
use std::test::Fail;

pub(super) const SMALL: Geometry = Geometry {
    prog: 8,
    erase: 64,
    units_per_area: 4,
};

// Of version 1, and behind it: `a` is set to 01, `b` to 02, `a` again to 0304, and `c` to nothing.
const LOG: [u8; 168] = [
    0x4b, 0x56, 0x52, 0x31, 0x18, 0, 1, 0, 0, 0, 0, 0, 4, 0, 0, 0, 8, 0, 0, 0, 0xaa, 0x37, 0xf7,
    0x1e, 0x54, 0x44, 0x42, 0x53, 1, 0, 1, 0, 0, 0, 0, 0, 0xff, 0xff, 0xff, 0xff, 0x4b, 0x56, 0x52,
    0x31, 0x18, 0, 1, 0, 0, 0, 0, 0, 1, 0, 0, 0, 1, 0, 0, 0, 0xd4, 0xbd, 0xaa, 0x11, 0x61, 1, 0xff,
    0xff, 0xff, 0xff, 0xff, 0xff, 0x4b, 0x56, 0x52, 0x31, 0x18, 0, 1, 0, 0, 0, 0, 0, 1, 0, 0, 0, 1,
    0, 0, 0, 0xad, 0xbf, 0x8e, 0xa3, 0x62, 2, 0xff, 0xff, 0xff, 0xff, 0xff, 0xff, 0x4b, 0x56, 0x52,
    0x31, 0x18, 0, 1, 0, 0, 0, 0, 0, 1, 0, 0, 0, 2, 0, 0, 0, 0x76, 0, 0x1c, 0x85, 0x61, 3, 4, 0xff,
    0xff, 0xff, 0xff, 0xff, 0x4b, 0x56, 0x52, 0x31, 0x18, 0, 1, 0, 0, 0, 0, 0, 1, 0, 0, 0, 0, 0, 0,
    0, 0x46, 0xc0, 0xd8, 0x78, 0x63, 0xff, 0xff, 0xff, 0xff, 0xff, 0xff, 0xff,
];

pub(super) fn image_of_log() -> [u8; 512] {
    let mut image = [0xff; 512];
    image[..168].copy_from_slice(&LOG);
    image
}

fn device_of(alloc: Global, image: &[u8; 512]) -> Result<RecordFlash, Fail>
    requires valid { IsValid SMALL }
    requires size { size_of SMALL ≡ 512 }
{
    let image = image.to_vec(alloc)?;
    Ok(RecordFlash::new(alloc, SMALL, image)?)
}

fn mounted(rt: &impl Abort, alloc: Global, hash_bits: u8) -> Result<MountedLog<RecordFlash>, Fail>
    ensures { IfOk result (Ready (λ (flash : RecordFlash).
        device_state flash.geometry flash.image.items flash.log)) }
{
    assert!(rt; SMALL.is_valid());
    assert!(rt; hash_bits <= 32);
    let flash = device_of(alloc, &image_of_log())?;
    match MountedLog::mount(alloc, flash, hash_bits) {
        Ok(log) => Ok(log),
        Err((_, error)) => Err(error)?,
    }
}

// The order of the keys by their hashes, whose CRCs are published.
#[test]
fn keys_come_in_the_order_of_their_hashes(rt: HostRuntime) -> Result<(), Fail> {
    for (hash_bits, keys) in [(4, *b"cba"), (8, *b"bca"), (32, *b"abc"), (0, *b"abc")] {
        let mut log = mounted(&rt, rt.alloc(), hash_bits)?;
        let mut out = [1; 128];
        assert_eq!(rt; log.iter_open(1, 0, b""), Ok(()));
        assert_eq!(rt; log.next(1, 0, &mut out), Ok(Some(1)));
        assert_eq!(rt; out[0], keys[0]);
        assert_eq!(rt; log.next(1, 0, &mut out), Ok(Some(1)));
        assert_eq!(rt; out[0], keys[1]);
        assert_eq!(rt; log.next(1, 0, &mut out), Ok(Some(1)));
        assert_eq!(rt; out[0], keys[2]);
        assert_eq!(rt; log.next(1, 0, &mut out), Ok(None));
        assert_eq!(rt; out, [0; 128]);
    }
    Ok(())
}

#[test]
fn iterators_by_number(rt: HostRuntime) -> Result<(), Fail> {
    let mut log = mounted(&rt, rt.alloc(), 32)?;
    let mut out = [1; 128];
    assert_eq!(rt; log.next(1, 3, &mut out), Err(KvError::NoIterator));
    assert_eq!(rt; out, [0; 128]);
    assert_eq!(rt; log.iter_open(1, 3, b"*"), Err(KvError::InvalidKey));
    assert_eq!(rt; log.iter_open(1, 3, b"b"), Ok(()));
    assert_eq!(rt; log.next(2, 3, &mut out), Err(KvError::NoIterator));
    assert_eq!(rt; log.next(1, 3, &mut out), Ok(Some(1)));
    assert_eq!(rt; out[0], b'b');
    assert_eq!(rt; log.next(1, 3, &mut out), Ok(None));
    assert_eq!(rt; log.iter_close(1, 3), Ok(()));
    assert_eq!(rt; log.iter_close(1, 3), Err(KvError::NoIterator));
    Ok(())
}

// What a get gives: how many bytes, and the buffer of four.
#[test]
fn values_are_read_from_an_offset(rt: HostRuntime) -> Result<(), Fail> {
    for (offset, read, bytes) in [(0, 2, [3, 4, 0, 0]), (1, 1, [4, 0, 0, 0]), (2, 0, [0; 4])] {
        let mut log = mounted(&rt, rt.alloc(), 32)?;
        let mut buf = [1; 4];
        let got = log.get(b"a", offset, &mut buf)?;
        assert_eq!(rt; got.read, read);
        assert_eq!(rt; got.size, 2);
        assert_eq!(rt; got.flags.bits, 0);
        assert_eq!(rt; buf, bytes);
    }
    Ok(())
}

#[test]
fn refusals_of_a_get(rt: HostRuntime) -> Result<(), Fail> {
    let mut log = mounted(&rt, rt.alloc(), 32)?;
    let mut buf = [1; 1];
    assert_eq!(rt;
        log.get(b"a", 3, &mut buf).err(),
        Some(KvError::InvalidSize)
    );
    assert_eq!(rt; buf, [0]);
    assert_eq!(rt; log.get(b"d", 0, &mut buf).err(), Some(KvError::NotFound));
    assert_eq!(rt;
        log.get(b"TDBS", 0, &mut buf).err(),
        Some(KvError::InvalidKey)
    );
    assert_eq!(rt; log.info(b"a")?.size, 2);
    assert_eq!(rt; log.info(b"c")?.size, 0);
    assert_eq!(rt; log.info(b"d").err(), Some(KvError::NotFound));
    Ok(())
}

#[test]
fn a_mount_ends_the_iterators(rt: HostRuntime) -> Result<(), Fail> {
    let mut log = mounted(&rt, rt.alloc(), 8)?;
    assert_eq!(rt; log.iter_open(1, 0, b""), Ok(()));
    match log.remount() {
        Ok(mut log) => {
            assert_eq!(rt; log.iter_close(1, 0), Err(KvError::NoIterator));
            assert_eq!(rt; log.info(b"b")?.size, 1);
            assert_eq!(rt; log.flash().geometry(), SMALL);
            let flash = log.into_flash();
            assert_eq!(rt; flash.image(), image_of_log().as_slice());
            Ok(())
        }
        Err((_, error)) => Err(error)?,
    }
}
