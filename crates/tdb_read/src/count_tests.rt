// How many bytes of a device a look-up reads.
ghost use Rattle.std.specs.Prelude.{◌≡◌, IfOk};
ghost use Rattle.flash_core.specs.RecordDevice.{device_state};
ghost use Rattle.flash_core.specs.Sizes.{IsValid, size_of};
ghost use Rattle.tdb_read.specs.declared.count_tests.Counting.{Counting};
ghost use Rattle.tdb_read.specs.Views.{Ready};

use super::tests::{SMALL, image_of_log};
use super::*;
use flash_core::{Flash, FlashFault, Geometry, RecordFlash};
use std::alloc::Global;
use std::process::Abort;
use std::test::Fail;

// A device in memory that counts the bytes that it gives.
#[derive(Drop)]
struct Counting {
    inner: RecordFlash,
    bytes: usize,
}

impl Flash for Counting {
    ghost use Rattle.flash_core.specs.RecordDevice.{device_is_lawful};

    ghost state = { λ device. ⟦<RecordFlash as Flash>⟧.state device.inner };

    fn geometry(&self) -> Geometry {
        self.inner.geometry()
    }

    fn read(&mut self, place: u32, buf: &mut [u8]) -> Result<(), FlashFault> {
        self.bytes = self.bytes.wrapping_add(buf.len());
        self.inner.read(place, buf)
    }

    fn program(&mut self, place: u32, bytes: &[u8]) -> Result<(), FlashFault> {
        self.inner.program(place, bytes)
    }

    fn erase(&mut self, place: u32) -> Result<(), FlashFault> {
        self.inner.erase(place)
    }

    ghost lawful = { λ device.
        device_is_lawful device.inner.geometry device.inner.image.items device.inner.log
        device.inner.sized device.inner.leads };
}

fn mounted(rt: &impl Abort, alloc: Global, hash_bits: u8) -> Result<MountedLog<Counting>, Fail>
    ensures { IfOk result (Ready (λ (flash : Counting).
        device_state flash.inner.geometry flash.inner.image.items flash.inner.log)) }
{
    assert!(rt; SMALL.is_valid());
    assert!(rt; hash_bits <= 32);
    let image = image_of_log().to_vec(alloc)?;
    let inner = RecordFlash::new(alloc, SMALL, image)?;
    match MountedLog::mount(alloc, Counting { inner, bytes: 0 }, hash_bits) {
        Ok(log) => Ok(log),
        Err((_, error)) => Err(error)?,
    }
}

// A header has 24 bytes and each key 1; the values have 2, 1 and no bytes. With 32 bits each key
// has a hash of its own; with none the keys before it are read too, behind their headers.
#[test]
fn header_key_and_value_are_read_once(rt: HostRuntime) -> Result<(), Fail> {
    for (hash_bits, key, info, get) in [
        (32, b'a', 25, 27),
        (32, b'b', 25, 26),
        (32, b'c', 25, 25),
        (0, b'a', 25, 27),
        (0, b'b', 50, 51),
        (0, b'c', 75, 75),
    ] {
        let mut log = mounted(&rt, rt.alloc(), hash_bits)?;
        let before: usize = log.flash.bytes;
        log.info(&[key])?;
        let between = log.flash.bytes;
        assert_eq!(rt; between.wrapping_sub(before), info);
        log.get(&[key], 0, &mut [0; 1])?;
        assert_eq!(rt; log.flash.bytes.wrapping_sub(between), get);
    }
    Ok(())
}
