// Records that are there by chance.
use super::*;
use flash_core::Geometry;
use flash_sim::{Chip, Tear};
use std::alloc::Global;
use std::process::Abort;
use std::test::Fail;

const SMALL: Geometry = Geometry {
    prog: 8,
    erase: 256,
    units_per_area: 1,
};

// A master record of version 1. The CRCs are the complements of what Python's zlib gives.
const MASTER: [u8; 40] = [
    0x4b, 0x56, 0x52, 0x31, 0x18, 0, 1, 0, 0, 0, 0, 0, 4, 0, 0, 0, 8, 0, 0, 0, 0xaa, 0x37, 0xf7,
    0x1e, 0x54, 0x44, 0x42, 0x53, 1, 0, 1, 0, 0, 0, 0, 0, 0xff, 0xff, 0xff, 0xff,
];

// A record of key `a` and value `00ff`.
const RECORD: [u8; 32] = [
    0x4b, 0x56, 0x52, 0x31, 0x18, 0, 1, 0, 0, 0, 0, 0, 1, 0, 0, 0, 2, 0, 0, 0, 0x21, 0x78, 0x5e,
    0x84, 0x61, 0, 0xff, 0xff, 0xff, 0xff, 0xff, 0xff,
];

// The first record by chance of a chip that holds a record behind its master record, where a tear
// of 32 bytes had 0xFF before it, and would have left these.
fn chance_behind(
    rt: &impl Abort,
    alloc: Global,
    place: u32,
    whole: &[u8; 32],
) -> Result<Option<u32>, Fail> {
    assert!(rt; SMALL.is_valid() && place <= 256);
    let mut image = vec![in alloc; 0xff; 512]?;
    image[..40].copy_from_slice(&MASTER);
    image[40..72].copy_from_slice(&RECORD);
    let tear = Tear {
        place,
        before: vec![in alloc; 0xff; 32]?,
        after: whole.to_vec(alloc)?,
    };
    let chip = Chip::with_tear(SMALL, image, tear);
    Ok(chance_of(alloc, &chip)?)
}

#[test]
fn a_record_that_no_call_wrote_is_there_by_chance(rt: HostRuntime) -> Result<(), Fail> {
    let other = [0; 32];
    assert_eq!(rt; chance_behind(&rt, rt.alloc(), 40, &other)?, Some(40));
    assert_eq!(rt; chance_behind(&rt, rt.alloc(), 40, &RECORD)?, None);
    assert_eq!(rt; chance_behind(&rt, rt.alloc(), 72, &other)?, None);
    Ok(())
}
