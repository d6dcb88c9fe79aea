// What the tools make, against bytes that another program spelled.
use super::*;
use flash_core::Geometry;
use kv_model::{Bytes, Call, Flags};
use script_core::{Act, Line};
use std::alloc::Global;
use std::process::Abort;
use std::test::Fail;

const SMALL: Geometry = Geometry {
    prog: 8,
    erase: 64,
    units_per_area: 4,
};

// Of version 1.
const MASTER: [u8; 40] = [
    0x4b, 0x56, 0x52, 0x31, 0x18, 0, 1, 0, 0, 0, 0, 0, 4, 0, 0, 0, 8, 0, 0, 0, 0xaa, 0x37, 0xf7,
    0x1e, 0x54, 0x44, 0x42, 0x53, 1, 0, 1, 0, 0, 0, 0, 0, 0xff, 0xff, 0xff, 0xff,
];

#[test]
fn a_formatted_image_is_a_master_and_erased_bytes(rt: HostRuntime) -> Result<(), Fail> {
    assert!(rt; SMALL.is_valid());
    let image = format_image(rt.alloc(), SMALL).expect(&rt, "memory");
    let mut wanted = [0xff; 512];
    wanted[..40].copy_from_slice(&MASTER);
    assert_eq!(rt; image.as_slice(), wanted.as_slice());
    Ok(())
}

// A set of client 1, whose value has this byte alone.
fn set_line(alloc: Global, key: &[u8], byte: u8, size: usize) -> Result<Line, Fail> {
    let value = vec![in alloc; byte; size]?;
    let call = Call::Set {
        key: Bytes::new(alloc, key)?,
        value: Bytes::from_vec(value),
        flags: Flags::NONE,
    };
    Ok(Line {
        who: 1,
        act: Act::Do { call },
    })
}

// The first eight numbers behind the seed 1 are known.
#[test]
fn a_script_of_two_sets(rt: HostRuntime) -> Result<(), Fail> {
    let alloc = rt.alloc();
    let script = gen_script(alloc, 1, 1, 2).expect(&rt, "memory");
    let first = set_line(alloc, b"k22", 1, 35)?;
    let second = set_line(alloc, b"k14", 2, 10)?;
    let wanted = vec![in alloc; first, second]?;
    assert!(rt; script.lines() == wanted.as_slice());
    Ok(())
}
