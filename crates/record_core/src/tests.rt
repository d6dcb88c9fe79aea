ghost use Rattle.std.specs.Prelude.{◌≤◌};

use super::*;
use kv_model::Key;
use std::test::Fail;

const CRC_START: u32 = 0xFFFF_FFFF;

// The complements of published values of the usual CRC-32.
#[test]
fn crc_is_the_complement_of_the_usual_one(rt: HostRuntime) {
    for (bytes, want) in [
        (b"123456789".as_slice(), 0x340b_c6d9),
        (b"a".as_slice(), 0x1748_41bc),
        (b"b".as_slice(), 0x8e41_1006),
        (b"c".as_slice(), 0xf946_2090),
    ] {
        assert_eq!(rt; crc(CRC_START, bytes), want);
    }
    let front = crc(CRC_START, b"12345".as_slice());
    assert_eq!(rt; crc(front, b"6789".as_slice()), 0x340b_c6d9);
}

// Slices of eight bytes and what is left of each length: the complements of what zlib gives for so
// many bytes of the text.
const TEXT: &[u8; 64] = b"The quick brown fox jumps over the lazy dog, and then it sleeps.";

const CRCS: [u32; 65] = [
    0xffffffff, 0x41fb859f, 0x23989c3a, 0xfbf7d4f9, 0xfff49da4, 0xf646d2c6, 0x529ea4e4, 0x935b6139,
    0x8b2de38b, 0xa081cf9b, 0x5c13ebcb, 0xaf5608a7, 0xf6167053, 0x2f996af7, 0xed971a4a, 0x3cee73cb,
    0x37e4d583, 0xd057f222, 0x08bd6adf, 0x48ba8b21, 0x774f8a1d, 0xce16ab15, 0x4d7c77f3, 0x17fac234,
    0x71a67f4b, 0x28731ee1, 0xec4b8138, 0xf5e38fd6, 0xd6234067, 0xeed8426c, 0xfae1e521, 0x77fdd173,
    0x9e136872, 0xfdfcea12, 0xce9c1875, 0x1bcf3963, 0x90a4d2a8, 0xe228dec6, 0xc235d779, 0x00c235d7,
    0x23d9a58a, 0x479116da, 0xbb4cd615, 0xbeb05cc6, 0x4061bb3a, 0xfd2298c1, 0xd62b8170, 0xfad916e2,
    0x0421ff03, 0xa263508d, 0xc4c329e8, 0xed7c4009, 0x44e95133, 0x159ec418, 0x2817265a, 0xbff87630,
    0x710e7dff, 0x161dc138, 0xe11885d9, 0xbbea5f86, 0x39b8599d, 0xb35fc277, 0x9ed7ca61, 0xf327a682,
    0xdf93c865,
];

fn crc_of_text(length: usize) -> u32
    requires { length ≤ 64 }
{
    crc(CRC_START, &TEXT[..length])
}

#[test]
fn crc_of_each_length(rt: HostRuntime) {
    for (length, want) in CRCS.iter().enumerate() {
        assert_eq!(rt; crc_of_text(length), *want);
    }
}

// A key of 1 byte with a value of 2, and a master record, at each program unit.
#[test]
fn sizes_are_whole_program_units(rt: HostRuntime) {
    for (prog, small, master) in [(8u32, 32, 40), (32, 64, 64), (1, 27, 36)] {
        assert!(rt; prog.is_power_of_two());
        assert!(rt; prog <= 4096);
        assert_eq!(rt; size_of_record(prog, 1, 2), small);
        assert_eq!(rt; size_of_record(prog, 4, 8), master);
    }
    assert_eq!(rt; padded_size(8, 3), 8);
}

// The header of key `a` and value `00ff`, with the CRC 0x04030201 in place of the right one.
const EXAMPLE: [u8; 24] = [
    0x4b, 0x56, 0x52, 0x31, 0x18, 0, 1, 0, 0, 0, 0, 0, 1, 0, 0, 0, 2, 0, 0, 0, 1, 2, 3, 4,
];

#[test]
fn a_header_has_one_spelling(rt: HostRuntime) -> Result<(), Fail> {
    let key = Key::new(b"a".as_slice())?;
    let mut out = [0; 24];
    write_header(&mut out, &key, 2, 0, 0x0403_0201);
    assert_eq!(rt; out, EXAMPLE);
    let header = read_header(&EXAMPLE).ok_or("a header")?;
    assert_eq!(rt; header.flags, 0);
    assert_eq!(rt; header.key_size, 1);
    assert_eq!(rt; header.value_size, 2);
    assert_eq!(rt; header.crc, 0x0403_0201);
    assert!(rt; header.is_valid());
    Ok(())
}

// One byte of the example is another: each rule but that of the remove fails once.
#[test]
fn a_broken_rule_is_no_header(rt: HostRuntime) {
    for (place, byte) in [
        (0, 0x4c),
        (3, 0x32),
        (4, 0x17),
        (5, 1),
        (6, 2),
        (7, 1),
        (8, 2),
        (10, 1),
        (11, 0x80),
        (12, 0),
        (12, 129),
        (13, 1),
        (14, 1),
        (15, 1),
        (18, 2),
        (19, 1),
    ] {
        let mut bytes = EXAMPLE;
        assert!(rt; place < bytes.len());
        bytes[place] = byte;
        assert!(rt; read_header(&bytes).is_none(), "byte {byte} at {place}");
    }
}

#[test]
fn limits_of_sizes(rt: HostRuntime) {
    // (the value's low three bytes, the flags' last byte, whether it is a header)
    for (low, middle, high, kind, want) in [
        (0x38, 0, 1, 0, true),
        (0x39, 0, 1, 0, false),
        (0, 0, 0, 0x80, true),
        (1, 0, 0, 0x80, false),
    ] {
        let mut bytes = EXAMPLE;
        bytes[16] = low;
        bytes[17] = middle;
        bytes[18] = high;
        bytes[11] = kind;
        assert_eq!(rt;
            read_header(&bytes).is_some(),
            want,
            "size {low} {middle} {high}"
        );
    }
}
