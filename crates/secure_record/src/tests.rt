ghost use Rattle.std.specs.Prelude.{◌≤◌, ◌<◌, ◌^◌, length};

use crate::{OpenStream, SealStream};
use kv_model::{Flags, Key, KvError};
use std::process::Abort;

// The records of this file were computed by Python's package `cryptography`, with no code of this
// repository:
//
//     def derive(root, salt, key): return cmac(root, b"\x01" + salt + key + b"\x00\x00\x80")
//     head = struct.pack("<HHII", 40, 2, len(value), flags) + vector.to_bytes(8, "big")
//     head += struct.pack("<I", 0 if prior is None else 1) + (prior or bytes(16))
//     cipher = Cipher(AES(derive(root, b"ENC", key)), CTR(vector.to_bytes(8, "big") + bytes(8)))
//     stored = cipher.encryptor().update(value) if flags & 2 else value
//     record = head + stored + cmac(derive(root, b"AUTH", key), head + key + stored)
//
// and the record of revision 1 with the head struct.pack("<HHII", 20, 1, len(value), flags) and the
// vector alone.

const ROOT: [u8; 16] = [0, 1, 2, 3, 4, 5, 6, 7, 8, 9, 10, 11, 12, 13, 14, 15];

const VALUE: &[u8; 20] = b"ABCDEFGHIJKLMNOPQRST";

const PRIOR: [u8; 16] = [
    0xa0, 0xa1, 0xa2, 0xa3, 0xa4, 0xa5, 0xa6, 0xa7, 0xa8, 0xa9, 0xaa, 0xab, 0xac, 0xad, 0xae, 0xaf,
];

// The key `s`, the value 00 11 22, confidential and replay-protected, the number 1, no prior.
const SMALL: [u8; 59] = [
    0x28, 0x00, 0x02, 0x00, 0x03, 0x00, 0x00, 0x00, 0x0a, 0x00, 0x00, 0x00, 0x00, 0x00, 0x00, 0x00,
    0x00, 0x00, 0x00, 0x01, 0x00, 0x00, 0x00, 0x00, 0x00, 0x00, 0x00, 0x00, 0x00, 0x00, 0x00, 0x00,
    0x00, 0x00, 0x00, 0x00, 0x00, 0x00, 0x00, 0x00, 0xbf, 0x58, 0x22, 0x60, 0x74, 0xf3, 0xca, 0xef,
    0x73, 0x82, 0x6b, 0xbd, 0x3d, 0x30, 0x4f, 0xe7, 0x23, 0x30, 0x89,
];

// The key `cert.pem`, the value of this file, all three flags, the number 0x0102030405060708, and a
// prior.
const SECOND: [u8; 76] = [
    0x28, 0x00, 0x02, 0x00, 0x14, 0x00, 0x00, 0x00, 0x0b, 0x00, 0x00, 0x00, 0x01, 0x02, 0x03, 0x04,
    0x05, 0x06, 0x07, 0x08, 0x01, 0x00, 0x00, 0x00, 0xa0, 0xa1, 0xa2, 0xa3, 0xa4, 0xa5, 0xa6, 0xa7,
    0xa8, 0xa9, 0xaa, 0xab, 0xac, 0xad, 0xae, 0xaf, 0x06, 0x82, 0x6f, 0xdc, 0x11, 0x9c, 0x37, 0x69,
    0xd7, 0x00, 0x3c, 0x07, 0x29, 0x0c, 0x20, 0xb7, 0xd7, 0xdd, 0xf8, 0xc4, 0x75, 0xbf, 0x91, 0xa8,
    0xca, 0xf3, 0x8f, 0x34, 0xa6, 0xba, 0x0c, 0xbe, 0x94, 0x27, 0xa5, 0x46,
];

// The same in revision 1, which has no prior.
const FIRST: [u8; 56] = [
    0x14, 0x00, 0x01, 0x00, 0x14, 0x00, 0x00, 0x00, 0x0b, 0x00, 0x00, 0x00, 0x01, 0x02, 0x03, 0x04,
    0x05, 0x06, 0x07, 0x08, 0x06, 0x82, 0x6f, 0xdc, 0x11, 0x9c, 0x37, 0x69, 0xd7, 0x00, 0x3c, 0x07,
    0x29, 0x0c, 0x20, 0xb7, 0xd7, 0xdd, 0xf8, 0xc4, 0x9f, 0x9a, 0xa7, 0xf4, 0x71, 0xe8, 0xd1, 0xa2,
    0x3b, 0xb4, 0xf7, 0x6a, 0xb6, 0x19, 0x67, 0xf7,
];

// The key `cert.pem` and the value of this file, with no flags: the number 5 isn't in the record.
const PLAIN: [u8; 76] = [
    0x28, 0x00, 0x02, 0x00, 0x14, 0x00, 0x00, 0x00, 0x00, 0x00, 0x00, 0x00, 0x00, 0x00, 0x00, 0x00,
    0x00, 0x00, 0x00, 0x00, 0x00, 0x00, 0x00, 0x00, 0x00, 0x00, 0x00, 0x00, 0x00, 0x00, 0x00, 0x00,
    0x00, 0x00, 0x00, 0x00, 0x00, 0x00, 0x00, 0x00, 0x41, 0x42, 0x43, 0x44, 0x45, 0x46, 0x47, 0x48,
    0x49, 0x4a, 0x4b, 0x4c, 0x4d, 0x4e, 0x4f, 0x50, 0x51, 0x52, 0x53, 0x54, 0x98, 0x50, 0x1a, 0x1f,
    0x5e, 0xfa, 0x31, 0x5c, 0x2c, 0x27, 0xec, 0x8b, 0x82, 0x45, 0x44, 0x47,
];

// The key `cert.pem` and no value, write-once, the number 5, no prior.
const EMPTY: [u8; 56] = [
    0x28, 0x00, 0x02, 0x00, 0x00, 0x00, 0x00, 0x00, 0x01, 0x00, 0x00, 0x00, 0x00, 0x00, 0x00, 0x00,
    0x00, 0x00, 0x00, 0x05, 0x00, 0x00, 0x00, 0x00, 0x00, 0x00, 0x00, 0x00, 0x00, 0x00, 0x00, 0x00,
    0x00, 0x00, 0x00, 0x00, 0x00, 0x00, 0x00, 0x00, 0xaa, 0x27, 0x3c, 0x74, 0x12, 0x11, 0x02, 0xd6,
    0xfb, 0x67, 0xf9, 0x55, 0x77, 0x57, 0x66, 0xe4,
];

// Seals a value of at most 24 bytes in two pieces, and gives the record in the front of 80 bytes.
fn sealed_in_two(
    key: &Key,
    flags: u32,
    iv: u64,
    prior: Option<[u8; 16]>,
    value: &[u8],
    cut: usize,
) -> [u8; 80]
    requires cut { cut ≤ length value.now }
    requires room { length value.now ≤ 24 }
{
    let size = value.len();
    let flags = Flags { bits: flags };
    let mut stream = SealStream::new(&ROOT, key, flags, iv, prior, size as u32);
    let mut record = [0; 80];
    let (head, rest) = record.split_at_mut(40);
    head.copy_from_slice(&stream.head());
    let (bytes, rest) = rest.split_at_mut(size);
    bytes.copy_from_slice(value);
    let (front, back) = bytes.split_at_mut(cut);
    stream.seal(front);
    stream.seal(back);
    rest[..16].copy_from_slice(&stream.finish());
    record
}

// What a record tells of itself.
#[derive(Clone, Copy, Debug, PartialEq, Eq)]
struct Told {
    head_size: u32,
    flags: u32,
    size: u32,
    has_prior: bool,
}

// Opens a record in place, in two pieces that are cut there or at the end of the value.
fn open_in_two(key: &Key, sealed: &mut [u8], cut: usize) -> Result<Told, KvError>
    requires { length sealed.old < 2 ^ 32 }
{
    let length = sealed.len();
    let head = &sealed[..length.min(40)];
    let mut stream = OpenStream::new(&ROOT, key, head, length as u32)?;
    let told = Told {
        head_size: stream.head_size(),
        flags: stream.flags().bits,
        size: stream.size(),
        has_prior: stream.prior() == Some(PRIOR),
    };
    let start = told.head_size as usize;
    let (stored, behind) = sealed[start..].split_at_mut(told.size as usize);
    let mut tag = [0; 16];
    tag.copy_from_slice(behind);
    let (front, back) = stored.split_at_mut(cut.min(told.size as usize));
    stream.absorb(front);
    stream.absorb(back);
    stream.finish(&tag)?;
    Ok(told)
}

fn cert(rt: &impl Abort) -> Key {
    Key::new(b"cert.pem").expect(rt, "a key")
}

#[test]
fn stored_bytes_of_a_small_value(rt: HostRuntime) {
    let key = Key::new(b"s").expect(&rt, "a key");
    for cut in 0..=3 {
        let record = sealed_in_two(&key, 10, 1, None, &[0x00, 0x11, 0x22], cut);
        assert!(rt; record.starts_with(SMALL.as_slice()), "cut at {cut}");
    }
}

#[test]
fn sealed_in_any_two_pieces(rt: HostRuntime) {
    let key = cert(&rt);
    for cut in 0..=20 {
        let iv = 0x0102030405060708;
        let record = sealed_in_two(&key, 11, iv, Some(PRIOR), VALUE, cut);
        assert!(rt; record.starts_with(SECOND.as_slice()), "cut at {cut}");
        let record = sealed_in_two(&key, 0, 5, None, VALUE, cut);
        assert!(rt; record.starts_with(PLAIN.as_slice()), "plain, cut at {cut}");
    }
    let record = sealed_in_two(&key, 1, 5, None, &[], 0);
    assert!(rt; record.starts_with(EMPTY.as_slice()));
}

#[test]
fn opened_in_any_two_pieces(rt: HostRuntime) {
    let key = cert(&rt);
    for cut in 0..=20 {
        let mut record = SECOND;
        let told = open_in_two(&key, &mut record, cut).expect(&rt, "a record");
        let wanted = Told {
            head_size: 40,
            flags: 11,
            size: 20,
            has_prior: true,
        };
        assert_eq!(rt; told, wanted, "cut at {cut}");
        assert!(rt; &record[40..60] == VALUE.as_slice(), "cut at {cut}");
        let mut record = FIRST;
        let told = open_in_two(&key, &mut record, cut).expect(&rt, "a record");
        let wanted = Told {
            head_size: 20,
            has_prior: false,
            ..wanted
        };
        assert_eq!(rt; told, wanted, "revision 1, cut at {cut}");
        assert!(rt;
            &record[20..40] == VALUE.as_slice(),
            "revision 1, cut at {cut}"
        );
        let mut record = PLAIN;
        let told = open_in_two(&key, &mut record, cut).expect(&rt, "a record");
        assert_eq!(rt; told.flags, 0);
        assert!(rt; &record[40..60] == VALUE.as_slice(), "plain, cut at {cut}");
    }
    let mut record = EMPTY;
    let told = open_in_two(&key, &mut record, 0).expect(&rt, "a record");
    assert_eq!(rt; told.size, 0);
}

// One bit changed in any byte: of the metadata, the stored bytes or the CMAC.
#[test]
fn no_changed_byte_is_accepted(rt: HostRuntime) {
    let key = cert(&rt);
    for at in 0..76 {
        let mut record = SECOND;
        record[at] ^= 1;
        assert!(rt; open_in_two(&key, &mut record, 7).is_err(), "byte {at}");
        let mut record = PLAIN;
        record[at] ^= 1;
        assert!(rt;
            open_in_two(&key, &mut record, 7).is_err(),
            "plain, byte {at}"
        );
        if at < 56 {
            let mut record = FIRST;
            record[at] ^= 1;
            assert!(rt;
                open_in_two(&key, &mut record, 7).is_err(),
                "revision 1, byte {at}"
            );
        }
    }
}

// A record opens under its own key and its own length alone.
#[test]
fn no_other_key_or_length_is_accepted(rt: HostRuntime) {
    let other = Key::new(b"cert.pen").expect(&rt, "a key");
    let mut record = SECOND;
    assert!(rt; open_in_two(&other, &mut record, 0).is_err());
    let key = cert(&rt);
    for length in 0..76 {
        let mut record = SECOND;
        assert!(rt;
            open_in_two(&key, &mut record[..length], 0).is_err(),
            "{length} bytes"
        );
    }
    let mut longer = [0; 77];
    longer[..76].copy_from_slice(&SECOND);
    assert!(rt; open_in_two(&key, &mut longer, 0).is_err());
}

const BROKEN_RULES: [(&str, usize, u8); 12] = [
    ("another metadata size", 0, 41),
    ("the metadata size of revision 1", 0, 20),
    ("a metadata size of two bytes", 1, 1),
    ("revision 1 with 40 bytes", 2, 1),
    ("revision 3", 2, 3),
    ("another value size", 4, 21),
    ("a value size above 65,536", 6, 1),
    ("a flag that there isn't", 8, 4),
    ("a high flag", 11, 0x80),
    ("a prior of kind 0", 20, 0),
    ("prior kind 2", 20, 2),
    ("a prior kind of four bytes", 23, 1),
];

// One rule of the metadata broken in each row, by one byte.
#[test]
fn metadata_of_neither_revision_is_refused(rt: HostRuntime) {
    let key = cert(&rt);
    for (rule, place, byte) in BROKEN_RULES {
        let mut head = [0; 40];
        head.copy_from_slice(&SECOND[..40]);
        assert!(rt; OpenStream::new(&ROOT, &key, &head, 76).is_ok());
        head[place] = byte;
        assert!(rt; OpenStream::new(&ROOT, &key, &head, 76).is_err(), "{rule}");
    }
}
