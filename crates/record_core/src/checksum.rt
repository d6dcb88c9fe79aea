//! The reflected CRC of 32 bits, in slices of eight bytes by tables.
ghost use Rattle.std.specs.Prelude.{◌≡◌, ◌≤◌};
ghost use Rattle.kv_model.specs.Crc.{crc_step, crc_from, key_hash};

use crate::shifts::{shifted_byte, shifted_word};
use kv_model::Key;

// The CRC behind one byte more.
fn after_byte(crc: u32, byte: u8) -> u32
    ensures { result ≡ crc_step crc byte }
{
    let mixed = crc ^ u32::from(byte);
    shifted_byte(0, (mixed & 0xff) as u8) ^ (mixed >> 8)
}

// The CRC behind these bytes, one at a time.
fn after_bytes(start: u32, bytes: &[u8]) -> u32
    ensures { result ≡ crc_from start bytes.now }
{
    let mut crc = start;
    for byte in bytes {
        crc = after_byte(crc, *byte);
    }
    crc
}

// The CRC behind eight bytes more. What it was so far leaves with the first four of them.
fn after_slice(crc: u32, slice: &[u8; 8]) -> u32
    ensures { result ≡ crc_from crc slice.now }
{
    let [a, b, c, d, e, f, g, h] = *slice;
    let front = u32::from_le_bytes([a, b, c, d]);
    let back = u32::from_le_bytes([e, f, g, h]);
    shifted_word(4, crc ^ front) ^ shifted_word(0, back)
}

/// What a record's CRC starts at.
pub const CRC_START: u32 = 0xFFFF_FFFF;

/// The CRC of the bytes, going on from `start`: the reflected one of 32 bits with the polynomial
/// 0xEDB88320, with no exclusive-or at the end. A record's CRC starts at 0xFFFF_FFFF, and a list in
/// pieces goes on from the CRC of the piece before.
pub fn crc(start: u32, bytes: &[u8]) -> u32
    ensures { result ≡ crc_from start bytes.now }
{
    let (slices, rest) = bytes.as_chunks::<8>();
    let mut crc = start;
    for slice in slices {
        crc = after_slice(crc, slice);
    }
    after_bytes(crc, rest)
}

/// The low bits of the key's CRC, at most 32 of them.
pub fn hash_of(key: &Key, hash_bits: u8) -> u32
    requires { hash_bits ≤ 32 }
    ensures { result ≡ key_hash hash_bits key.now }
{
    let sum = u64::from(crc(CRC_START, key.as_slice()));
    (sum % (1 << hash_bits)) as u32
}
