//! The header of a record.
ghost use Rattle.std.specs.Prelude.{◌≡◌, ◌↔◌, ℕ, ◌+◌, ◌%◌, ◌<◌, ◌≤◌, ◌^◌, length, IsTrue, IsSome, IfSome, Some, slice_range};
ghost use Rattle.std.specs.Int.{w16, w32, to_le_bytes};
ghost use Rattle.kv_model.specs.Crc.{crc_of};
ghost use Rattle.record_core.specs.Header.{header_bytes, header_front, HasFields, HasForm, IsHeader, IsValid};
ghost use Rattle.record_core.specs.declared.header.Header.{Header};

use crate::checksum::{CRC_START, crc};
use byteorder::{ByteOrder, LittleEndian};
use kv_model::{Key, MAX_VALUE};

const MAGIC: &[u8; 4] = b"KVR1";

/// How many bytes a header has, without its padding.
pub const HEADER_SIZE: u32 = 24;

// How much of a header goes into the CRC.
const FRONT_SIZE: usize = 20;

const REVISION: u16 = 1;

const MAX_KEY_SIZE: u16 = 128;

const WRITE_ONCE: u32 = 1;

/// The flags of a remove.
pub const REMOVE: u32 = 1 << 31;

/// What a header says beside what all headers have.
#[derive(Clone, Copy, Debug, PartialEq, Eq)]
pub struct Header {
    /// 0, 1 (write-once) or 2^31 (a remove).
    pub flags: u32,
    /// How many bytes the key has.
    pub key_size: u16,
    /// How many bytes the value has.
    pub value_size: u32,
    /// The CRC of the header's front, the key and the value.
    pub crc: u32,
}

impl Header {
    /// Whether the sizes and flags are those that a header may have: a key of 1 to 128 bytes, a
    /// value of at most 65,592, and none in a remove.
    pub fn is_valid(&self) -> bool
        ensures { IsTrue result ↔ IsValid self.now }
    {
        let is_kind = self.flags == 0 || self.flags == WRITE_ONCE || self.flags == REMOVE;
        let has_sizes = self.key_size >= 1
            && self.key_size <= MAX_KEY_SIZE
            && self.value_size <= MAX_VALUE;
        is_kind && has_sizes && (self.flags != REMOVE || self.value_size == 0)
    }

    /// The 24 bytes that spell the header.
    #[tactic(auto, unfolding(crate::specs::Header::header_front, crate::specs::Header::header_bytes))]
    pub(crate) fn to_bytes(&self) -> [u8; 24]
        ensures { result ≡ header_bytes self.now }
    {
        let mut out = [0u8; 24];
        out[..4].copy_from_slice(MAGIC);
        LittleEndian::write_u16(&mut out[4..], HEADER_SIZE as u16);
        LittleEndian::write_u16(&mut out[6..], REVISION);
        LittleEndian::write_u32(&mut out[8..], self.flags);
        LittleEndian::write_u16(&mut out[12..], self.key_size);
        LittleEndian::write_u32(&mut out[16..], self.value_size);
        LittleEndian::write_u32(&mut out[20..], self.crc);
        out
    }
}

// The number of two bytes from this place on, the lowest first.
fn u16_at(bytes: &[u8; 24], at: usize) -> u16
    requires { at + 2 ≤ 24 }
    ensures spelled { slice_range bytes.now at (at + 2) ≡ to_le_bytes w16 result }
    ensures only { (n : ℕ) → n < 2 ^ 16 → slice_range bytes.now at (at + 2) ≡ to_le_bytes w16 n
        → result ≡ n }
{
    u16::from_le_bytes([bytes[at], bytes[at + 1]])
}

// The number of four bytes from this place on, the lowest first.
fn u32_at(bytes: &[u8; 24], at: usize) -> u32
    requires { at + 4 ≤ 24 }
    ensures spelled { slice_range bytes.now at (at + 4) ≡ to_le_bytes w32 result }
    ensures only { (n : ℕ) → n < 2 ^ 32 → slice_range bytes.now at (at + 4) ≡ to_le_bytes w32 n
        → result ≡ n }
{
    u32::from_le_bytes([bytes[at], bytes[at + 1], bytes[at + 2], bytes[at + 3]])
}

/// The CRC of what of a header goes into it, which the key and then the value follow.
pub fn crc_of_front(header: &Header) -> u32
    ensures { result ≡ crc_of (header_front header.now.flags header.now.key_size
        header.now.value_size) }
{
    crc(CRC_START, &header.to_bytes()[..FRONT_SIZE])
}

/// Writes the header of a record of this key and of a value of `value_size` bytes, with the flags
/// 0, 1 (write-once) or 2^31 (a remove, whose value is empty). `crc` is that of the header's first
/// 20 bytes, the key and the value.
pub fn write_header(out: &mut [u8; 24], key: &Key, value_size: u32, flags: u32, crc: u32)
    requires { IsHeader flags (length key.now) value_size }
    ensures { out.new ≡ header_bytes
        (record { flags = flags; key_size = length key.now; value_size = value_size; crc = crc }) }
{
    let key_size = key.as_slice().len() as u16;
    let header = Header {
        flags,
        key_size,
        value_size,
        crc,
    };
    *out = header.to_bytes();
}

// Whether the bytes have what all headers share.
fn has_form(bytes: &[u8; 24]) -> bool
    ensures { IsTrue result ↔ HasForm bytes.now }
{
    bytes[..4] == MAGIC[..]
        && u32::from(u16_at(bytes, 4)) == HEADER_SIZE
        && u16_at(bytes, 6) == REVISION
        && u16_at(bytes, 14) == 0
}

// The fields that headers don't share, whatever else the bytes are.
fn fields_of(bytes: &[u8; 24]) -> Header
    ensures spelled { HasFields bytes.now result }
    ensures only { (header : Header) → IsValid header → HasFields bytes.now header
        → result ≡ record header { crc = header.crc % 2 ^ 32 } }
{
    Header {
        flags: u32_at(bytes, 8),
        key_size: u16_at(bytes, 12),
        value_size: u32_at(bytes, 16),
        crc: u32_at(bytes, 20),
    }
}

/// The header that the bytes spell. None comes exactly where one of the rules on the first 20 bytes
/// fails; nothing is said of the CRC.
pub fn read_header(bytes: &[u8; 24]) -> Option<Header>
    ensures found { IfSome result (λ header. IsValid header × (bytes.now ≡ header_bytes header)) }
    ensures some { (header : Header) → IsValid header → bytes.now ≡ header_bytes header
        → IsSome result }
    ensures only { (header : Header) → IsValid header → header.crc < 2 ^ 32
        → bytes.now ≡ header_bytes header → result ≡ Some header }
{
    if !has_form(bytes) {
        return None;
    }
    let header = fields_of(bytes);
    if header.is_valid() {
        Some(header)
    } else {
        None
    }
}
