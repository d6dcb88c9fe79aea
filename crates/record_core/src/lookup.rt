//! Look-ups at a place of a device: the header of the record there, and its key, whatever bytes
//! stand there.
ghost use Rattle.std.specs.Prelude.{◌≡◌, ◌⊎◌, ◌+◌, ◌-◌, ◌≤◌, ℕ, List, length, IsTrue, IfOk, IfErr, MatchOption, MatchResult};
ghost use Rattle.std.specs.Int.{is_power_of_two};
ghost use Rattle.flash_core.specs.Calls.{OnlyReads};
ghost use Rattle.flash_core.specs.Runs.{IsCounted};
ghost use Rattle.flash_core.specs.Sizes.{IsValid, size_of};
ghost use Rattle.kv_model.specs.Keys.{is_key};
ghost use Rattle.record_core.specs.declared.header.Header.{Header};
ghost use Rattle.record_core.specs.Endings.{kv_ended};
ghost use Rattle.record_core.specs.Lookup.{HeadBroken, IsHead, IsReadFault, IsSeen, ReadsHeader, ReadsKey, ReadsKeyed, broken_answer};
ghost use Rattle.record_core.specs.Reading.{HasRead};

use crate::range::read_part;
use crate::reader::header_within;
use crate::{HEADER_SIZE, Header, padded_size};
use flash_core::Flash;
use kv_model::{Key, KvError};

/// What is answered of a header that breaks a rule, or whose record would end too far: `Corrupt`
/// with the CRC in the header and the complement of that.
pub fn broken_header(bytes: &[u8; 24]) -> KvError
    ensures { result ≡ broken_answer bytes.now }
{
    let stored = u32::from_le_bytes([bytes[20], bytes[21], bytes[22], bytes[23]]);
    KvError::Corrupt {
        stored,
        computed: !stored,
    }
}

// The header that the bytes spell, where its record takes at most `room` bytes.
fn head_within(bytes: &[u8; 24], prog: u32, room: u32) -> Result<Header, KvError>
    requires prog_is_power { IsTrue (is_power_of_two prog) }
    requires prog_most { prog ≤ 4096 }
    ensures found { IfOk result (IsHead prog room bytes.now) }
    ensures none { IfErr result (λ e. (header : Header) → IsHead prog room bytes.now header → ⊥) }
    ensures answer { IfErr result (λ e. e ≡ broken_answer bytes.now) }
{
    match header_within(bytes, prog, room) {
        Some(header) => Ok(header),
        None => Err(broken_header(bytes)),
    }
}

// A header that was read, and its bytes.
#[derive(Clone, Copy)]
struct Head {
    header: Header,
    bytes: [u8; 24],
}

// The header at `place`, of a record that ends at or before `end`, and its bytes.
fn read_head_at<F: Flash>(flash: &mut F, place: u32, end: u32) -> Result<Head, KvError>
    requires valid { IsValid (F.state flash.old).geometry }
    requires header { place + 24 ≤ end }
    requires inside { end ≤ size_of (F.state flash.old).geometry }
    ensures reads { OnlyReads (F.state flash.old) (F.state flash.new) }
    ensures counts { IsCounted (F.state flash.old) (F.state flash.new) (kv_ended result) }
    ensures seen { IfOk result (λ head. IsSeen (F.state flash.old) place 24 head.bytes) }
    ensures head { IfOk result (λ head.
        IsHead (F.state flash.old).geometry.prog (end - place) head.bytes head.header) }
    ensures cause { IfErr result (λ e. IsReadFault (F.state flash.old) (F.state flash.new) e
        ⊎ HeadBroken (F.state flash.old) place (end - place) e) }
{
    let prog = flash.geometry().prog;
    let mut bytes = [0; 24];
    read_part(flash, place, &mut bytes)?;
    let header = head_within(&bytes, prog, end - place)?;
    Ok(Head { header, bytes })
}

/// The header at `place`, of a record that ends at or before `end`, whatever stands behind it.
/// `Corrupt` comes exactly where the bytes there break a rule of headers or the record would end
/// behind `end`, with the CRC that stands there and its complement; `ReadFault` comes only where
/// the device's count of read faults rose. The header itself lies before `end`, and `end` in the
/// image.
pub fn read_header_at<F: Flash>(flash: &mut F, place: u32, end: u32) -> Result<Header, KvError>
    requires valid { IsValid (F.state flash.old).geometry }
    requires header { place + 24 ≤ end }
    requires inside { end ≤ size_of (F.state flash.old).geometry }
    ensures reads { OnlyReads (F.state flash.old) (F.state flash.new) }
    ensures counts { IsCounted (F.state flash.old) (F.state flash.new) (kv_ended result) }
    ensures answer { ReadsHeader (F.state flash.old) (F.state flash.new) place (end - place)
        result }
{
    let head = read_head_at(flash, place, end)?;
    Ok(head.header)
}

// The key of this size at this place, or None where the bytes there are no key.
fn read_name<F: Flash>(flash: &mut F, place: u32, size: u16) -> Result<Option<Key>, KvError>
    requires most { size ≤ 128 }
    requires inside { place + size ≤ size_of (F.state flash.old).geometry }
    ensures reads { HasRead (F.state flash.old) (F.state flash.new) result }
    ensures found { IfOk result (λ found. (bytes : List ℕ)
        × IsSeen (F.state flash.old) place size bytes
        × MatchOption found (IsTrue (is_key bytes) → ⊥)
        (λ key. (key ≡ bytes) × IsTrue (is_key bytes))) }
{
    let mut buffer = [0; 128];
    let bytes = &mut buffer[..size as usize];
    read_part(flash, place, bytes)?;
    match Key::new(bytes) {
        Ok(key) => Ok(Some(key)),
        Err(_) => Ok(None),
    }
}

/// The header of a record, and the key behind it.
#[derive(Drop)]
pub struct KeyedHeader {
    pub header: Header,
    pub key: Key,
}

/// The header of the record at `place` that ends at or before `end`, and its key. `Corrupt` comes
/// as from `read_header_at`, and where what stands behind the header is no key; `ReadFault` comes
/// only where the device's count of read faults rose. The CRC is not looked at.
pub fn read_keyed_header_at<F: Flash>(
    flash: &mut F,
    place: u32,
    end: u32,
) -> Result<KeyedHeader, KvError>
    requires valid { IsValid (F.state flash.old).geometry }
    requires header { place + 24 ≤ end }
    requires inside { end ≤ size_of (F.state flash.old).geometry }
    ensures reads { OnlyReads (F.state flash.old) (F.state flash.new) }
    ensures counts { IsCounted (F.state flash.old) (F.state flash.new) (kv_ended result) }
    ensures answer { ReadsKeyed (F.state flash.old) (F.state flash.new) place (end - place) result }
{
    let head = read_head_at(flash, place, end)?;
    let behind = place + padded_size(flash.geometry().prog, HEADER_SIZE);
    match read_name(flash, behind, head.header.key_size)? {
        Some(key) => Ok(KeyedHeader {
            header: head.header,
            key,
        }),
        None => Err(broken_header(&head.bytes)),
    }
}

/// The key of the record at `place` that ends at or before `end`, as `read_keyed_header_at` gives
/// it.
pub fn read_key_at<F: Flash>(flash: &mut F, place: u32, end: u32) -> Result<Key, KvError>
    requires valid { IsValid (F.state flash.old).geometry }
    requires header { place + 24 ≤ end }
    requires inside { end ≤ size_of (F.state flash.old).geometry }
    ensures reads { OnlyReads (F.state flash.old) (F.state flash.new) }
    ensures counts { IsCounted (F.state flash.old) (F.state flash.new) (kv_ended result) }
    ensures answer { ReadsKey (F.state flash.old) (F.state flash.new) place (end - place) result }
{
    let keyed = read_keyed_header_at(flash, place, end)?;
    Ok(keyed.key)
}
