//! Records and master records read from a device, whatever bytes stand there.
ghost use Rattle.std.specs.Prelude.{◌≡◌, ◌↔◌, ◌+◌, ◌-◌, ◌<◌, ◌≤◌, ◌^◌, ◌++◌, ℕ, length, replicate, IsTrue, IfOk, IfSome, IsNone, MatchOption, Some};
ghost use Rattle.std.specs.Int.{is_power_of_two};
ghost use Rattle.std.specs.Option.{ForSome};
ghost use Rattle.flash_core.specs.Images.{part};
ghost use Rattle.flash_core.specs.Sizes.{IsValid, size_of};
ghost use Rattle.kv_model.specs.Crc.{crc_of};
ghost use Rattle.kv_model.specs.Keys.{is_key, master_key};
ghost use Rattle.base_core.specs.Units.{up};
ghost use Rattle.base_core.specs.Sizes.{record_size};
ghost use Rattle.record_core.specs.declared.header.Header.{Header};
ghost use Rattle.record_core.specs.Header.{IsHeader, header_bytes, header_front};
ghost use Rattle.record_core.specs.Mounts.{MasterAt};
ghost use Rattle.record_core.specs.Reading.{HasNoRecord, HasRead, IsFitting, IsPadded, IsWhole, RecordAt, crc_read};
ghost use Rattle.record_core.specs.Record.{header_of, master_value};
ghost use Rattle.record_core.specs.Written.{IsArea};

use crate::range::{crc_of_range, is_erased_range, read_part};
use crate::writer::{MASTER_KEY, Payload, header_for, value_of_master};
use crate::{HEADER_SIZE, Header, crc, crc_of_front, padded_size, read_header, size_of_record};
use flash_core::Flash;
use kv_model::{Key, KvError};

// The bytes of a master record's key and value.
const MASTER_PAYLOAD_SIZE: u32 = 12;

// Whether the bytes behind `size` bytes from `place` on are 0xFF up to whole program units.
fn is_padded_to_units<F: Flash>(
    flash: &mut F,
    prog: u32,
    place: u32,
    size: u32,
    work: &mut [u8],
) -> Result<bool, KvError>
    requires positive { 1 ≤ prog }
    requires unit { prog ≤ length work.old }
    requires inside { place + up prog size ≤ size_of (F.state flash.old).geometry }
    requires limit { size_of (F.state flash.old).geometry ≤ 16777216 }
    requires most { prog ≤ 4096 }
    ensures reads { HasRead (F.state flash.old) (F.state flash.new) result }
    ensures padded { ForSome (F.state flash.old).image (λ image. IfOk result (λ is_padded.
        IsTrue is_padded ↔ (part image (place + size) (up prog size - size)
        ≡ replicate (up prog size - size) 255))) }
{
    let padding = padded_size(prog, size) - size;
    is_erased_range(flash, place + size, padding, work)
}

// Whether both paddings of a record whose payload has `size` bytes are 0xFF.
fn is_padded<F: Flash>(
    flash: &mut F,
    place: u32,
    size: u32,
    work: &mut [u8],
) -> Result<bool, KvError>
    requires valid { IsValid (F.state flash.old).geometry }
    requires unit { (F.state flash.old).geometry.prog ≤ length work.old }
    requires inside { place + (up (F.state flash.old).geometry.prog 24 + up
        (F.state flash.old).geometry.prog size)
        ≤ size_of (F.state flash.old).geometry }
    ensures reads { HasRead (F.state flash.old) (F.state flash.new) result }
    ensures padded { ForSome (F.state flash.old).image (λ image. IfOk result (λ is_padded.
        IsTrue is_padded ↔ IsPadded (F.state flash.old).geometry.prog image place size)) }
{
    let prog = flash.geometry().prog;
    let payload = place + padded_size(prog, HEADER_SIZE);
    if !is_padded_to_units(flash, prog, place, HEADER_SIZE, work)? {
        return Ok(false);
    }
    is_padded_to_units(flash, prog, payload, size, work)
}

// The header that the bytes spell, where its record takes at most `room` bytes.
pub(crate) fn header_within(bytes: &[u8; 24], prog: u32, room: u32) -> Option<Header>
    requires prog_is_power { IsTrue (is_power_of_two prog) }
    requires prog_most { prog ≤ 4096 }
    ensures valid { IfSome result (λ header.
        IsHeader header.flags header.key_size header.value_size) }
    ensures spelled { IfSome result (λ header. bytes.now ≡ header_bytes header) }
    ensures within { IfSome result
        (λ header. record_size prog header.key_size header.value_size ≤ room) }
    ensures none { (header : Header) → IsHeader header.flags header.key_size header.value_size
        → bytes.now ≡ header_bytes header
        → IsNone result → room < record_size prog header.key_size header.value_size }
{
    let header = read_header(bytes)?;
    let size = size_of_record(prog, u32::from(header.key_size), header.value_size);
    if size <= room { Some(header) } else { None }
}

// The header at this place, where its record ends at or before this end.
fn read_head<F: Flash>(flash: &mut F, place: u32, end: u32) -> Result<Option<Header>, KvError>
    requires valid { IsValid (F.state flash.old).geometry }
    requires from { place ≤ end }
    requires to { end ≤ size_of (F.state flash.old).geometry }
    ensures reads { HasRead (F.state flash.old) (F.state flash.new) result }
    ensures valid { IfOk result (λ found.
        IfSome found (λ header. IsHeader header.flags header.key_size header.value_size)) }
    ensures inside { IfOk result (λ found. IfSome found (λ header.
        place + record_size (F.state flash.old).geometry.prog header.key_size header.value_size
        ≤ end)) }
    ensures found { ForSome (F.state flash.old).image (λ image. IfOk result (λ found.
        MatchOption found (HasNoRecord (F.state flash.old).geometry.prog image place end)
        (λ header. part image place 24 ≡ header_bytes header))) }
{
    if end - place < HEADER_SIZE {
        return Ok(None);
    }
    let prog = flash.geometry().prog;
    let mut bytes = [0; 24];
    read_part(flash, place, &mut bytes)?;
    Ok(header_within(&bytes, prog, end - place))
}

// The key of this size at this place, or None where the bytes there are no key.
fn read_key<F: Flash>(flash: &mut F, place: u32, size: u16) -> Result<Option<Key>, KvError>
    requires most { size ≤ 128 }
    requires inside { place + size ≤ size_of (F.state flash.old).geometry }
    ensures reads { HasRead (F.state flash.old) (F.state flash.new) result }
    ensures size { IfOk result (λ found. IfSome found (λ key. length key ≡ size)) }
    ensures found { ForSome (F.state flash.old).image (λ image. IfOk result (λ found.
        MatchOption found (IsTrue (is_key (part image place size)) → ⊥)
        (λ key. key ≡ part image place size))) }
    ensures key { IfOk result (λ found. IfSome found (λ key. IsTrue (is_key key))) }
{
    let mut buffer = [0; 128];
    let bytes = &mut buffer[..size as usize];
    read_part(flash, place, bytes)?;
    match Key::new(bytes) {
        Ok(key) => Ok(Some(key)),
        Err(_) => Ok(None),
    }
}

// The CRC of the record of this header and key, whose value stands at this place.
fn crc_of_record<F: Flash>(
    flash: &mut F,
    place: u32,
    header: &Header,
    key: &Key,
    work: &mut [u8],
) -> Result<u32, KvError>
    requires inside { place + header.now.value_size ≤ size_of (F.state flash.old).geometry }
    requires limit { size_of (F.state flash.old).geometry ≤ 16777216 }
    requires some { 1 ≤ length work.old }
    ensures reads { HasRead (F.state flash.old) (F.state flash.new) result }
    ensures sum { ForSome (F.state flash.old).image (λ image. IfOk result (λ sum.
        sum ≡ crc_of (header_front header.now.flags header.now.key_size header.now.value_size
        ++ key.now
        ++ part image place header.now.value_size))) }
{
    let before = crc(crc_of_front(header), key.as_slice());
    crc_of_range(flash, place, header.value_size, before, work)
}

// Whether the CRC and the padding of the record at this place are right, given its header and key.
fn is_whole<F: Flash>(
    flash: &mut F,
    place: u32,
    header: &Header,
    key: &Key,
    work: &mut [u8],
) -> Result<bool, KvError>
    requires valid { IsValid (F.state flash.old).geometry }
    requires unit { (F.state flash.old).geometry.prog ≤ length work.old }
    requires least { 64 ≤ length work.old }
    requires header { IsFitting (F.state flash.old).geometry.prog place
        (size_of (F.state flash.old).geometry) key.now header.now }
    ensures reads { HasRead (F.state flash.old) (F.state flash.new) result }
    ensures whole { ForSome (F.state flash.old).image (λ image. IfOk result (λ is_whole.
        IsTrue is_whole ↔ IsWhole (F.state flash.old).geometry.prog image place key.now
        header.now)) }
    ensures fits { ForSome (F.state flash.old).image (λ image. IfOk result (λ is_whole.
        crc_read (F.state flash.old).geometry.prog image place key.now header.now < 2 ^ 32)) }
{
    let payload = place + padded_size(flash.geometry().prog, HEADER_SIZE);
    let key_size = u32::from(header.key_size);
    let computed = crc_of_record(flash, payload + key_size, header, key, work)?;
    let is_right = computed == header.crc;
    if !is_right {
        return Ok(false);
    }
    is_padded(flash, place, key_size + header.value_size, work)
}

/// Reads the record that stands at `place` and ends at or before `end`: its header is answered, and
/// its key put into `key`. None comes exactly where no record does so, whatever bytes stand there,
/// and then `key` may have changed. `ReadFault` comes only where the device's count of read faults
/// rose. `place` is at most `end`, `end` at most the size of the device, and `work` has at least 64
/// bytes and at least a program unit. The value is read in pieces that `work` has room for.
pub fn read_record<F: Flash>(
    flash: &mut F,
    place: u32,
    end: u32,
    key: &mut Key,
    work: &mut [u8],
) -> Result<Option<Header>, KvError>
    requires valid { IsValid (F.state flash.old).geometry }
    requires unit { (F.state flash.old).geometry.prog ≤ length work.old }
    requires least { 64 ≤ length work.old }
    requires from { place ≤ end }
    requires to { end ≤ size_of (F.state flash.old).geometry }

    ensures reads { HasRead (F.state flash.old) (F.state flash.new) result }
    ensures found { ForSome (F.state flash.old).image (λ image. IfOk result (λ found.
        RecordAt (F.state flash.old).geometry.prog image place end key.new found)) }
    // also where the device tells nothing
    ensures fitting { IfOk result (λ found.
        IfSome found (IsFitting (F.state flash.old).geometry.prog place end key.new)) }
{
    let header = match read_head(flash, place, end)? {
        Some(header) => header,
        None => return Ok(None),
    };
    let payload = place + padded_size(flash.geometry().prog, HEADER_SIZE);
    let found = match read_key(flash, payload, header.key_size)? {
        Some(found) => found,
        None => return Ok(None),
    };
    if !is_whole(flash, place, &header, &found, work)? {
        return Ok(None);
    }
    *key = found;
    Ok(Some(header))
}

// The header of the master record of this version.
fn header_of_master(version: u16) -> [u8; 24]
    ensures { result ≡ header_bytes (header_of 0 master_key (master_value version)) }
{
    let payload = Payload {
        key: MASTER_KEY,
        value: &value_of_master(version),
    };
    header_for(0, &payload).to_bytes()
}

// The key and the value of the master record of this version.
fn payload_of_master(version: u16) -> [u8; 12]
    ensures { result ≡ master_key ++ master_value version }
{
    let mut payload = [0; 12];
    payload[..4].copy_from_slice(MASTER_KEY);
    payload[4..].copy_from_slice(&value_of_master(version));
    payload
}

// The version of the master record that has this header and payload. None comes exactly where none
// has.
fn version_of(header: &[u8; 24], payload: &[u8; 12]) -> Option<u16>
    ensures header { IfSome result
        (λ version. header.now ≡ header_bytes (header_of 0 master_key (master_value version))) }
    ensures payload { IfSome result (λ version. payload.now ≡ master_key ++ master_value version) }
    ensures only { (version : ℕ) → version < 2 ^ 16
        → header.now ≡ header_bytes (header_of 0 master_key (master_value version))
        → payload.now ≡ master_key ++ master_value version → result ≡ Some version }
{
    let version = u16::from_le_bytes([payload[4], payload[5]]);
    let is_payload = *payload == payload_of_master(version);
    let is_header = *header == header_of_master(version);
    if is_payload && is_header {
        Some(version)
    } else {
        None
    }
}

/// The version of the master record at `area`, the place of an area's first byte. None comes
/// exactly where no master record stands there. `ReadFault` comes only where the device's count of
/// read faults rose. `work` has at least 64 bytes and at least a program unit.
pub fn read_master<F: Flash>(
    flash: &mut F,
    area: u32,
    work: &mut [u8],
) -> Result<Option<u16>, KvError>
    requires valid { IsValid (F.state flash.old).geometry }
    requires area { IsArea (F.state flash.old).geometry area }
    requires unit { (F.state flash.old).geometry.prog ≤ length work.old }
    requires least { 64 ≤ length work.old }

    ensures reads { HasRead (F.state flash.old) (F.state flash.new) result }
    ensures found { ForSome (F.state flash.old).image
        (λ image. IfOk result (MasterAt (F.state flash.old).geometry.prog image area)) }
{
    let behind = area + padded_size(flash.geometry().prog, HEADER_SIZE);
    let mut header = [0; 24];
    read_part(flash, area, &mut header)?;
    let mut payload = [0; 12];
    read_part(flash, behind, &mut payload)?;
    let version = match version_of(&header, &payload) {
        Some(version) => version,
        None => return Ok(None),
    };
    if is_padded(flash, area, MASTER_PAYLOAD_SIZE, work)? {
        Ok(Some(version))
    } else {
        Ok(None)
    }
}
