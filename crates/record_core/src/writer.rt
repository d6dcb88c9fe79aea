//! Records written to a device.
ghost use Rattle.std.specs.Prelude.{◌≡◌, ◌+◌, ◌-◌, ◌≤◌, ◌++◌, replicate, length, IfErr, OnOk, Some};
ghost use Rattle.std.specs.Option.{ForSome};
ghost use Rattle.flash_core.specs.Calls.{CanProgram, Writes};
ghost use Rattle.flash_core.specs.Images.{IsErased, part, put};
ghost use Rattle.flash_core.specs.Sizes.{IsValid};
ghost use Rattle.flash_core.specs.State.{OnImage};
ghost use Rattle.kv_model.specs.Keys.{master_key};
ghost use Rattle.kv_model.specs.declared.limits.TheConstants.{MAX_VALUE};
ghost use Rattle.base_core.specs.Units.{up};
ghost use Rattle.base_core.specs.Sizes.{master_size, record_size};
ghost use Rattle.kv_model.specs.declared.error.KvError.TheVariants.{WriteFault};
ghost use Rattle.record_core.specs.Header.{IsHeader};
ghost use Rattle.record_core.specs.Record.{header_of, master_bytes, master_value, padded, record_bytes, record_header, record_payload};
ghost use Rattle.record_core.specs.Endings.{kv_ended};
ghost use Rattle.record_core.specs.Log.{spelling_of};
ghost use Rattle.record_core.specs.Written.{AppendsRecord, Ascends, CanWrite, IsArea, master_of};
ghost use Rattle.flash_core.specs.Runs.{RunsBy, ended};

use crate::payload::fill_payload;
use crate::{HEADER_SIZE, Header, crc, crc_of_front, padded_size};
use byteorder::{ByteOrder, LittleEndian};
use flash_core::{Flash, FlashFault};
use kv_model::{Key, KvError};

const ERASED: u8 = 0xFF;

pub(crate) const MASTER_KEY: &[u8] = b"TDBS";

const MASTER_REVISION: u16 = 1;

// The bytes, and behind them bytes 0xFF.
fn fill_padded(units: &mut [u8], bytes: &[u8])
    requires { length bytes.now ≤ length units.old }
    ensures { units.new ≡ bytes.now ++ replicate (length units.old - length bytes.now) 255 }
{
    let (front, pad) = units.split_at_mut(bytes.len());
    front.copy_from_slice(bytes);
    pad.fill(ERASED);
}

// Programs these bytes in one call, behind them bytes 0xFF up to whole program units.
fn program_padded<F: Flash>(
    flash: &mut F,
    place: u32,
    bytes: &[u8],
    work: &mut [u8],
) -> Result<(), FlashFault>
    requires valid { IsValid (F.state flash.old).geometry }
    requires short { length bytes.now ≤ 65536 }
    requires room { up (F.state flash.old).geometry.prog (length bytes.now) ≤ length work.old }
    requires can { CanProgram (F.state flash.old) place
        (up (F.state flash.old).geometry.prog (length bytes.now)) }
    ensures { Writes (F.state flash.old) (F.state flash.new) place
        (padded (F.state flash.old).geometry.prog bytes.now) result }
{
    let prog = flash.geometry().prog;
    let size = padded_size(prog, bytes.len() as u32) as usize;
    let units = &mut work[..size];
    fill_padded(units, bytes);
    flash.program(place, units)
}

// What is written behind a header.
#[derive(Clone, Copy)]
pub(crate) struct Payload<'a> {
    pub(crate) key: &'a [u8],
    pub(crate) value: &'a [u8],
}

// Programs as many bytes of the payload as `work` has, from `from` on. Its first byte has this
// place.
fn program_piece<F: Flash>(
    flash: &mut F,
    place: u32,
    payload: &Payload,
    from: u32,
    work: &mut [u8],
) -> Result<(), FlashFault>
    requires valid { IsValid (F.state flash.old).geometry }
    requires limits { length payload.now.key.now + length payload.now.value.now ≤ 65720 }
    requires within { from + length work.old
        ≤ up (F.state flash.old).geometry.prog
        (length payload.now.key.now + length payload.now.value.now) }
    requires can { CanProgram (F.state flash.old) (place + from) (length work.old) }
    ensures { Writes (F.state flash.old) (F.state flash.new) (place + from)
        (part (record_payload (F.state flash.old).geometry.prog payload.now.key.now
        payload.now.value.now) from (length work.old)) result }
{
    fill_payload(work, from as usize, payload.key, payload.value);
    flash.program(place + from, work)
}

// Programs the payload from this place on, in ascending pieces.
fn program_payload<F: Flash>(
    flash: &mut F,
    place: u32,
    payload: &Payload,
    work: &mut [u8],
) -> Result<(), FlashFault>
    requires valid { IsValid (F.state flash.old).geometry }
    requires limits { length payload.now.key.now + length payload.now.value.now ≤ 65720 }
    requires unit { (F.state flash.old).geometry.prog ≤ length work.old }
    requires can { CanWrite (F.state flash.old) place
        (up (F.state flash.old).geometry.prog
        (length payload.now.key.now + length payload.now.value.now)) }
    ensures runs { RunsBy (F.state flash.old) (F.state flash.new)
        (Ascends (F.state flash.old).geometry.prog place
        (record_payload (F.state flash.old).geometry.prog payload.now.key.now
        payload.now.value.now))
        (ended result) }
    ensures fault { IfErr result (λ fault. fault ≡ FlashFault.Write) }
    ensures written { OnImage (F.state flash.old).image result (λ image. (F.state flash.new).image
        ≡ Some (put image place (record_payload (F.state flash.old).geometry.prog
        payload.now.key.now payload.now.value.now))) }
{
    let geometry = flash.geometry();
    let size = padded_size(
        geometry.prog,
        (payload.key.len() + payload.value.len()) as u32,
    );
    let most = work.len().min(geometry.erase as usize) as u32;
    let step = most / geometry.prog * geometry.prog;
    let mut done = 0;
    while done < size {
        let count = step.min(size - done);
        program_piece(flash, place, payload, done, &mut work[..count as usize])?;
        done += count;
    }
    Ok(())
}

// The header of a record of this payload.
pub(crate) fn header_for(flags: u32, payload: &Payload) -> Header
    requires key { length payload.now.key.now ≤ 128 }
    requires value { length payload.now.value.now ≤ MAX_VALUE }
    ensures { result ≡ header_of flags payload.now.key.now payload.now.value.now }
{
    let header = Header {
        flags,
        key_size: payload.key.len() as u16,
        value_size: payload.value.len() as u32,
        crc: 0,
    };
    let front = crc_of_front(&header);
    Header {
        crc: crc(crc(front, payload.key), payload.value),
        ..header
    }
}

// Programs a record from this place on, its payload first and its header last.
fn program_record<F: Flash>(
    flash: &mut F,
    place: u32,
    flags: u32,
    payload: &Payload,
    work: &mut [u8],
) -> Result<(), FlashFault>
    requires valid { IsValid (F.state flash.old).geometry }
    requires header { IsHeader flags (length payload.now.key.now) (length payload.now.value.now) }
    requires unit { (F.state flash.old).geometry.prog ≤ length work.old }
    requires least { 64 ≤ length work.old }
    requires can { CanWrite (F.state flash.old) place
        (record_size (F.state flash.old).geometry.prog (length payload.now.key.now)
        (length payload.now.value.now)) }
    ensures runs { RunsBy (F.state flash.old) (F.state flash.new)
        (AppendsRecord (F.state flash.old).geometry.prog place
        (record { flags = flags; key = payload.now.key.now; value = payload.now.value.now }))
        (ended result) }
    ensures fault { IfErr result (λ fault. fault ≡ FlashFault.Write) }
    ensures written { OnImage (F.state flash.old).image result (λ image. (F.state flash.new).image
        ≡ Some (put image place (spelling_of (F.state flash.old).geometry.prog
        (record { flags = flags; key = payload.now.key.now; value = payload.now.value.now })))) }
{
    let header = header_for(flags, payload).to_bytes();
    let behind = place + padded_size(flash.geometry().prog, HEADER_SIZE);
    program_payload(flash, behind, payload, work)?;
    program_padded(flash, place, &header, work)
}

/// Programs a record from `place` on: the key and the value in ascending place, and then the
/// header. `WriteFault` comes only where the device's count of write faults rose. `flags` is 0, 1
/// (write-once) or 2^31 (a remove, whose value is empty); a value has at most 65,592 bytes, and
/// `work` at least 64 and at least a program unit.
#[tactic(auto, unfolding(crate::specs::Record::record_bytes))]
pub fn write_record<F: Flash>(
    flash: &mut F,
    place: u32,
    key: &Key,
    value: &[u8],
    flags: u32,
    work: &mut [u8],
) -> Result<(), KvError>
    requires valid { IsValid (F.state flash.old).geometry }
    requires header { IsHeader flags (length key.now) (length value.now) }
    requires unit { (F.state flash.old).geometry.prog ≤ length work.old }
    requires least { 64 ≤ length work.old }
    requires can { CanWrite (F.state flash.old) place
        (record_size (F.state flash.old).geometry.prog (length key.now) (length value.now)) }

    ensures runs { RunsBy (F.state flash.old) (F.state flash.new)
        (AppendsRecord (F.state flash.old).geometry.prog place
        (record { flags = flags; key = key.now; value = value.now })) (kv_ended result) }
    ensures fault { IfErr result (λ e. e ≡ WriteFault) }
    ensures written { OnImage (F.state flash.old).image result (λ image. (F.state flash.new).image
        ≡ Some (put image place (spelling_of (F.state flash.old).geometry.prog
        (record { flags = flags; key = key.now; value = value.now })))) }
{
    let payload = Payload {
        key: key.as_slice(),
        value,
    };
    match program_record(flash, place, flags, &payload, work) {
        Ok(()) => Ok(()),
        Err(_) => Err(KvError::WriteFault),
    }
}

// The value of the master record of this version.
pub(crate) fn value_of_master(version: u16) -> [u8; 8]
    ensures { result ≡ master_value version }
{
    let mut value = [0u8; 8];
    LittleEndian::write_u16(&mut value, version);
    LittleEndian::write_u16(&mut value[2..], MASTER_REVISION);
    value
}

/// Programs the master record of this version from `area` on, the place of an area's first byte:
/// its payload, and then its header. `WriteFault` comes only where the device's count of write
/// faults rose. `work` has at least 64 bytes and at least a program unit.
#[tactic(auto, unfolding(crate::specs::Record::record_bytes))]
pub fn write_master<F: Flash>(
    flash: &mut F,
    area: u32,
    version: u16,
    work: &mut [u8],
) -> Result<(), KvError>
    requires valid { IsValid (F.state flash.old).geometry }
    requires area { IsArea (F.state flash.old).geometry area }
    requires unit { (F.state flash.old).geometry.prog ≤ length work.old }
    requires least { 64 ≤ length work.old }
    requires erased { ForSome (F.state flash.old).image (λ image.
        IsErased image area (master_size (F.state flash.old).geometry.prog)) }

    ensures runs { RunsBy (F.state flash.old) (F.state flash.new)
        (AppendsRecord (F.state flash.old).geometry.prog area (master_of version))
        (kv_ended result) }
    ensures fault { IfErr result (λ e. e ≡ WriteFault) }
    ensures written { OnImage (F.state flash.old).image result (λ image. (F.state flash.new).image
        ≡ Some (put image area (master_bytes (F.state flash.old).geometry.prog version))) }
{
    let payload = Payload {
        key: MASTER_KEY,
        value: &value_of_master(version),
    };
    match program_record(flash, area, 0, &payload, work) {
        Ok(()) => Ok(()),
        Err(_) => Err(KvError::WriteFault),
    }
}
