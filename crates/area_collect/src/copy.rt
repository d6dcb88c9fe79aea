//! One record, copied from a place to another.
ghost use Rattle.std.specs.Prelude.{◌≡◌, ◌⊎◌, ◌+◌, ◌≤◌, length, IsTrue, IfOk, IfErr, Some};
ghost use Rattle.std.specs.Int.{is_power_of_two};
ghost use Rattle.base_core.specs.Units.{up};
ghost use Rattle.flash_core.specs.Calls.{CanProgram};
ghost use Rattle.flash_core.specs.Images.{put};
ghost use Rattle.flash_core.specs.Moments.{Within};
ghost use Rattle.flash_core.specs.Runs.{ReadsBy, RunsBy};
ghost use Rattle.flash_core.specs.Sizes.{IsValid as IsValidGeometry, size_of};
ghost use Rattle.flash_core.specs.State.{OnImage};
ghost use Rattle.kv_model.specs.declared.error.KvError.TheVariants.{WriteFault};
ghost use Rattle.record_core.specs.Endings.{kv_ended};
ghost use Rattle.record_core.specs.Header.{IsValid};
ghost use Rattle.record_core.specs.Lookup.{HeadBroken, IsHead, IsReadFault, IsSeen, broken_answer};
ghost use Rattle.record_core.specs.declared.header.Header.{Header};
ghost use Rattle.record_core.specs.Record.{padded};
ghost use Rattle.record_core.specs.Written.{CanWrite};
ghost use Rattle.area_log.specs.Checked.{ChecksWrong};
ghost use Rattle.area_collect.specs.Copies.{HasCopiedPayload, HasCopiedRecord, IsNotReadAt};
ghost use Rattle.area_collect.specs.Payload.{AreApart, IsFault};

use crate::payload::{copy_payload, program_units};
use flash_core::Flash;
use kv_model::KvError;
use record_core::{
    HEADER_SIZE, Header, broken_header, crc_of_front, padded_size, read_header, read_part,
    size_of_record,
};

const ERASED: u8 = 0xFF;

// A header that was read, and its bytes.
#[derive(Clone, Copy)]
struct Head {
    header: Header,
    bytes: [u8; 24],
}

// The header that the bytes spell, where its record takes at most `room` bytes.
fn head_within(bytes: &[u8; 24], prog: u32, room: u32) -> Result<Header, KvError>
    requires prog_is_power { IsTrue (is_power_of_two prog) }
    requires prog_most { prog ≤ 4096 }
    ensures found { IfOk result (IsHead prog room bytes.now) }
    ensures none { IfErr result (λ e. (header : Header) → IsHead prog room bytes.now header → ⊥) }
    ensures answer { IfErr result (λ e. e ≡ broken_answer bytes.now) }
{
    match read_header(bytes) {
        Some(header) => {
            let size = size_of_record(prog, u32::from(header.key_size), header.value_size);
            if size <= room {
                Ok(header)
            } else {
                Err(broken_header(bytes))
            }
        }
        None => Err(broken_header(bytes)),
    }
}

// The header at `place` of a record that takes at most `room` bytes, and its bytes.
fn read_head<F: Flash>(flash: &mut F, place: u32, room: u32) -> Result<Head, KvError>
    requires valid { IsValidGeometry (F.state flash.old).geometry }
    requires inside { place + 24 ≤ size_of (F.state flash.old).geometry }
    ensures reads { ReadsBy (F.state flash.old) (F.state flash.new) (kv_ended result) }
    ensures seen { IfOk result (λ head. IsSeen (F.state flash.old) place 24 head.bytes) }
    ensures head { IfOk result (λ head.
        IsHead (F.state flash.old).geometry.prog room head.bytes head.header) }
    ensures cause { IfErr result (λ e. IsReadFault (F.state flash.old) (F.state flash.new) e
        ⊎ HeadBroken (F.state flash.old) place room e) }
{
    let prog = flash.geometry().prog;
    let mut bytes = [0; 24];
    read_part(flash, place, &mut bytes)?;
    let header = head_within(&bytes, prog, room)?;
    Ok(Head { header, bytes })
}

// Programs a header in whole program units.
fn program_header<F: Flash>(
    flash: &mut F,
    place: u32,
    bytes: &[u8; 24],
    work: &mut [u8],
) -> Result<(), KvError>
    requires valid { IsValidGeometry (F.state flash.old).geometry }
    requires room { up (F.state flash.old).geometry.prog 24 ≤ length work.old }
    requires can { CanProgram (F.state flash.old) place (up (F.state flash.old).geometry.prog 24) }
    ensures runs { RunsBy (F.state flash.old) (F.state flash.new)
        (Within place (up (F.state flash.old).geometry.prog 24)) (kv_ended result) }
    ensures fault { IfErr result (λ e. e ≡ WriteFault) }
    ensures written { OnImage (F.state flash.old).image result (λ image.
        (F.state flash.new).image
        ≡ Some (put image place (padded (F.state flash.old).geometry.prog bytes.now))) }
{
    let size = padded_size(flash.geometry().prog, HEADER_SIZE) as usize;
    let units = &mut work[..size];
    let (front, padding) = units.split_at_mut(24);
    front.copy_from_slice(bytes);
    padding.fill(ERASED);
    program_units(flash, place, units)
}

// Copies the payload of the record of this header, and checks the record's CRC over what was
// copied.
fn copy_checked<F: Flash>(
    flash: &mut F,
    source: u32,
    target: u32,
    header: &Header,
    work: &mut [u8],
) -> Result<(), KvError>
    requires valid { IsValidGeometry (F.state flash.old).geometry }
    requires unit { (F.state flash.old).geometry.prog ≤ length work.old }
    requires header { IsValid header.now }
    requires inside { source + (header.now.key_size + header.now.value_size)
        ≤ size_of (F.state flash.old).geometry }
    requires apart { AreApart source target (up (F.state flash.old).geometry.prog
        (header.now.key_size + header.now.value_size)) }
    requires can { CanWrite (F.state flash.old) target (up (F.state flash.old).geometry.prog
        (header.now.key_size + header.now.value_size)) }
    ensures runs { RunsBy (F.state flash.old) (F.state flash.new)
        (Within target (up (F.state flash.old).geometry.prog
        (header.now.key_size + header.now.value_size))) (kv_ended result) }
    ensures cause { IfErr result (λ e.
        IsFault e ⊎ ChecksWrong (F.state flash.old) source header.now e) }
    ensures copied { IfOk result (λ _. HasCopiedPayload (F.state flash.old) (F.state flash.new)
        source target header.now) }
{
    let size = u32::from(header.key_size) + header.value_size;
    let front = crc_of_front(header);
    let computed = copy_payload(flash, source, target, size, front, work)?;
    if computed != header.crc {
        return Err(KvError::Corrupt {
            stored: header.crc,
            computed,
        });
    }
    Ok(())
}

/// Copies the record at `place`, which takes at most `room` bytes, to `target`, its payload first
/// and its header when the CRC was found right. The answer is the place behind the copy.
pub(crate) fn copy_record<F: Flash>(
    flash: &mut F,
    place: u32,
    target: u32,
    room: u32,
    work: &mut [u8],
) -> Result<u32, KvError>
    requires valid { IsValidGeometry (F.state flash.old).geometry }
    requires unit { (F.state flash.old).geometry.prog ≤ length work.old }
    requires least { 64 ≤ length work.old }
    requires header { place + 24 ≤ size_of (F.state flash.old).geometry }
    requires inside { place + room ≤ size_of (F.state flash.old).geometry }
    requires apart { AreApart place target room }
    requires can { CanWrite (F.state flash.old) target room }
    ensures runs { RunsBy (F.state flash.old) (F.state flash.new)
        (Within target room) (kv_ended result) }
    ensures cause { IfErr result (λ e.
        IsFault e ⊎ IsNotReadAt (F.state flash.old) place room e) }
    ensures copied { IfOk result (HasCopiedRecord (F.state flash.old) (F.state flash.new)
        place target room) }
{
    let prog = flash.geometry().prog;
    let head = read_head(flash, place, room)?;
    let header = head.header;
    let ahead = padded_size(prog, HEADER_SIZE);
    copy_checked(flash, place + ahead, target + ahead, &header, work)?;
    program_header(flash, target, &head.bytes, work)?;
    Ok(target + size_of_record(prog, u32::from(header.key_size), header.value_size))
}
