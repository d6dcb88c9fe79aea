//! Ranges of a device, read a piece at a time.
ghost use Rattle.std.specs.Prelude.{◌≡◌, ◌↔◌, ◌+◌, ◌≤◌, length, slice_index, EachIndex, IsTrue, IfOk, OnOk};
ghost use Rattle.std.specs.Option.{ForSome};
ghost use Rattle.flash_core.specs.Images.{IsErased, part};
ghost use Rattle.flash_core.specs.Sizes.{size_of};
ghost use Rattle.kv_model.specs.Crc.{crc_from};
ghost use Rattle.record_core.specs.Lookup.{IsCrcOf};
ghost use Rattle.record_core.specs.Reading.{HasRead};

use crate::crc;
use flash_core::Flash;
use kv_model::KvError;

const ERASED: u8 = 0xFF;

/// Reads the bytes from `place` on into the whole of `buf`. `ReadFault` comes only where the
/// device's count of read faults rose.
pub fn read_part<F: Flash>(flash: &mut F, place: u32, buf: &mut [u8]) -> Result<(), KvError>
    requires { place + length buf.old ≤ size_of (F.state flash.old).geometry }
    ensures reads { HasRead (F.state flash.old) (F.state flash.new) result }
    ensures bytes { ForSome (F.state flash.old).image
        (λ image. OnOk result (buf.new ≡ part image place (length buf.old))) }
{
    match flash.read(place, buf) {
        Ok(()) => Ok(()),
        Err(_) => Err(KvError::ReadFault),
    }
}

/// Reads the bytes from `place` on into the whole of `piece`, and gives their CRC, going on from
/// `start`. `ReadFault` comes only where the device's count of read faults rose.
pub fn crc_of_piece<F: Flash>(
    flash: &mut F,
    place: u32,
    start: u32,
    piece: &mut [u8],
) -> Result<u32, KvError>
    requires { place + length piece.old ≤ size_of (F.state flash.old).geometry }
    ensures reads { HasRead (F.state flash.old) (F.state flash.new) result }
    ensures bytes { ForSome (F.state flash.old).image
        (λ image. OnOk result (piece.new ≡ part image place (length piece.old))) }
    ensures sum { IfOk result (λ sum. sum ≡ crc_from start piece.new) }
{
    read_part(flash, place, piece)?;
    Ok(crc(start, piece))
}

/// The CRC of `size` bytes from `place` on, going on from `start`, read in pieces that `work` has
/// room for, each once. `ReadFault` comes only where the device's count of read faults rose.
pub fn crc_of_range<F: Flash>(
    flash: &mut F,
    place: u32,
    size: u32,
    start: u32,
    work: &mut [u8],
) -> Result<u32, KvError>
    requires inside { place + size ≤ size_of (F.state flash.old).geometry }
    requires limit { size_of (F.state flash.old).geometry ≤ 16777216 }
    requires some { 1 ≤ length work.old }
    ensures reads { HasRead (F.state flash.old) (F.state flash.new) result }
    ensures sum { IfOk result (IsCrcOf (F.state flash.old) place size start) }
{
    let most = work.len().min(size as usize) as u32;
    let mut sum = start;
    let mut done = 0;
    while done < size {
        let count = most.min(size - done);
        sum = crc_of_piece(flash, place + done, sum, &mut work[..count as usize])?;
        done += count;
    }
    Ok(sum)
}

fn are_erased(bytes: &[u8]) -> bool
    ensures { IsTrue result ↔ EachIndex bytes.now (λ k. slice_index bytes.now k ≡ 255) }
{
    bytes.iter().all(|byte| *byte == ERASED)
}

// Whether as many bytes as `piece` has are 0xFF from `place` on.
fn is_erased_piece<F: Flash>(flash: &mut F, place: u32, piece: &mut [u8]) -> Result<bool, KvError>
    requires { place + length piece.old ≤ size_of (F.state flash.old).geometry }
    ensures reads { HasRead (F.state flash.old) (F.state flash.new) result }
    ensures erased { ForSome (F.state flash.old).image (λ image. IfOk result (λ is_erased.
        IsTrue is_erased ↔ IsErased image place (length piece.old))) }
{
    read_part(flash, place, piece)?;
    Ok(are_erased(piece))
}

/// Whether each of the `size` bytes from `place` on is 0xFF, read in pieces that `work` has room
/// for, up to the first piece that has another byte. `ReadFault` comes only where the device's
/// count of read faults rose.
pub fn is_erased_range<F: Flash>(
    flash: &mut F,
    place: u32,
    size: u32,
    work: &mut [u8],
) -> Result<bool, KvError>
    requires inside { place + size ≤ size_of (F.state flash.old).geometry }
    requires limit { size_of (F.state flash.old).geometry ≤ 16777216 }
    requires some { 1 ≤ length work.old }
    ensures reads { HasRead (F.state flash.old) (F.state flash.new) result }
    ensures erased { ForSome (F.state flash.old).image (λ image. IfOk result (λ is_erased.
        IsTrue is_erased ↔ IsErased image place size)) }
{
    let most = work.len().min(size as usize) as u32;
    let mut done = 0;
    while done < size {
        let count = most.min(size - done);
        if !is_erased_piece(flash, place + done, &mut work[..count as usize])? {
            return Ok(false);
        }
        done += count;
    }
    Ok(true)
}
