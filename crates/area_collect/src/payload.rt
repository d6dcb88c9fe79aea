//! The payload of a record, copied a piece at a time.
ghost use Rattle.std.specs.Prelude.{◌≡◌, ◌+◌, ◌-◌, ◌<◌, ◌≤◌, length, IfOk, IfErr, Some};
ghost use Rattle.base_core.specs.Units.{IsMultipleOf, up};
ghost use Rattle.flash_core.specs.Calls.{CanProgram};
ghost use Rattle.flash_core.specs.Images.{put};
ghost use Rattle.flash_core.specs.Moments.{Within};
ghost use Rattle.flash_core.specs.Runs.{RunsBy};
ghost use Rattle.flash_core.specs.Sizes.{IsValid, size_of};
ghost use Rattle.flash_core.specs.State.{OnImage};
ghost use Rattle.kv_model.specs.declared.error.KvError.TheVariants.{WriteFault};
ghost use Rattle.record_core.specs.Endings.{kv_ended};
ghost use Rattle.record_core.specs.Written.{CanWrite};
ghost use Rattle.area_collect.specs.Payload.{AreApart, HasCopiedBytes, IsFault};

use flash_core::Flash;
use kv_model::KvError;
use record_core::{crc_of_piece, padded_size};

const ERASED: u8 = 0xFF;

/// Programs these bytes. `WriteFault` comes only where the count of write faults rose.
pub(crate) fn program_units<F: Flash>(
    flash: &mut F,
    place: u32,
    bytes: &[u8],
) -> Result<(), KvError>
    requires { CanProgram (F.state flash.old) place (length bytes.now) }
    ensures runs { RunsBy (F.state flash.old) (F.state flash.new)
        (Within place (length bytes.now)) (kv_ended result) }
    ensures fault { IfErr result (λ e. e ≡ WriteFault) }
    ensures written { OnImage (F.state flash.old).image result (λ image.
        (F.state flash.new).image ≡ Some (put image place bytes.now)) }
{
    match flash.program(place, bytes) {
        Ok(()) => Ok(()),
        Err(_) => Err(KvError::WriteFault),
    }
}

// Copies `read` bytes through `units`, which has room for the padding behind them too, and gives
// their CRC, going on from `start`.
fn copy_piece<F: Flash>(
    flash: &mut F,
    source: u32,
    target: u32,
    read: u32,
    start: u32,
    units: &mut [u8],
) -> Result<u32, KvError>
    requires read { read ≤ length units.old }
    requires inside { source + read ≤ size_of (F.state flash.old).geometry }
    requires can { CanProgram (F.state flash.old) target (length units.old) }
    ensures runs { RunsBy (F.state flash.old) (F.state flash.new)
        (Within target (length units.old)) (kv_ended result) }
    ensures fault { IfErr result IsFault }
    ensures copied { IfOk result (HasCopiedBytes (F.state flash.old) (F.state flash.new)
        (record {
          source = source;
          target = target;
          size = read;
          padding = length units.old - read;
        }) start) }
{
    let (bytes, padding) = units.split_at_mut(read as usize);
    padding.fill(ERASED);
    let sum = crc_of_piece(flash, source, start, bytes)?;
    program_units(flash, target, units)?;
    Ok(sum)
}

/// Copies `size` bytes, with bytes 0xFF behind them up to whole program units, and gives their CRC,
/// going on from `start`. The pieces are programmed in ascending order.
pub(crate) fn copy_payload<F: Flash>(
    flash: &mut F,
    source: u32,
    target: u32,
    size: u32,
    start: u32,
    work: &mut [u8],
) -> Result<u32, KvError>
    requires valid { IsValid (F.state flash.old).geometry }
    requires unit { (F.state flash.old).geometry.prog ≤ length work.old }
    requires limit { size ≤ 65720 }
    requires inside { source + size ≤ size_of (F.state flash.old).geometry }
    requires apart { AreApart source target (up (F.state flash.old).geometry.prog size) }
    requires can { CanWrite (F.state flash.old) target (up (F.state flash.old).geometry.prog size) }
    ensures runs { RunsBy (F.state flash.old) (F.state flash.new)
        (Within target (up (F.state flash.old).geometry.prog size)) (kv_ended result) }
    ensures fault { IfErr result IsFault }
    ensures copied { IfOk result (HasCopiedBytes (F.state flash.old) (F.state flash.new)
        (record {
          source = source;
          target = target;
          size = size;
          padding = up (F.state flash.old).geometry.prog size - size;
        }) start) }
{
    let geometry = flash.geometry();
    let padded = padded_size(geometry.prog, size);
    let most = work.len().min(geometry.erase as usize) as u32;
    let step = most / geometry.prog * geometry.prog;
    let mut sum = start;
    let mut done = 0;
    while done < padded {
        let count = step.min(padded - done);
        let read = count.min(size - done);
        let units = &mut work[..count as usize];
        sum = copy_piece(flash, source + done, target + done, read, sum, units)?;
        done += count;
    }
    Ok(sum)
}
