// Bytes on their way to a device, in whole program units.
ghost use Rattle.std.specs.Prelude.{◌≡◌, ◌+◌, ◌<◌, ◌≤◌, ◌++◌, length, take, IfErr, OnOk};
ghost use Rattle.base_core.specs.Units.{IsMultipleOf};
ghost use Rattle.flash_core.specs.Runs.{ended};
ghost use Rattle.flash_core.specs.Sizes.{IsValid};
ghost use Rattle.record_core.specs.Written.{CanWrite};
ghost use Rattle.inc_set.specs.Programs.{Programs};
ghost use Rattle.inc_set.specs.Units.{IsHeld, rest_of, whole_units};

use flash_core::{Flash, FlashFault};

// Programs whole units from this place on, at most an erase unit at once.
pub(crate) fn program_units<F: Flash>(
    flash: &mut F,
    place: u32,
    units: &[u8],
) -> Result<(), FlashFault>
    requires valid { IsValid (F.state flash.old).geometry }
    requires limit { length units.now ≤ 70000 }
    requires whole { IsMultipleOf (F.state flash.old).geometry.prog (length units.now) }
    requires can { CanWrite (F.state flash.old) place (length units.now) }
    ensures programs { Programs (F.state flash.old) (F.state flash.new) place units.now
        (ended result) }
    ensures fault { IfErr result (λ fault. fault ≡ FlashFault.Write) }
{
    let erase = flash.geometry().erase;
    let size = units.len() as u32;
    let mut done = 0;
    while done < size {
        let count = erase.min(size - done);
        let piece = &units[done as usize..(done + count) as usize];
        flash.program(place + done, piece)?;
        done += count;
    }
    Ok(())
}

// The bytes from this place of the buffer on.
pub(crate) fn copy_at(units: &mut [u8], at: usize, bytes: &[u8])
    requires { at + length bytes.now ≤ length units.old }
    ensures front { take (at + length bytes.now) units.new ≡ take at units.old ++ bytes.now }
    ensures len { length units.new ≡ length units.old }
{
    units[at..at + bytes.len()].copy_from_slice(bytes);
}

// Programs the whole units of the bytes, and keeps what remains in `rest`.
fn push_whole<F: Flash>(
    flash: &mut F,
    place: u32,
    bytes: &[u8],
    rest: &mut [u8],
) -> Result<(), FlashFault>
    requires valid { IsValid (F.state flash.old).geometry }
    requires limit { length bytes.now ≤ 70000 }
    requires unit { length rest.old ≡ (F.state flash.old).geometry.prog }
    requires can { CanWrite (F.state flash.old) place
        (length (whole_units (F.state flash.old).geometry.prog bytes.now)) }
    ensures programs { Programs (F.state flash.old) (F.state flash.new) place
        (whole_units (F.state flash.old).geometry.prog bytes.now) (ended result) }
    ensures fault { IfErr result (λ fault. fault ≡ FlashFault.Write) }
    ensures rest { OnOk result (IsHeld rest.new
        (rest_of (F.state flash.old).geometry.prog bytes.now)) }
    ensures len { length rest.new ≡ length rest.old }
{
    let left = bytes.len() % rest.len();
    let (units, remaining) = bytes.split_at(bytes.len() - left);
    program_units(flash, place, units)?;
    copy_at(rest, 0, remaining);
    Ok(())
}

// Programs each unit that the bytes complete behind those that `rest` holds, and keeps what remains
// in `rest`.
pub(crate) fn push<F: Flash>(
    flash: &mut F,
    place: u32,
    held: usize,
    bytes: &[u8],
    rest: &mut [u8],
) -> Result<(), FlashFault>
    requires valid { IsValid (F.state flash.old).geometry }
    requires limit { length bytes.now ≤ 66000 }
    requires unit { length rest.old ≡ (F.state flash.old).geometry.prog }
    requires held { held < length rest.old }
    requires can { CanWrite (F.state flash.old) place (length (whole_units
        (F.state flash.old).geometry.prog (take held rest.old ++ bytes.now))) }
    ensures programs { Programs (F.state flash.old) (F.state flash.new) place
        (whole_units (F.state flash.old).geometry.prog (take held rest.old ++ bytes.now))
        (ended result) }
    ensures fault { IfErr result (λ fault. fault ≡ FlashFault.Write) }
    ensures rest { OnOk result (IsHeld rest.new
        (rest_of (F.state flash.old).geometry.prog (take held rest.old ++ bytes.now))) }
    ensures len { length rest.new ≡ length rest.old }
{
    if held == 0 {
        push_whole(flash, place, bytes, rest)?;
        return Ok(());
    }
    let missing = rest.len() - held;
    if bytes.len() < missing {
        copy_at(rest, held, bytes);
        return Ok(());
    }
    let (first, others) = bytes.split_at(missing);
    copy_at(rest, held, first);
    flash.program(place, rest)?;
    push_whole(flash, place + rest.len() as u32, others, rest)?;
    Ok(())
}
