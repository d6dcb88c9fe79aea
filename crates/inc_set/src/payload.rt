// What a set programs of its key and its value.
ghost use Rattle.std.specs.Prelude.{◌≡◌, ◌*◌, ◌+◌, ◌-◌, ◌%◌, ◌<◌, ◌≤◌, List, ℕ, ◌++◌, length, replicate, take, IfErr, OnOk};
ghost use Rattle.std.specs.Option.{ForSome};
ghost use Rattle.base_core.specs.Units.{up};
ghost use Rattle.flash_core.specs.Calls.{CanProgram, Writes};
ghost use Rattle.flash_core.specs.Runs.{ended};
ghost use Rattle.flash_core.specs.Sizes.{IsValid};
ghost use Rattle.record_core.specs.Header.{IsHeader};
ghost use Rattle.record_core.specs.Record.{padded};
ghost use Rattle.record_core.specs.Written.{CanWrite};
ghost use Rattle.inc_set.specs.Programs.{Programs};
ghost use Rattle.inc_set.specs.Sets.{Appends, header_units, IsAhead, IsPlaced, done_size, payload_place};
ghost use Rattle.inc_set.specs.Units.{IsHeld, completed_units, key_units, last_units, rest_of};

use crate::OpenSet;
use crate::units::{program_units, push};
use flash_core::{Flash, FlashFault};
use record_core::{HEADER_SIZE, padded_size, write_header};

const ERASED: u8 = 0xFF;

// Programs the whole units of the key, unless an earlier byte did.
fn program_key<F: Flash>(
    set: &OpenSet,
    flash: &mut F,
    place: u32,
    prog: u32,
) -> Result<(), FlashFault>
    requires placed { (rest : List ℕ) × IsPlaced (F.state flash.old).geometry rest set.now }
    requires ahead { ForSome (F.state flash.old).image
        (λ image. IsAhead (F.state flash.old).geometry image set.now) }
    requires unit { prog ≡ (F.state flash.old).geometry.prog }
    requires place { place ≡ payload_place (F.state flash.old).geometry.prog set.now }
    ensures programs { Programs (F.state flash.old) (F.state flash.new)
        (place + done_size (F.state flash.old).geometry.prog set.now)
        (key_units (F.state flash.old).geometry.prog set.now.key set.now.fed) (ended result) }
    ensures fault { IfErr result (λ fault. fault ≡ FlashFault.Write) }
{
    if set.fed > 0 {
        return Ok(());
    }
    let key = set.key.as_slice();
    let whole = key.len() - key.len() % prog as usize;
    program_units(flash, place, &key[..whole])?;
    Ok(())
}

// Programs each unit that the bytes complete, of which there is at least one, and before the first
// of the value those of the key.
pub(crate) fn push_bytes<F: Flash>(
    set: &OpenSet,
    flash: &mut F,
    bytes: &[u8],
    rest: &mut [u8],
) -> Result<(), FlashFault>
    requires placed { IsPlaced (F.state flash.old).geometry rest.old set.now }
    requires ahead { ForSome (F.state flash.old).image
        (λ image. IsAhead (F.state flash.old).geometry image set.now) }
    requires fits { set.now.fed + length bytes.now ≤ set.now.size }
    ensures programs { Programs (F.state flash.old) (F.state flash.new)
        (payload_place (F.state flash.old).geometry.prog set.now
        + done_size (F.state flash.old).geometry.prog set.now)
        (completed_units (F.state flash.old).geometry.prog set.now.key set.now.fed rest.old
        bytes.now) (ended result) }
    ensures fault { IfErr result (λ fault. fault ≡ FlashFault.Write) }
    ensures rest { OnOk result (IsHeld rest.new (rest_of (F.state flash.old).geometry.prog
        (take ((length set.now.key + set.now.fed) % length rest.old) rest.old ++ bytes.now))) }
    ensures len { length rest.new ≡ length rest.old }
{
    let prog = rest.len() as u32;
    let place = set.at + padded_size(prog, HEADER_SIZE);
    let size = set.key.as_slice().len() as u32 + set.fed;
    let held = size % prog;
    program_key(set, flash, place, prog)?;
    push(flash, place + (size - held), held as usize, bytes, rest)?;
    Ok(())
}

// Bytes 0xFF from this place of the buffer on.
fn pad(rest: &mut [u8], from: usize)
    requires { from ≤ length rest.old }
    ensures { rest.new ≡ take from rest.old ++ replicate (length rest.old - from) 255 }
{
    rest[from..].fill(ERASED);
}

// Programs the bytes that the buffer holds, padded to a unit; none program nothing.
fn program_rest<F: Flash>(
    flash: &mut F,
    place: u32,
    held: usize,
    rest: &mut [u8],
) -> Result<(), FlashFault>
    requires valid { IsValid (F.state flash.old).geometry }
    requires unit { length rest.old ≡ (F.state flash.old).geometry.prog }
    requires held { held < length rest.old }
    requires can { CanWrite (F.state flash.old) place
        (length (padded (F.state flash.old).geometry.prog (take held rest.old))) }
    ensures programs { Programs (F.state flash.old) (F.state flash.new) place
        (padded (F.state flash.old).geometry.prog (take held rest.old)) (ended result) }
    ensures fault { IfErr result (λ fault. fault ≡ FlashFault.Write) }
    ensures held { take held rest.new ≡ take held rest.old }
    ensures len { length rest.new ≡ length rest.old }
{
    if held == 0 {
        return Ok(());
    }
    pad(rest, held);
    flash.program(place, rest)?;
    Ok(())
}

// Programs what of the key and the value is not yet programmed, padded.
fn push_last<F: Flash>(set: &OpenSet, flash: &mut F, rest: &mut [u8]) -> Result<(), FlashFault>
    requires placed { IsPlaced (F.state flash.old).geometry rest.old set.now }
    requires ahead { ForSome (F.state flash.old).image
        (λ image. IsAhead (F.state flash.old).geometry image set.now) }
    requires whole { set.now.fed ≡ set.now.size }
    ensures programs { Programs (F.state flash.old) (F.state flash.new)
        (payload_place (F.state flash.old).geometry.prog set.now
        + done_size (F.state flash.old).geometry.prog set.now)
        (last_units (F.state flash.old).geometry.prog set.now.key set.now.fed rest.old)
        (ended result) }
    ensures fault { IfErr result (λ fault. fault ≡ FlashFault.Write) }
    ensures held { take ((length set.now.key + set.now.fed) % length rest.old) rest.new
        ≡ take ((length set.now.key + set.now.fed) % length rest.old) rest.old }
    ensures len { length rest.new ≡ length rest.old }
{
    let prog = rest.len() as u32;
    let place = set.at + padded_size(prog, HEADER_SIZE);
    let size = set.key.as_slice().len() as u32 + set.fed;
    let held = size % prog;
    program_key(set, flash, place, prog)?;
    program_rest(flash, place + (size - held), held as usize, rest)?;
    Ok(())
}

// The bytes, and behind them bytes 0xFF.
fn fill_padded(units: &mut [u8], bytes: &[u8])
    requires { length bytes.now ≤ length units.old }
    ensures { units.new ≡ bytes.now ++ replicate (length units.old - length bytes.now) 255 }
{
    let (front, pad) = units.split_at_mut(bytes.len());
    front.copy_from_slice(bytes);
    pad.fill(ERASED);
}

// Programs these bytes in one call, behind them bytes 0xFF up to whole program units.
fn program_padded<F: Flash>(
    flash: &mut F,
    place: u32,
    bytes: &[u8],
    work: &mut [u8],
) -> Result<(), FlashFault>
    requires valid { IsValid (F.state flash.old).geometry }
    requires short { length bytes.now ≤ 4096 }
    requires room { up (F.state flash.old).geometry.prog (length bytes.now) ≤ length work.old }
    requires can { CanProgram (F.state flash.old) place
        (up (F.state flash.old).geometry.prog (length bytes.now)) }
    ensures { Writes (F.state flash.old) (F.state flash.new) place
        (padded (F.state flash.old).geometry.prog bytes.now) result }
{
    let prog = flash.geometry().prog;
    let size = padded_size(prog, bytes.len() as u32) as usize;
    let units = &mut work[..size];
    fill_padded(units, bytes);
    flash.program(place, units)
}

// Programs the header in one call.
fn program_header<F: Flash>(set: &OpenSet, flash: &mut F) -> Result<(), FlashFault>
    requires valid { IsValid (F.state flash.old).geometry }
    requires header { IsHeader set.now.flags (length set.now.key) set.now.size }
    requires can { CanProgram (F.state flash.old) set.now.at
        (up (F.state flash.old).geometry.prog 24) }
    ensures { Writes (F.state flash.old) (F.state flash.new) set.now.at
        (header_units (F.state flash.old).geometry.prog set.now) result }
{
    let mut header = [0; 24];
    write_header(&mut header, &set.key, set.size, set.flags, set.crc);
    let mut work = [ERASED; 4096];
    program_padded(flash, set.at, &header, &mut work)
}

// Programs what is left of the payload, and then the header.
pub(crate) fn finish<F: Flash>(
    set: &OpenSet,
    flash: &mut F,
    rest: &mut [u8],
) -> Result<(), FlashFault>
    requires placed { IsPlaced (F.state flash.old).geometry rest.old set.now }
    requires ahead { ForSome (F.state flash.old).image
        (λ image. IsAhead (F.state flash.old).geometry image set.now) }
    requires whole { set.now.fed ≡ set.now.size }
    ensures appends { Appends (F.state flash.old) (F.state flash.new) rest.old set.now
        (ended result) }
    ensures fault { IfErr result (λ fault. fault ≡ FlashFault.Write) }
    ensures held { take ((length set.now.key + set.now.fed) % length rest.old) rest.new
        ≡ take ((length set.now.key + set.now.fed) % length rest.old) rest.old }
    ensures len { length rest.new ≡ length rest.old }
{
    push_last(set, flash, rest)?;
    program_header(set, flash)?;
    Ok(())
}
