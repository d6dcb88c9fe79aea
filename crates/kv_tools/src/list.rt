//! The keys of an image, and the script that makes its map.
ghost use Rattle.std.specs.Prelude.{◌≡◌, ◌+◌, ◌++◌, ◌≤◌, length, IfOk, OnOk, IsTrue, All, Ok};
ghost use Rattle.std.specs.List.{flat_map};
ghost use Rattle.std.specs.Option.{ForSome};
ghost use Rattle.base_core.specs.Sizes.{record_size};
ghost use Rattle.base_core.specs.Units.{up};
ghost use Rattle.flash_core.specs.Calls.{OnlyReads};
ghost use Rattle.flash_core.specs.Images.{part};
ghost use Rattle.flash_core.specs.Sizes.{IsValid, size_of};
ghost use Rattle.area_log.specs.Areas.{IsAreaOf, IsRange, end_of};
ghost use Rattle.script_core.specs.Grammar.{IsLine};
ghost use Rattle.tdb_mount.specs.Mounted.{IsSafe, MountsAs};
ghost use Rattle.tdb_read.specs.Records.{record_at};
ghost use Rattle.kv_tools.specs.Listing.{HasLines, IsDumpOf, IsSpelled, flags_end, key_line, key_text, set_line, set_of};
ghost use Rattle.kv_tools.specs.Placing.{AreHeld, HoldsLive, IsHeadOf, Tells, records_at};
ghost use Rattle.kv_tools.specs.Reading.{CanRead};

use crate::reading::{WORK_SIZE, any_key, header_at};
use crate::text::{push_bytes, push_field};
use area_log::Area;
use base_core::NoMemory;
use flash_core::{Flash, Geometry, RecordFlash};
use kv_model::{Bytes, Call, Flags, Key};
use record_core::{HEADER_SIZE, Header, padded_size, read_part};
use script_core::{Act, Line, print_line};
use std::alloc::Global;
use tdb_mount::{MountError, Parts, area_at, mount_parts};

// The header of the record at this place of an area, and its key.
fn head_at<F: Flash>(
    flash: &mut F,
    area: &Area,
    place: u32,
    key: &mut Key,
    work: &mut [u8],
) -> Header
    requires can { CanRead (F.state flash.old) work.old }
    requires area { IsAreaOf (F.state flash.old).geometry area.now }
    requires inside { IsRange area.now place 24 }
    requires there { Tells (F.state flash.old)
        (λ image. HoldsLive (F.state flash.old).geometry image area.now place) }
    ensures reads { OnlyReads (F.state flash.old) (F.state flash.new) }
    ensures head { ForSome (F.state flash.old).image (λ image.
        IsHeadOf (record_at (F.state flash.old).geometry.prog image place) key.new result) }
    ensures key_size { length key.new ≡ result.key_size }
    ensures fits { place + record_size (F.state flash.old).geometry.prog
        result.key_size result.value_size ≤ end_of area.now }
{
    match header_at(flash, place, area.base + area.size, key, work) {
        Some(header) => header,
        None => unreachable!(),
    }
}

fn letter(flags: u32) -> &'static [u8]
    ensures { result.now ≡ flags_end flags }
{
    if flags % 2 == 1 { b" w\n" } else { b" -\n" }
}

// Appends a key, the size of its value and its flags.
fn push_key(
    alloc: Global,
    text: &mut Vec<u8>,
    key: &Key,
    size: u32,
    flags: u32,
) -> Result<(), NoMemory>
    ensures { OnOk result (text.new.items ≡ text.old.items ++ key_text key.now size flags) }
{
    push_bytes(text, key.as_slice())?;
    push_field(alloc, text, b" ", size)?;
    push_bytes(text, letter(flags))
}

// Appends the line of the record at this place of an area.
fn list_at<F: Flash>(
    alloc: Global,
    text: &mut Vec<u8>,
    flash: &mut F,
    area: &Area,
    place: u32,
    work: &mut [u8],
) -> Result<(), NoMemory>
    requires can { CanRead (F.state flash.old) work.old }
    requires area { IsAreaOf (F.state flash.old).geometry area.now }
    requires inside { IsRange area.now place 24 }
    requires there { Tells (F.state flash.old)
        (λ image. HoldsLive (F.state flash.old).geometry image area.now place) }
    ensures reads { OnlyReads (F.state flash.old) (F.state flash.new) }
    ensures line { ForSome (F.state flash.old).image (λ image. OnOk result (text.new.items
        ≡ text.old.items ++ key_line (record_at (F.state flash.old).geometry.prog image place))) }
{
    let mut key = any_key();
    let header = head_at(flash, area, place, &mut key, work);
    push_key(alloc, text, &key, header.value_size, header.flags)
}

// The lines of the records at the places that a mount found.
fn list_parts<F: Flash>(
    alloc: Global,
    flash: &mut F,
    parts: &Parts,
    work: &mut [u8],
) -> Result<Vec<u8>, NoMemory>
    requires can { CanRead (F.state flash.old) work.old }
    requires safe { IsSafe (F.state flash.old).geometry parts.now }
    requires there { Tells (F.state flash.old)
        (λ image. AreHeld (F.state flash.old).geometry image parts.now) }
    ensures { ForSome (F.state flash.old).image (λ image. IfOk result (λ text. text.items
        ≡ flat_map key_line (records_at (F.state flash.old).geometry.prog image
        parts.now.table.entries))) }
{
    let area = area_at(flash.geometry(), parts.active);
    let mut text = Vec::new(alloc);
    for at in 0..parts.table.len() {
        let (_, place) = parts.table.entry(at);
        list_at(alloc, &mut text, flash, &area, place, work)?;
    }
    Ok(text)
}

// A set of client 1.
fn set_line_of(key: Bytes, value: Bytes, bits: u32) -> Line
    ensures { result ≡ set_of (record { flags = bits; key = key; value = value }) }
{
    Line {
        who: 1,
        act: Act::Do {
            call: Call::Set {
                key,
                value,
                flags: Flags { bits },
            },
        },
    }
}

// The value of the record at this place of an area, whose header this is.
fn value_at<F: Flash>(
    alloc: Global,
    flash: &mut F,
    place: u32,
    header: Header,
) -> Result<Bytes, NoMemory>
    requires valid { IsValid (F.state flash.old).geometry }
    requires steady { IsTrue (F.state flash.old).steady }
    requires inside { place + record_size (F.state flash.old).geometry.prog
        header.key_size header.value_size ≤ size_of (F.state flash.old).geometry }
    ensures reads { OnlyReads (F.state flash.old) (F.state flash.new) }
    ensures value { ForSome (F.state flash.old).image (λ image. IfOk result (λ value. value
        ≡ part image (place + (up (F.state flash.old).geometry.prog 24 + header.key_size))
        header.value_size)) }
{
    let front = padded_size(flash.geometry().prog, HEADER_SIZE) + u32::from(header.key_size);
    let mut value = vec![in alloc; 0; header.value_size as usize]?;
    match read_part(flash, place + front, &mut value) {
        Ok(()) => Ok(Bytes::from_vec(value)),
        Err(_) => unreachable!(),
    }
}

// The record at this place as the line of a script that sets its key.
fn set_at<F: Flash>(
    alloc: Global,
    flash: &mut F,
    area: &Area,
    place: u32,
    work: &mut [u8],
) -> Result<Line, NoMemory>
    requires can { CanRead (F.state flash.old) work.old }
    requires area { IsAreaOf (F.state flash.old).geometry area.now }
    requires inside { IsRange area.now place 24 }
    requires there { Tells (F.state flash.old)
        (λ image. HoldsLive (F.state flash.old).geometry image area.now place) }
    ensures reads { OnlyReads (F.state flash.old) (F.state flash.new) }
    ensures valid { IfOk result IsLine }
    ensures line { ForSome (F.state flash.old).image (λ image. IfOk result (λ line. line
        ≡ set_of (record_at (F.state flash.old).geometry.prog image place))) }
{
    let mut key = any_key();
    let header = head_at(flash, area, place, &mut key, work);
    let value = value_at(alloc, flash, place, header)?;
    let key = Bytes::new(alloc, key.as_slice())?;
    Ok(set_line_of(key, value, header.flags))
}

// Appends that line in its canonical spelling.
fn dump_at<F: Flash>(
    alloc: Global,
    text: &mut Vec<u8>,
    flash: &mut F,
    area: &Area,
    place: u32,
    work: &mut [u8],
) -> Result<(), NoMemory>
    requires can { CanRead (F.state flash.old) work.old }
    requires area { IsAreaOf (F.state flash.old).geometry area.now }
    requires inside { IsRange area.now place 24 }
    requires there { Tells (F.state flash.old)
        (λ image. HoldsLive (F.state flash.old).geometry image area.now place) }
    ensures reads { OnlyReads (F.state flash.old) (F.state flash.new) }
    ensures line { ForSome (F.state flash.old).image (λ image. OnOk result (text.new.items
        ≡ text.old.items ++ set_line (record_at (F.state flash.old).geometry.prog image place))) }
    ensures spells { ForSome (F.state flash.old).image (λ image. OnOk result
        (IsSpelled (record_at (F.state flash.old).geometry.prog image place))) }
{
    let line = set_at(alloc, flash, area, place, work)?;
    let spelled = print_line(alloc, &line)?;
    push_bytes(text, spelled.as_slice())?;
    push_bytes(text, b"\n")
}

// The sets of the records at the places that a mount found.
fn dump_parts<F: Flash>(
    alloc: Global,
    flash: &mut F,
    parts: &Parts,
    work: &mut [u8],
) -> Result<Vec<u8>, NoMemory>
    requires can { CanRead (F.state flash.old) work.old }
    requires safe { IsSafe (F.state flash.old).geometry parts.now }
    requires there { Tells (F.state flash.old)
        (λ image. AreHeld (F.state flash.old).geometry image parts.now) }
    ensures text { ForSome (F.state flash.old).image (λ image. IfOk result (λ text. text.items
        ≡ flat_map set_line (records_at (F.state flash.old).geometry.prog image
        parts.now.table.entries))) }
    ensures spells { ForSome (F.state flash.old).image (λ image. OnOk result
        (All IsSpelled
        (records_at (F.state flash.old).geometry.prog image parts.now.table.entries))) }
{
    let area = area_at(flash.geometry(), parts.active);
    let mut text = Vec::new(alloc);
    for at in 0..parts.table.len() {
        let (_, place) = parts.table.entry(at);
        dump_at(alloc, &mut text, flash, &area, place, work)?;
    }
    Ok(text)
}

// Mounts a device of which no call fails.
fn mount<F: Flash>(alloc: Global, flash: &mut F, hash_bits: u8) -> Result<Parts, NoMemory>
    requires valid { IsValid (F.state flash.old).geometry }
    requires sound { IsTrue (F.state flash.old).sound }
    requires bits { hash_bits ≤ 32 }
    ensures geometry { (F.state flash.new).geometry ≡ (F.state flash.old).geometry }
    ensures sound { IsTrue (F.state flash.new).sound }
    ensures safe { IfOk result (IsSafe (F.state flash.old).geometry) }
    ensures mounted { ForSome (F.state flash.old).image (λ image. IfOk result (λ parts.
        Tells (F.state flash.new) (λ left.
        MountsAs (F.state flash.old).geometry hash_bits image left parts))) }
{
    match mount_parts(alloc, flash, hash_bits) {
        Ok(parts) => Ok(parts),
        Err(MountError::Memory) => Err(NoMemory),
        Err(_) => unreachable!(),
    }
}

/// The keys of an image, a line `KEY SIZE FLAGS` for each, in the order of their hashes of
/// `hash_bits` bits, at most 32, and then of their bytes. SIZE is that of the value in bytes, and
/// FLAGS is `w` for a write-once key, else `-`. An image without a valid area has no keys. It
/// refuses for want of memory alone.
pub fn list_image(
    alloc: Global,
    geometry: Geometry,
    image: &[u8],
    hash_bits: u8,
) -> Result<Vec<u8>, NoMemory>
    requires valid { IsValid geometry }
    requires sized { length image.now ≡ size_of geometry }
    requires bits { hash_bits ≤ 32 }
    ensures { IfOk result (λ text. HasLines key_line geometry hash_bits image.now text.items) }
{
    let mut flash = RecordFlash::new(alloc, geometry, image.to_vec(alloc)?)?;
    let mut work = vec![in alloc; 0; WORK_SIZE]?;
    let parts = mount(alloc, &mut flash, hash_bits)?;
    list_parts(alloc, &mut flash, &parts, &mut work)
}

/// The script that makes the map of an image: a line `1 set KEY HEX FLAGS` for each key, in the
/// order of `list_image` and in the canonical spelling. Up to 8,192 lines it is a script in each
/// mode. It refuses for want of memory alone.
pub fn dump_image(
    alloc: Global,
    geometry: Geometry,
    image: &[u8],
    hash_bits: u8,
) -> Result<Vec<u8>, NoMemory>
    requires valid { IsValid geometry }
    requires sized { length image.now ≡ size_of geometry }
    requires bits { hash_bits ≤ 32 }
    ensures { IfOk result (λ text. IsDumpOf geometry hash_bits image.now text.items) }
{
    let mut flash = RecordFlash::new(alloc, geometry, image.to_vec(alloc)?)?;
    let mut work = vec![in alloc; 0; WORK_SIZE]?;
    let parts = mount(alloc, &mut flash, hash_bits)?;
    dump_parts(alloc, &mut flash, &parts, &mut work)
}
