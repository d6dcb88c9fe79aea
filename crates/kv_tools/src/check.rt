//! The health of an image's areas.
ghost use Rattle.std.specs.Prelude.{◌≡◌, ◌++◌, ◌≤◌, ◌*◌, List, ℕ, length, IfOk, OnOk, IsTrue};
ghost use Rattle.std.specs.Option.{ForSome};
ghost use Rattle.flash_core.specs.Calls.{OnlyReads};
ghost use Rattle.flash_core.specs.Sizes.{IsValid, area_size, size_of};
ghost use Rattle.record_core.specs.Mounts.{MasterAt};
ghost use Rattle.kv_tools.specs.Checking.{AreFacts, IsCheckOf, IsLineOf, facts_line, is_active, none_line, role_text, tail_text};
ghost use Rattle.kv_tools.specs.Reading.{CanRead};

use crate::reading::{WORK_SIZE, active_number, is_clean_from, master_at};
use crate::survey::survey_area;
use crate::text::{push_bytes, push_field};
use base_core::NoMemory;
use flash_core::{Flash, Geometry, RecordFlash};
use std::alloc::Global;
use tdb_mount::area_at;

/// What is told of a valid area.
#[derive(Clone, Copy)]
pub struct AreaFacts {
    pub number: u8,
    pub version: u16,
    pub is_active: bool,
    /// How many records it has behind its master record.
    pub records: u32,
    /// For how many keys they stand.
    pub live: u32,
    /// The place behind the last of them, counted from the area's start.
    pub end: u32,
    /// Whether each byte behind that is 0xFF.
    pub is_clean: bool,
}

fn role(is_active: bool) -> &'static [u8]
    ensures { result.now ≡ role_text is_active }
{
    if is_active { b" active" } else { b" standby" }
}

fn tail(is_clean: bool) -> &'static [u8]
    ensures { result.now ≡ tail_text is_clean }
{
    if is_clean {
        b" tail clean\n"
    } else {
        b" tail dirty\n"
    }
}

fn push_facts(alloc: Global, text: &mut Vec<u8>, facts: AreaFacts) -> Result<(), NoMemory>
    ensures { OnOk result (text.new.items ≡ text.old.items ++ facts_line facts) }
{
    push_field(alloc, text, b"area ", u32::from(facts.number))?;
    push_field(alloc, text, b" version ", u32::from(facts.version))?;
    push_bytes(text, role(facts.is_active))?;
    push_field(alloc, text, b" records ", facts.records)?;
    push_field(alloc, text, b" live ", facts.live)?;
    push_field(alloc, text, b" end ", facts.end)?;
    push_bytes(text, tail(facts.is_clean))
}

fn push_none(alloc: Global, text: &mut Vec<u8>, number: u8) -> Result<(), NoMemory>
    ensures { OnOk result (text.new.items ≡ text.old.items ++ none_line number) }
{
    push_field(alloc, text, b"area ", u32::from(number))?;
    push_bytes(text, b" none\n")
}

// Whether the area of this number is the active one.
fn is_number_of(active: Option<u8>, number: u8) -> bool
    ensures { result ≡ is_active active number }
{
    match active {
        Some(active) => active == number,
        None => false,
    }
}

// What is told of the area of this number and version.
fn facts_of<F: Flash>(
    alloc: Global,
    flash: &mut F,
    number: u8,
    version: u16,
    active: Option<u8>,
    work: &mut [u8],
) -> Result<AreaFacts, NoMemory>
    requires can { CanRead (F.state flash.old) work.old }
    requires number { number ≤ 1 }
    ensures reads { OnOk result (OnlyReads (F.state flash.old) (F.state flash.new)) }
    ensures number { IfOk result (λ facts. facts.number ≡ number) }
    ensures facts { ForSome (F.state flash.old).image (λ image. IfOk result
        (AreFacts (F.state flash.old).geometry image active version)) }
{
    let area = area_at(flash.geometry(), number);
    let found = survey_area(alloc, flash, &area, work)?;
    let is_clean = is_clean_from(flash, &area, found.end, work);
    Ok(AreaFacts {
        number,
        version,
        is_active: is_number_of(active, number),
        records: found.records,
        live: found.live,
        end: found.end - area.base,
        is_clean,
    })
}

// Appends the line of the area of this number, whose master record has this version.
fn push_area<F: Flash>(
    alloc: Global,
    text: &mut Vec<u8>,
    flash: &mut F,
    number: u8,
    version: Option<u16>,
    active: Option<u8>,
    work: &mut [u8],
) -> Result<(), NoMemory>
    requires can { CanRead (F.state flash.old) work.old }
    requires number { number ≤ 1 }
    ensures reads { OnOk result (OnlyReads (F.state flash.old) (F.state flash.new)) }
    ensures line { ForSome (F.state flash.old).image (λ image. OnOk result ((line : List ℕ)
        × IsLineOf (F.state flash.old).geometry image active number version line
        × (text.new.items ≡ text.old.items ++ line))) }
{
    match version {
        None => push_none(alloc, text, number),
        Some(version) => {
            let facts = facts_of(alloc, flash, number, version, active, work)?;
            push_facts(alloc, text, facts)
        }
    }
}

// The check of a device.
fn check<F: Flash>(alloc: Global, flash: &mut F, work: &mut [u8]) -> Result<Vec<u8>, NoMemory>
    requires can { CanRead (F.state flash.old) work.old }
    ensures { ForSome (F.state flash.old).image (λ image. IfOk result
        (λ text. IsCheckOf (F.state flash.old).geometry image text.items)) }
{
    let geometry = flash.geometry();
    let first = master_at(flash, 0, work);
    let second = master_at(flash, geometry.units_per_area * geometry.erase, work);
    let active = active_number(first, second);
    let mut text = Vec::new(alloc);
    push_area(alloc, &mut text, flash, 0, first, active, work)?;
    push_area(alloc, &mut text, flash, 1, second, active, work)?;
    Ok(text)
}

/// The text of an image's check, a line for each area: `area A version V ROLE records R live L end
/// E tail T` for a valid one, and `area A none` for another. ROLE is `active` or `standby`, R counts
/// the records behind the master record and L the keys that they stand for, E is where they end,
/// counted from the area's start, and T is `clean` where every byte from there to the area's end is
/// 0xFF, else `dirty`. It refuses for want of memory alone.
pub fn check_image(alloc: Global, geometry: Geometry, image: &[u8]) -> Result<Vec<u8>, NoMemory>
    requires valid { IsValid geometry }
    requires sized { length image.now ≡ size_of geometry }
    ensures { IfOk result (λ text. IsCheckOf geometry image.now text.items) }
{
    let mut flash = RecordFlash::new(alloc, geometry, image.to_vec(alloc)?)?;
    let mut work = vec![in alloc; 0; WORK_SIZE]?;
    check(alloc, &mut flash, &mut work)
}
