//! The records of entries, copied one behind another.
ghost use Rattle.std.specs.Prelude.{◌≡◌, ◌⊎◌, ◌+◌, ◌-◌, ◌<◌, ◌≤◌, [], ◌∷◌, length, IfOk, IfErr};
ghost use Rattle.flash_core.specs.Images.{IsErased};
ghost use Rattle.flash_core.specs.Moments.{Within};
ghost use Rattle.flash_core.specs.Runs.{RunsBy};
ghost use Rattle.flash_core.specs.Sizes.{IsValid};
ghost use Rattle.std.specs.Option.{ForSome};
ghost use Rattle.record_core.specs.Endings.{kv_ended};
ghost use Rattle.area_log.specs.Areas.{end_of, IsEnd};
ghost use Rattle.ram_table.specs.Table.{KeepsRoom, entry_at};
ghost use Rattle.area_collect.specs.Copies.{AreIn, HasCopiedMore, IsNotCopied, IsRoute, segment};
ghost use Rattle.area_collect.specs.Payload.{IsFault};

use crate::copy::copy_record;
use area_log::Area;
use flash_core::Flash;
use kv_model::KvError;
use ram_table::RamTable;

/// The areas between which a copy goes.
#[derive(Clone, Copy)]
pub(crate) struct Route {
    pub(crate) from: Area,
    pub(crate) to: Area,
}

// Copies the record of one entry to `end`, the place behind the copies so far, and adds its entry.
fn copy_entry<F: Flash>(
    flash: &mut F,
    route: Route,
    table: &RamTable,
    at: u32,
    end: u32,
    spare: &mut RamTable,
    work: &mut [u8],
) -> Result<u32, KvError>
    requires valid { IsValid (F.state flash.old).geometry }
    requires route { IsRoute (F.state flash.old).geometry route }
    requires unit { (F.state flash.old).geometry.prog ≤ length work.old }
    requires least { 64 ≤ length work.old }
    requires entries { AreIn route.from table.now.entries }
    requires at { at < length table.now.entries }
    requires room { 1 ≤ spare.old.spare }
    requires end { IsEnd (F.state flash.old).geometry route.to end }
    requires erased { ForSome (F.state flash.old).image (λ image.
        IsErased image end (end_of route.to - end)) }
    ensures runs { RunsBy (F.state flash.old) (F.state flash.new)
        (Within end (end_of route.to - end)) (kv_ended result) }
    ensures cause { IfErr result (λ e. IsFault e ⊎ IsNotCopied (F.state flash.old)
        (record { route = route; entries = entry_at table.now.entries at ∷ [] }) end e) }
    ensures copied { IfOk result (λ behind. HasCopiedMore (F.state flash.old) (F.state flash.new)
        (record { route = route; entries = entry_at table.now.entries at ∷ [] })
        (record { end = end; entries = spare.old.entries })
        (record { end = behind; entries = spare.new.entries })) }
    ensures end { IfOk result (IsEnd (F.state flash.old).geometry route.to) }
    ensures erased { IfOk result (λ behind. ForSome (F.state flash.new).image (λ image.
        IsErased image behind (end_of route.to - behind))) }
    ensures one { IfOk result (λ _. length spare.new.entries ≡ length spare.old.entries + 1) }
    ensures room { length spare.new.entries + spare.new.spare
        ≡ length spare.old.entries + spare.old.spare }
{
    let (hash, place) = table.entry(at);
    let ahead = route.from.base + route.from.size - place;
    let room = ahead.min(route.to.base + route.to.size - end);
    let behind = copy_record(flash, place, end, room, work)?;
    spare.insert(spare.len(), hash, end);
    Ok(behind)
}

/// Copies the records of the entries from `first` to `last`, in this order, each directly behind
/// the one before, and adds their entries. They begin at `end`; the answer is the place behind them.
pub(crate) fn copy_entries<F: Flash>(
    flash: &mut F,
    route: Route,
    table: &RamTable,
    first: u32,
    last: u32,
    end: u32,
    spare: &mut RamTable,
    work: &mut [u8],
) -> Result<u32, KvError>
    requires valid { IsValid (F.state flash.old).geometry }
    requires route { IsRoute (F.state flash.old).geometry route }
    requires unit { (F.state flash.old).geometry.prog ≤ length work.old }
    requires least { 64 ≤ length work.old }
    requires entries { AreIn route.from table.now.entries }
    requires first { first ≤ last }
    requires last { last ≤ length table.now.entries }
    requires room { last - first ≤ spare.old.spare }
    requires end { IsEnd (F.state flash.old).geometry route.to end }
    requires erased { ForSome (F.state flash.old).image (λ image.
        IsErased image end (end_of route.to - end)) }
    ensures runs { RunsBy (F.state flash.old) (F.state flash.new)
        (Within end (end_of route.to - end)) (kv_ended result) }
    ensures cause { IfErr result (λ e. IsFault e ⊎ IsNotCopied (F.state flash.old)
        (record { route = route; entries = segment table.now.entries first last }) end e) }
    ensures copied { IfOk result (λ behind. HasCopiedMore (F.state flash.old) (F.state flash.new)
        (record { route = route; entries = segment table.now.entries first last })
        (record { end = end; entries = spare.old.entries })
        (record { end = behind; entries = spare.new.entries })) }
    ensures end { IfOk result (IsEnd (F.state flash.old).geometry route.to) }
    ensures erased { IfOk result (λ behind. ForSome (F.state flash.new).image (λ image.
        IsErased image behind (end_of route.to - behind))) }
    ensures count { IfOk result (λ _.
        length spare.new.entries ≡ length spare.old.entries + (last - first)) }
    ensures room { length spare.new.entries + spare.new.spare
        ≡ length spare.old.entries + spare.old.spare }
{
    let mut behind = end;
    for at in first..last {
        behind = copy_entry(flash, route, table, at, behind, spare, work)?;
    }
    Ok(behind)
}
