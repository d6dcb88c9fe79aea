// Iterators over the keys of a log.
ghost use Rattle.std.specs.Prelude.{◌≡◌, ◌≤◌, ◌<◌, ℕ, length, take, IsTrue, IfOk, MatchResult};
ghost use Rattle.std.specs.Option.{ForSome, option_copied};
ghost use Rattle.std.specs.FinMap.{contains_key};
ghost use Rattle.flash_core.specs.Calls.{OnlyReads};
ghost use Rattle.flash_core.specs.Sizes.{IsValid};
ghost use Rattle.kv_model.specs.Given.{AreZerosFrom, done_or, found_end, found_or};
ghost use Rattle.kv_model.specs.Kv.{answered};
ghost use Rattle.kv_model.specs.Operations.{CloseIterator, Next, OpenIterator};
ghost use Rattle.area_log.specs.Areas.{IsAreaOf};
ghost use Rattle.ram_table.specs.Find.{IsIndexOf};
ghost use Rattle.ram_table.specs.Table.{entry_at};
ghost use Rattle.tdb_mount.specs.Keys.{keys_in};
ghost use Rattle.tdb_mount.specs.Room.{AreIn};
ghost use Rattle.tdb_read.specs.Reads.{GivesNext, IsBehind, IsFirstOrNone, IsReadRefusal};
ghost use Rattle.tdb_read.specs.States.{AnswersBy};
ghost use Rattle.tdb_read.specs.Views.{HasRead, OnlyRead, Ready, view_of};

use crate::MountedLog;
use area_log::Area;
use flash_core::Flash;
use kv_model::{Key, KvError};
use ram_table::RamTable;
use record_core::{hash_of, read_key_at};
use tdb_mount::DeviceKeys;

// The first place of a table whose key stands above the last key that was given.
fn place_behind<F: Flash>(
    flash: &mut F,
    area: Area,
    hash_bits: u8,
    table: &RamTable,
    last: Option<&Key>,
) -> Result<u32, KvError>
    requires valid { IsValid (F.state flash.old).geometry }
    requires area { IsAreaOf (F.state flash.old).geometry area }
    requires bits { hash_bits ≤ 32 }
    requires within { AreIn area table.now.entries }
    requires index { ForSome (F.state flash.old).image (λ image.
        IsIndexOf hash_bits (keys_in (F.state flash.old).geometry area image) table.now.entries) }
    ensures reads { OnlyReads (F.state flash.old) (F.state flash.new) }
    ensures inside { IfOk result (λ at. at ≤ length table.now.entries) }
    ensures behind { MatchResult result
        (λ at. ForSome (F.state flash.old).image (λ image. IsBehind hash_bits
        (keys_in (F.state flash.old).geometry area image) table.now.entries
        (option_copied last.entry) at))
        (IsReadRefusal (F.state flash.old) (F.state flash.new)) }
{
    let Some(last) = last else {
        return Ok(0);
    };
    let mut reader = DeviceKeys {
        flash,
        area,
        hash_bits,
        refusals: 0,
        last: None,
    };
    Ok(table.place_after(&mut reader, hash_of(last, hash_bits), last)?)
}

// The first key of a table from a place on that has the prefix.
fn first_with_prefix<F: Flash>(
    flash: &mut F,
    area: Area,
    table: &RamTable,
    from: u32,
    prefix: &[u8],
) -> Result<Option<Key>, KvError>
    requires valid { IsValid (F.state flash.old).geometry }
    requires area { IsAreaOf (F.state flash.old).geometry area }
    requires within { AreIn area table.now.entries }
    requires inside { from ≤ length table.now.entries }
    requires keys { ForSome (F.state flash.old).image (λ image. (i : ℕ)
        → i < length table.now.entries
        → IsTrue (contains_key (keys_in (F.state flash.old).geometry area image)
        (entry_at table.now.entries i).offset)) }
    ensures reads { OnlyReads (F.state flash.old) (F.state flash.new) }
    ensures first { MatchResult result
        (λ found. ForSome (F.state flash.old).image (λ image. IsFirstOrNone
        (keys_in (F.state flash.old).geometry area image) table.now.entries prefix.now from found))
        (IsReadRefusal (F.state flash.old) (F.state flash.new)) }
{
    let end = area.base + area.size;
    for at in from..table.len() {
        let key = read_key_at(flash, table.entry(at).1, end)?;
        if key.as_slice().starts_with(prefix) {
            return Ok(Some(key));
        }
    }
    Ok(None)
}

// Writes a key at the front of a buffer of zeros, and gives its length.
fn write_key(key: &Key, out: &mut [u8; 128]) -> u8
    requires zeros { AreZerosFrom 0 out.old }
    ensures key { take result out.new ≡ key.now }
    ensures zeros { AreZerosFrom result out.new }
{
    let bytes = key.as_slice();
    out[..bytes.len()].copy_from_slice(bytes);
    bytes.len() as u8
}

impl<F: Flash> MountedLog<F> {
    // The key that iterator `n` of `who` is to give next.
    fn next_key(&mut self, who: u8, n: u8) -> Result<Option<Key>, KvError>
        requires ready { Ready F.state self.old }
        ensures ready { Ready F.state self.new }
        ensures reads { OnlyRead F.state self.old self.new }
        ensures gives { GivesNext (view_of F.state self.old) (view_of F.state self.new)
            who n result }
    {
        let area = self.area();
        let iter = self.iterators.last(who, n)?;
        let flash = &mut self.flash;
        let from = place_behind(flash, area, self.hash_bits, &self.table, iter.last_key())?;
        first_with_prefix(flash, area, &self.table, from, iter.prefix())
    }

    /// Writes the next key of iterator `n` of `who` at the front of `out`, as `Kv::next` of a plain
    /// store. It walks over the table from the last key that was given.
    pub fn next(&mut self, who: u8, n: u8, out: &mut [u8; 128]) -> Result<Option<u8>, KvError>
        requires ready { Ready F.state self.old }
        ensures ready { Ready F.state self.new }
        ensures reads { HasRead (view_of F.state self.old) (view_of F.state self.new) }
        ensures answers { AnswersBy F.state self.old self.new
            (answered who (Next n) (found_or result out.new)) }
        ensures zeros { AreZerosFrom (found_end result) out.new }
    {
        out.fill(0);
        match self.next_key(who, n) {
            Ok(None) => Ok(None),
            Ok(Some(key)) => match self.iterators.advance(who, n, &key) {
                Ok(()) => Ok(Some(write_key(&key, out))),
                Err(error) => Err(error),
            },
            Err(error) => Err(error),
        }
    }

    /// Opens iterator `n` of `who` over the keys with a prefix, as `Kv::iter_open` of a plain
    /// store.
    pub fn iter_open(&mut self, who: u8, n: u8, prefix: &[u8]) -> Result<(), KvError>
        requires ready { Ready F.state self.old }
        ensures ready { Ready F.state self.new }
        ensures reads { HasRead (view_of F.state self.old) (view_of F.state self.new) }
        ensures answers { AnswersBy F.state self.old self.new
            (answered who (OpenIterator n prefix.now) (done_or result)) }
    {
        self.iterators.start(self.alloc, who, n, prefix)
    }

    /// Closes iterator `n` of `who`, as `Kv::iter_close` of a plain store.
    pub fn iter_close(&mut self, who: u8, n: u8) -> Result<(), KvError>
        requires ready { Ready F.state self.old }
        ensures ready { Ready F.state self.new }
        ensures reads { HasRead (view_of F.state self.old) (view_of F.state self.new) }
        ensures answers { AnswersBy F.state self.old self.new
            (answered who (CloseIterator n) (done_or result)) }
    {
        self.iterators.end(who, n)
    }
}
