// Looking for a key.
ghost use Rattle.std.specs.Prelude.{◌≡◌, ◌+◌, ◌<◌, ◌≤◌, ◌^◌, ℕ, length, IfOk};
ghost use Rattle.std.specs.Option.{ForSome};
ghost use Rattle.kv_model.specs.Crc.{key_hash};
ghost use Rattle.ram_table.specs.Reader.{HasRead};
ghost use Rattle.ram_table.specs.Table.{entry_at};
ghost use Rattle.ram_table.specs.Find.{AscendByHash, CanFind, IsFirstAbove, IsInside, IsPlaceOf, WhereFound, count_hash};

use crate::{KeyReader, Place, RamTable, Steps};
use kv_model::{Key, KvError};
use std::cmp::Ordering;
use std::marker::Brand;
use std::sync::ledger::{Blank, Ledger};

impl RamTable {
    // The first place whose entry has no smaller hash, by halving.
    fn first_of_hash<L: Ledger>(&self, hash: u32, steps: &mut Steps<L>) -> u32
        ensures inside { result ≤ length self.now.entries }
        ensures below { AscendByHash self.now.entries → (i : ℕ) → i < result
            → (entry_at self.now.entries i).hash < hash }
        ensures above { AscendByHash self.now.entries → (i : ℕ) → result ≤ i
            → i < length self.now.entries
            → hash ≤ (entry_at self.now.entries i).hash }
        ensures not_fewer { steps.old ≤ steps.new }
        ensures steps { (digits : ℕ) → length self.now.entries < 2 ^ digits
            → steps.new ≤ steps.old + digits }
    {
        let mut low = 0;
        let mut high = self.len();
        while low < high {
            let middle = low + (high - low) / 2;
            if self.look(middle, steps).0 < hash {
                low = middle + 1;
            } else {
                high = middle;
            }
        }
        low
    }

    // The place of the key, which is none of those below `first`, among the entries with its hash.
    fn place_from<R: KeyReader, L: Ledger>(
        &self,
        reader: &mut R,
        first: u32,
        hash: u32,
        key: &Key,
        steps: &mut Steps<L>,
    ) -> Result<Place, KvError>
        requires hash { hash ≡ key_hash (R.state reader.old).hash_bits key.now }
        requires can { CanFind (R.state reader.old) self.now.entries }
        requires inside { first ≤ length self.now.entries }
        requires below { AscendByHash self.now.entries → (i : ℕ) → i < first
            → (entry_at self.now.entries i).hash < hash }
        requires above { AscendByHash self.now.entries → (i : ℕ) → first ≤ i
            → i < length self.now.entries
            → hash ≤ (entry_at self.now.entries i).hash }
        ensures reads { HasRead (R.state reader.old) (R.state reader.new) result }
        ensures follows { R.may_follow reader.old reader.new }
        ensures inside { IfOk result (IsInside self.now.entries) }
        ensures place { ForSome (R.state reader.old).keys (λ keys. IfOk result (λ place.
            IsPlaceOf (R.state reader.old).hash_bits keys self.now.entries key.now place)) }
        ensures last { IfOk result (WhereFound self.now.entries
            (λ offset. R.read_last reader.new offset key.now)) }
        ensures not_fewer { steps.old ≤ steps.new }
        ensures steps { steps.new ≤ steps.old + count_hash hash self.now.entries + 1 }
    {
        let mut buffer = key.copied();
        for at in first..self.len() {
            let (entry_hash, offset) = self.look(at, steps);
            if entry_hash != hash {
                return Ok(Place { at, found: false });
            }
            reader.key_at(offset, &mut buffer)?;
            match buffer.cmp(key) {
                Ordering::Less => {}
                Ordering::Equal => return Ok(Place { at, found: true }),
                Ordering::Greater => return Ok(Place { at, found: false }),
            }
        }
        Ok(Place {
            at: self.len(),
            found: false,
        })
    }

    /// Looks for a key, whose hash is the low bits of its CRC that the reader's keys have: gives
    /// the key's place, and whether the key stands there. A key that was found was read last. It
    /// refuses exactly where the reader refused, with what that was.
    ///
    /// It looks at no more entries than the number of binary digits of the length and the number of
    /// entries with this hash, and one.
    pub fn find<R: KeyReader, L: Ledger>(
        &self,
        reader: &mut R,
        hash: u32,
        key: &Key,
        steps: &mut Steps<L>,
    ) -> Result<Place, KvError>
        requires hash { hash ≡ key_hash (R.state reader.old).hash_bits key.now }
        requires can { CanFind (R.state reader.old) self.now.entries }
        ensures reads { HasRead (R.state reader.old) (R.state reader.new) result }
        ensures follows { R.may_follow reader.old reader.new }
        ensures inside { IfOk result (IsInside self.now.entries) }
        ensures place { ForSome (R.state reader.old).keys (λ keys. IfOk result (λ place.
            IsPlaceOf (R.state reader.old).hash_bits keys self.now.entries key.now place)) }
        ensures last { IfOk result (WhereFound self.now.entries
            (λ offset. R.read_last reader.new offset key.now)) }
        ensures not_fewer { steps.old ≤ steps.new }
        ensures steps { (digits : ℕ) → length self.now.entries < 2 ^ digits
            → steps.new ≤ steps.old + digits + count_hash hash self.now.entries + 1 }
    {
        let first = self.first_of_hash(hash, steps);
        self.place_from(reader, first, hash, key, steps)
    }

    // As `place_after`, with a ledger for the counter that `find` is handed.
    fn first_after<R: KeyReader, L: Ledger>(
        &self,
        blank: Blank,
        reader: &mut R,
        hash: u32,
        key: &Key,
    ) -> Result<u32, KvError>
        requires name { blank.name ≡ L.name }
        requires parts { blank.parts ≡ L.parts }
        requires some { 0 < blank.parts }
        requires hash { hash ≡ key_hash (R.state reader.old).hash_bits key.now }
        requires can { CanFind (R.state reader.old) self.now.entries }
        ensures reads { HasRead (R.state reader.old) (R.state reader.new) result }
        ensures follows { R.may_follow reader.old reader.new }
        ensures inside { IfOk result (λ at. at ≤ length self.now.entries) }
        ensures first { ForSome (R.state reader.old).keys (λ keys. IfOk result
            (IsFirstAbove (R.state reader.old).hash_bits keys self.now.entries key.now)) }
    {
        let length = self.len();
        let mut steps = Steps::<L>::new(blank);
        let place = self.find(reader, hash, key, &mut steps)?;
        if place.found {
            prove!(place.at < length);
            return Ok(place.at + 1);
        }
        Ok(place.at)
    }

    /// Looks for the first place whose key stands above a key, whose hash is the low bits of its
    /// CRC that the reader's keys have. That place is the length where no key stands above. It
    /// refuses exactly where the reader refused, with what that was.
    pub fn place_after<R: KeyReader>(
        &self,
        reader: &mut R,
        hash: u32,
        key: &Key,
    ) -> Result<u32, KvError>
        requires hash { hash ≡ key_hash (R.state reader.old).hash_bits key.now }
        requires can { CanFind (R.state reader.old) self.now.entries }
        ensures reads { HasRead (R.state reader.old) (R.state reader.new) result }
        ensures follows { R.may_follow reader.old reader.new }
        ensures inside { IfOk result (λ at. at ≤ length self.now.entries) }
        ensures first { ForSome (R.state reader.old).keys (λ keys. IfOk result
            (IsFirstAbove (R.state reader.old).hash_bits keys self.now.entries key.now)) }
    {
        self.first_after::<R, Brand>(Blank::new(1), reader, hash, key)
    }
}
