// The entries of a store in memory: keys with their flags and values, in the order of the keys'
// bytes.
ghost use Rattle.std.specs.Prelude.{◌≡◌, ◌≤◌, ◌<◌, ◌+◌, ◌^◌, MatchOption, None, Some, OnOk, length, vec_capacity};
ghost use Rattle.std.specs.Option.{option_copied};
ghost use Rattle.std.specs.List as list;
ghost use Rattle.std.specs.Ordering.{nat_cmp};
ghost use Rattle.std.specs.Cmp.Lexicographic.{slice_cmp};
ghost use Rattle.std.specs.FinMap.{empty, get, insert, remove};
ghost use Rattle.kv_model.specs.NextKey.{next_key};
ghost use Rattle.kv_model.specs.Sizes.{used};
ghost use Rattle.kv_memory.specs.Cursors.{position_of};
ghost use Rattle.kv_memory.specs.Places.{place_of};
ghost use Rattle.kv_memory.specs.EntryOf.{key_of, stored_of};

use crate::{Cursor, bytes_used, least_of};
use kv_model::{Bytes, Flags, Key, NoMemory};
use std::alloc::Global;
use std::cmp::Ordering;
use std::marker::Model;

/// A key with its flags and its value.
#[derive(Debug, Drop)]
pub struct Item {
    pub key: Key,
    pub flags: Flags,
    pub value: Bytes,
}

/// Items with keys that rise, seen as a finite map.
#[derive(Debug, Drop)]
pub struct Entries {
    items: Vec<Item>,
}

impl Model for Entries {
    ghost use Rattle.std.specs.Prelude.{◌-◌, length, vec_capacity};
    ghost use Rattle.kv_memory.specs.EntriesState.{EntriesState, entries_code};

    ghost Value = { EntriesState };

    ghost coded = { entries_code };

    ghost use Rattle.kv_memory.specs.EntryOf.{map_of, Rise};

    ghost view = { λ e. record {
      map = map_of e.items.items;
      spare = vec_capacity e.items - length e.items.items;
    } };

    ghost invariant = { λ e. Rise e.items.items };
}

// The place of the first item whose key is not below the one that is sought, as `Ok` where it is
// that key.
fn place_in(items: &[Item], key: &Key) -> Result<usize, usize>
    ensures { result ≡ place_of (slice_cmp nat_cmp) key_of key.now items.now }
{
    for (at, item) in items.iter().enumerate() {
        match key.cmp(&item.key) {
            Ordering::Less => return Err(at),
            Ordering::Equal => return Ok(at),
            Ordering::Greater => {}
        }
    }
    Err(items.len())
}

// Puts an item at a place, where there is room for it.
fn insert_at(items: &mut Vec<Item>, at: usize, item: Item)
    requires place { at ≤ length items.old.items }
    requires room { length items.old.items < vec_capacity items.old }
    ensures { items.new.items ≡ list.insert items.old.items at item }
{
    let _ = items.insert(at, item);
}

impl Entries {
    /// No entries. It takes no memory.
    pub fn new(alloc: Global) -> Entries
        ensures { result.map ≡ empty }
    {
        Entries {
            items: Vec::new(alloc),
        }
    }

    /// Makes room for one key more. The map stays in any case.
    pub fn reserve_one(&mut self) -> Result<(), NoMemory>
        ensures map { self.new.map ≡ self.old.map }
        ensures spare { OnOk result (1 ≤ self.new.spare) }
        ensures kept { self.old.spare ≤ self.new.spare }
    {
        self.items.reserve(1)?;
        Ok(())
    }

    /// The item of a key.
    pub fn get(&self, key: &Key) -> Option<&Item>
        ensures { MatchOption result (get self.now.map key.now ≡ None)
            (λ item. (item.now.key ≡ key.now)
            × (get self.now.map key.now ≡ Some (stored_of item.now))) }
    {
        match place_in(&self.items, key) {
            Ok(at) => Some(&self.items[at]),
            Err(_) => None,
        }
    }

    /// What the records of the keys take, in bytes.
    pub fn used(&self, prog: u32) -> u32
        requires positive { 0 < prog }
        requires unit { prog ≤ 4096 }
        requires fits { used prog self.now.map < 2 ^ 31 }
        ensures { result ≡ used prog self.now.map }
    {
        bytes_used(prog, &self.items)
    }

    /// The next key that an iterator gives.
    pub fn next_key(&self, hash_bits: u8, cursor: &Cursor) -> Option<&Key>
        requires { hash_bits ≤ 32 }
        ensures { option_copied result
            ≡ next_key hash_bits self.now.map (position_of cursor.now) }
    {
        least_of(hash_bits, cursor, &self.items)
    }

    /// Gives a key new flags and a new value, also one that it lacks. It takes no memory.
    pub fn set(&mut self, key: Key, flags: Flags, value: Bytes)
        requires { 1 ≤ self.old.spare }
        ensures { self.new.map ≡ insert self.old.map key
            (record { flags = flags.bits; bytes = value }) }
    {
        match place_in(&self.items, &key) {
            Ok(at) => {
                self.items[at] = Item { key, flags, value };
            }
            Err(at) => insert_at(&mut self.items, at, Item { key, flags, value }),
        }
    }

    /// Takes a key away. It takes no memory.
    pub fn remove(&mut self, key: &Key)
        ensures map { self.new.map ≡ remove self.old.map key.now }
        ensures spare { self.old.spare ≤ self.new.spare }
    {
        match place_in(&self.items, key) {
            Ok(at) => {
                self.items.remove(at);
            }
            Err(_) => {}
        }
    }

    /// Takes all keys away.
    pub fn clear(&mut self)
        ensures map { self.new.map ≡ empty }
        ensures spare { self.old.spare ≤ self.new.spare }
    {
        self.items.clear();
    }
}
