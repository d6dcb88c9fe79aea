// The iterators of a store in memory, by their owners and numbers.
ghost use Rattle.std.specs.Prelude.{◌≡◌, ◌≤◌, ◌<◌, MatchOption, None, Some, OnOk, OnErr, length, vec_capacity};
ghost use Rattle.std.specs.List as list;
ghost use Rattle.std.specs.Option.{option_map_or};
ghost use Rattle.std.specs.FinMap.{empty, get, insert, len, remove};
ghost use Rattle.kv_model.specs.StoreState.{iterator_cmp};
ghost use Rattle.kv_memory.specs.Places.{place_of};
ghost use Rattle.kv_memory.specs.Cursors.{behind, position_of};
ghost use Rattle.kv_memory.specs.SlotOf.{Rise, map_of, name_of, standing};

use crate::Cursor;
use kv_model::{Key, NoMemory};
use std::alloc::Global;
use std::cmp::Ordering;
use std::marker::Model;

/// An iterator with its owner and its number.
#[derive(Debug, Drop)]
pub struct Slot {
    pub who: u8,
    pub n: u8,
    pub cursor: Cursor,
}

/// Iterators whose names rise, seen as a finite map.
#[derive(Debug, Drop)]
pub struct Iterators {
    slots: Vec<Slot>,
}

impl Model for Iterators {
    ghost use Rattle.kv_model.specs.StoreState.{Iterators as IteratorMap};
    ghost use Rattle.kv_memory.specs.IteratorCode.{iterators_code};

    ghost Value = { IteratorMap };

    ghost coded = { iterators_code };

    ghost use Rattle.kv_memory.specs.SlotOf.{map_of, Rise};

    ghost view = { λ i. map_of i.slots.items };

    ghost invariant = { λ i. Rise i.slots.items };
}

// The place of the first slot whose name is not below the one that is sought, as `Ok` where it is
// that name.
fn place_in(slots: &[Slot], who: u8, n: u8) -> Result<usize, usize>
    ensures { result ≡ place_of iterator_cmp name_of (who, n) slots.now }
{
    for (at, slot) in slots.iter().enumerate() {
        match (who, n).cmp(&(slot.who, slot.n)) {
            Ordering::Less => return Err(at),
            Ordering::Equal => return Ok(at),
            Ordering::Greater => {}
        }
    }
    Err(slots.len())
}

// Puts a slot at a place, where there is room for it.
fn insert_at(slots: &mut Vec<Slot>, at: usize, slot: Slot)
    requires place { at ≤ length slots.old.items }
    requires room { length slots.old.items < vec_capacity slots.old }
    ensures { slots.new.items ≡ list.insert slots.old.items at slot }
{
    let _ = slots.insert(at, slot);
}

// Puts a slot at the place of its name, where there is room for one more.
fn put(slots: &mut Vec<Slot>, slot: Slot)
    requires rise { Rise slots.old.items }
    requires room { length slots.old.items < vec_capacity slots.old }
    ensures rise { Rise slots.new.items }
    ensures map { map_of slots.new.items
        ≡ insert (map_of slots.old.items) (name_of slot) (standing slot) }
{
    match place_in(slots, slot.who, slot.n) {
        Ok(at) => {
            slots[at] = slot;
        }
        Err(at) => insert_at(slots, at, slot),
    }
}

impl Iterators {
    /// No iterators. It takes no memory.
    pub fn new(alloc: Global) -> Iterators
        ensures { result ≡ empty }
    {
        Iterators {
            slots: Vec::new(alloc),
        }
    }

    /// How many there are.
    pub fn len(&self) -> usize
        ensures { result ≡ len self.now }
    {
        self.slots.len()
    }

    /// Where an iterator stands.
    pub fn get(&self, who: u8, n: u8) -> Option<&Cursor>
        ensures { MatchOption result (get self.now (who, n) ≡ None)
            (λ cursor. get self.now (who, n) ≡ Some (position_of cursor.now)) }
    {
        match place_in(&self.slots, who, n) {
            Ok(at) => {
                let slot = &self.slots[at];
                Some(&slot.cursor)
            }
            Err(_) => None,
        }
    }

    /// Opens an iterator, also one that is there. Want of memory leaves all as it was.
    pub fn open(&mut self, who: u8, n: u8, cursor: Cursor) -> Result<(), NoMemory>
        ensures opened { OnOk result (self.new ≡ insert self.old (who, n) (position_of cursor)) }
        ensures unchanged { OnErr result (self.new ≡ self.old) }
    {
        self.slots.reserve(1)?;
        put(&mut self.slots, Slot { who, n, cursor });
        Ok(())
    }

    /// Notes the key that an iterator gave, where it is there. It takes no memory.
    pub fn advance(&mut self, who: u8, n: u8, key: Key)
        ensures { self.new ≡ option_map_or (λ position. insert self.old (who, n)
            (behind position key)) (get self.old (who, n)) self.old }
    {
        match place_in(&self.slots, who, n) {
            Ok(at) => {
                let slot = &mut self.slots[at];
                slot.cursor.last = Some(key);
            }
            Err(_) => {}
        }
    }

    /// Closes an iterator, where it is there.
    pub fn close(&mut self, who: u8, n: u8)
        ensures { self.new ≡ remove self.old (who, n) }
    {
        match place_in(&self.slots, who, n) {
            Ok(at) => {
                self.slots.remove(at);
            }
            Err(_) => {}
        }
    }
}
