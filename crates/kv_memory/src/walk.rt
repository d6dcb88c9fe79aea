// Walks over the items of a store in memory: what their records take, and the next key of an
// iterator.
ghost use Rattle.std.specs.Prelude.{◌≡◌, ◌≤◌, ◌<◌, ◌+◌, ◌^◌, Some, map, filter};
ghost use Rattle.std.specs.Option.{option_copied};
ghost use Rattle.base_core.specs.Sizes.{record_size};
ghost use Rattle.kv_model.specs.KeyOrder.{is_below};
ghost use Rattle.kv_model.specs.NextKey.{least_key, lesser_key, may_give};
ghost use Rattle.kv_model.specs.Sizes.{used_by};
ghost use Rattle.kv_memory.specs.EntryOf.{key_of, pair_of};
ghost use Rattle.kv_memory.specs.Cursors.{position_of};

use crate::{Cursor, Item};
use kv_model::Key;
use record_core::{hash_of, padded_size};
use std::cmp::Ordering;

/// What the record of a key and a value takes, in bytes.
pub fn record_bytes(prog: u32, key_size: u32, value_size: u32) -> u32
    requires positive { 0 < prog }
    requires unit { prog ≤ 4096 }
    requires sizes { key_size + value_size < 2 ^ 31 }
    ensures { result ≡ record_size prog key_size value_size }
{
    padded_size(prog, 24) + padded_size(prog, key_size + value_size)
}

/// What the records of the items take, in bytes.
pub fn bytes_used(prog: u32, items: &[Item]) -> u32
    requires positive { 0 < prog }
    requires unit { prog ≤ 4096 }
    requires fits { used_by prog (map pair_of items.now) < 2 ^ 31 }
    ensures { result ≡ used_by prog (map pair_of items.now) }
{
    let mut used = 0;
    for at in (0..items.len()).rev() {
        let item = &items[at];
        let key_size = item.key.as_slice().len() as u32;
        used += record_bytes(prog, key_size, item.value.as_slice().len() as u32);
    }
    used
}

/// Whether a key stands below another in the order of iterators.
pub fn is_below(hash_bits: u8, key: &Key, other: &Key) -> bool
    requires { hash_bits ≤ 32 }
    ensures { result ≡ is_below hash_bits key.now other.now }
{
    match hash_of(key, hash_bits).cmp(&hash_of(other, hash_bits)) {
        Ordering::Less => true,
        Ordering::Equal => key.cmp(other) == Ordering::Less,
        Ordering::Greater => false,
    }
}

// Whether an iterator may still give a key.
fn may_give(hash_bits: u8, cursor: &Cursor, key: &Key) -> bool
    requires { hash_bits ≤ 32 }
    ensures { result ≡ may_give hash_bits (position_of cursor.now) key.now }
{
    if !key.as_slice().starts_with(cursor.prefix.as_slice()) {
        return false;
    }
    match &cursor.last {
        None => true,
        Some(last) => is_below(hash_bits, last, key),
    }
}

// The lesser of a key and the least so far.
fn lesser<'a>(hash_bits: u8, key: &'a Key, least: Option<&'a Key>) -> &'a Key
    requires { hash_bits ≤ 32 }
    ensures { Some result.now ≡ lesser_key hash_bits key.now (option_copied least.entry) }
{
    match least {
        None => key,
        Some(least) => {
            if is_below(hash_bits, least, key) {
                least
            } else {
                key
            }
        }
    }
}

/// The next key that an iterator gives, of these items.
pub fn least_of<'a>(hash_bits: u8, cursor: &Cursor, items: &'a [Item]) -> Option<&'a Key>
    requires { hash_bits ≤ 32 }
    ensures { option_copied result
        ≡ least_key hash_bits (filter (may_give hash_bits (position_of cursor.now))
        (map key_of items.now)) }
{
    let mut least = None;
    for at in (0..items.len()).rev() {
        let key = &items[at].key;
        if may_give(hash_bits, cursor, key) {
            least = Some(lesser(hash_bits, key, least));
        }
    }
    least
}
