//! Looking a name up in a table of files, and putting a file in its place.
ghost use Rattle.std.specs.Prelude.{◌≡◌, ℕ, ◌+◌, ◌-◌, ◌*◌, ◌<◌, ◌≤◌, ◌≢◌, ◌++◌, length, take, IsTrue, ◌↔◌, IfSome, IfNone, vec_len, vec_capacity, ◌∷◌, [], is_some};
ghost use Rattle.std.specs.List.{All, HoldsAt};
ghost use Rattle.std.specs.Bool.{OnTrue, OnFalse};
ghost use Rattle.std.specs.Option.{option_copied};
ghost use Rattle.std.specs.FinMap as map;
ghost use Rattle.kv_host.specs.Contents.{Files};
ghost use Rattle.kv_host.specs.MemState.{HasPlace};
ghost use Rattle.kv_host.specs.Table.{part, name_in, bytes_in, files_of, IsSpan, IsTable};

use crate::table::{Entry, NAMES, Span};

/// The bytes of a span.
pub(crate) fn part_of<'a>(arena: &'a [u8], span: Span) -> &'a [u8]
    requires { IsSpan (length arena.now) span }
    ensures { result.now ≡ part arena.now span }
{
    &arena[span.start..span.end]
}

/// Whether the entry has the name.
fn has_name(arena: &[u8], entry: Entry, name: &[u8]) -> bool
    requires { IsSpan (length arena.now) entry.name }
    ensures { IsTrue result ↔ (name_in arena.now entry ≡ name.now) }
{
    part_of(arena, entry.name) == name
}

/// The first entry that has the name.
pub(crate) fn place_of(entries: &[Entry], arena: &[u8], name: &[u8]) -> Option<usize>
    requires { All (λ e. IsSpan (length arena.now) e.name × IsSpan (length arena.now) e.bytes)
        entries.now }
    ensures none { IfNone result (All (λ e. name_in arena.now e ≢ name.now) entries.now) }
    ensures bound { IfSome result (λ i. i < length entries.now) }
    ensures before { IfSome result
        (λ i. All (λ e. name_in arena.now e ≢ name.now) (take i entries.now)) }
    ensures here { IfSome result (HoldsAt (λ e. name_in arena.now e ≡ name.now) entries.now) }
    ensures found { is_some result ≡ map.contains_key (files_of arena.now entries.now) name.now }
{
    for (i, entry) in entries.iter().enumerate() {
        if has_name(arena, *entry, name) {
            return Some(i);
        }
    }
    None
}

/// Puts bytes behind those of the arena, which has room for them.
fn push_bytes(arena: &mut Vec<u8>, bytes: &[u8]) -> Span
    requires { vec_len arena.old + length bytes.now ≤ vec_capacity arena.old }
    ensures bytes { arena.new.items ≡ arena.old.items ++ bytes.now }
    ensures start { result.start ≡ length arena.old.items }
    ensures end { result.end ≡ length arena.old.items + length bytes.now }
    ensures capacity { vec_capacity arena.old ≤ vec_capacity arena.new }
{
    let start = arena.len();
    let _ = arena.extend_from_slice(bytes);
    Span {
        start,
        end: start + bytes.len(),
    }
}

/// Adds an entry to those there, which have a place for it.
fn push_entry(entries: &mut Vec<Entry>, entry: Entry)
    requires { vec_len entries.old < vec_capacity entries.old }
    ensures items { entries.new.items ≡ entries.old.items ++ entry ∷ [] }
    ensures capacity { vec_capacity entries.old ≤ vec_capacity entries.new }
{
    let _ = entries.push(entry);
}

/// Gives the entry at `place`, the first with its name, new bytes.
fn replace(entries: &mut Vec<Entry>, arena: &mut Vec<u8>, place: usize, name: &[u8], bytes: &[u8])
    requires table { IsTable arena.old.items entries.old.items }
    requires bound { place < length entries.old.items }
    requires before { All (λ e. name_in arena.old.items e ≢ name.now)
        (take place entries.old.items) }
    requires here { HoldsAt (λ e. name_in arena.old.items e ≡ name.now) entries.old.items place }
    requires room { vec_len arena.old + length bytes.now ≤ vec_capacity arena.old }
    ensures files { files_of arena.new.items entries.new.items
        ≡ map.insert (files_of arena.old.items entries.old.items) name.now bytes.now }
    ensures table { IsTable arena.new.items entries.new.items }
    ensures size { vec_len arena.new ≡ vec_len arena.old + length bytes.now }
    ensures count { vec_len entries.new ≡ vec_len entries.old }
    ensures arena_capacity { vec_capacity arena.old ≤ vec_capacity arena.new }
    ensures entries_capacity { vec_capacity entries.old ≤ vec_capacity entries.new }
{
    let span = push_bytes(arena, bytes);
    entries[place].bytes = span;
}

/// Adds an entry with a new name.
fn add(entries: &mut Vec<Entry>, arena: &mut Vec<u8>, name: &[u8], bytes: &[u8])
    requires table { IsTable arena.old.items entries.old.items }
    requires few { length entries.old.items < 8 }
    requires new { All (λ e. name_in arena.old.items e ≢ name.now) entries.old.items }
    requires room { vec_len arena.old + length name.now + length bytes.now
        ≤ vec_capacity arena.old }
    requires places { 8 ≤ vec_capacity entries.old }
    ensures files { files_of arena.new.items entries.new.items
        ≡ map.insert (files_of arena.old.items entries.old.items) name.now bytes.now }
    ensures table { IsTable arena.new.items entries.new.items }
    ensures size { vec_len arena.new ≡ vec_len arena.old + length name.now + length bytes.now }
    ensures count { vec_len entries.new ≡ vec_len entries.old + 1 }
    ensures arena_capacity { vec_capacity arena.old ≤ vec_capacity arena.new }
    ensures entries_capacity { vec_capacity entries.old ≤ vec_capacity entries.new }
{
    let name = push_bytes(arena, name);
    let bytes = push_bytes(arena, bytes);
    push_entry(entries, Entry { name, bytes });
}

/// Stores bytes under a name, where the table has a place for the name.
pub(crate) fn store(
    entries: &mut Vec<Entry>,
    arena: &mut Vec<u8>,
    name: &[u8],
    bytes: &[u8],
) -> bool
    requires table { IsTable arena.old.items entries.old.items }
    requires short { length name.now ≤ 64 }
    requires room { vec_len arena.old + length bytes.now + 64 * (8 - vec_len entries.old)
        ≤ vec_capacity arena.old }
    requires places { 8 ≤ vec_capacity entries.old }
    ensures placed { IsTrue result
        ↔ HasPlace (files_of arena.old.items entries.old.items) name.now }
    ensures stored { OnTrue result
        (files_of arena.new.items entries.new.items
        ≡ map.insert (files_of arena.old.items entries.old.items) name.now bytes.now) }
    ensures stands { OnFalse result
        (files_of arena.new.items entries.new.items ≡ files_of arena.old.items entries.old.items) }
    ensures table { IsTable arena.new.items entries.new.items }
    ensures taken { OnTrue result (vec_len arena.new + 64 * (8 - vec_len entries.new)
        ≤ vec_len arena.old + 64 * (8 - vec_len entries.old) + length bytes.now) }
    ensures kept { OnFalse result (vec_len arena.new + 64 * (8 - vec_len entries.new)
        ≤ vec_len arena.old + 64 * (8 - vec_len entries.old)) }
    ensures arena_capacity { vec_capacity arena.old ≤ vec_capacity arena.new }
    ensures entries_capacity { vec_capacity entries.old ≤ vec_capacity entries.new }
{
    match place_of(entries, arena, name) {
        Some(place) => {
            replace(entries, arena, place, name, bytes);
            true
        }
        None if entries.len() < NAMES => {
            add(entries, arena, name, bytes);
            true
        }
        None => false,
    }
}

/// The bytes under a name.
pub(crate) fn stored<'a>(entries: &[Entry], arena: &'a [u8], name: &[u8]) -> Option<&'a [u8]>
    requires { All (λ e. IsSpan (length arena.now) e.name × IsSpan (length arena.now) e.bytes)
        entries.now }
    ensures { option_copied result ≡ map.get (files_of arena.now entries.now) name.now }
{
    match place_of(entries, arena, name) {
        Some(place) => Some(part_of(arena, entries[place].bytes)),
        None => None,
    }
}
