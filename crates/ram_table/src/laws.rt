// Laws of the definitions. Each is a function with nothing to do: its contract is the law.
ghost use Rattle.std.specs.Prelude.{◌≡◌, ◌<◌, ◌≤◌, ℕ, List, length, slice_set, false, Some};
ghost use Rattle.std.specs.FinMap.{get};
ghost use Rattle.std.specs.List.{insert, remove};
ghost use Rattle.kv_model.specs.Crc.{key_hash};
ghost use Rattle.ram_table.specs.declared.table.Entry.{Entry};
ghost use Rattle.ram_table.specs.declared.table.Place.{Place};
ghost use Rattle.ram_table.specs.Reader.{KeyMap};
ghost use Rattle.ram_table.specs.Table.{entry_at};
ghost use Rattle.ram_table.specs.Find.{IsIndexOf, IsPlaceOf, key_at};

/// A key that is absent is inserted at its place, and the keys still ascend.
pub fn inserts_keep_the_order()
    ensures { (hash_bits : ℕ) (keys : KeyMap) (entries : List Entry) (key : List ℕ) (place : Place)
        (hash offset : ℕ)
        → IsIndexOf hash_bits keys entries → IsPlaceOf hash_bits keys entries key place
        → place.found ≡ false
        → place.at ≤ length entries → hash ≡ key_hash hash_bits key → get keys offset ≡ Some key
        → IsIndexOf hash_bits keys (insert entries place.at
        (record { hash = hash; offset = offset })) }
{}

/// A key that is found gets another offset at its place, or is taken out, and the keys still
/// ascend.
pub fn changes_keep_the_order()
    ensures replaced { (hash_bits : ℕ) (keys : KeyMap) (entries : List Entry) (at offset : ℕ)
        → IsIndexOf hash_bits keys entries
        → at < length entries → get keys offset ≡ Some (key_at keys entries at)
        → IsIndexOf hash_bits keys (slice_set entries at
        (record { hash = (entry_at entries at).hash; offset = offset })) }
    ensures removed { (hash_bits : ℕ) (keys : KeyMap) (entries : List Entry) (at : ℕ)
        → IsIndexOf hash_bits keys entries
        → at < length entries → IsIndexOf hash_bits keys (remove entries at) }
{}

/// Keys still ascend where the reader tells more keys than before.
pub fn more_keys_keep_the_order()
    ensures { (hash_bits : ℕ) (keys more : KeyMap) (entries : List Entry)
        → IsIndexOf hash_bits keys entries
        → ((offset : ℕ) (key : List ℕ) → get keys offset ≡ Some key → get more offset ≡ Some key)
        → IsIndexOf hash_bits more entries }
{}

/// A key has one place, and stands nowhere else.
pub fn places_are_unique()
    ensures place { (hash_bits : ℕ) (keys : KeyMap) (entries : List Entry) (key : List ℕ)
        (p q : Place)
        → p.at ≤ length entries → q.at ≤ length entries
        → IsPlaceOf hash_bits keys entries key p → IsPlaceOf hash_bits keys entries key q → p ≡ q }
    ensures entry { (hash_bits : ℕ) (keys : KeyMap) (entries : List Entry) (i j : ℕ)
        → IsIndexOf hash_bits keys entries
        → i < length entries → j < length entries → key_at keys entries i ≡ key_at keys entries j
        → i ≡ j }
{}
