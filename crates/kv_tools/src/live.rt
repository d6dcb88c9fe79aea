// The keys that records stand for.
ghost use Rattle.std.specs.Prelude.{◌≡◌, ◌+◌, ◌≤◌, ◌<◌, ◌==◌, ◌^◌, ℕ, length, OnOk};
ghost use Rattle.std.specs.BTreeMap.{btree_map_len};
ghost use Rattle.std.specs.FinMap as map;
ghost use Rattle.base_core.specs.Sizes.{record_size};
ghost use Rattle.kv_model.specs.FlaggedMap.{FlaggedMap, Stored};
ghost use Rattle.kv_model.specs.Flags.{remove_flags};
ghost use Rattle.kv_model.specs.Write.{Write, applied};
ghost use Rattle.kv_tools.specs.Surveying.{StandsFor};

use base_core::NoMemory;
use kv_model::Key;
use std::alloc::Global;
use std::collections::BTreeMap;

/// The keys of a map, each with the size of its record, and the sum of these sizes.
#[derive(Drop)]
pub struct Live {
    pub sizes: BTreeMap<Key, u32>,
    pub used: u32,
}

impl Live {
    /// No keys.
    pub(crate) fn new(alloc: Global) -> Live
        ensures none { (prog : ℕ) → StandsFor prog result map.empty }
        ensures count { btree_map_len result.sizes ≡ 0 }
        ensures used { result.used ≡ 0 }
    {
        Live {
            sizes: BTreeMap::new(alloc),
            used: 0,
        }
    }

    // Sets a key, whose record has this size.
    fn set(&mut self, key: &Key, size: u32) -> Result<(), NoMemory>
        requires { self.old.used + size < 2 ^ 32 }
        ensures used { OnOk result (self.new.used ≤ self.old.used + size) }
        ensures count { OnOk result (btree_map_len self.new.sizes
            ≤ btree_map_len self.old.sizes + 1) }
        ensures stands { (prog : ℕ) (m : FlaggedMap) (value : Stored)
            → size ≡ record_size prog (length key.now) (length value.bytes)
            → StandsFor prog self.old m
            → OnOk result (StandsFor prog self.new (map.insert m key.now value)) }
    {
        let before = self.sizes.insert(key.copied(), size)?.unwrap_or(0);
        self.used = (self.used + size).saturating_sub(before);
        Ok(())
    }

    // Takes a key away, if it is there.
    fn remove(&mut self, key: &Key)
        ensures used { self.new.used ≤ self.old.used }
        ensures count { btree_map_len self.new.sizes ≤ btree_map_len self.old.sizes }
        ensures stands { (prog : ℕ) (m : FlaggedMap) → StandsFor prog self.old m
            → StandsFor prog self.new (map.remove m key.now) }
    {
        let before = self.sizes.remove(key).unwrap_or(0);
        self.used = self.used.saturating_sub(before);
    }

    /// Takes in a record of this key and size: it sets the key, or takes it away.
    pub(crate) fn take_in(&mut self, key: &Key, size: u32, is_remove: bool) -> Result<(), NoMemory>
        requires { self.old.used + size < 2 ^ 32 }
        ensures used { OnOk result (self.new.used ≤ self.old.used + size) }
        ensures count { OnOk result (btree_map_len self.new.sizes
            ≤ btree_map_len self.old.sizes + 1) }
        ensures stands { (prog : ℕ) (m : FlaggedMap) (r : Write) → r.key ≡ key.now
            → is_remove ≡ (r.flags == remove_flags)
            → size ≡ record_size prog (length r.key) (length r.value)
            → StandsFor prog self.old m
            → OnOk result (StandsFor prog self.new (applied r m)) }
    {
        if is_remove {
            self.remove(key);
            return Ok(());
        }
        self.set(key, size)
    }
}
