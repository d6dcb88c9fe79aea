// A plain store in memory.
ghost use Rattle.std.specs.Prelude.{◌≡◌, ◌<◌, ◌≤◌, ◌^◌};
ghost use Rattle.std.specs.Option.{ForSome};
ghost use Rattle.kv_model.specs.Sizes.{used};
ghost use Rattle.kv_memory.specs.HeldSets.{set_of};
ghost use Rattle.kv_memory.specs.Telling.{IsReady};

use crate::{Entries, HeldSet, Iterators};
use std::alloc::Global;

/// A plain store that keeps its entries in memory and tells its state. No call of it fails, but for
/// want of memory. Other plain stores are compared with it.
#[derive(Drop)]
pub struct MemoryStore {
    pub(crate) alloc: Global,
    pub(crate) hash_bits: u8,
    pub(crate) prog: u32,
    pub(crate) room: u32,
    pub(crate) entries: Entries,
    pub(crate) held: Option<HeldSet>,
    pub(crate) iterators: Iterators,
    ghost bits: { hash_bits ≤ 32 },
    ghost positive: { 1 ≤ prog },
    ghost unit: { prog ≤ 4096 },
    ghost small: { room < 2 ^ 30 },
    ghost fits: { used prog entries.map ≤ room },
    ghost ready: { ForSome held (λ h. IsReady prog room entries (set_of h)) },
}

impl MemoryStore {
    ghost use Rattle.std.specs.FinMap.{empty};
    ghost use Rattle.kv_model.specs.StoreState.{fresh_state};
    ghost use Rattle.kv_memory.specs.Memory.{constants_in, state_in};
    ghost use Rattle.kv_memory.specs.Telling.{plain_constants};

    /// An empty store, with so many bits of hash, this program unit and this room for records, both
    /// in bytes. It takes no memory.
    pub fn new(alloc: Global, hash_bits: u8, prog: u32, room: u32) -> MemoryStore
        requires bits { hash_bits ≤ 32 }
        requires positive { 1 ≤ prog }
        requires unit { prog ≤ 4096 }
        requires small { room < 2 ^ 30 }
        ensures constants { constants_in result ≡ plain_constants hash_bits prog room }
        ensures state { state_in result ≡ fresh_state empty empty 1 }
    {
        MemoryStore {
            alloc,
            hash_bits,
            prog,
            room,
            entries: Entries::new(alloc),
            held: None,
            iterators: Iterators::new(alloc),
        }
    }
}
