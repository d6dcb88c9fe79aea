// The incremental set of a store in memory.
ghost use Rattle.std.specs.Prelude.{◌≡◌, ◌≤◌, ◌+◌, ◌++◌, length, vec_capacity, IfOk, None};

use kv_model::{Bytes, Flags, Key, NoMemory};
use std::alloc::Global;

/// An incremental set with the bytes so far and memory for the rest, or a remove that was begun.
#[derive(Debug, Drop)]
pub struct HeldSet {
    pub owner: u8,
    pub key: Key,
    pub flags: Flags,
    /// How many bytes the value is to have.
    pub size: u32,
    pub bytes: Vec<u8>,
    pub is_remove: bool,
    pub ghost fed: { length bytes.items ≤ size },
    pub ghost holds: { size ≤ vec_capacity bytes },
}

// Bytes behind others, for which there is room.
fn append(bytes: &mut Vec<u8>, more: &[u8])
    requires { length bytes.old.items + length more.now ≤ vec_capacity bytes.old }
    ensures items { bytes.new.items ≡ bytes.old.items ++ more.now }
    ensures capacity { vec_capacity bytes.old ≤ vec_capacity bytes.new }
{
    let _ = bytes.extend_from_slice(more);
}

impl HeldSet {
    ghost use Rattle.kv_model.specs.StoreState.{begun_remove, begun_set};
    ghost use Rattle.kv_memory.specs.HeldSets.{set_of, with_bytes};

    /// A set that begins. It refuses for want of memory alone.
    pub fn begin(
        alloc: Global,
        owner: u8,
        key: Key,
        size: u32,
        flags: Flags,
    ) -> Result<HeldSet, NoMemory>
        ensures { IfOk result (λ held.
            set_of held ≡ begun_set owner key flags.bits size None) }
    {
        Ok(HeldSet {
            owner,
            key,
            flags,
            size,
            bytes: Vec::with_capacity(alloc, size as usize)?,
            is_remove: false,
        })
    }

    /// A remove that begins. It takes no memory.
    pub fn begin_remove(alloc: Global, owner: u8, key: Key) -> HeldSet
        ensures { set_of result ≡ begun_remove owner key }
    {
        HeldSet {
            owner,
            key,
            flags: Flags::NONE,
            size: 0,
            bytes: Vec::new(alloc),
            is_remove: true,
        }
    }

    /// Appends bytes, as many as its size allows. It takes no memory.
    pub fn add(&mut self, value: &[u8])
        requires { length self.old.bytes.items + length value.now ≤ self.old.size }
        ensures { set_of self.new ≡ with_bytes (set_of self.old) value.now }
    {
        append(&mut self.bytes, value);
    }
}
