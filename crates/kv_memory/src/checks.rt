// The refusals of a plain store in memory, in their order.
ghost use Rattle.std.specs.Prelude.{◌≡◌, ◌≤◌, ◌+◌, ◌∷◌, [], IfOk, None, Some, not, is_none, nat_lt, length};
ghost use Rattle.std.specs.Option.{ForSome};
ghost use Rattle.std.specs.FinMap.{get};
ghost use Rattle.kv_model.specs.Checks.{Refuses, first_refusal};
ghost use Rattle.kv_model.specs.Flags.{is_plain_flags, is_write_once};
ghost use Rattle.kv_model.specs.Keys.{is_key};
ghost use Rattle.kv_model.specs.Operations.{Remove, Start, Add, Abort, OpenIterator, Next};
ghost use Rattle.kv_model.specs.PlainStep.{flags_in, no_room, plain_checks};
ghost use Rattle.kv_model.specs.Rows.{other_set, own_set};
ghost use Rattle.base_core.specs.Sizes.{record_size};
ghost use Rattle.kv_model.specs.Sizes.{used};
ghost use Rattle.kv_memory.specs.Cursors.{position_of};
ghost use Rattle.kv_memory.specs.EntryOf.{stored_of};
ghost use Rattle.kv_memory.specs.Memory.{constants_in, state_in};
ghost use Rattle.kv_memory.specs.Telling.{refusal_of};
ghost use Rattle.kv_model.specs.declared.error.KvError.TheVariants.{NotFound, InvalidKey, InvalidFlags, InvalidSize, WriteProtected};
ghost use Rattle.kv_model.specs.declared.limits.TheConstants.{MAX_VALUE};

use crate::{Cursor, HeldSet, Item, MemoryStore, record_bytes};
use kv_model::{Flags, Key, KvError, MAX_ITERATORS, MAX_VALUE, is_prefix};

// The key of these bytes.
fn key_of(bytes: &[u8]) -> Result<Key, KvError>
    ensures refusal { first_refusal (Refuses (not (is_key bytes.now)) InvalidKey ∷ [])
        ≡ refusal_of result }
    ensures key { IfOk result (λ key. key ≡ bytes.now) }
{
    if !kv_model::is_key(bytes) {
        return Err(KvError::InvalidKey);
    }
    Ok(Key::new(bytes)?)
}

// What a set must be of itself.
fn check_form(flags: Flags, size: usize) -> Result<(), KvError>
    ensures { first_refusal (Refuses (not (is_plain_flags flags.bits)) InvalidFlags
        ∷ Refuses (nat_lt MAX_VALUE size) InvalidSize ∷ []) ≡ refusal_of result }
{
    if flags.bits >= 2 {
        return Err(KvError::InvalidFlags);
    }
    if size > MAX_VALUE as usize {
        return Err(KvError::InvalidSize);
    }
    Ok(())
}

fn is_write_once(flags: Flags) -> bool
    ensures { result ≡ is_write_once flags.bits }
{
    flags.bits % 2 == 1
}

impl MemoryStore {
    // Whether no set is active.
    pub(crate) fn check_free(&self, who: u8) -> Result<(), KvError>
        ensures refusal { first_refusal (own_set (state_in self.now) who
            ∷ other_set (state_in self.now) who ∷ []) ≡ refusal_of result }
        ensures free { IfOk result (λ done. self.now.held ≡ None) }
    {
        match &self.held {
            None => Ok(()),
            Some(held) => {
                if held.owner == who {
                    return Err(KvError::SetOpen);
                }
                Err(KvError::Busy { owner: held.owner })
            }
        }
    }

    // Whether a key is there, and may be taken away.
    fn check_removable(&self, key: &Key) -> Result<(), KvError>
        ensures { first_refusal (Refuses (is_none (get self.now.entries.map key.now)) NotFound
            ∷ Refuses (is_write_once (flags_in self.now.entries.map key.now)) WriteProtected
            ∷ []) ≡ refusal_of result }
    {
        match self.entries.get(key) {
            None => Err(KvError::NotFound),
            Some(item) => {
                if is_write_once(item.flags) {
                    return Err(KvError::WriteProtected);
                }
                Ok(())
            }
        }
    }

    // Whether a key may be set.
    fn check_unprotected(&self, key: &Key) -> Result<(), KvError>
        ensures { first_refusal (Refuses (is_write_once (flags_in self.now.entries.map key.now))
            WriteProtected ∷ []) ≡ refusal_of result }
    {
        match self.entries.get(key) {
            None => Ok(()),
            Some(item) => {
                if is_write_once(item.flags) {
                    return Err(KvError::WriteProtected);
                }
                Ok(())
            }
        }
    }

    // Whether there is room for a key with a value of so many bytes.
    fn check_room(&self, key: &Key, size: u32) -> Result<(), KvError>
        requires { size ≤ MAX_VALUE }
        ensures refusal { first_refusal (no_room (constants_in self.now) (state_in self.now) 0
            key.now size ∷ []) ≡ refusal_of result }
        ensures room { IfOk result (λ done. used self.now.prog self.now.entries.map
            + record_size self.now.prog (length key.now) size ≤ self.now.room) }
    {
        let key_size = key.as_slice().len() as u32;
        let need = self.entries.used(self.prog) + record_bytes(self.prog, key_size, size);
        if need > self.room {
            return Err(KvError::MediaFull {
                need,
                room: self.room,
            });
        }
        Ok(())
    }

    // The item that a read of these bytes finds.
    pub(crate) fn check_read(&self, bytes: &[u8]) -> Result<&Item, KvError>
        ensures refusal { first_refusal (Refuses (not (is_key bytes.now)) InvalidKey
            ∷ Refuses (is_none (get self.now.entries.map bytes.now)) NotFound ∷ [])
            ≡ refusal_of result }
        ensures item { IfOk result (λ item.
            get self.now.entries.map bytes.now ≡ Some (stored_of item.now)) }
    {
        let key = key_of(bytes)?;
        match self.entries.get(&key) {
            Some(item) => Ok(item),
            None => Err(KvError::NotFound),
        }
    }

    // The key of these bytes, which may be removed.
    pub(crate) fn check_remove(&self, who: u8, bytes: &[u8]) -> Result<Key, KvError>
        ensures refusal { first_refusal (plain_checks (constants_in self.now)
            (state_in self.now) who (Remove bytes.now)) ≡ refusal_of result }
        ensures key { IfOk result (λ key. key ≡ bytes.now) }
        ensures free { IfOk result (λ key. self.now.held ≡ None) }
    {
        let key = key_of(bytes)?;
        self.check_free(who)?;
        self.check_removable(&key)?;
        Ok(key)
    }

    // The key of these bytes, which may be set to a value of so many bytes.
    pub(crate) fn check_set(
        &self,
        who: u8,
        bytes: &[u8],
        size: usize,
        flags: Flags,
    ) -> Result<Key, KvError>
        ensures refusal { first_refusal (plain_checks (constants_in self.now)
            (state_in self.now) who (Start bytes.now size flags.bits)) ≡ refusal_of result }
        ensures key { IfOk result (λ key. key ≡ bytes.now) }
        ensures free { IfOk result (λ key. self.now.held ≡ None) }
        ensures room { IfOk result (λ key. used self.now.prog self.now.entries.map
            + record_size self.now.prog (length bytes.now) size ≤ self.now.room) }
    {
        let key = key_of(bytes)?;
        check_form(flags, size)?;
        self.check_free(who)?;
        self.check_unprotected(&key)?;
        self.check_room(&key, size as u32)?;
        Ok(key)
    }

    // The caller's set.
    pub(crate) fn check_owner(&self, who: u8) -> Result<&HeldSet, KvError>
        ensures refusal { first_refusal (plain_checks (constants_in self.now)
            (state_in self.now) who Abort) ≡ refusal_of result }
        ensures held { IfOk result (λ held. self.now.held ≡ Some held.now) }
    {
        match &self.held {
            None => Err(KvError::NoSet),
            Some(held) => {
                if held.owner != who {
                    return Err(KvError::NoSet);
                }
                Ok(held)
            }
        }
    }

    // Whether the caller's set takes these bytes.
    pub(crate) fn check_add(&self, who: u8, value: &[u8]) -> Result<(), KvError>
        ensures refusal { first_refusal (plain_checks (constants_in self.now)
            (state_in self.now) who (Add value.now)) ≡ refusal_of result }
        ensures fits { IfOk result (λ done. ForSome self.now.held (λ held.
            length held.bytes.items + length value.now ≤ held.size)) }
    {
        let held = self.check_owner(who)?;
        if held.bytes.len() + value.len() > held.size as usize {
            return Err(KvError::InvalidSize);
        }
        Ok(())
    }

    // Whether the caller may open an iterator of this number.
    pub(crate) fn check_open(&self, who: u8, n: u8, prefix: &[u8]) -> Result<(), KvError>
        ensures { first_refusal (plain_checks (constants_in self.now)
            (state_in self.now) who (OpenIterator n prefix.now)) ≡ refusal_of result }
    {
        if !is_prefix(prefix) {
            return Err(KvError::InvalidKey);
        }
        if self.iterators.len() >= MAX_ITERATORS as usize && self.iterators.get(who, n).is_none() {
            return Err(KvError::TooManyIterators);
        }
        Ok(())
    }

    // The caller's iterator of this number.
    pub(crate) fn check_next(&self, who: u8, n: u8) -> Result<&Cursor, KvError>
        ensures refusal { first_refusal (plain_checks (constants_in self.now)
            (state_in self.now) who (Next n)) ≡ refusal_of result }
        ensures cursor { IfOk result (λ cursor.
            get self.now.iterators (who, n) ≡ Some (position_of cursor.now)) }
    {
        match self.iterators.get(who, n) {
            Some(cursor) => Ok(cursor),
            None => Err(KvError::NoIterator),
        }
    }
}
