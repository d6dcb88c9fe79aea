// The plain store in memory as a store.
ghost use Rattle.std.specs.Prelude.{◌≡◌, ◌≤◌, ◌<◌, ◌^◌, ◌∷◌, [], IfOk, length, take, drop, nat_lt};
ghost use Rattle.std.specs.Option.{option_map};
ghost use Rattle.kv_model.specs.Checks.{Refuses, first_refusal};
ghost use Rattle.kv_model.specs.Given.{AreZerosFrom, read_end};
ghost use Rattle.kv_model.specs.PlainStep.{plain_rules};
ghost use Rattle.kv_model.specs.declared.error.KvError.TheVariants.{InvalidSize};
ghost use Rattle.kv_model.proofs.RulesLemmas.{plain_are_rules};
ghost use Rattle.kv_memory.specs.HeldSets.{set_of};
ghost use Rattle.kv_memory.specs.Memory.{constants_in, known_of};
ghost use Rattle.kv_memory.specs.Telling.{refusal_of, telling_is_lawful};

use crate::{Cursor, HeldSet, Item, MemoryStore};
use kv_model::{Bytes, Flags, Got, Info, Key, Kv, KvError};

// Reads the value of an item from an offset on into a buffer of zeros.
fn read_item(item: &Item, offset: u32, buf: &mut [u8]) -> Result<Got, KvError>
    requires short { length item.now.value < 2 ^ 32 }
    requires zeros { AreZerosFrom 0 buf.old }
    ensures refusal { first_refusal (Refuses (nat_lt (length item.now.value) offset) InvalidSize
        ∷ []) ≡ refusal_of result }
    ensures read { IfOk result (λ got.
        take got.read buf.new ≡ take (length buf.old) (drop offset item.now.value)) }
    ensures fits { IfOk result (λ got. got.read ≤ length buf.old) }
    ensures size { IfOk result (λ got. got.size ≡ length item.now.value) }
    ensures flags { IfOk result (λ got. got.flags ≡ item.now.flags) }
    ensures zeros { AreZerosFrom (read_end result) buf.new }
{
    let value = item.value.as_slice();
    if offset as usize > value.len() {
        return Err(KvError::InvalidSize);
    }
    let rest = &value[offset as usize..];
    let read = rest.len().min(buf.len());
    buf[..read].copy_from_slice(&rest[..read]);
    Ok(Got {
        flags: item.flags,
        size: value.len() as u32,
        read: read as u32,
    })
}

// Writes a key at the front of a buffer of zeros, and gives its length.
fn write_key(key: &Key, out: &mut [u8; 128]) -> u8
    requires zeros { AreZerosFrom 0 out.old }
    ensures key { take result out.new ≡ key.now }
    ensures zeros { AreZerosFrom result out.new }
{
    let bytes = key.as_slice();
    out[..bytes.len()].copy_from_slice(bytes);
    bytes.len() as u8
}

impl Kv for MemoryStore {
    ghost rules_by = { plain_rules };

    ghost state = { known_of };

    fn get(&mut self, key: &[u8], offset: u32, buf: &mut [u8]) -> Result<Got, KvError> {
        buf.fill(0);
        let item = self.check_read(key)?;
        Ok(read_item(item, offset, buf)?)
    }

    fn info(&mut self, key: &[u8]) -> Result<Info, KvError> {
        let item = self.check_read(key)?;
        Ok(Info {
            flags: item.flags,
            size: item.value.as_slice().len() as u32,
        })
    }

    fn set(&mut self, who: u8, key: &[u8], value: &[u8], flags: Flags) -> Result<(), KvError> {
        let key = self.check_set(who, key, value.len(), flags)?;
        let Ok(copy) = Bytes::new(self.alloc, value) else {
            return Err(KvError::Memory);
        };
        if self.entries.reserve_one().is_err() {
            return Err(KvError::Memory);
        }
        self.entries.set(key, flags, copy);
        Ok(())
    }

    fn set_start(&mut self, who: u8, key: &[u8], size: u32, flags: Flags) -> Result<(), KvError> {
        let key = self.check_set(who, key, size as usize, flags)?;
        let Ok(held) = HeldSet::begin(self.alloc, who, key, size, flags) else {
            return Err(KvError::Memory);
        };
        if self.entries.reserve_one().is_err() {
            return Err(KvError::Memory);
        }
        self.held = Some(held);
        Ok(())
    }

    fn remove_start(&mut self, who: u8, key: &[u8]) -> Result<(), KvError> {
        let key = self.check_remove(who, key)?;
        self.held = Some(HeldSet::begin_remove(self.alloc, who, key));
        Ok(())
    }

    fn set_add(&mut self, who: u8, value: &[u8]) -> Result<(), KvError> {
        self.check_add(who, value)?;
        if let Some(held) = &mut self.held {
            held.add(value);
        }
        Ok(())
    }

    fn set_finish(&mut self, who: u8) -> Result<(), KvError> {
        self.check_owner(who)?;
        match self.held.take() {
            Some(held) => {
                if held.bytes.len() < held.size as usize {
                    return Err(KvError::InvalidSize);
                }
                if held.is_remove {
                    self.entries.remove(&held.key);
                    return Ok(());
                }
                let HeldSet {
                    owner: _,
                    key,
                    flags,
                    size: _,
                    bytes,
                    is_remove: _,
                } = held;
                self.entries.set(key, flags, Bytes::from_vec(bytes));
                Ok(())
            }
            None => Err(KvError::NoSet),
        }
    }

    fn set_abort(&mut self, who: u8) -> Result<(), KvError> {
        self.check_owner(who)?;
        self.held = None;
        Ok(())
    }

    fn remove(&mut self, who: u8, key: &[u8]) -> Result<(), KvError> {
        let key = self.check_remove(who, key)?;
        self.entries.remove(&key);
        Ok(())
    }

    fn reset(&mut self, who: u8) -> Result<(), KvError> {
        self.check_free(who)?;
        self.entries.clear();
        Ok(())
    }

    fn iter_open(&mut self, who: u8, n: u8, prefix: &[u8]) -> Result<(), KvError> {
        self.check_open(who, n, prefix)?;
        let Ok(prefix) = Bytes::new(self.alloc, prefix) else {
            return Err(KvError::Memory);
        };
        match self.iterators.open(who, n, Cursor { prefix, last: None }) {
            Ok(()) => Ok(()),
            Err(_) => Err(KvError::Memory),
        }
    }

    fn next(&mut self, who: u8, n: u8, out: &mut [u8; 128]) -> Result<Option<u8>, KvError> {
        out.fill(0);
        let cursor = self.check_next(who, n)?;
        match self.entries.next_key(self.hash_bits, cursor) {
            None => Ok(None),
            Some(found) => {
                let key = found.copied();
                let length = write_key(&key, out);
                self.iterators.advance(who, n, key);
                Ok(Some(length))
            }
        }
    }

    fn iter_close(&mut self, who: u8, n: u8) -> Result<(), KvError> {
        self.check_next(who, n)?;
        self.iterators.close(who, n);
        Ok(())
    }

    ghost lawful = { λ store. telling_is_lawful (constants_in store) store.entries.map
        (option_map set_of store.held) store.iterators };

    ghost by_rules = { plain_are_rules };
}
