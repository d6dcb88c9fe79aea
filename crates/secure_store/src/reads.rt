// The calls of a secure store that read.
ghost use Rattle.std.specs.Prelude.{◌≡◌, ◌≤◌, ℕ, true, IfOk, None, is_none, length, take};
ghost use Rattle.kv_model.specs.Given.{AreZerosFrom, IsGot, facts_or, got_or, read_end};
ghost use Rattle.kv_model.specs.Kv.{Answers, answered};
ghost use Rattle.kv_model.specs.Operations.{Info as InfoOf, Part};
ghost use Rattle.secure_store.specs.Doubts.{StaysStopped};
ghost use Rattle.secure_store.specs.SecureState.{state_in};
ghost use Rattle.sealed_pair.specs.SecureStep.{secure_rules};
ghost use Rattle.sealed_pair.specs.Store.{IsFreshStore, OwnsWhole, WithinOr};

use crate::store::SecureStore;
use kv_model::{Got, Info, Key, Kv, KvError};
use sealed_pair::{Found, key_of, view_key};

// What a read gives of a record that was found.
fn given_from(offset: u32, found: &Found) -> Result<Got, KvError>
    ensures { WithinOr offset found.now result }
{
    if offset > found.size {
        return Err(KvError::InvalidSize);
    }
    Ok(Got {
        flags: found.flags,
        size: found.size,
        read: found.read,
    })
}

// Makes the bytes from here on 0.
fn clear_from(buf: &mut [u8], from: usize)
    requires { from ≤ length buf.old }
    ensures front { take from buf.new ≡ take from buf.old }
    ensures zeros { AreZerosFrom from buf.new }
{
    buf[from..].fill(0);
}

impl<U: Kv, R: Kv> SecureStore<U, R> {
    /// A store over these two, with this root key, from which the keys of ciphers and tags are
    /// derived, and this next number. It takes no memory.
    ///
    /// Neither store is stopped or has an active set or an iterator, and both go by the plain
    /// rules. Two sets with one number and one root key share their key stream, so a number must
    /// not be handed in again once a set has taken it.
    pub fn new(primary: U, rollback: R, root: &[u8; 16], iv: u64) -> SecureStore<U, R>
        requires primary { IsFreshStore U.rules_by (U.state primary) }
        requires rollback { IsFreshStore R.rules_by (R.state rollback) }
        ensures primary { result.primary ≡ primary }
        ensures rollback { result.rollback ≡ rollback }
        ensures root { result.root ≡ root.now }
        ensures iv { result.iv ≡ iv }
        ensures free { result.active ≡ None }
        ensures runs { result.stopped ≡ None }
    {
        SecureStore {
            primary,
            rollback,
            root: *root,
            iv,
            active: None,
            stopped: None,
        }
    }

    /// The number that the next set with one takes.
    pub fn iv(&self) -> u64
        ensures { result ≡ self.now.iv }
    {
        self.iv
    }

    /// The store of the sealed records.
    pub fn primary(&self) -> &U
        ensures { result.now ≡ self.now.primary }
    {
        &self.primary
    }

    /// The store of the tags.
    pub fn rollback(&self) -> &R
        ensures { result.now ≡ self.now.rollback }
    {
        &self.rollback
    }

    /// The two stores.
    pub fn into_parts(self) -> (U, R)
        ensures primary { result.0 ≡ self.primary }
        ensures rollback { result.1 ≡ self.rollback }
    {
        let SecureStore {
            primary,
            rollback,
            root: _,
            iv: _,
            active: _,
            stopped: _,
        } = self;
        (primary, rollback)
    }

    // Reads a value. Behind what was read, and after a refusal, the buffer may hold bytes that are
    // not authenticated.
    fn read(&mut self, key: &Key, offset: u32, buf: &mut [u8]) -> Result<Got, KvError>
        requires { is_none self.old.stopped ≡ true }
        ensures answers { (who : ℕ) → Answers secure_rules (state_in self.old) (state_in self.new)
            (answered who (Part key.now offset (length buf.old)) (got_or result buf.new)) }
        ensures got { IfOk result
            (IsGot secure_rules (state_in self.old) key.now (length buf.old)) }
        ensures own { IfOk result (λ got. OwnsWhole self.old.root key.now
            (R.state self.old.rollback) offset got buf.new) }
        ensures number { self.new.iv ≡ self.old.iv }
        ensures stop { self.new.stopped ≡ self.old.stopped }
    {
        let (primary, rollback) = (&mut self.primary, &mut self.rollback);
        match view_key(primary, rollback, &self.root, key, offset, buf) {
            Ok(found) => given_from(offset, &found),
            Err(refusal) => Err(refusal),
        }
    }

    // The same of bytes that may be no key.
    fn read_any(&mut self, key: &[u8], offset: u32, buf: &mut [u8]) -> Result<Got, KvError>
        requires { is_none self.old.stopped ≡ true }
        ensures answers { (who : ℕ) → Answers secure_rules (state_in self.old) (state_in self.new)
            (answered who (Part key.now offset (length buf.old)) (got_or result buf.new)) }
        ensures got { IfOk result
            (IsGot secure_rules (state_in self.old) key.now (length buf.old)) }
        ensures own { IfOk result (λ got. OwnsWhole self.old.root key.now
            (R.state self.old.rollback) offset got buf.new) }
        ensures number { self.new.iv ≡ self.old.iv }
        ensures stop { self.new.stopped ≡ self.old.stopped }
    {
        match key_of(key) {
            Ok(key) => self.read(&key, offset, buf),
            Err(refusal) => Err(refusal),
        }
    }

    /// Reads a value from `offset` on into `buf`, as much as there is and fits; the rest of `buf`
    /// is 0. The whole record is read once and checked before a byte is given: after a refusal
    /// every byte of `buf` is 0. It takes no memory.
    ///
    /// What is read of a key that is write-once or protected from replay has the tag that the
    /// rollback store holds, whatever the primary store tells.
    pub fn get(&mut self, key: &[u8], offset: u32, buf: &mut [u8]) -> Result<Got, KvError>
        ensures answers { (who : ℕ) → Answers secure_rules (state_in self.old) (state_in self.new)
            (answered who (Part key.now offset (length buf.old)) (got_or result buf.new)) }
        ensures got { IfOk result
            (IsGot secure_rules (state_in self.old) key.now (length buf.old)) }
        ensures zeros { AreZerosFrom (read_end result) buf.new }
        ensures own { IfOk result (λ got. OwnsWhole self.old.root key.now
            (R.state self.old.rollback) offset got buf.new) }
        ensures stopped { StaysStopped self.old.stopped self.new.stopped result }
        ensures number { self.new.iv ≡ self.old.iv }
        ensures stop { self.new.stopped ≡ self.old.stopped }
    {
        if self.stopped.is_some() {
            clear_from(buf, 0);
            return Err(KvError::Stopped);
        }
        match self.read_any(key, offset, buf) {
            Ok(got) => {
                clear_from(buf, got.read as usize);
                Ok(got)
            }
            Err(refusal) => {
                clear_from(buf, 0);
                Err(refusal)
            }
        }
    }

    // What a key shows, without a byte of its value.
    fn describe(&mut self, key: &Key) -> Result<Info, KvError>
        requires { is_none self.old.stopped ≡ true }
        ensures answers { (who : ℕ) → Answers secure_rules (state_in self.old) (state_in self.new)
            (answered who (InfoOf key.now) (facts_or result)) }
        ensures number { self.new.iv ≡ self.old.iv }
        ensures stop { self.new.stopped ≡ self.old.stopped }
    {
        let (primary, rollback) = (&mut self.primary, &mut self.rollback);
        match view_key(primary, rollback, &self.root, key, 0, &mut []) {
            Ok(found) => Ok(Info {
                flags: found.flags,
                size: found.size,
            }),
            Err(refusal) => Err(refusal),
        }
    }

    /// The size and the flags of a value, once its whole record is read and checked. It takes no
    /// memory.
    pub fn info(&mut self, key: &[u8]) -> Result<Info, KvError>
        ensures answers { (who : ℕ) → Answers secure_rules (state_in self.old) (state_in self.new)
            (answered who (InfoOf key.now) (facts_or result)) }
        ensures stopped { StaysStopped self.old.stopped self.new.stopped result }
        ensures number { self.new.iv ≡ self.old.iv }
        ensures stop { self.new.stopped ≡ self.old.stopped }
    {
        if self.stopped.is_some() {
            return Err(KvError::Stopped);
        }
        match key_of(key) {
            Ok(key) => self.describe(&key),
            Err(refusal) => Err(refusal),
        }
    }
}
