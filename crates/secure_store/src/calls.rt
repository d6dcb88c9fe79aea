// A secure store as a store, so that what stands above one goes by one interface.
ghost use Rattle.sealed_pair.proofs.RulesLemmas.{secure_are_rules};
ghost use Rattle.sealed_pair.specs.Active.{own_of};
ghost use Rattle.sealed_pair.specs.SecureStep.{secure_rules};
ghost use Rattle.secure_store.specs.Lawful.{secure_is_lawful};
ghost use Rattle.secure_store.specs.SecureState.{state_in};

use crate::store::SecureStore;
use kv_model::{Flags, Got, Info, Kv, KvError};

impl<U: Kv, R: Kv> Kv for SecureStore<U, R> {
    ghost rules_by = { secure_rules };

    ghost state = { state_in };

    fn get(&mut self, key: &[u8], offset: u32, buf: &mut [u8]) -> Result<Got, KvError> {
        SecureStore::get(self, key, offset, buf)
    }

    fn info(&mut self, key: &[u8]) -> Result<Info, KvError> {
        SecureStore::info(self, key)
    }

    fn set(&mut self, who: u8, key: &[u8], value: &[u8], flags: Flags) -> Result<(), KvError> {
        SecureStore::set(self, who, key, value, flags)
    }

    fn set_start(&mut self, who: u8, key: &[u8], size: u32, flags: Flags) -> Result<(), KvError> {
        SecureStore::set_start(self, who, key, size, flags)
    }

    fn remove_start(&mut self, who: u8, key: &[u8]) -> Result<(), KvError> {
        SecureStore::remove_start(self, who, key)
    }

    fn set_add(&mut self, who: u8, value: &[u8]) -> Result<(), KvError> {
        SecureStore::set_add(self, who, value)
    }

    fn set_finish(&mut self, who: u8) -> Result<(), KvError> {
        SecureStore::set_finish(self, who)
    }

    fn set_abort(&mut self, who: u8) -> Result<(), KvError> {
        SecureStore::set_abort(self, who)
    }

    fn remove(&mut self, who: u8, key: &[u8]) -> Result<(), KvError> {
        SecureStore::remove(self, who, key)
    }

    fn reset(&mut self, who: u8) -> Result<(), KvError> {
        SecureStore::reset(self, who)
    }

    fn iter_open(&mut self, who: u8, n: u8, prefix: &[u8]) -> Result<(), KvError> {
        SecureStore::iter_open(self, who, n, prefix)
    }

    fn next(&mut self, who: u8, n: u8, out: &mut [u8; 128]) -> Result<Option<u8>, KvError> {
        SecureStore::next(self, who, n, out)
    }

    fn iter_close(&mut self, who: u8, n: u8) -> Result<(), KvError> {
        SecureStore::iter_close(self, who, n)
    }

    ghost lawful = { λ store. secure_is_lawful store.root U.rules_by R.rules_by
        (U.state store.primary) (R.state store.rollback) (U.lawful store.primary)
        (R.lawful store.rollback) (own_of store.iv store.active) store.stopped store.above
        store.below store.in_doubt };

    ghost by_rules = { secure_are_rules };
}
