// The calls of a pair: each is that of its store, which keeps what a mount needs.
ghost use Rattle.sealed_pair.proofs.RulesLemmas.{secure_are_rules};
ghost use Rattle.sealed_pair.specs.SecureStep.{secure_rules};
ghost use Rattle.chip_stores.specs.Laws.{pair_is_lawful};
ghost use Rattle.chip_stores.specs.PairViews.{told_in};

use crate::SecurePair;
use kv_model::{Flags, Got, Info, Kv, KvError};

impl Kv for SecurePair {
    ghost rules_by = { secure_rules };

    ghost state = { told_in };

    fn get(&mut self, key: &[u8], offset: u32, buf: &mut [u8]) -> Result<Got, KvError> {
        self.store.get(key, offset, buf)
    }

    fn info(&mut self, key: &[u8]) -> Result<Info, KvError> {
        self.store.info(key)
    }

    fn set(&mut self, who: u8, key: &[u8], value: &[u8], flags: Flags) -> Result<(), KvError> {
        self.store.set(who, key, value, flags)
    }

    fn set_start(&mut self, who: u8, key: &[u8], size: u32, flags: Flags) -> Result<(), KvError> {
        self.store.set_start(who, key, size, flags)
    }

    fn remove_start(&mut self, who: u8, key: &[u8]) -> Result<(), KvError> {
        self.store.remove_start(who, key)
    }

    fn set_add(&mut self, who: u8, value: &[u8]) -> Result<(), KvError> {
        self.store.set_add(who, value)
    }

    fn set_finish(&mut self, who: u8) -> Result<(), KvError> {
        self.store.set_finish(who)
    }

    fn set_abort(&mut self, who: u8) -> Result<(), KvError> {
        self.store.set_abort(who)
    }

    fn remove(&mut self, who: u8, key: &[u8]) -> Result<(), KvError> {
        self.store.remove(who, key)
    }

    fn reset(&mut self, who: u8) -> Result<(), KvError> {
        self.store.reset(who)
    }

    fn iter_open(&mut self, who: u8, n: u8, prefix: &[u8]) -> Result<(), KvError> {
        self.store.iter_open(who, n, prefix)
    }

    fn next(&mut self, who: u8, n: u8, out: &mut [u8; 128]) -> Result<Option<u8>, KvError> {
        self.store.next(who, n, out)
    }

    fn iter_close(&mut self, who: u8, n: u8) -> Result<(), KvError> {
        self.store.iter_close(who, n)
    }

    ghost lawful = { pair_is_lawful };

    ghost by_rules = { secure_are_rules };
}
