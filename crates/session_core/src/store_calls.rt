// The calls of a session's store: each is that of its one or its other kind.
ghost use Rattle.kv_model.proofs.RulesLemmas.{plain_are_rules};
ghost use Rattle.session_core.specs.Backing.{session_rules, told_by};
ghost use Rattle.session_core.specs.Laws.{store_is_lawful};

use crate::backing::Store;
use kv_model::{Flags, Got, Info, Kv, KvError};

impl Kv for Store {
    ghost rules_by = { session_rules };

    ghost state = { told_by };

    fn get(&mut self, key: &[u8], offset: u32, buf: &mut [u8]) -> Result<Got, KvError> {
        match self {
            Store::Plain(store) => store.get(key, offset, buf),
        }
    }

    fn info(&mut self, key: &[u8]) -> Result<Info, KvError> {
        match self {
            Store::Plain(store) => store.info(key),
        }
    }

    fn set(&mut self, who: u8, key: &[u8], value: &[u8], flags: Flags) -> Result<(), KvError> {
        match self {
            Store::Plain(store) => store.set(who, key, value, flags),
        }
    }

    fn set_start(&mut self, who: u8, key: &[u8], size: u32, flags: Flags) -> Result<(), KvError> {
        match self {
            Store::Plain(store) => store.set_start(who, key, size, flags),
        }
    }

    fn remove_start(&mut self, who: u8, key: &[u8]) -> Result<(), KvError> {
        match self {
            Store::Plain(store) => store.remove_start(who, key),
        }
    }

    fn set_add(&mut self, who: u8, value: &[u8]) -> Result<(), KvError> {
        match self {
            Store::Plain(store) => store.set_add(who, value),
        }
    }

    fn set_finish(&mut self, who: u8) -> Result<(), KvError> {
        match self {
            Store::Plain(store) => store.set_finish(who),
        }
    }

    fn set_abort(&mut self, who: u8) -> Result<(), KvError> {
        match self {
            Store::Plain(store) => store.set_abort(who),
        }
    }

    fn remove(&mut self, who: u8, key: &[u8]) -> Result<(), KvError> {
        match self {
            Store::Plain(store) => store.remove(who, key),
        }
    }

    fn reset(&mut self, who: u8) -> Result<(), KvError> {
        match self {
            Store::Plain(store) => store.reset(who),
        }
    }

    fn iter_open(&mut self, who: u8, n: u8, prefix: &[u8]) -> Result<(), KvError> {
        match self {
            Store::Plain(store) => store.iter_open(who, n, prefix),
        }
    }

    fn next(&mut self, who: u8, n: u8, out: &mut [u8; 128]) -> Result<Option<u8>, KvError> {
        match self {
            Store::Plain(store) => store.next(who, n, out),
        }
    }

    fn iter_close(&mut self, who: u8, n: u8) -> Result<(), KvError> {
        match self {
            Store::Plain(store) => store.iter_close(who, n),
        }
    }

    ghost lawful = { store_is_lawful };

    ghost by_rules = { plain_are_rules };
}
