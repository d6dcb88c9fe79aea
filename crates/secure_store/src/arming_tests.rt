// The arming of each side, over two stores that keep how they were armed.
ghost use Rattle.kv_memory.specs.Silent.{silent_is_lawful, silent_state};
ghost use Rattle.kv_model.proofs.RulesLemmas.{plain_are_rules};
ghost use Rattle.kv_model.specs.PlainStep.{plain_rules};
ghost use Rattle.sealed_pair.specs.Store.{IsFreshStore};

use crate::SecureStore;
use crate::tests::ROOT;
use kv_memory::SilentStore;
use kv_model::{Armable, Flags, Got, Info, Kv, KvError, NoMemory, Pattern};
use std::alloc::Global;
use std::test::Fail;

// How a device was armed.
type Armed = Option<(u32, Pattern)>;

// A store that tells nothing, and keeps how its device was armed.
#[derive(Drop)]
struct Marked {
    inner: SilentStore,
    armed: Armed,
}

impl Marked {
    fn new(alloc: Global) -> Marked
        ensures { IsFreshStore plain_rules (silent_state result.inner.read_faults
            result.inner.write_faults) }
    {
        Marked {
            inner: SilentStore::new(Vec::new(alloc)),
            armed: None,
        }
    }
}

impl Kv for Marked {
    ghost rules_by = { plain_rules };

    ghost state = { λ store. silent_state store.inner.read_faults store.inner.write_faults };

    fn get(&mut self, key: &[u8], offset: u32, buf: &mut [u8]) -> Result<Got, KvError> {
        self.inner.get(key, offset, buf)
    }

    fn info(&mut self, key: &[u8]) -> Result<Info, KvError> {
        self.inner.info(key)
    }

    fn set(&mut self, who: u8, key: &[u8], value: &[u8], flags: Flags) -> Result<(), KvError> {
        self.inner.set(who, key, value, flags)
    }

    fn set_start(&mut self, who: u8, key: &[u8], size: u32, flags: Flags) -> Result<(), KvError> {
        self.inner.set_start(who, key, size, flags)
    }

    fn remove_start(&mut self, who: u8, key: &[u8]) -> Result<(), KvError> {
        self.inner.remove_start(who, key)
    }

    fn set_add(&mut self, who: u8, value: &[u8]) -> Result<(), KvError> {
        self.inner.set_add(who, value)
    }

    fn set_finish(&mut self, who: u8) -> Result<(), KvError> {
        self.inner.set_finish(who)
    }

    fn set_abort(&mut self, who: u8) -> Result<(), KvError> {
        self.inner.set_abort(who)
    }

    fn remove(&mut self, who: u8, key: &[u8]) -> Result<(), KvError> {
        self.inner.remove(who, key)
    }

    fn reset(&mut self, who: u8) -> Result<(), KvError> {
        self.inner.reset(who)
    }

    fn iter_open(&mut self, who: u8, n: u8, prefix: &[u8]) -> Result<(), KvError> {
        self.inner.iter_open(who, n, prefix)
    }

    fn next(&mut self, who: u8, n: u8, out: &mut [u8; 128]) -> Result<Option<u8>, KvError> {
        self.inner.next(who, n, out)
    }

    fn iter_close(&mut self, who: u8, n: u8) -> Result<(), KvError> {
        self.inner.iter_close(who, n)
    }

    ghost lawful = { λ store. silent_is_lawful store.inner.read_faults store.inner.write_faults };

    ghost by_rules = { plain_are_rules };
}

impl Armable for Marked {
    fn arm(&mut self, _alloc: Global, n: u32, pattern: Pattern) -> Result<(), NoMemory> {
        self.armed = Some((n, pattern));
        Ok(())
    }
}

// How the primary device is armed first, and then the rollback device.
const CASES: [(u32, Pattern, u32, Pattern); 4] = [
    (1, Pattern::None, 2, Pattern::All),
    (3, Pattern::Half, 1, Pattern::Zero),
    (7, Pattern::Mix { seed: 5 }, 7, Pattern::Mix { seed: 6 }),
    (u32::MAX, Pattern::All, 4, Pattern::None),
];

// Where memory is ample each device is armed as it was asked for, and the other one stays.
#[test]
fn each_device_is_armed_alone(rt: HostRuntime) -> Result<(), Fail> {
    for (above, first, below, second) in CASES.iter() {
        let alloc = rt.alloc();
        assert!(rt; *above >= 1 && *below >= 1);
        let mut store = SecureStore::new(Marked::new(alloc), Marked::new(alloc), &ROOT, 1);
        assert_eq!(rt; store.arm_primary(alloc, *above, *first), Ok(()));
        assert_eq!(rt; store.primary().armed, Some((*above, *first)));
        assert_eq!(rt; store.rollback().armed, None);
        assert_eq!(rt; store.arm_rollback(alloc, *below, *second), Ok(()));
        assert_eq!(rt; store.primary().armed, Some((*above, *first)));
        assert_eq!(rt; store.rollback().armed, Some((*below, *second)));
        let (_, _) = store.into_parts();
    }
    Ok(())
}
