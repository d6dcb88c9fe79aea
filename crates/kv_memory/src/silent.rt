// A store that tells nothing, and fails as it is told to.
ghost use Rattle.std.specs.Prelude.{◌≡◌, IsTrue};
ghost use Rattle.kv_model.specs.Given.{done_or};
ghost use Rattle.kv_model.specs.Kv.{kind_of};
ghost use Rattle.kv_model.specs.PlainStep.{plain_rules};
ghost use Rattle.kv_model.proofs.RulesLemmas.{plain_are_rules};
ghost use Rattle.kv_memory.specs.Silent.{Counts, may_end_so, silent_is_lawful, silent_state};

use kv_model::{Flags, Got, Info, Kv, KvError};

/// A store that tells neither its state nor its log nor moments, so that a layer above has to cope
/// with any answer. It holds no key, and each call is refused with the next of the refusals that it
/// was made with, where a call of that kind may be refused so.
#[derive(Debug, Drop)]
pub struct SilentStore {
    refusals: Vec<KvError>,
    read_faults: u64,
    write_faults: u64,
}

impl SilentStore {
    /// A store that refuses calls with these refusals, the last first. It takes no memory.
    pub fn new(refusals: Vec<KvError>) -> SilentStore {
        SilentStore {
            refusals,
            read_faults: 0,
            write_faults: 0,
        }
    }

    // The next refusal, where it is one of a call that reads, writes or takes memory.
    fn refused(&mut self, reads: bool, writes: bool, takes_memory: bool) -> Result<(), KvError>
        ensures counts { Counts self.old.read_faults self.old.write_faults
            self.new.read_faults self.new.write_faults (done_or result) }
        ensures may_end { IsTrue (may_end_so reads writes takes_memory (kind_of (done_or result))) }
    {
        let Some(refusal) = self.refusals.pop() else {
            return Ok(());
        };
        match refusal {
            KvError::ReadFault => {
                if !reads {
                    return Ok(());
                }
                self.read_faults = self.read_faults.saturating_add(1);
                Err(KvError::ReadFault)
            }
            KvError::WriteFault => {
                if !writes {
                    return Ok(());
                }
                self.write_faults = self.write_faults.saturating_add(1);
                Err(KvError::WriteFault)
            }
            KvError::Corrupt { stored, computed } => {
                if !reads || stored == computed {
                    return Ok(());
                }
                Err(KvError::Corrupt { stored, computed })
            }
            KvError::Memory => {
                if !takes_memory {
                    return Ok(());
                }
                Err(KvError::Memory)
            }
            refusal => Err(refusal),
        }
    }
}

impl Kv for SilentStore {
    ghost rules_by = { plain_rules };

    ghost state = { λ store. silent_state store.read_faults store.write_faults };

    fn get(&mut self, _key: &[u8], _offset: u32, buf: &mut [u8]) -> Result<Got, KvError> {
        buf.fill(0);
        match self.refused(true, false, false) {
            Ok(()) => Ok(Got {
                flags: Flags::NONE,
                size: 0,
                read: 0,
            }),
            Err(refusal) => Err(refusal),
        }
    }

    fn info(&mut self, _key: &[u8]) -> Result<Info, KvError> {
        match self.refused(true, false, false) {
            Ok(()) => Ok(Info {
                flags: Flags::NONE,
                size: 0,
            }),
            Err(refusal) => Err(refusal),
        }
    }

    fn set(&mut self, _who: u8, _key: &[u8], _value: &[u8], _flags: Flags) -> Result<(), KvError> {
        self.refused(true, true, true)
    }

    fn set_start(
        &mut self,
        _who: u8,
        _key: &[u8],
        _size: u32,
        _flags: Flags,
    ) -> Result<(), KvError> {
        self.refused(true, true, true)
    }

    fn remove_start(&mut self, _who: u8, _key: &[u8]) -> Result<(), KvError> {
        self.refused(true, true, false)
    }

    fn set_add(&mut self, _who: u8, _value: &[u8]) -> Result<(), KvError> {
        self.refused(false, true, false)
    }

    fn set_finish(&mut self, _who: u8) -> Result<(), KvError> {
        self.refused(false, true, false)
    }

    fn set_abort(&mut self, _who: u8) -> Result<(), KvError> {
        self.refused(false, false, false)
    }

    fn remove(&mut self, _who: u8, _key: &[u8]) -> Result<(), KvError> {
        self.refused(true, true, false)
    }

    fn reset(&mut self, _who: u8) -> Result<(), KvError> {
        self.refused(false, true, false)
    }

    fn iter_open(&mut self, _who: u8, _n: u8, _prefix: &[u8]) -> Result<(), KvError> {
        self.refused(false, false, true)
    }

    fn next(&mut self, _who: u8, _n: u8, out: &mut [u8; 128]) -> Result<Option<u8>, KvError> {
        out.fill(0);
        match self.refused(true, false, false) {
            Ok(()) => Ok(None),
            Err(refusal) => Err(refusal),
        }
    }

    fn iter_close(&mut self, _who: u8, _n: u8) -> Result<(), KvError> {
        self.refused(false, false, false)
    }

    ghost lawful = { λ store. silent_is_lawful store.read_faults store.write_faults };

    ghost by_rules = { plain_are_rules };
}
