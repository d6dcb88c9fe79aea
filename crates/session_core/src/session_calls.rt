// The calls of a session: each is that of its store, and while none is mounted it is refused.
ghost use Rattle.std.specs.Prelude.{ℕ, IfOk, length};
ghost use Rattle.kv_model.proofs.RulesLemmas.{plain_are_rules};
ghost use Rattle.kv_model.specs.Given.{AreZerosFrom, IsGot, done_or, facts_or, found_end, found_or, got_or, read_end};
ghost use Rattle.kv_model.specs.Kv.{answered};
ghost use Rattle.kv_model.specs.Operations.{Abort, Add, CloseIterator, Finish, Info as InfoOf, Next, OpenIterator, Part, Remove, RemoveStart, Reset, Set, Start};
ghost use Rattle.session_core.specs.Backing.{session_rules};
ghost use Rattle.session_core.specs.Calling.{CallsBy, IsStoppedBy};
ghost use Rattle.session_core.specs.Laws.{session_is_lawful};
ghost use Rattle.session_core.specs.Views.{state_in};

use crate::Session;
use kv_model::{Flags, Got, Info, Kv, KvError};

impl Kv for Session {
    ghost rules_by = { session_rules };

    ghost state = { state_in };

    #[tactic(auto, using(crate::proofs::CallLemmas::kept_bits, crate::proofs::CallLemmas::refused))]
    fn get(&mut self, key: &[u8], offset: u32, buf: &mut [u8]) -> Result<Got, KvError>
        ensures answers { (who : ℕ) → CallsBy self.old self.new
            (answered who (Part key.now offset (length buf.old)) (got_or result buf.new)) }
        ensures got { IfOk result (IsGot session_rules (state_in self.old) key.now (length buf.old)) }
        ensures zeros { AreZerosFrom (read_end result) buf.new }
        ensures unmounted { IsStoppedBy self.old result }
    {
        match &mut self.store {
            Some(store) => store.get(key, offset, buf),
            None => {
                buf.fill(0);
                Err(KvError::Stopped)
            }
        }
    }

    #[tactic(auto, using(crate::proofs::CallLemmas::kept_bits, crate::proofs::CallLemmas::refused))]
    fn info(&mut self, key: &[u8]) -> Result<Info, KvError>
        ensures answers { (who : ℕ) → CallsBy self.old self.new
            (answered who (InfoOf key.now) (facts_or result)) }
        ensures unmounted { IsStoppedBy self.old result }
    {
        match &mut self.store {
            Some(store) => store.info(key),
            None => Err(KvError::Stopped),
        }
    }

    #[tactic(auto, using(crate::proofs::CallLemmas::kept_bits, crate::proofs::CallLemmas::refused))]
    fn set(&mut self, who: u8, key: &[u8], value: &[u8], flags: Flags) -> Result<(), KvError>
        ensures answers { CallsBy self.old self.new
            (answered who (Set key.now value.now flags.bits) (done_or result)) }
        ensures unmounted { IsStoppedBy self.old result }
    {
        match &mut self.store {
            Some(store) => store.set(who, key, value, flags),
            None => Err(KvError::Stopped),
        }
    }

    #[tactic(auto, using(crate::proofs::CallLemmas::kept_bits, crate::proofs::CallLemmas::refused))]
    fn set_start(&mut self, who: u8, key: &[u8], size: u32, flags: Flags) -> Result<(), KvError>
        ensures answers { CallsBy self.old self.new
            (answered who (Start key.now size flags.bits) (done_or result)) }
        ensures unmounted { IsStoppedBy self.old result }
    {
        match &mut self.store {
            Some(store) => store.set_start(who, key, size, flags),
            None => Err(KvError::Stopped),
        }
    }

    #[tactic(auto, using(crate::proofs::CallLemmas::kept_bits, crate::proofs::CallLemmas::refused))]
    fn remove_start(&mut self, who: u8, key: &[u8]) -> Result<(), KvError>
        ensures answers { CallsBy self.old self.new
            (answered who (RemoveStart key.now) (done_or result)) }
        ensures unmounted { IsStoppedBy self.old result }
    {
        match &mut self.store {
            Some(store) => store.remove_start(who, key),
            None => Err(KvError::Stopped),
        }
    }

    #[tactic(auto, using(crate::proofs::CallLemmas::kept_bits, crate::proofs::CallLemmas::refused))]
    fn set_add(&mut self, who: u8, value: &[u8]) -> Result<(), KvError>
        ensures answers { CallsBy self.old self.new
            (answered who (Add value.now) (done_or result)) }
        ensures unmounted { IsStoppedBy self.old result }
    {
        match &mut self.store {
            Some(store) => store.set_add(who, value),
            None => Err(KvError::Stopped),
        }
    }

    #[tactic(auto, using(crate::proofs::CallLemmas::kept_bits, crate::proofs::CallLemmas::refused))]
    fn set_finish(&mut self, who: u8) -> Result<(), KvError>
        ensures answers { CallsBy self.old self.new
            (answered who Finish (done_or result)) }
        ensures unmounted { IsStoppedBy self.old result }
    {
        match &mut self.store {
            Some(store) => store.set_finish(who),
            None => Err(KvError::Stopped),
        }
    }

    #[tactic(auto, using(crate::proofs::CallLemmas::kept_bits, crate::proofs::CallLemmas::refused))]
    fn set_abort(&mut self, who: u8) -> Result<(), KvError>
        ensures answers { CallsBy self.old self.new
            (answered who Abort (done_or result)) }
        ensures unmounted { IsStoppedBy self.old result }
    {
        match &mut self.store {
            Some(store) => store.set_abort(who),
            None => Err(KvError::Stopped),
        }
    }

    #[tactic(auto, using(crate::proofs::CallLemmas::kept_bits, crate::proofs::CallLemmas::refused))]
    fn remove(&mut self, who: u8, key: &[u8]) -> Result<(), KvError>
        ensures answers { CallsBy self.old self.new
            (answered who (Remove key.now) (done_or result)) }
        ensures unmounted { IsStoppedBy self.old result }
    {
        match &mut self.store {
            Some(store) => store.remove(who, key),
            None => Err(KvError::Stopped),
        }
    }

    #[tactic(auto, using(crate::proofs::CallLemmas::kept_bits, crate::proofs::CallLemmas::refused))]
    fn reset(&mut self, who: u8) -> Result<(), KvError>
        ensures answers { CallsBy self.old self.new
            (answered who Reset (done_or result)) }
        ensures unmounted { IsStoppedBy self.old result }
    {
        match &mut self.store {
            Some(store) => store.reset(who),
            None => Err(KvError::Stopped),
        }
    }

    #[tactic(auto, using(crate::proofs::CallLemmas::kept_bits, crate::proofs::CallLemmas::refused))]
    fn iter_open(&mut self, who: u8, n: u8, prefix: &[u8]) -> Result<(), KvError>
        ensures answers { CallsBy self.old self.new
            (answered who (OpenIterator n prefix.now) (done_or result)) }
        ensures unmounted { IsStoppedBy self.old result }
    {
        match &mut self.store {
            Some(store) => store.iter_open(who, n, prefix),
            None => Err(KvError::Stopped),
        }
    }

    #[tactic(auto, using(crate::proofs::CallLemmas::kept_bits, crate::proofs::CallLemmas::refused))]
    fn next(&mut self, who: u8, n: u8, out: &mut [u8; 128]) -> Result<Option<u8>, KvError>
        ensures answers { CallsBy self.old self.new
            (answered who (Next n) (found_or result out.new)) }
        ensures zeros { AreZerosFrom (found_end result) out.new }
        ensures unmounted { IsStoppedBy self.old result }
    {
        match &mut self.store {
            Some(store) => store.next(who, n, out),
            None => {
                out.fill(0);
                Err(KvError::Stopped)
            }
        }
    }

    #[tactic(auto, using(crate::proofs::CallLemmas::kept_bits, crate::proofs::CallLemmas::refused))]
    fn iter_close(&mut self, who: u8, n: u8) -> Result<(), KvError>
        ensures answers { CallsBy self.old self.new
            (answered who (CloseIterator n) (done_or result)) }
        ensures unmounted { IsStoppedBy self.old result }
    {
        match &mut self.store {
            Some(store) => store.iter_close(who, n),
            None => Err(KvError::Stopped),
        }
    }

    ghost lawful = { λ session.
        session_is_lawful session.hash_bits session.store session.chips };

    ghost by_rules = { plain_are_rules };
}
