// The calls of the plain store: each is that of the store inside, which keeps its invariant.
ghost use Rattle.std.specs.Prelude.{◌≡◌, ◌≤◌, ℕ, length, IfOk};
ghost use Rattle.kv_model.proofs.RulesLemmas.{plain_are_rules};
ghost use Rattle.kv_model.specs.Given.{AreZerosFrom, IsGot, done_or, got_or, read_end};
ghost use Rattle.kv_model.specs.Kv.{answered};
ghost use Rattle.kv_model.specs.Operations.{Add, Finish, Part, Remove, RemoveStart, Reset, Set, Start};
ghost use Rattle.kv_model.specs.PlainStep.{plain_rules};
ghost use Rattle.plain_store.proofs.KeptLemmas.{kept_is_lawful};
ghost use Rattle.plain_store.specs.Fed.{StandsSoFar};
ghost use Rattle.plain_store.specs.Moments.{CutsBy};
ghost use Rattle.plain_store.specs.Stores.{CallsBy, state_of, store_view};
ghost use Rattle.tdb_read.specs.Reads.{IsChecked};
ghost use Rattle.tdb_read.specs.Views.{view_of};

use crate::TdbStore;
use flash_core::Flash;
use kv_model::{Flags, Got, Info, Kv, KvError};

impl<F: Flash> Kv for TdbStore<F> {
    ghost rules_by = { plain_rules };

    ghost state = { λ store. state_of (store_view F.state store.store) };

    /// Also over a device that tells nothing, no byte is given whose CRC was not checked.
    #[tactic(auto, using(plain_store::proofs::RestoredLemmas::is_kept))]
    fn get(&mut self, key: &[u8], offset: u32, buf: &mut [u8]) -> Result<Got, KvError>
        ensures answers { (who : ℕ) → CallsBy F.state self.old.store self.new.store
            (answered who (Part key.now offset (length buf.old)) (got_or result buf.new)) }
        ensures got { IfOk result (IsGot plain_rules (state_of (store_view F.state self.old.store))
            key.now (length buf.old)) }
        ensures checked { IfOk result
            (IsChecked (view_of F.state self.old.store.log) offset buf.new) }
        ensures zeros { AreZerosFrom (read_end result) buf.new }
    {
        self.store.get(key, offset, buf)
    }

    #[tactic(auto, using(plain_store::proofs::RestoredLemmas::is_kept))]
    fn info(&mut self, key: &[u8]) -> Result<Info, KvError> {
        self.store.info(key)
    }

    #[tactic(auto, using(plain_store::proofs::RestoredLemmas::is_kept))]
    fn set(&mut self, who: u8, key: &[u8], value: &[u8], flags: Flags) -> Result<(), KvError>
        ensures answers { CallsBy F.state self.old.store self.new.store
            (answered who (Set key.now value.now flags.bits) (done_or result)) }
        ensures moments { CutsBy F.state self.old.store self.new.store who
            (Set key.now value.now flags.bits) }
    {
        self.store.set(who, key, value, flags)
    }

    #[tactic(auto, using(plain_store::proofs::RestoredLemmas::is_kept))]
    fn set_start(&mut self, who: u8, key: &[u8], size: u32, flags: Flags) -> Result<(), KvError>
        ensures answers { CallsBy F.state self.old.store self.new.store
            (answered who (Start key.now size flags.bits) (done_or result)) }
        ensures moments { CutsBy F.state self.old.store self.new.store who
            (Start key.now size flags.bits) }
    {
        self.store.set_start(who, key, size, flags)
    }

    #[tactic(auto, using(plain_store::proofs::RestoredLemmas::is_kept))]
    fn remove_start(&mut self, who: u8, key: &[u8]) -> Result<(), KvError>
        ensures answers { CallsBy F.state self.old.store self.new.store
            (answered who (RemoveStart key.now) (done_or result)) }
        ensures moments { CutsBy F.state self.old.store self.new.store who
            (RemoveStart key.now) }
    {
        self.store.remove_start(who, key)
    }

    #[tactic(auto, using(plain_store::proofs::RestoredLemmas::is_kept))]
    fn set_add(&mut self, who: u8, value: &[u8]) -> Result<(), KvError>
        ensures answers { CallsBy F.state self.old.store self.new.store
            (answered who (Add value.now) (done_or result)) }
        ensures moments { CutsBy F.state self.old.store self.new.store who
            (Add value.now) }
        ensures long_writer { 1 ≤ length value.now → IfOk result (λ done.
            StandsSoFar F.state self.new.store) }
    {
        self.store.set_add(who, value)
    }

    #[tactic(auto, using(plain_store::proofs::RestoredLemmas::is_kept))]
    fn set_finish(&mut self, who: u8) -> Result<(), KvError>
        ensures answers { CallsBy F.state self.old.store self.new.store
            (answered who Finish (done_or result)) }
        ensures moments { CutsBy F.state self.old.store self.new.store who
            Finish }
    {
        self.store.set_finish(who)
    }

    #[tactic(auto, using(plain_store::proofs::RestoredLemmas::is_kept))]
    fn set_abort(&mut self, who: u8) -> Result<(), KvError> {
        self.store.set_abort(who)
    }

    #[tactic(auto, using(plain_store::proofs::RestoredLemmas::is_kept))]
    fn remove(&mut self, who: u8, key: &[u8]) -> Result<(), KvError>
        ensures answers { CallsBy F.state self.old.store self.new.store
            (answered who (Remove key.now) (done_or result)) }
        ensures moments { CutsBy F.state self.old.store self.new.store who
            (Remove key.now) }
    {
        self.store.remove(who, key)
    }

    #[tactic(auto, using(plain_store::proofs::RestoredLemmas::is_kept))]
    fn reset(&mut self, who: u8) -> Result<(), KvError>
        ensures answers { CallsBy F.state self.old.store self.new.store
            (answered who Reset (done_or result)) }
        ensures moments { CutsBy F.state self.old.store self.new.store who
            Reset }
    {
        self.store.reset(who)
    }

    #[tactic(auto, using(plain_store::proofs::RestoredLemmas::is_kept))]
    fn iter_open(&mut self, who: u8, n: u8, prefix: &[u8]) -> Result<(), KvError> {
        self.store.iter_open(who, n, prefix)
    }

    #[tactic(auto, using(plain_store::proofs::RestoredLemmas::is_kept))]
    fn next(&mut self, who: u8, n: u8, out: &mut [u8; 128]) -> Result<Option<u8>, KvError> {
        self.store.next(who, n, out)
    }

    #[tactic(auto, using(plain_store::proofs::RestoredLemmas::is_kept))]
    fn iter_close(&mut self, who: u8, n: u8) -> Result<(), KvError> {
        self.store.iter_close(who, n)
    }

    ghost lawful = { λ store. kept_is_lawful F.state F.lawful store.store store.kept };

    ghost by_rules = { plain_are_rules };
}
