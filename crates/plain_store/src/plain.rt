// The store, and its calls that write nothing. Each says what it needs of the store.
ghost use Rattle.std.specs.Prelude.{◌≡◌, ℕ, length, is_some, true, false, None, Some, IfOk, MatchResult};
ghost use Rattle.kv_model.specs.declared.error.KvError.TheVariants.{NoSet, Stopped as StoppedError};
ghost use Rattle.kv_model.specs.Given.{AreZerosFrom, IsGot, done_or, facts_or, found_end, found_or, got_or, read_end};
ghost use Rattle.kv_model.specs.Kv.{answered};
ghost use Rattle.kv_model.specs.Operations.{Abort, CloseIterator, Info as InfoOf, Next, OpenIterator, Part};
ghost use Rattle.kv_model.specs.PlainStep.{plain_rules};
ghost use Rattle.tdb_read.specs.Reads.{IsChecked};
ghost use Rattle.tdb_read.specs.Views.{Ready, view_of};
ghost use Rattle.plain_store.specs.Sets.{owns, taken};
ghost use Rattle.plain_store.specs.Stores.{CallsBy, Is, state_of, store_view};

use crate::ActiveSet;
use flash_core::Flash;
use kv_model::{Got, Info, KvError};
use store_note::Noted;
use tdb_read::MountedLog;

/// A plain store over a device: its log, what is active, and whether a failed write stopped it.
#[derive(Drop)]
pub struct PlainStore<F: Flash> {
    pub log: MountedLog<F>,
    pub active: Option<ActiveSet>,
    pub stopped: Option<Noted>,
}

impl<F: Flash> PlainStore<F> {
    // A log that was mounted, as a store.
    pub(crate) fn over(log: MountedLog<F>) -> PlainStore<F>
        requires ready { Ready F.state log }
        ensures is { Is F.state result }
        ensures log { result.log ≡ log }
        ensures free { result.active ≡ None }
        ensures runs { result.stopped ≡ None }
    {
        PlainStore {
            log,
            active: None,
            stopped: None,
        }
    }

    // Whether no failed write stopped the store.
    pub(crate) fn check_running(&self) -> Result<(), KvError>
        ensures { MatchResult result (λ done. self.now.stopped ≡ None)
            (λ e. (e ≡ StoppedError) × (is_some self.now.stopped ≡ true)) }
    {
        match &self.stopped {
            None => Ok(()),
            Some(_) => Err(KvError::Stopped),
        }
    }

    // Whether the caller's own set is active.
    pub(crate) fn check_owner(&self, who: u8) -> Result<(), KvError>
        ensures { MatchResult result (λ done. owns self.now.active who ≡ true)
            (λ e. (e ≡ NoSet) × (owns self.now.active who ≡ false)) }
    {
        match &self.active {
            None => Err(KvError::NoSet),
            Some(active) => {
                if active.owner != who {
                    return Err(KvError::NoSet);
                }
                Ok(())
            }
        }
    }

    // Whether no set is active.
    pub(crate) fn check_free(&self, who: u8) -> Result<(), KvError>
        ensures { MatchResult result (λ done. self.now.active ≡ None)
            (λ e. taken self.now.active who ≡ Some e) }
    {
        match &self.active {
            None => Ok(()),
            Some(active) => {
                if active.owner == who {
                    return Err(KvError::SetOpen);
                }
                Err(KvError::Busy {
                    owner: active.owner,
                })
            }
        }
    }

    pub fn get(&mut self, key: &[u8], offset: u32, buf: &mut [u8]) -> Result<Got, KvError>
        requires is { Is F.state self.old }
        ensures is { Is F.state self.new }
        ensures answers { (who : ℕ) → CallsBy F.state self.old self.new
            (answered who (Part key.now offset (length buf.old)) (got_or result buf.new)) }
        ensures got { IfOk result (IsGot plain_rules (state_of (store_view F.state self.old))
            key.now (length buf.old)) }
        ensures checked { IfOk result (IsChecked (view_of F.state self.old.log) offset buf.new) }
        ensures zeros { AreZerosFrom (read_end result) buf.new }
    {
        buf.fill(0);
        self.check_running()?;
        self.log.get(key, offset, buf)
    }

    pub fn info(&mut self, key: &[u8]) -> Result<Info, KvError>
        requires is { Is F.state self.old }
        ensures is { Is F.state self.new }
        ensures answers { (who : ℕ) → CallsBy F.state self.old self.new
            (answered who (InfoOf key.now) (facts_or result)) }
    {
        self.check_running()?;
        self.log.info(key)
    }

    pub fn next(&mut self, who: u8, n: u8, out: &mut [u8; 128]) -> Result<Option<u8>, KvError>
        requires is { Is F.state self.old }
        ensures is { Is F.state self.new }
        ensures answers { CallsBy F.state self.old self.new
            (answered who (Next n) (found_or result out.new)) }
        ensures zeros { AreZerosFrom (found_end result) out.new }
    {
        out.fill(0);
        self.check_running()?;
        self.log.next(who, n, out)
    }

    pub fn iter_open(&mut self, who: u8, n: u8, prefix: &[u8]) -> Result<(), KvError>
        requires is { Is F.state self.old }
        ensures is { Is F.state self.new }
        ensures answers { CallsBy F.state self.old self.new
            (answered who (OpenIterator n prefix.now) (done_or result)) }
    {
        self.check_running()?;
        self.log.iter_open(who, n, prefix)
    }

    pub fn iter_close(&mut self, who: u8, n: u8) -> Result<(), KvError>
        requires is { Is F.state self.old }
        ensures is { Is F.state self.new }
        ensures answers { CallsBy F.state self.old self.new
            (answered who (CloseIterator n) (done_or result)) }
    {
        self.check_running()?;
        self.log.iter_close(who, n)
    }

    pub fn set_abort(&mut self, who: u8) -> Result<(), KvError>
        requires is { Is F.state self.old }
        ensures is { Is F.state self.new }
        ensures answers { CallsBy F.state self.old self.new
            (answered who Abort (done_or result)) }
    {
        self.check_running()?;
        self.check_owner(who)?;
        self.active = None;
        Ok(())
    }
}
