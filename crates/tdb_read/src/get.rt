// The value and the facts of a key.
ghost use Rattle.std.specs.Prelude.{◌≡◌, ℕ, length, Option, IfOk};
ghost use Rattle.kv_model.specs.Given.{AreZerosFrom, IsGot, facts_or, got_or, read_end};
ghost use Rattle.kv_model.specs.Kv.{answered};
ghost use Rattle.kv_model.specs.Operations.{Info as InfoOf, Part};
ghost use Rattle.kv_model.specs.PlainStep.{plain_rules};
ghost use Rattle.kv_model.specs.StoreState.{OpenSet};
ghost use Rattle.tdb_read.specs.Reads.{IsChecked};
ghost use Rattle.tdb_read.specs.States.{AnswersBy, kv_state};
ghost use Rattle.tdb_read.specs.Views.{OnlyRead, Ready, view_of};

use crate::MountedLog;
use flash_core::Flash;
use kv_model::{Flags, Got, Info, Key, KvError};

impl<F: Flash> MountedLog<F> {
    /// Reads a value from `offset` on into `buf`, as `Kv::get` of a plain store. The header and the
    /// key of each record with an equal hash are read once, up to the key's own, and then its value
    /// once. What is given of any device, also of one that tells nothing, are bytes of a value whose
    /// CRC was found right.
    pub fn get(&mut self, key: &[u8], offset: u32, buf: &mut [u8]) -> Result<Got, KvError>
        requires ready { Ready F.state self.old }
        ensures ready { Ready F.state self.new }
        ensures reads { OnlyRead F.state self.old self.new }
        ensures answers { (who : ℕ) → AnswersBy F.state self.old self.new
            (answered who (Part key.now offset (length buf.old)) (got_or result buf.new)) }
        ensures got { (set : Option OpenSet) → IfOk result (IsGot plain_rules
            (kv_state (view_of F.state self.old) set) key.now (length buf.old)) }
        ensures checked { IfOk result (IsChecked (view_of F.state self.old) offset buf.new) }
        ensures zeros { AreZerosFrom (read_end result) buf.new }
    {
        buf.fill(0);
        let Ok(key) = Key::new(key) else {
            return Err(KvError::InvalidKey);
        };
        let Some(head) = self.look_up(&key)? else {
            return Err(KvError::NotFound);
        };
        self.read_value(&head, &key, offset, buf)
    }

    /// The size and the flags of a value, as `Kv::info` of a plain store, off the header that the
    /// look-up read. The value is not read.
    pub fn info(&mut self, key: &[u8]) -> Result<Info, KvError>
        requires ready { Ready F.state self.old }
        ensures ready { Ready F.state self.new }
        ensures reads { OnlyRead F.state self.old self.new }
        ensures answers { (who : ℕ) → AnswersBy F.state self.old self.new
            (answered who (InfoOf key.now) (facts_or result)) }
    {
        let Ok(key) = Key::new(key) else {
            return Err(KvError::InvalidKey);
        };
        let Some(head) = self.look_up(&key)? else {
            return Err(KvError::NotFound);
        };
        Ok(Info {
            flags: Flags {
                bits: head.header.flags,
            },
            size: head.header.value_size,
        })
    }
}
