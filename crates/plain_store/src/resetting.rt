// The call that takes all keys away.
ghost use Rattle.std.specs.Prelude.{◌≡◌};
ghost use Rattle.kv_model.specs.Given.{done_or};
ghost use Rattle.kv_model.specs.Kv.{answered};
ghost use Rattle.kv_model.specs.Operations.{Reset};
ghost use Rattle.plain_store.specs.Moments.{CutsBy};
ghost use Rattle.plain_store.specs.Stores.{CallsBy, Is};

use crate::PlainStore;
use crate::notes::{note_reset, note_state};
use flash_core::Flash;
use kv_model::KvError;
use tdb_write::reset;

impl<F: Flash> PlainStore<F> {
    pub fn reset(&mut self, who: u8) -> Result<(), KvError>
        requires is { Is F.state self.old }
        ensures is { Is F.state self.new }
        ensures answers { CallsBy F.state self.old self.new
            (answered who Reset (done_or result)) }
        ensures moments { CutsBy F.state self.old self.new who Reset }
    {
        self.check_running()?;
        self.check_free(who)?;
        let before = note_state(self);
        match reset(&mut self.log) {
            Ok(()) => Ok(()),
            Err(error) => {
                self.stopped = Some(note_reset(before, who));
                Err(error)
            }
        }
    }
}
