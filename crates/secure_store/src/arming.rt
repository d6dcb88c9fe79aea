// The arming of either device of a secure store.
ghost use Rattle.std.specs.Prelude.{◌≡◌, ◌≤◌};
ghost use Rattle.kv_model.specs.Arming.{Arms};

use crate::store::SecureStore;
use kv_model::{Armable, NoMemory, Pattern};
use std::alloc::Global;

impl<U: Armable, R: Armable> SecureStore<U, R> {
    /// The `n`-th program or erase of the primary device from now is torn by the pattern.
    pub fn arm_primary(&mut self, alloc: Global, n: u32, pattern: Pattern) -> Result<(), NoMemory>
        requires { 1 ≤ n }
        ensures primary { Arms (U.state self.old.primary) (U.state self.new.primary)
            pattern result }
        ensures rollback { self.new.rollback ≡ self.old.rollback }
        ensures root { self.new.root ≡ self.old.root }
        ensures iv { self.new.iv ≡ self.old.iv }
        ensures active { self.new.active ≡ self.old.active }
        ensures stopped { self.new.stopped ≡ self.old.stopped }
    {
        self.primary.arm(alloc, n, pattern)
    }

    /// The `n`-th program or erase of the rollback device from now is torn by the pattern.
    pub fn arm_rollback(&mut self, alloc: Global, n: u32, pattern: Pattern) -> Result<(), NoMemory>
        requires { 1 ≤ n }
        ensures rollback { Arms (R.state self.old.rollback) (R.state self.new.rollback)
            pattern result }
        ensures primary { self.new.primary ≡ self.old.primary }
        ensures root { self.new.root ≡ self.old.root }
        ensures iv { self.new.iv ≡ self.old.iv }
        ensures active { self.new.active ≡ self.old.active }
        ensures stopped { self.new.stopped ≡ self.old.stopped }
    {
        self.rollback.arm(alloc, n, pattern)
    }
}
