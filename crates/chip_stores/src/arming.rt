// How a chip of a pair is told to be torn.
ghost use Rattle.std.specs.Prelude.{◌≡◌, ◌≤◌};
ghost use Rattle.chip_stores.specs.Arming.{ArmsAt};
ghost use Rattle.chip_stores.specs.PairViews.{chips_in, told_in};

use crate::SecurePair;
use kv_model::{NoMemory, Pattern};
use std::alloc::Global;

impl SecurePair {
    /// Arms the primary chip: its `n`-th program or erase from now is torn by the pattern, and
    /// every device call of it behind that fails until power is on again. A later call takes the
    /// place of an earlier one. It refuses for want of memory alone, and then nothing changes.
    pub fn arm_primary(&mut self, alloc: Global, n: u32, pattern: Pattern) -> Result<(), NoMemory>
        requires { 1 ≤ n }
        ensures arms { ArmsAt 0 (told_in self.old) (told_in self.new) pattern result }
        ensures other { (chips_in self.new).rollback ≡ (chips_in self.old).rollback }
        ensures number { self.new.store.iv ≡ self.old.store.iv }
    {
        self.store.arm_primary(alloc, n, pattern)
    }

    /// The same of the rollback chip.
    pub fn arm_rollback(&mut self, alloc: Global, n: u32, pattern: Pattern) -> Result<(), NoMemory>
        requires { 1 ≤ n }
        ensures arms { ArmsAt 1 (told_in self.old) (told_in self.new) pattern result }
        ensures other { (chips_in self.new).primary ≡ (chips_in self.old).primary }
        ensures number { self.new.store.iv ≡ self.old.store.iv }
    {
        self.store.arm_rollback(alloc, n, pattern)
    }
}
