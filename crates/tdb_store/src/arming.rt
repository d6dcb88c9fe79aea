// What a store over a chip is told to fail at.
ghost use Rattle.std.specs.Prelude.{◌≡◌, ◌≤◌, IfOk, OnErr};
ghost use Rattle.flash_sim.specs.ChipState.{after_arm, after_naming};
ghost use Rattle.flash_sim.specs.Views.{view_of};
ghost use Rattle.kv_model.specs.Arming.{Arms};
ghost use Rattle.plain_store.specs.Faults.{IsSameButFaults};

use crate::TdbStore;
use flash_sim::Chip;
use kv_model::{Armable, Kv, NoMemory, Pattern};
use std::alloc::Global;

impl Armable for TdbStore<Chip> {
    /// Arms the chip, and nothing else.
    fn arm(&mut self, alloc: Global, n: u32, pattern: Pattern) -> Result<(), NoMemory>
        requires { 1 ≤ n }
        ensures arms { Arms (⟦<TdbStore<Chip> as Kv>⟧.state self.old)
            (⟦<TdbStore<Chip> as Kv>⟧.state self.new) pattern result }
        ensures armed { IfOk result (λ _. view_of self.new.store.log.flash
            ≡ after_arm (view_of self.old.store.log.flash) n pattern) }
        ensures same { OnErr result (view_of self.new.store.log.flash
            ≡ view_of self.old.store.log.flash) }
    {
        self.store.log.flash.arm(alloc, n, pattern)
    }
}

impl TdbStore<Chip> {
    /// Names reads and writes of the chip from now that fail once, each counted from 1 over its
    /// kind. A later call replaces both lists.
    pub fn set_faults(&mut self, reads: Vec<u32>, writes: Vec<u32>)
        ensures chip { view_of self.new.store.log.flash
            ≡ after_naming (view_of self.old.store.log.flash) reads.items writes.items }
        ensures seen { IsSameButFaults (⟦<TdbStore<Chip> as Kv>⟧.state self.old)
            (⟦<TdbStore<Chip> as Kv>⟧.state self.new) }
        ensures rest { self.new.store ≡ record self.old.store {
          log = record self.old.store.log { flash = self.new.store.log.flash };
        } }
    {
        self.store.log.flash.set_faults(reads, writes)
    }
}
