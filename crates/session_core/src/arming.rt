// How a chip of a session is told to be torn.
ghost use Rattle.std.specs.Prelude.{◌≡◌, ◌≤◌, IfOk, OnErr};
ghost use Rattle.flash_sim.specs.ChipState.{after_arm};
ghost use Rattle.kv_model.specs.Arming.{Arms};
ghost use Rattle.script_core.specs.declared.line.Side.TheVariants.{Primary};
ghost use Rattle.session_core.specs.Backing.{chip_behind, chip_in, told_by};
ghost use Rattle.session_core.specs.Views.{is_mounted, primary_in, state_in};

use crate::Session;
use crate::backing::{Chips, Store};
use kv_model::{Armable, NoMemory, Pattern};
use script_core::Side;
use std::alloc::Global;

impl Store {
    // Arms the primary chip.
    fn arm(&mut self, alloc: Global, n: u32, pattern: Pattern) -> Result<(), NoMemory>
        requires { 1 ≤ n }
        ensures arms { Arms (told_by self.old) (told_by self.new) pattern result }
        ensures armed { IfOk result (λ _.
            chip_behind self.new ≡ after_arm (chip_behind self.old) n pattern) }
        ensures same { OnErr result (chip_behind self.new ≡ chip_behind self.old) }
    {
        match self {
            Store::Plain(store) => store.arm(alloc, n, pattern),
        }
    }
}

impl Chips {
    // Arms the primary chip.
    fn arm(&mut self, alloc: Global, n: u32, pattern: Pattern) -> Result<(), NoMemory>
        requires { 1 ≤ n }
        ensures armed { IfOk result (λ _.
            chip_in self.new ≡ after_arm (chip_in self.old) n pattern) }
        ensures same { OnErr result (chip_in self.new ≡ chip_in self.old) }
    {
        match self {
            Chips::One(chip) => chip.arm(alloc, n, pattern),
        }
    }
}

impl Session {
    /// Arms the chip of this side: its `n`-th program or erase from now is torn by the pattern, and
    /// every device call of it behind that fails until power is on again. A plain session has the
    /// primary side alone. A later call takes the place of an earlier one. It refuses for want of
    /// memory alone, and then nothing changes.
    pub fn arm(
        &mut self,
        alloc: Global,
        _side: Side,
        n: u32,
        pattern: Pattern,
    ) -> Result<(), NoMemory>
        requires some { 1 ≤ n }
        requires side { _side ≡ Primary }
        ensures arms { Arms (state_in self.old) (state_in self.new) pattern result }
        ensures armed { IfOk result (λ _.
            primary_in self.new ≡ after_arm (primary_in self.old) n pattern) }
        ensures same { OnErr result (primary_in self.new ≡ primary_in self.old) }
        ensures mounted { is_mounted self.new ≡ is_mounted self.old }
    {
        match &mut self.store {
            Some(store) => store.arm(alloc, n, pattern),
            None => match &mut self.chips {
                Some(chips) => chips.arm(alloc, n, pattern),
                None => unreachable!(),
            },
        }
    }
}
