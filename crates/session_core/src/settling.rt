// How a session is mounted, and mounted again.
ghost use Rattle.std.specs.Prelude.{◌≡◌, ◌≤◌, true, None, IfOk};
ghost use Rattle.flash_sim.specs.Views.{view_of};
ghost use Rattle.session_core.specs.Chips.{device_in};
ghost use Rattle.session_core.specs.Mounting.{HasMounted};
ghost use Rattle.session_core.specs.Power.{HasPower, Steady};
ghost use Rattle.session_core.specs.Settling.{IsSessionChance, Settles};
ghost use Rattle.session_core.specs.Telling.{TellsLog};
ghost use Rattle.session_core.specs.Views.{is_mounted, primary_in, state_in};

use crate::backing::{Chips, chips_of};
use crate::{Ended, Session};
use flash_sim::Chip;
use kv_model::NoMemory;
use std::alloc::Global;

impl Session {
    /// Mounts a chip with so many bits of hash, as a plain store. The chip is sound. The session tells
    /// the log of the image that the mount leaves. It refuses for want of memory alone.
    pub fn plain(alloc: Global, chip: Chip, hash_bits: u8) -> Result<Session, NoMemory>
        requires sound { (device_in chip).sound ≡ true }
        requires bits { hash_bits ≤ 32 }
        ensures mounted { IfOk result (λ session. is_mounted session ≡ true) }
        ensures is { IfOk result (λ session. HasMounted (view_of chip) (primary_in session)
            hash_bits (state_in session)) }
        ensures log { IfOk result (λ session.
            TellsLog (primary_in session) (state_in session)) }
        ensures power { IfOk result (λ session. HasPower (state_in session) Steady) }
    {
        match Chips::One(chip).mount(alloc, hash_bits) {
            Ok(store) => Ok(Session {
                hash_bits,
                store: Some(store),
                chips: None,
            }),
            Err(_) => Err(NoMemory),
        }
    }

    // Puts power on and mounts the chips again, where no record is there by chance.
    fn mount_again(&mut self, alloc: Global) -> Ended
        requires { IsSessionChance self.old None }
        ensures { Settles self.old self.new result }
    {
        let chips = chips_of(self.store.take(), self.chips.take());
        match chips.mount(alloc, self.hash_bits) {
            Ok(store) => {
                self.store = Some(store);
                Ended::Whole
            }
            Err(chips) => {
                self.chips = Some(chips);
                Ended::Memory
            }
        }
    }

    /// Puts power on and mounts the chips again, unless a record is there by chance on one that was
    /// torn: then it answers the first such one, and mounts nothing. `Memory` comes for want of
    /// memory alone: all stands, or the session keeps its chips and is not mounted.
    pub fn settle(&mut self, alloc: Global) -> Ended
        ensures { Settles self.old self.new result }
    {
        match self.chance(alloc) {
            Ok(None) => self.mount_again(alloc),
            Ok(Some((side, place))) => Ended::Chance { side, place },
            Err(NoMemory) => Ended::Memory,
        }
    }
}
