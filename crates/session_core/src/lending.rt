// What a session tells of its chips.
ghost use Rattle.std.specs.Prelude.{◌≡◌, ℕ, [], IfOk, is_some, length};
ghost use Rattle.flash_core.specs.Sizes.{size_of};
ghost use Rattle.flash_sim.specs.Views.{view_of};
ghost use Rattle.kv_model.specs.FlaggedMap.{FlaggedMap};
ghost use Rattle.record_core.specs.Mounts.{Mounts};
ghost use Rattle.session_core.specs.Settling.{IsSessionChance};
ghost use Rattle.session_core.specs.Telling.{IsToldMap, TellsLog};
ghost use Rattle.session_core.specs.Views.{is_mounted, primary_in, state_in};

use crate::backing::{Chips, chips_of};
use crate::{Session, chance_of};
use flash_sim::Chip;
use kv_model::NoMemory;
use script_core::Side;
use std::alloc::Global;

impl Session {
    /// Whether the store is mounted: not exactly where this session's last mount answered `Memory`.
    /// A session that is not keeps its chips, tells no state, and answers `Stopped` to every call.
    #[tactic(auto, using(crate::proofs::MountLemmas::tells_state))]
    pub fn is_mounted(&self) -> bool
        ensures mounted { result ≡ is_mounted self.now }
        ensures tells { is_some (state_in self.now).known.state ≡ result }
    {
        self.store.is_some()
    }

    // Lends the primary chip.
    pub(crate) fn primary(&self) -> &Chip
        ensures { view_of result.now ≡ primary_in self.now }
    {
        match &self.store {
            Some(store) => store.primary(),
            None => match &self.chips {
                Some(chips) => chips.primary(),
                None => unreachable!(),
            },
        }
    }

    /// Lends the bytes of the primary chip, and those of the rollback chip, of which a plain session
    /// has none. The chips mount to the maps of a state that is told and runs. Of one that is
    /// stopped they mount to such as a power cut in the call in doubt may leave, unless a record is
    /// there by chance. The log that is told of a state that runs is that of the primary chip.
    pub fn images(&self) -> (&[u8], &[u8])
        ensures primary { result.0.now ≡ (primary_in self.now).image }
        ensures rollback { result.1.now ≡ [] }
        ensures told { (m : FlaggedMap) → Mounts (primary_in self.now).geometry result.0.now m
            → IsToldMap (primary_in self.now) (state_in self.now) m }
        ensures log { TellsLog (primary_in self.now) (state_in self.now) }
    {
        (self.primary().image(), &[])
    }

    /// The first record of the chips that is there by chance at its chip's last tear, with the chip,
    /// or `None` exactly where there is none. It refuses for want of memory alone.
    pub fn chance(&self, alloc: Global) -> Result<Option<(Side, u32)>, NoMemory>
        ensures { IfOk result (IsSessionChance self.now) }
    {
        match chance_of(alloc, self.primary())? {
            Some(place) => Ok(Some((Side::Primary, place))),
            None => Ok(None),
        }
    }

    /// Gives the bytes of the primary chip, which hold the log that is told of a state that runs. It
    /// takes no memory.
    pub fn into_image(self) -> Vec<u8>
        ensures bytes { result.items ≡ (primary_in self).image }
        ensures log { TellsLog (primary_in self) (state_in self) }
        ensures sized { length result.items ≡ size_of (primary_in self).geometry }
    {
        let Session { store, chips, .. } = self;
        match chips_of(store, chips) {
            Chips::One(chip) => chip.into_image(),
        }
    }
}
