// What a pair shows of its chips and its number.
ghost use Rattle.std.specs.Prelude.{◌≡◌};
ghost use Rattle.std.specs.Option.{ForSome};
ghost use Rattle.flash_sim.specs.Views.{view_of};
ghost use Rattle.kv_model.specs.StoreState.{Maps};
ghost use Rattle.chip_stores.specs.Pairs.{AreToldMaps, MountsBoth};
ghost use Rattle.chip_stores.specs.PairViews.{chips_in, told_in};

use crate::SecurePair;
use flash_sim::Chip;

impl SecurePair {
    /// Lends the chips, the primary one first. They mount to the maps of a state that is told and
    /// runs. Of one that is stopped they mount to such as a power cut in the call in doubt may
    /// leave, unless a record is there by chance on one of them.
    pub fn chips(&self) -> (&Chip, &Chip)
        ensures primary { view_of result.0.now ≡ (chips_in self.now).primary }
        ensures rollback { view_of result.1.now ≡ (chips_in self.now).rollback }
        ensures told { (maps : Maps) → MountsBoth (chips_in self.now) maps
            → AreToldMaps (chips_in self.now) (told_in self.now) maps }
    {
        (self.store.primary().flash(), self.store.rollback().flash())
    }

    /// The number that the next set with one takes. A mount that comes later goes on with it, so
    /// that no number is taken twice.
    pub fn number(&self) -> u64
        ensures is { result ≡ self.now.store.iv }
        ensures told { ForSome (told_in self.now).known.state
            (λ state. state.next_vector ≡ result) }
    {
        self.store.iv()
    }
}
