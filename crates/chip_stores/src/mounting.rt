// How a pair comes to be from its parts, and is taken apart.
ghost use Rattle.std.specs.Prelude.{◌≡◌, ◌≤◌, true, None, MatchResult, IfErr, IfOk, is_some};
ghost use Rattle.secure_store.specs.Recover.{HasNoIterators};
ghost use Rattle.secure_store.specs.SecureState.{state_in};
ghost use Rattle.chip_stores.specs.Healing.{HasHealed, IsPartlyHealed};
ghost use Rattle.chip_stores.specs.PairViews.{chips_in, chips_of, setup_of, told_in};
ghost use Rattle.chip_stores.specs.Pairs.{HasKeptPair, HasMountedPair};
ghost use Rattle.chip_stores.specs.Stores.{plain_told};

use crate::plain::{mount_plain, power_on};
use crate::{PairParts, SecurePair};
use flash_sim::Chip;
use secure_store::SecureStore;
use std::alloc::Global;
use tdb_store::TdbStore;

// The pair of a store that was just made, once its tags are completed. Where there is no memory for
// that, some of them are.
fn recovered(
    mut store: SecureStore<TdbStore<Chip>, TdbStore<Chip>>,
    root: [u8; 16],
) -> Result<SecurePair, SecurePair>
    requires free { store.active ≡ None }
    requires runs { store.stopped ≡ None }
    requires root { store.root ≡ root }
    requires iterators { HasNoIterators (plain_told store.primary.store) }
    requires sound { (state_in store).known.sound ≡ true }
    requires told { is_some (state_in store).known.state ≡ true }
    ensures healed { MatchResult result
        (λ pair. HasHealed (state_in store) (told_in pair))
        (λ pair. IsPartlyHealed (state_in store) (told_in pair)) }
    ensures number { MatchResult result
        (λ pair. pair.store.iv ≡ store.iv)
        (λ pair. pair.store.iv ≡ store.iv) }
    ensures keys { MatchResult result (λ pair. pair.root ≡ root) (λ pair. pair.root ≡ root) }
{
    match store.recover() {
        Ok(_) => Ok(SecurePair { store, root }),
        Err(_) => Err(SecurePair { store, root }),
    }
}

impl SecurePair {
    /// Puts power on for both chips, mounts each with so many bits of hash, and completes each set
    /// of a protected key that was cut between the two, where its tag has room.
    ///
    /// It refuses for want of memory alone, and gives the parts back: the primary chip mounts to
    /// the map to which it did, and the rollback chip to a map of which each tag is the one before
    /// or the completed one.
    pub fn mount(alloc: Global, parts: PairParts, hash_bits: u8) -> Result<SecurePair, PairParts>
        requires { hash_bits ≤ 32 }
        ensures mounted { MatchResult result
            (λ pair. HasMountedPair (chips_of parts) (chips_in pair) (setup_of parts hash_bits)
            (told_in pair))
            (λ kept. HasKeptPair (chips_of parts) (chips_of kept) (setup_of parts hash_bits)) }
        ensures number { MatchResult result
            (λ pair. pair.store.iv ≡ parts.number)
            (λ kept. kept.number ≡ parts.number) }
        ensures root { MatchResult result
            (λ pair. pair.root ≡ parts.root)
            (λ kept. kept.root ≡ parts.root) }
    {
        let PairParts {
            primary,
            mut rollback,
            root,
            number,
        } = parts;
        let primary = match mount_plain(alloc, primary, hash_bits) {
            Ok(primary) => primary,
            Err(primary) => {
                power_on(alloc, &mut rollback);
                return Err(PairParts {
                    primary,
                    rollback,
                    root,
                    number,
                });
            }
        };
        match mount_plain(alloc, rollback, hash_bits) {
            Ok(rollback) => {
                match recovered(SecureStore::new(primary, rollback, &root, number), root) {
                    Ok(pair) => Ok(pair),
                    Err(pair) => Err(pair.into_parts()),
                }
            }
            Err(rollback) => Err(PairParts {
                primary: primary.into_flash(),
                rollback,
                root,
                number,
            }),
        }
    }

    /// Takes the pair apart, so that it can be mounted again. It takes no memory.
    pub fn into_parts(self) -> PairParts
        ensures chips { chips_of result ≡ chips_in self }
        ensures number { result.number ≡ self.store.iv }
        ensures root { result.root ≡ self.root }
    {
        let SecurePair { store, root, .. } = self;
        let number = store.iv();
        let (primary, rollback) = store.into_parts();
        PairParts {
            primary: primary.into_flash(),
            rollback: rollback.into_flash(),
            root,
            number,
        }
    }
}
