// A secure store over two chips, and what it is mounted from.
ghost use Rattle.std.specs.Prelude.{◌≡◌, true, is_some};
ghost use Rattle.std.specs.Option.{ForSome};
ghost use Rattle.std.proofs.Props.{props};
ghost use Rattle.secure_store.specs.SecureState.{state_in};

use flash_sim::Chip;
use secure_store::SecureStore;
use tdb_store::TdbStore;

/// What a pair is mounted from: its chips, the root key from which the keys of ciphers and tags are
/// derived, and the number of the next set with one.
#[derive(Drop)]
pub struct PairParts {
    pub primary: Chip,
    pub rollback: Chip,
    pub root: [u8; 16],
    pub number: u64,
}

/// A secure store over two chips, which was mounted. It tells its state until it is taken apart,
/// also once a power cut stopped it.
#[derive(Drop)]
pub struct SecurePair {
    pub(crate) store: SecureStore<TdbStore<Chip>, TdbStore<Chip>>,
    /// The root key, with which a later mount goes on.
    pub(crate) root: [u8; 16],
    ghost tells: { is_some (state_in store).known.state ≡ true },
    ghost same_root: { store.root ≡ root } by { Prim.hlevel props },
    ghost number: { ForSome (state_in store).known.state
        (λ state. state.next_vector ≡ store.iv) },
}
