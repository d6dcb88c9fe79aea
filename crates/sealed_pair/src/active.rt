// The set that is active.
ghost use Rattle.std.specs.Prelude.{◌≡◌, Some, None, MatchResult};
ghost use Rattle.sealed_pair.specs.Active.{TakesOwn, may_take, taken};

use crate::partial::PartialSet;
use kv_model::{Key, KvError};

/// What its owner has begun.
#[derive(Drop)]
pub enum Begun {
    /// A remove that the finish completes, in each store that has the key.
    Remove { key: Key },
    /// A set of which a record is made in the primary store, piece by piece.
    Set { set: PartialSet },
}

/// What was begun, its owner, and whether it was begun in the primary store and in the rollback
/// store.
#[derive(Drop)]
pub struct Active {
    pub owner: u8,
    pub begun: Begun,
    pub above: bool,
    pub below: bool,
}

/// No set is active, so that a map may be changed.
pub fn check_free(active: &Option<Active>, who: u8) -> Result<(), KvError>
    ensures { MatchResult result (λ done. active.now ≡ None)
        (λ e. taken active.now who ≡ Some e) }
{
    match active {
        None => Ok(()),
        Some(active) => {
            if active.owner == who {
                return Err(KvError::SetOpen);
            }
            Err(KvError::Busy {
                owner: active.owner,
            })
        }
    }
}

/// Takes what the caller has begun.
pub fn take_own(active: &mut Option<Active>, who: u8) -> Option<Active>
    ensures { TakesOwn active.old active.new who result }
{
    match active.take() {
        None => None,
        Some(taken) => {
            if taken.owner == who {
                return Some(taken);
            }
            *active = Some(taken);
            None
        }
    }
}

/// Whether so many bytes more may be added to what was begun.
pub fn may_take(begun: &Begun, count: usize) -> bool
    ensures { result ≡ may_take begun.now count }
{
    match begun {
        Begun::Remove { .. } => count == 0,
        Begun::Set { set } => count <= set.left as usize,
    }
}
