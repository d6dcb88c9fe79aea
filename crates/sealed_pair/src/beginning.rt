// A remove that is begun, on the two stores.
ghost use Rattle.std.specs.Prelude.{◌≡◌, ◌&&◌, ℕ, true, false, is_none, is_some, IfOk, List};
ghost use Rattle.kv_model.specs.Given.{done_or};
ghost use Rattle.kv_model.specs.Kv.{answered};
ghost use Rattle.kv_model.specs.Keys.{is_key};
ghost use Rattle.kv_model.specs.Operations.{RemoveStart};
ghost use Rattle.sealed_pair.specs.Active.{IsBegun, share_of_remove};
ghost use Rattle.sealed_pair.specs.Begun.{begins_remove, begun_or, parts_in, removing_or};
ghost use Rattle.sealed_pair.specs.Going.{Tries, WhereStill};
ghost use Rattle.sealed_pair.specs.Removing.{HeldAs};
ghost use Rattle.sealed_pair.specs.Running.{HasRun, parts};

use crate::active::{Active, Begun};
use crate::removing::find_held;
use kv_model::{Flags, Key, Kv, KvError};

// Begins to remove a key in a store that has it.
fn begin_in<S: Kv>(store: &mut S, who: u8, key: &[u8], held: Option<Flags>) -> Result<(), KvError>
    requires key { is_key key.now ≡ true }
    requires store { WhereStill S.rules_by (S.state store.old) (HeldAs key.now held) }
    ensures { Tries S.rules_by (begins_remove who key.now (share_of_remove who key.now
        (is_some held))) (S.state store.old) (S.state store.new) result }
{
    match held {
        None => Ok(()),
        Some(_) => match store.remove_start(who, key) {
            Ok(()) => Ok(()),
            Err(refusal) => Err(refusal),
        },
    }
}

// Begins to remove a key in each store that has it.
fn begin_held<U: Kv, R: Kv>(
    primary: &mut U,
    rollback: &mut R,
    who: u8,
    key: &[u8],
    above: Option<Flags>,
    below: Option<Flags>,
) -> Result<(), KvError>
    requires key { is_key key.now ≡ true }
    requires primary { WhereStill U.rules_by (U.state primary.old) (HeldAs key.now above) }
    requires rollback { WhereStill R.rules_by (R.state rollback.old) (HeldAs key.now below) }
    requires held { is_none above && is_none below ≡ false }
    ensures { (root : List ℕ) (number : ℕ) → HasRun
        (parts root number U.rules_by (U.state primary.old) R.rules_by (R.state rollback.old))
        (parts_in root number (removing_or who key.now (is_some above) (is_some below) result)
        U.rules_by (U.state primary.new) R.rules_by (R.state rollback.new))
        (answered who (RemoveStart key.now) (done_or result)) }
{
    match begin_in(primary, who, key, above) {
        Ok(()) => {}
        Err(refusal) => return Err(refusal),
    }
    match begin_in(rollback, who, key, below) {
        Ok(()) => Ok(()),
        Err(refusal) => {
            let _ = primary.set_abort(who);
            Err(refusal)
        }
    }
}

/// Begins to remove a key, in each store that has it.
pub fn begin_both<U: Kv, R: Kv>(
    primary: &mut U,
    rollback: &mut R,
    who: u8,
    key: Key,
) -> Result<Active, KvError>
    ensures run { (root : List ℕ) (number : ℕ) → HasRun
        (parts root number U.rules_by (U.state primary.old) R.rules_by (R.state rollback.old))
        (parts_in root number (begun_or result)
        U.rules_by (U.state primary.new) R.rules_by (R.state rollback.new))
        (answered who (RemoveStart key) (done_or result)) }
    ensures sealing { (root : List ℕ) (number : ℕ) → IfOk result (λ active.
        IsBegun root number active.begun) }
{
    let held = match find_held(primary, rollback, key.as_slice()) {
        Ok(held) => held,
        Err(refusal) => return Err(refusal),
    };
    match begin_held(
        primary,
        rollback,
        who,
        key.as_slice(),
        held.above,
        held.below,
    ) {
        Ok(()) => Ok(Active {
            owner: who,
            begun: Begun::Remove { key },
            above: held.above.is_some(),
            below: held.below.is_some(),
        }),
        Err(refusal) => Err(refusal),
    }
}
