// The end of what was begun, on the two stores.
ghost use Rattle.std.specs.Prelude.{◌≡◌, ℕ, List, Some};
ghost use Rattle.kv_model.specs.declared.call.Reply.TheVariants.{Done};
ghost use Rattle.kv_model.specs.Given.{done_or};
ghost use Rattle.kv_model.specs.Kv.{answered};
ghost use Rattle.kv_model.specs.Operations.{Abort, Finish};
ghost use Rattle.sealed_pair.specs.declared.active.Active.{Active as ActiveOf};
ghost use Rattle.sealed_pair.specs.Active.{share_of_remove};
ghost use Rattle.sealed_pair.specs.Begun.{active_remove, finishes_remove, parts_in};
ghost use Rattle.sealed_pair.specs.Going.{Tries};
ghost use Rattle.sealed_pair.specs.Running.{HasRun, parts};

use kv_model::{Kv, KvError};

// Completes a remove in a store in which it was begun.
fn finish_in<S: Kv>(store: &mut S, who: u8, is_begun: bool) -> Result<(), KvError>
    ensures { (key : List ℕ) → Tries S.rules_by (finishes_remove who key (share_of_remove who key
        is_begun)) (S.state store.old) (S.state store.new) result }
{
    if !is_begun {
        return Ok(());
    }
    match store.set_finish(who) {
        Ok(()) => Ok(()),
        Err(refusal) => Err(refusal),
    }
}

/// Completes a remove in each store in which it was begun, in the primary store first.
pub fn finish_remove<U: Kv, R: Kv>(
    primary: &mut U,
    rollback: &mut R,
    who: u8,
    above: bool,
    below: bool,
) -> Result<(), KvError>
    ensures { (key : List ℕ) (root : List ℕ) (number : ℕ) → HasRun
        (parts_in root number (active_remove who key above below)
        U.rules_by (U.state primary.old) R.rules_by (R.state rollback.old))
        (parts root number U.rules_by (U.state primary.new) R.rules_by (R.state rollback.new))
        (answered who Finish (done_or result)) }
{
    match finish_in(primary, who, above) {
        Ok(()) => {}
        Err(refusal) => {
            let _ = rollback.set_abort(who);
            return Err(refusal);
        }
    }
    match finish_in(rollback, who, below) {
        Ok(()) => Ok(()),
        Err(refusal) => Err(refusal),
    }
}

/// Gives up what was begun.
pub fn abort_both<U: Kv, R: Kv>(primary: &mut U, rollback: &mut R, who: u8)
    ensures { (root : List ℕ) (number : ℕ) (active : ActiveOf)
        → active.owner ≡ who → HasRun (parts_in root number (Some active)
        U.rules_by (U.state primary.old) R.rules_by (R.state rollback.old))
        (parts root number U.rules_by (U.state primary.new) R.rules_by (R.state rollback.new))
        (answered who Abort Done) }
{
    let _ = primary.set_abort(who);
    let _ = rollback.set_abort(who);
}
