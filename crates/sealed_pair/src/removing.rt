// A remove, on the two stores.
ghost use Rattle.std.specs.Prelude.{◌≡◌, ◌&&◌, ℕ, true, false, is_none, IfOk, IfErr, List, []};
ghost use Rattle.kv_model.specs.declared.call.Reply.TheVariants.{Refused};
ghost use Rattle.kv_model.specs.Given.{done_or};
ghost use Rattle.kv_model.specs.Kv.{answered};
ghost use Rattle.kv_model.specs.Keys.{is_key};
ghost use Rattle.kv_model.specs.Operations.{Remove};
ghost use Rattle.sealed_pair.specs.Going.{WhereStill};
ghost use Rattle.sealed_pair.specs.Removing.{CanRemove, HeldAs, MayLose, Removal, is_once, removal};
ghost use Rattle.sealed_pair.specs.Running.{HasRun, parts};

use crate::reading::flags_of;
use kv_model::{Flags, Kv, KvError};

/// The flags that the two stores keep with a key, where they have it.
#[derive(Clone, Copy)]
pub(crate) struct Held {
    pub(crate) above: Option<Flags>,
    pub(crate) below: Option<Flags>,
}

pub(crate) fn is_once(flags: Option<Flags>) -> bool
    ensures { result ≡ is_once flags }
{
    match flags {
        None => false,
        Some(flags) => flags.bits % 2 == 1,
    }
}

/// What the two stores keep with a key that may be removed.
pub(crate) fn find_held<U: Kv, R: Kv>(
    primary: &mut U,
    rollback: &mut R,
    key: &[u8],
) -> Result<Held, KvError>
    ensures held { IfOk result (CanRemove
        (parts [] 0 U.rules_by (U.state primary.old) R.rules_by (R.state rollback.old))
        (parts [] 0 U.rules_by (U.state primary.new) R.rules_by (R.state rollback.new))
        key.now) }
    ensures refusal { IfErr result (λ e. (how : Removal) (who : ℕ) (root : List ℕ) (number : ℕ)
        → HasRun
        (parts root number U.rules_by (U.state primary.old) R.rules_by (R.state rollback.old))
        (parts root number U.rules_by (U.state primary.new) R.rules_by (R.state rollback.new))
        (answered who (removal how key.now) (Refused e))) }
{
    if !kv_model::is_key(key) {
        return Err(KvError::InvalidKey);
    }
    let above = match flags_of(primary, key) {
        Ok(flags) => flags,
        Err(refusal) => return Err(refusal),
    };
    let below = match flags_of(rollback, key) {
        Ok(flags) => flags,
        Err(refusal) => return Err(refusal),
    };
    if above.is_none() && below.is_none() {
        return Err(KvError::NotFound);
    }
    if is_once(above) || is_once(below) {
        return Err(KvError::WriteProtected);
    }
    Ok(Held { above, below })
}

// Takes away a key that both stores hold: prepared in both, then done in the primary first.
fn remove_from_both<U: Kv, R: Kv>(
    primary: &mut U,
    rollback: &mut R,
    who: u8,
    key: &[u8],
) -> Result<(), KvError>
    requires key { is_key key.now ≡ true }
    requires primary { WhereStill U.rules_by (U.state primary.old) (MayLose key.now) }
    requires rollback { WhereStill R.rules_by (R.state rollback.old) (MayLose key.now) }
    ensures { (root : List ℕ) (number : ℕ) → HasRun
        (parts root number U.rules_by (U.state primary.old) R.rules_by (R.state rollback.old))
        (parts root number U.rules_by (U.state primary.new) R.rules_by (R.state rollback.new))
        (answered who (Remove key.now) (done_or result)) }
{
    match primary.remove_start(who, key) {
        Ok(()) => {}
        Err(refusal) => return Err(refusal),
    }
    match rollback.remove_start(who, key) {
        Ok(()) => {}
        Err(refusal) => {
            let _ = primary.set_abort(who);
            return Err(refusal);
        }
    }
    match primary.set_finish(who) {
        Ok(()) => {}
        Err(refusal) => {
            let _ = rollback.set_abort(who);
            return Err(refusal);
        }
    }
    match rollback.set_finish(who) {
        Ok(()) => Ok(()),
        Err(refusal) => Err(refusal),
    }
}

// Takes away a key, by what the two stores keep with it.
fn remove_held<U: Kv, R: Kv>(
    primary: &mut U,
    rollback: &mut R,
    who: u8,
    key: &[u8],
    above: Option<Flags>,
    below: Option<Flags>,
) -> Result<(), KvError>
    requires key { is_key key.now ≡ true }
    requires primary { WhereStill U.rules_by (U.state primary.old) (HeldAs key.now above) }
    requires rollback { WhereStill R.rules_by (R.state rollback.old) (HeldAs key.now below) }
    requires held { is_none above && is_none below ≡ false }
    ensures { (root : List ℕ) (number : ℕ) → HasRun
        (parts root number U.rules_by (U.state primary.old) R.rules_by (R.state rollback.old))
        (parts root number U.rules_by (U.state primary.new) R.rules_by (R.state rollback.new))
        (answered who (Remove key.now) (done_or result)) }
{
    match above {
        None => match rollback.remove(who, key) {
            Ok(()) => Ok(()),
            Err(refusal) => Err(refusal),
        },
        Some(_) => match below {
            None => match primary.remove(who, key) {
                Ok(()) => Ok(()),
                Err(refusal) => Err(refusal),
            },
            Some(_) => match remove_from_both(primary, rollback, who, key) {
                Ok(()) => Ok(()),
                Err(refusal) => Err(refusal),
            },
        },
    }
}

/// Takes a key away from each store that has it.
pub fn remove_both<U: Kv, R: Kv>(
    primary: &mut U,
    rollback: &mut R,
    who: u8,
    key: &[u8],
) -> Result<(), KvError>
    ensures { (root : List ℕ) (number : ℕ) → HasRun
        (parts root number U.rules_by (U.state primary.old) R.rules_by (R.state rollback.old))
        (parts root number U.rules_by (U.state primary.new) R.rules_by (R.state rollback.new))
        (answered who (Remove key.now) (done_or result)) }
{
    let held = match find_held(primary, rollback, key) {
        Ok(held) => held,
        Err(refusal) => return Err(refusal),
    };
    match remove_held(primary, rollback, who, key, held.above, held.below) {
        Ok(()) => Ok(()),
        Err(refusal) => Err(refusal),
    }
}
