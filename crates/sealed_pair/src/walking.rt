// A recover on the two stores: a walk over the primary keys that heals the tag of each.
ghost use Rattle.std.specs.Prelude.{◌≡◌, ◌+◌, ◌<◌, ◌^◌, if◌then◌else◌, ℕ, List, Option, None};
ghost use Rattle.kv_model.specs.Given.{done_or};
ghost use Rattle.kv_model.specs.Kv.{IsCause};
ghost use Rattle.sealed_pair.specs.Pair.{Joining, pair};
ghost use Rattle.sealed_pair.specs.Reading.{HasRead, WhereTold};
ghost use Rattle.sealed_pair.specs.Recovering.{HasWritten, StillRuns, secure_by};
ghost use Rattle.sealed_pair.specs.Store.{IsFreshStore};
ghost use Rattle.sealed_pair.specs.Walking.{GivesNext, HasStayed, IsAt, KeyIn, RewritesEach, Walk, all_healed};

use crate::keys::key_of;
use crate::recovering::heal_key;
use kv_model::{Key, Kv, KvError};

// The key at the front of a buffer. It gives none where these bytes are none.
fn key_in(out: &[u8; 128], length: u8) -> Option<Key>
    ensures { KeyIn out.now length result }
{
    let size = (length as usize).min(out.len());
    match key_of(&out[..size]) {
        Ok(key) => Some(key),
        Err(_) => None,
    }
}

// The next key of a walk. What is no key, which no store of ours gives, is answered as want of
// memory.
fn next_key<U: Kv>(primary: &mut U, who: u8) -> Result<Option<Key>, KvError>
    ensures stays { HasStayed U.rules_by (U.state primary.old) (U.state primary.new) }
    ensures cause { IsCause (U.state primary.old).known (U.state primary.new).known
        (done_or result) }
    ensures gives { (walk : Walk) (last : Option (List ℕ)) → walk.who ≡ who
        → IsAt U.rules_by walk last (U.state primary.old)
        → GivesNext U.rules_by walk last (U.state primary.new) result }
{
    let mut out = [0; 128];
    match primary.next(who, 0, &mut out) {
        Ok(None) => Ok(None),
        Ok(Some(length)) => match key_in(&out, length) {
            Some(key) => Ok(Some(key)),
            None => Err(KvError::Memory),
        },
        Err(refusal) => Err(refusal),
    }
}

// A count, once one more may have changed.
fn next_count(count: u32, is_changed: bool) -> u32
    requires { count + 1 < 2 ^ 32 }
    ensures { result ≡ (if is_changed then count + 1 else count) }
{
    if is_changed { count + 1 } else { count }
}

// Heals the tag of each key that a walk gives, and tells how many entries changed.
fn heal_each<U: Kv, R: Kv>(
    primary: &mut U,
    rollback: &mut R,
    root: &[u8; 16],
    who: u8,
) -> Result<u32, KvError>
    ensures primary { HasStayed U.rules_by (U.state primary.old) (U.state primary.new) }
    ensures rollback { HasWritten (R.state rollback.old) (R.state rollback.new) result }
    ensures stays { StillRuns R.rules_by (R.state rollback.old) (R.state rollback.new) result }
    ensures cause { (joining : Joining) → IsCause
        (pair root.now joining (U.state primary.old) (R.state rollback.old)).known
        (pair root.now joining (U.state primary.new) (R.state rollback.new)).known
        (done_or result) }
    ensures walks { (walk : Walk) → walk.who ≡ who
        → IsAt U.rules_by walk None (U.state primary.old)
        → (given : Option (List ℕ)) × IsAt U.rules_by walk given (U.state primary.new) }
    ensures heals { (walk : Walk) → walk.who ≡ who
        → IsAt U.rules_by walk None (U.state primary.old)
        → RewritesEach R.rules_by (R.state rollback.old) (R.state rollback.new)
        (all_healed (secure_by root.now (R.state rollback.old).known.constants)
        walk.before.primary) result }
{
    let mut changed = 0;
    for _round in 0..u32::MAX {
        let key = match next_key(primary, who) {
            Ok(Some(key)) => key,
            Ok(None) => return Ok(changed),
            Err(refusal) => return Err(refusal),
        };
        match heal_key(primary, rollback, root, who, &key) {
            Ok(is_changed) => changed = next_count(changed, is_changed),
            Err(refusal) => return Err(refusal),
        }
    }
    // A count has no more keys.
    Err(KvError::Memory)
}

/// Heals the tags of all keys, and tells how many entries changed. A tag for which there is no
/// room stays. It takes the memory of an iterator.
pub fn heal_all<U: Kv, R: Kv>(
    primary: &mut U,
    rollback: &mut R,
    root: &[u8; 16],
    who: u8,
) -> Result<u32, KvError>
    requires { IsFreshStore U.rules_by (U.state primary.old) }
    ensures primary { HasRead (U.state primary.old) (U.state primary.new) }
    ensures rollback { HasWritten (R.state rollback.old) (R.state rollback.new) result }
    ensures stays { StillRuns R.rules_by (R.state rollback.old) (R.state rollback.new) result }
    ensures cause { (joining : Joining) → IsCause
        (pair root.now joining (U.state primary.old) (R.state rollback.old)).known
        (pair root.now joining (U.state primary.new) (R.state rollback.new)).known
        (done_or result) }
    ensures heals { WhereTold U.rules_by (U.state primary.old) (λ above. RewritesEach R.rules_by
        (R.state rollback.old) (R.state rollback.new)
        (all_healed (secure_by root.now (R.state rollback.old).known.constants) above.primary)
        result) }
{
    match primary.iter_open(who, 0, &[]) {
        Ok(()) => {}
        Err(refusal) => return Err(refusal),
    }
    let healed = heal_each(primary, rollback, root, who);
    let _ = primary.iter_close(who, 0);
    healed
}
