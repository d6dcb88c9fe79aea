// The calls on a set that is written in pieces, on the two stores.
ghost use Rattle.std.specs.Prelude.{◌≡◌, ◌≤◌, ℕ, Bool, true, IfErr, IfOk, List, length};
ghost use Rattle.kv_model.specs.Given.{done_or};
ghost use Rattle.kv_model.specs.Kv.{answered};
ghost use Rattle.kv_model.specs.Operations.{Add, Finish, Start};
ghost use Rattle.kv_model.specs.Rules.{number_taken};
ghost use Rattle.sealed_pair.specs.Active.{IsBegun, IsCounted, may_take};
ghost use Rattle.sealed_pair.specs.Begun.{active_set, begun_or, parts_in, set_or};
ghost use Rattle.sealed_pair.specs.Pieces.{FailsToFeed, HasEndedRecord, HasFed, HasFedMore, IsSealing, fresh_set, front_of};
ghost use Rattle.sealed_pair.specs.Running.{HasRun, parts};
ghost use Rattle.sealed_pair.specs.Sealing.{is_numbered};
ghost use Rattle.sealed_pair.specs.Setting.{TakesOne, calls, number_left};

use crate::active::{Active, Begun};
use crate::finishing::finish_remove;
use crate::partial::{PartialSet, SetStart};
use crate::setting::{abort_tag, add_part, check_set, start_both, vector_for};
use crate::viewing::is_mirrored;
use kv_model::{Kv, KvError};
use secure_record::SealStream;
use store_note::{note_bytes, note_more};

// A set before its first byte.
fn fresh_set(root: &[u8; 16], number: u64, start: SetStart, prior: Option<[u8; 16]>) -> PartialSet
    ensures fresh { result ≡ fresh_set start prior result.head result.stream }
    ensures sealing { IsSealing root.now
        (number_taken (is_numbered start.flags.bits) number) result }
{
    let SetStart {
        key,
        size,
        flags,
        ..
    } = start;
    let vector = vector_for(flags, number);
    let stream = SealStream::new(root, &key, flags, vector, prior, size);
    PartialSet {
        key,
        flags,
        size,
        prior,
        head: stream.head(),
        is_headed: false,
        stream,
        left: size,
        value: note_bytes(&[]),
    }
}

/// Begins a set in pieces: the set of its record in the primary store, and where the key is
/// mirrored that of its tag in the rollback store. Nothing is added to either.
pub fn start_set<U: Kv, R: Kv>(
    primary: &mut U,
    rollback: &mut R,
    root: &[u8; 16],
    number: u64,
    start: SetStart,
) -> Result<Active, KvError>
    ensures run { HasRun
        (parts root.now number U.rules_by (U.state primary.old) R.rules_by (R.state rollback.old))
        (parts_in root.now (number_left number start.flags.bits result) (begun_or result)
        U.rules_by (U.state primary.new) R.rules_by (R.state rollback.new))
        (answered start.who (Start start.key start.size start.flags.bits) (done_or result)) }
    ensures unspent { TakesOne number start.flags.bits result }
    ensures sealing { IfOk result (λ active. IsBegun root.now
        (number_taken (is_numbered start.flags.bits) number) active.begun) }
{
    let key = start.key.as_slice();
    let (who, flags) = (start.who, start.flags);
    let size = start.size as usize;
    let prior = match check_set(primary, rollback, key, size, flags, number) {
        Ok(prior) => prior,
        Err(refusal) => return Err(refusal),
    };
    match start_both(primary, rollback, who, key, start.size, flags) {
        Ok(()) => {}
        Err(refusal) => return Err(refusal),
    }
    let set = fresh_set(root, number, start, prior);
    Ok(Active {
        owner: who,
        begun: Begun::Set { set },
        above: true,
        below: is_mirrored(flags),
    })
}

// Adds the metadata of a record, where it is not there yet.
fn feed_head<K: Kv>(store: &mut K, who: u8, set: &PartialSet) -> Result<(), KvError>
    ensures fed { IfOk result (λ done. HasFed
        (calls K.rules_by (K.state store.old) (K.state store.new) who)
        set.now (λ root next. front_of root next set.now)) }
    ensures fails { IfErr result (FailsToFeed
        (calls K.rules_by (K.state store.old) (K.state store.new) who) set.now) }
{
    if set.is_headed {
        return Ok(());
    }
    match store.set_add(who, &set.head) {
        Ok(()) => Ok(()),
        Err(refusal) => Err(refusal),
    }
}

// Adds bytes of a value to its record, behind the metadata.
fn feed_part<K: Kv>(
    store: &mut K,
    who: u8,
    set: PartialSet,
    value: &[u8],
) -> Result<PartialSet, KvError>
    requires fits { length value.now ≤ set.left }
    requires counted { set.stream.body.left ≡ set.left }
    ensures fed { IfOk result (HasFedMore
        (calls K.rules_by (K.state store.old) (K.state store.new) who) value.now set) }
    ensures fails { IfErr result (FailsToFeed
        (calls K.rules_by (K.state store.old) (K.state store.new) who) set) }
{
    match feed_head(store, who, &set) {
        Ok(()) => {}
        Err(refusal) => return Err(refusal),
    }
    let PartialSet {
        key,
        flags,
        size,
        prior,
        head,
        mut stream,
        left,
        value: front,
        ..
    } = set;
    match add_part(store, who, &mut stream, value) {
        Ok(()) => {}
        Err(refusal) => return Err(refusal),
    }
    Ok(PartialSet {
        key,
        flags,
        size,
        prior,
        head,
        is_headed: true,
        stream,
        left: left - value.len() as u32,
        value: note_more(front, value),
    })
}

// Adds bytes of a value. After a refusal no set is active, unless a write failed.
fn add_set<U: Kv, R: Kv>(
    primary: &mut U,
    rollback: &mut R,
    who: u8,
    set: PartialSet,
    value: &[u8],
) -> Result<PartialSet, KvError>
    requires fits { length value.now ≤ set.left }
    requires counted { set.stream.body.left ≡ set.left }
    ensures run { (root : List ℕ) (next : ℕ) (above below : Bool) → IsSealing root next set
        → HasRun (parts_in root next (active_set who set above below)
        U.rules_by (U.state primary.old) R.rules_by (R.state rollback.old))
        (parts_in root next (set_or who above below result)
        U.rules_by (U.state primary.new) R.rules_by (R.state rollback.new))
        (answered who (Add value.now) (done_or result)) }
    ensures sealing { (root : List ℕ) (next : ℕ) → IsSealing root next set
        → IfOk result (IsSealing root next) }
{
    if value.is_empty() {
        return Ok(set);
    }
    let flags = set.flags;
    match feed_part(primary, who, set, value) {
        Ok(set) => Ok(set),
        Err(refusal) => {
            abort_tag(rollback, who, flags);
            Err(refusal)
        }
    }
}

/// Adds bytes to what was begun. After a refusal nothing is active, unless a write failed.
pub fn add_both<U: Kv, R: Kv>(
    primary: &mut U,
    rollback: &mut R,
    active: Active,
    value: &[u8],
) -> Result<Active, KvError>
    requires fits { may_take active.begun (length value.now) ≡ true }
    requires counted { IsCounted active.begun }
    ensures run { (root : List ℕ) (next : ℕ) → IsBegun root next active.begun
        → HasRun (parts_in root next (Some active)
        U.rules_by (U.state primary.old) R.rules_by (R.state rollback.old))
        (parts_in root next (begun_or result)
        U.rules_by (U.state primary.new) R.rules_by (R.state rollback.new))
        (answered active.owner (Add value.now) (done_or result)) }
    ensures sealing { (root : List ℕ) (next : ℕ) → IsBegun root next active.begun
        → IfOk result (λ later. IsBegun root next later.begun) }
{
    let Active {
        owner,
        begun,
        above,
        below,
    } = active;
    match begun {
        Begun::Remove { key } => Ok(Active {
            owner,
            begun: Begun::Remove { key },
            above,
            below,
        }),
        Begun::Set { set } => match add_set(primary, rollback, owner, set, value) {
            Ok(set) => Ok(Active {
                owner,
                begun: Begun::Set { set },
                above,
                below,
            }),
            Err(refusal) => Err(refusal),
        },
    }
}

// Adds what is missing of the record of a whole value, and gives its tag.
fn end_record<K: Kv>(store: &mut K, who: u8, set: PartialSet) -> Result<[u8; 16], KvError>
    requires whole { set.left ≡ 0 }
    requires counted { set.stream.body.left ≡ set.left }
    ensures ended { IfOk result (HasEndedRecord
        (calls K.rules_by (K.state store.old) (K.state store.new) who) set) }
    ensures fails { IfErr result (FailsToFeed
        (calls K.rules_by (K.state store.old) (K.state store.new) who) set) }
{
    match feed_head(store, who, &set) {
        Ok(()) => {}
        Err(refusal) => return Err(refusal),
    }
    let PartialSet { stream, .. } = set;
    let tag = stream.finish();
    match store.set_add(who, &tag) {
        Ok(()) => Ok(tag),
        Err(refusal) => Err(refusal),
    }
}

// Completes a set in pieces, in the primary store first. Where bytes are missing it is given up.
fn finish_set<U: Kv, R: Kv>(
    primary: &mut U,
    rollback: &mut R,
    who: u8,
    set: PartialSet,
) -> Result<(), KvError>
    requires { set.stream.body.left ≡ set.left }
    ensures { (root : List ℕ) (next : ℕ) (above below : Bool) → IsSealing root next set
        → HasRun (parts_in root next (active_set who set above below)
        U.rules_by (U.state primary.old) R.rules_by (R.state rollback.old))
        (parts root next U.rules_by (U.state primary.new) R.rules_by (R.state rollback.new))
        (answered who Finish (done_or result)) }
{
    let flags = set.flags;
    if set.left > 0 {
        let _ = primary.set_abort(who);
        abort_tag(rollback, who, flags);
        return Err(KvError::InvalidSize);
    }
    let tag = match end_record(primary, who, set) {
        Ok(tag) => tag,
        Err(refusal) => {
            abort_tag(rollback, who, flags);
            return Err(refusal);
        }
    };
    match primary.set_finish(who) {
        Ok(()) => {}
        Err(refusal) => {
            abort_tag(rollback, who, flags);
            return Err(refusal);
        }
    }
    if !is_mirrored(flags) {
        return Ok(());
    }
    match rollback.set_add(who, &tag) {
        Ok(()) => {}
        Err(refusal) => return Err(refusal),
    }
    match rollback.set_finish(who) {
        Ok(()) => Ok(()),
        Err(refusal) => Err(refusal),
    }
}

/// Completes what was begun, in the primary store first.
pub fn finish_both<U: Kv, R: Kv>(
    primary: &mut U,
    rollback: &mut R,
    active: Active,
) -> Result<(), KvError>
    requires { IsCounted active.begun }
    ensures { (root : List ℕ) (next : ℕ) → IsBegun root next active.begun
        → HasRun (parts_in root next (Some active)
        U.rules_by (U.state primary.old) R.rules_by (R.state rollback.old))
        (parts root next U.rules_by (U.state primary.new) R.rules_by (R.state rollback.new))
        (answered active.owner Finish (done_or result)) }
{
    let Active {
        owner,
        begun,
        above,
        below,
    } = active;
    match begun {
        Begun::Remove { .. } => finish_remove(primary, rollback, owner, above, below),
        Begun::Set { set } => finish_set(primary, rollback, owner, set),
    }
}
