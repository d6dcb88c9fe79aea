// The healing of a key: a set that a power cut left between the two stores is completed.
ghost use Rattle.std.specs.Prelude.{◌≡◌, true, IfErr, IfOk, IfSome, List, ℕ};
ghost use Rattle.std.specs.FinMap.{get};
ghost use Rattle.kv_model.specs.Flags.{is_plain_flags};
ghost use Rattle.kv_model.specs.Given.{done_or};
ghost use Rattle.kv_model.specs.Kv.{IsCause};
ghost use Rattle.kv_model.specs.Keys.{is_key};
ghost use Rattle.sealed_pair.specs.Going.{WhereStill};
ghost use Rattle.sealed_pair.specs.Pair.{Joining, pair};
ghost use Rattle.sealed_pair.specs.Reading.{HasRead, IsUnread, WhereTold};
ghost use Rattle.sealed_pair.specs.Recovering.{EntryOr, HasWritten, MayReplace, Rewrites, StillRuns, SuccessorOr, goal_of, is_full, replaces, secure_by, tag_by, with_tag};

use crate::opening::{begin, open_begun};
use crate::reading::flags_of;
use crate::viewing::{Mirror, find_tag};
use kv_model::{Flags, Key, Kv, KvError};

/// A record of the primary store that replaces a tag: its own tag with the flags that are kept
/// beside it, and the tag that it replaces.
#[derive(Clone, Copy)]
pub(crate) struct Successor {
    pub(crate) flags: Flags,
    pub(crate) tag: [u8; 16],
    pub(crate) prior: [u8; 16],
}

/// A tag that the rollback store keeps.
#[derive(Clone, Copy)]
pub(crate) struct Entry {
    pub(crate) flags: Flags,
    pub(crate) tag: [u8; 16],
}

// The record of a key that replaces a tag. It gives none where there is no such record.
fn find_successor<U: Kv>(
    primary: &mut U,
    root: &[u8; 16],
    key: &Key,
) -> Result<Option<Successor>, KvError>
    ensures read { HasRead (U.state primary.old) (U.state primary.new) }
    ensures refusal { IfErr result (IsUnread (U.state primary.old) (U.state primary.new)) }
    ensures plain { IfOk result (λ found. IfSome found (λ s. is_plain_flags s.flags.bits ≡ true)) }
    ensures found { WhereTold U.rules_by (U.state primary.old) (λ state.
        SuccessorOr root.now key.now (get state.primary key.now) result) }
{
    let stream = match begin(primary, root, key) {
        Ok(Some(stream)) => stream,
        Ok(None) => return Ok(None),
        Err(KvError::AuthFailed) => return Ok(None),
        Err(refusal) => return Err(refusal),
    };
    let prior = match stream.prior() {
        Some(prior) => prior,
        None => return Ok(None),
    };
    let flags = Flags {
        bits: stream.flags().bits % 2,
    };
    match open_begun(primary, root, key, stream, 0, &mut []) {
        Ok(found) => {
            let tag = found.tag;
            Ok(Some(Successor { flags, tag, prior }))
        }
        Err(refusal) => {
            if refusal == KvError::AuthFailed {
                return Ok(None);
            }
            Err(refusal)
        }
    }
}

// The tag that the rollback store has for a key, where it has one.
fn find_entry<R: Kv>(rollback: &mut R, key: &[u8]) -> Result<Option<Entry>, KvError>
    requires { is_key key.now ≡ true }
    ensures read { HasRead (R.state rollback.old) (R.state rollback.new) }
    ensures refusal { IfErr result (IsUnread (R.state rollback.old) (R.state rollback.new)) }
    ensures found { WhereTold R.rules_by (R.state rollback.old) (λ state.
        EntryOr (get state.primary key.now) result) }
{
    let flags = match flags_of(rollback, key) {
        Ok(Some(flags)) => flags,
        Ok(None) => return Ok(None),
        Err(refusal) => return Err(refusal),
    };
    match find_tag(rollback, key) {
        Ok(Mirror::Tag(tag)) => Ok(Some(Entry { flags, tag })),
        Ok(Mirror::Absent) => Ok(None),
        Ok(Mirror::Other) => Ok(None),
        Err(refusal) => Err(refusal),
    }
}

// Whether a record replaces this tag, with another.
fn replaces(successor: &Successor, entry: &Entry) -> bool
    ensures { result ≡ replaces successor.now entry.now }
{
    let is_same = entry.tag == successor.tag && entry.flags.bits == successor.flags.bits;
    entry.tag == successor.prior && entry.flags.bits % 2 != 1 && !is_same
}

fn is_full(refusal: KvError) -> bool
    ensures { result ≡ is_full refusal }
{
    match refusal {
        KvError::MediaFull { .. } => true,
        _ => false,
    }
}

// Puts a tag in the place of another, where it fits, and tells whether it did.
fn replace<R: Kv>(
    rollback: &mut R,
    who: u8,
    key: &[u8],
    successor: &Successor,
) -> Result<bool, KvError>
    requires key { is_key key.now ≡ true }
    requires plain { is_plain_flags successor.now.flags.bits ≡ true }
    requires held { WhereStill R.rules_by (R.state rollback.old)
        (MayReplace key.now (tag_by successor.now)) }
    ensures written { HasWritten (R.state rollback.old) (R.state rollback.new) result }
    ensures cause { IsCause (R.state rollback.old).known (R.state rollback.new).known
        (done_or result) }
    ensures rewrites { Rewrites R.rules_by (R.state rollback.old) (R.state rollback.new)
        (λ state. with_tag (R.state rollback.old).known.constants key.now (tag_by successor.now)
        state.primary) result }
{
    match rollback.set(who, key, &successor.tag, successor.flags) {
        Ok(()) => Ok(true),
        Err(refusal) => {
            if is_full(refusal) {
                return Ok(false);
            }
            Err(refusal)
        }
    }
}

/// Heals the tag of a key, and tells whether its entry changed. A tag for which there is no room
/// stays.
pub(crate) fn heal_key<U: Kv, R: Kv>(
    primary: &mut U,
    rollback: &mut R,
    root: &[u8; 16],
    who: u8,
    key: &Key,
) -> Result<bool, KvError>
    ensures primary { HasRead (U.state primary.old) (U.state primary.new) }
    ensures rollback { HasWritten (R.state rollback.old) (R.state rollback.new) result }
    ensures cause { (joining : Joining) → IsCause
        (pair root.now joining (U.state primary.old) (R.state rollback.old)).known
        (pair root.now joining (U.state primary.new) (R.state rollback.new)).known
        (done_or result) }
    ensures stays { StillRuns R.rules_by (R.state rollback.old) (R.state rollback.new) result }
    ensures heals { WhereTold U.rules_by (U.state primary.old) (λ above. Rewrites R.rules_by
        (R.state rollback.old) (R.state rollback.new)
        (goal_of (secure_by root.now (R.state rollback.old).known.constants) above.primary
        key.now) result) }
{
    let successor = match find_successor(primary, root, key) {
        Ok(Some(successor)) => successor,
        Ok(None) => return Ok(false),
        Err(refusal) => return Err(refusal),
    };
    let bytes = key.as_slice();
    let entry = match find_entry(rollback, bytes) {
        Ok(Some(entry)) => entry,
        Ok(None) => return Ok(false),
        Err(refusal) => return Err(refusal),
    };
    if !replaces(&successor, &entry) {
        return Ok(false);
    }
    match replace(rollback, who, bytes, &successor) {
        Ok(changed) => Ok(changed),
        Err(refusal) => Err(refusal),
    }
}
