// The set of a secure store, on the two stores.
ghost use Rattle.std.specs.Prelude.{◌≡◌, ◌≤◌, ◌+◌, ℕ, true, false, IfOk, IfErr, OnOk, List, [], Option, Some, None, length, if◌then◌else◌};
ghost use Rattle.std.specs.FinMap.{get};
ghost use Rattle.kv_model.specs.Flags.{is_secure_flags};
ghost use Rattle.kv_model.specs.Given.{done_or};
ghost use Rattle.kv_model.specs.declared.call.Reply.TheVariants.{Refused};
ghost use Rattle.kv_model.specs.Keys.{is_key};
ghost use Rattle.kv_model.specs.Kv.{answered};
ghost use Rattle.kv_model.specs.Operations.{Set};
ghost use Rattle.secure_record.specs.Sealed.{sealed_metadata};
ghost use Rattle.secure_record.specs.Streams.{HasSealed};
ghost use Rattle.sealed_pair.specs.Reading.{HasRead, IsUnread, WhereTold};
ghost use Rattle.sealed_pair.specs.Running.{HasRun, parts};
ghost use Rattle.sealed_pair.specs.Sealing.{is_numbered, kept_flags};
ghost use Rattle.sealed_pair.specs.Setting.{FailsToAdd, HasAdded, HasAddedPart, HasAddedRecord, HasGivenUp, HasMoved, IsAdmitted, IsFilled, IsRefusedSet, MayRefuse, BeginsRecord, StartsSet, TagOr, TakesOne, admitted, asked_of, bytes_of, calls, flags_with, number_left, record_set, request_of, tag_set, tag_with, vector_of};

use crate::keys::key_of;
use crate::limits::{MAX_SECURE_VALUE, SEAL_SIZE, TAG_SIZE};
use crate::reading::{flags_of, read_front};
use crate::removing::is_once;
use crate::viewing::is_mirrored;
use kv_model::{Flags, Kv, KvError};
use secure_record::SealStream;

// How many bytes of a value are sealed at once.
const PIECE: usize = 64;

// The flag bits that a secure store takes: write-once, confidentiality and replay protection.
const SECURE_FLAGS: u32 = 1 | 2 | 8;

/// What the rollback store holds for a key: its flags, and its bytes where they are a tag.
#[derive(Clone, Copy)]
pub struct Tagged {
    pub flags: Flags,
    pub tag: Option<[u8; 16]>,
}

/// A set at once: who makes it, the key, and the value and the flags that the key gets.
#[derive(Clone, Copy)]
pub struct WholeSet<'a> {
    pub who: u8,
    pub key: &'a [u8],
    pub value: &'a [u8],
    pub flags: Flags,
}

fn flags_with(tagged: Option<Tagged>) -> Option<Flags>
    ensures { result ≡ flags_with tagged }
{
    match tagged {
        None => None,
        Some(tagged) => Some(tagged.flags),
    }
}

fn tag_with(tagged: Option<Tagged>) -> Option<[u8; 16]>
    ensures { result ≡ tag_with tagged }
{
    match tagged {
        None => None,
        Some(tagged) => tagged.tag,
    }
}

pub fn is_secure(flags: Flags) -> bool
    ensures { result ≡ is_secure_flags flags.bits }
{
    flags.bits & SECURE_FLAGS == flags.bits
}

/// A set with any flag takes a number.
pub fn is_numbered(flags: Flags) -> bool
    ensures { result ≡ is_numbered flags.bits }
{
    flags.bits % 2 == 1 || (flags.bits / 2) % 2 == 1 || (flags.bits / 8) % 2 == 1
}

/// The vector of a record.
pub(crate) fn vector_for(flags: Flags, number: u64) -> u64
    ensures { result ≡ vector_of number flags.bits }
{
    if is_numbered(flags) { number } else { 0 }
}

// Both stores keep write-once beside a key, and no other flag.
fn kept(flags: Flags) -> Flags
    ensures { result.bits ≡ kept_flags flags.bits }
{
    Flags {
        bits: flags.bits % 2,
    }
}

// Reads what the rollback store holds for a key.
fn tag_of<R: Kv>(rollback: &mut R, key: &[u8]) -> Result<Option<Tagged>, KvError>
    requires { is_key key.now ≡ true }
    ensures read { HasRead (R.state rollback.old) (R.state rollback.new) }
    ensures refusal { IfErr result (IsUnread (R.state rollback.old) (R.state rollback.new)) }
    ensures holds { WhereTold R.rules_by (R.state rollback.old) (λ state.
        TagOr (get state.primary key.now) result) }
{
    let mut bytes = [0; 16];
    let found = read_front(rollback, key, &mut bytes)?;
    match found {
        None => Ok(None),
        Some(got) => {
            let flags = got.flags;
            if got.size != 16 {
                return Ok(Some(Tagged { flags, tag: None }));
            }
            let tag = Some(bytes);
            Ok(Some(Tagged { flags, tag }))
        }
    }
}

// Whether a set may be made beside what the stores hold, and which tag it replaces.
fn admit(
    above: Option<Flags>,
    below: Option<Tagged>,
    flags: Flags,
    number: u64,
) -> Result<Option<[u8; 16]>, KvError>
    ensures { result ≡ admitted above below flags.bits number }
{
    if is_once(above) || is_once(flags_with(below)) {
        return Err(KvError::WriteProtected);
    }
    if below.is_some() && !is_mirrored(flags) {
        return Err(KvError::InvalidFlags);
    }
    if is_numbered(flags) && number == u64::MAX {
        return Err(KvError::IvSpent);
    }
    Ok(tag_with(below))
}

/// Whether a set of so many bytes may be made, but for room; and which tag of the rollback store it
/// replaces. Nothing is written.
pub(crate) fn check_set<U: Kv, R: Kv>(
    primary: &mut U,
    rollback: &mut R,
    key: &[u8],
    size: usize,
    flags: Flags,
    number: u64,
) -> Result<Option<[u8; 16]>, KvError>
    requires { is_key key.now ≡ true }
    ensures above { HasRead (U.state primary.old) (U.state primary.new) }
    ensures below { HasRead (R.state rollback.old) (R.state rollback.new) }
    ensures admitted { (root : List ℕ) → IfOk result (λ prior. IsAdmitted
        (parts root number U.rules_by (U.state primary.new) R.rules_by (R.state rollback.new))
        key.now size flags.bits prior) }
    ensures refused { (root : List ℕ) → IfErr result (λ error. IsRefusedSet
        (parts root number U.rules_by (U.state primary.old) R.rules_by (R.state rollback.old))
        (parts root number U.rules_by (U.state primary.new) R.rules_by (R.state rollback.new))
        (request_of key.now size flags.bits) error) }
{
    if !is_secure(flags) {
        return Err(KvError::InvalidFlags);
    }
    if size > MAX_SECURE_VALUE as usize {
        return Err(KvError::InvalidSize);
    }
    let above = match flags_of(primary, key) {
        Ok(flags) => flags,
        Err(refusal) => return Err(refusal),
    };
    let below = match tag_of(rollback, key) {
        Ok(tagged) => tagged,
        Err(refusal) => return Err(refusal),
    };
    match admit(above, below, flags, number) {
        Ok(prior) => Ok(prior),
        Err(refusal) => Err(refusal),
    }
}

/// Begins the set of a record in the primary store, and where the key is mirrored that of its tag
/// in the rollback store. After a refusal none is active.
pub(crate) fn start_both<U: Kv, R: Kv>(
    primary: &mut U,
    rollback: &mut R,
    who: u8,
    key: &[u8],
    size: u32,
    flags: Flags,
) -> Result<(), KvError>
    requires { size ≤ 65536 }
    ensures above { OnOk result (HasMoved U.rules_by (U.state primary.old) (U.state primary.new)
        None (Some (record_set who key.now size flags.bits []))) }
    ensures below { OnOk result (HasMoved R.rules_by (R.state rollback.old)
        (R.state rollback.new) None (tag_set who key.now flags.bits [])) }
    ensures refused { IfErr result (λ error. HasGivenUp
        (parts [] 0 U.rules_by (U.state primary.old) R.rules_by (R.state rollback.old))
        (parts [] 0 U.rules_by (U.state primary.new) R.rules_by (R.state rollback.new))
        None None (record { begins = true; error = error })) }
    ensures room { (root : List ℕ) (number : ℕ) (prior : Option (List ℕ)) → let old = parts
        root number U.rules_by (U.state primary.old) R.rules_by (R.state rollback.old) in
        IsAdmitted old key.now size flags.bits prior
        → StartsSet old key.now size flags.bits result }
{
    match primary.set_start(who, key, size + SEAL_SIZE, kept(flags)) {
        Ok(()) => {}
        Err(refusal) => return Err(refusal),
    }
    if !is_mirrored(flags) {
        return Ok(());
    }
    match rollback.set_start(who, key, TAG_SIZE, kept(flags)) {
        Ok(()) => Ok(()),
        Err(refusal) => {
            let _ = primary.set_abort(who);
            Err(refusal)
        }
    }
}

// Seals a piece of a value and adds its stored bytes.
fn add_piece<K: Kv>(
    store: &mut K,
    who: u8,
    stream: &mut SealStream,
    piece: &[u8],
) -> Result<(), KvError>
    requires piece { length piece.now ≤ 64 }
    requires left { length piece.now ≤ stream.old.body.left }
    ensures added { OnOk result (HasAddedPart
        (calls K.rules_by (K.state store.old) (K.state store.new) who)
        stream.old stream.new piece.now) }
    ensures fails { IfErr result (FailsToAdd
        (calls K.rules_by (K.state store.old) (K.state store.new) who) (length piece.now)) }
    ensures may { IfErr result MayRefuse }
{
    let mut buffer = [0; PIECE];
    let buf = &mut buffer[..piece.len()];
    buf.copy_from_slice(piece);
    stream.seal(buf);
    match store.set_add(who, buf) {
        Ok(()) => Ok(()),
        Err(refusal) => Err(refusal),
    }
}

/// Seals the next bytes of a value, and adds their stored bytes.
pub(crate) fn add_part<K: Kv>(
    store: &mut K,
    who: u8,
    stream: &mut SealStream,
    value: &[u8],
) -> Result<(), KvError>
    requires { length value.now ≤ stream.old.body.left }
    ensures added { OnOk result (HasAddedPart
        (calls K.rules_by (K.state store.old) (K.state store.new) who)
        stream.old stream.new value.now) }
    ensures fails { IfErr result (FailsToAdd
        (calls K.rules_by (K.state store.old) (K.state store.new) who) (length value.now)) }
    ensures may { IfErr result MayRefuse }
{
    let mut done = 0;
    while done < value.len() {
        let count = PIECE.min(value.len() - done);
        match add_piece(store, who, stream, &value[done..done + count]) {
            Ok(()) => {}
            Err(refusal) => return Err(refusal),
        }
        done += count;
    }
    Ok(())
}

// Adds the record of a value, and gives its tag.
fn add_record<K: Kv>(
    store: &mut K,
    who: u8,
    mut stream: SealStream,
    value: &[u8],
) -> Result<[u8; 16], KvError>
    requires { stream.body.left ≡ length value.now }
    ensures added { IfOk result (HasAddedRecord
        (calls K.rules_by (K.state store.old) (K.state store.new) who) stream value.now) }
    ensures fails { IfErr result (FailsToAdd
        (calls K.rules_by (K.state store.old) (K.state store.new) who) (length value.now + 56)) }
{
    let head = stream.head();
    match store.set_add(who, &head) {
        Ok(()) => {}
        Err(refusal) => return Err(refusal),
    }
    match add_part(store, who, &mut stream, value) {
        Ok(()) => {}
        Err(refusal) => return Err(refusal),
    }
    let tag = stream.finish();
    match store.set_add(who, &tag) {
        Ok(()) => Ok(tag),
        Err(refusal) => Err(refusal),
    }
}

/// Gives up the set of a tag, where there is one.
pub(crate) fn abort_tag<R: Kv>(rollback: &mut R, who: u8, flags: Flags)
    ensures { (key bytes : List ℕ) → HasMoved R.rules_by (R.state rollback.old)
        (R.state rollback.new) (tag_set who key flags.bits bytes) None }
{
    if is_mirrored(flags) {
        let _ = rollback.set_abort(who);
    }
}

// Begins the sets of a record and of its tag, and adds all their bytes. After a refusal none is
// active, unless a write failed.
fn fill_both<U: Kv, R: Kv>(
    primary: &mut U,
    rollback: &mut R,
    who: u8,
    key: &[u8],
    flags: Flags,
    stream: SealStream,
    value: &[u8],
) -> Result<(), KvError>
    requires size { length value.now ≤ 65536 }
    requires left { stream.body.left ≡ length value.now }
    ensures filled { (root : List ℕ) (number : ℕ) (prior : Option (List ℕ))
        → let old = parts root number U.rules_by (U.state primary.old) R.rules_by
        (R.state rollback.old) in let asked = asked_of who key.now flags.bits value.now in
        IsAdmitted old key.now (length value.now) flags.bits prior
        → BeginsRecord old asked stream prior
        → OnOk result (IsFilled old (parts root number U.rules_by (U.state primary.new) R.rules_by
        (R.state rollback.new)) asked (bytes_of old asked prior)) }
    ensures refused { (root : List ℕ) (number : ℕ) (prior : Option (List ℕ))
        → let old = parts root number U.rules_by (U.state primary.old) R.rules_by
        (R.state rollback.old) in
        IsAdmitted old key.now (length value.now) flags.bits prior
        → IfErr result (λ error. HasRun old (parts root number U.rules_by (U.state primary.new)
        R.rules_by (R.state rollback.new))
        (answered who (Set key.now value.now flags.bits) (Refused error))) }
{
    match start_both(primary, rollback, who, key, value.len() as u32, flags) {
        Ok(()) => {}
        Err(refusal) => return Err(refusal),
    }
    let tag = match add_record(primary, who, stream, value) {
        Ok(tag) => tag,
        Err(refusal) => {
            abort_tag(rollback, who, flags);
            return Err(refusal);
        }
    };
    if !is_mirrored(flags) {
        return Ok(());
    }
    match rollback.set_add(who, &tag) {
        Ok(()) => Ok(()),
        Err(refusal) => {
            let _ = primary.set_abort(who);
            Err(refusal)
        }
    }
}

// Sets the record of a value and its tag, in the primary store first.
fn write_both<U: Kv, R: Kv>(
    primary: &mut U,
    rollback: &mut R,
    who: u8,
    key: &[u8],
    flags: Flags,
    stream: SealStream,
    value: &[u8],
) -> Result<(), KvError>
    requires size { length value.now ≤ 65536 }
    requires left { stream.body.left ≡ length value.now }
    ensures { (root : List ℕ) (number : ℕ) (prior : Option (List ℕ))
        → let old = parts root number U.rules_by (U.state primary.old) R.rules_by
        (R.state rollback.old) in let asked = asked_of who key.now flags.bits value.now in
        IsAdmitted old key.now (length value.now) flags.bits prior
        → BeginsRecord old asked stream prior
        → HasRun old (parts root (number_left number flags.bits result) U.rules_by
        (U.state primary.new) R.rules_by (R.state rollback.new))
        (answered who (Set key.now value.now flags.bits) (done_or result)) }
{
    match fill_both(primary, rollback, who, key, flags, stream, value) {
        Ok(()) => {}
        Err(refusal) => return Err(refusal),
    }
    match primary.set_finish(who) {
        Ok(()) => {}
        Err(refusal) => {
            abort_tag(rollback, who, flags);
            return Err(refusal);
        }
    }
    if !is_mirrored(flags) {
        return Ok(());
    }
    match rollback.set_finish(who) {
        Ok(()) => Ok(()),
        Err(refusal) => Err(refusal),
    }
}

/// Sets a value: its record in the primary store, and where the key is mirrored its tag in the
/// rollback store. A record with any flag has the number as its vector.
pub fn set_both<U: Kv, R: Kv>(
    primary: &mut U,
    rollback: &mut R,
    root: &[u8; 16],
    number: u64,
    set: WholeSet,
) -> Result<(), KvError>
    ensures run { HasRun
        (parts root.now number U.rules_by (U.state primary.old) R.rules_by (R.state rollback.old))
        (parts root.now (number_left number set.entry.flags.bits result) U.rules_by
        (U.state primary.new) R.rules_by (R.state rollback.new))
        (answered set.entry.who (Set set.entry.key.now set.entry.value.now set.entry.flags.bits)
        (done_or result)) }
    ensures unspent { TakesOne number set.entry.flags.bits result }
{
    let WholeSet {
        who,
        key,
        value,
        flags,
    } = set;
    let name = match key_of(key) {
        Ok(name) => name,
        Err(refusal) => return Err(refusal),
    };
    let prior = match check_set(primary, rollback, key, value.len(), flags, number) {
        Ok(prior) => prior,
        Err(refusal) => return Err(refusal),
    };
    let vector = vector_for(flags, number);
    let stream = SealStream::new(root, &name, flags, vector, prior, value.len() as u32);
    match write_both(primary, rollback, who, key, flags, stream, value) {
        Ok(()) => Ok(()),
        Err(refusal) => Err(refusal),
    }
}
