// The reply of a call twice: one for the caller, and one for the journal.
//
// What takes memory is had before the store is asked, or of a reply that changes nothing: so want
// of memory leaves the store's state.
ghost use Rattle.std.specs.Prelude.{◌≡◌, ◌≢◌, IfOk, OnErr, IsTrue, length, take};
ghost use Rattle.kv_model.specs.Given.{done_or};
ghost use Rattle.kv_model.specs.Kv.{Does, Ruled, answered, kind_of};
ghost use Rattle.kv_model.specs.Operations.{Next};
ghost use Rattle.kv_model.specs.Performs.{Performs, reply_or};
ghost use Rattle.kv_model.specs.declared.error.KvError.TheVariants.{Memory};
ghost use Rattle.shared_kv.specs.Twice.{first_of, reads_value};

use kv_model::{Bytes, Call, Info, Kv, KvError, NoMemory, Reply, perform};
use std::alloc::Global;

// A reply again.
fn copy_of(alloc: Global, reply: &Reply) -> Result<Reply, NoMemory>
    ensures copy { IfOk result (λ copy. copy ≡ reply.now) }
    ensures memory { OnErr result (kind_of reply.now ≡ Ruled) }
{
    match reply {
        Reply::Done => Ok(Reply::Done),
        Reply::Value { bytes } => Ok(Reply::Value {
            bytes: Bytes::new(alloc, bytes.as_slice())?,
        }),
        Reply::Facts { size, flags } => Ok(Reply::Facts {
            size: *size,
            flags: *flags,
        }),
        Reply::Found { key } => Ok(Reply::Found {
            key: Bytes::new(alloc, key.as_slice())?,
        }),
        Reply::End => Ok(Reply::End),
        Reply::Refused { error } => Ok(Reply::Refused { error: *error }),
    }
}

// A refusal twice; want of memory is none.
fn refused(error: KvError) -> Result<(Reply, Reply), NoMemory>
    ensures reply { reply_or (first_of result) ≡ Reply.Refused error }
    ensures memory { IfOk result (λ r. r.0 ≢ Reply.Refused Memory) }
    ensures same { IfOk result (λ r. r.1 ≡ r.0) }
{
    match error {
        KvError::Memory => Err(NoMemory),
        error => Ok((Reply::Refused { error }, Reply::Refused { error })),
    }
}

// The reply of a call that gives nothing.
fn done(outcome: Result<(), KvError>) -> Result<(Reply, Reply), NoMemory>
    ensures reply { reply_or (first_of result) ≡ done_or outcome }
    ensures memory { IfOk result (λ r. r.0 ≢ Reply.Refused Memory) }
    ensures same { IfOk result (λ r. r.1 ≡ r.0) }
{
    match outcome {
        Ok(()) => Ok((Reply::Done, Reply::Done)),
        Err(error) => refused(error),
    }
}

// A value, or a part of one. Reading changes nothing, so its reply is copied once it is there.
fn read_twice<K: Kv>(
    alloc: Global,
    store: &mut K,
    who: u8,
    call: &Call,
) -> Result<(Reply, Reply), NoMemory>
    requires reads { IsTrue (reads_value call.now) }
    ensures performs { Performs K.rules_by (K.state store.old) (K.state store.new)
        who call.now (first_of result) }
    ensures memory { IfOk result (λ r. r.0 ≢ Reply.Refused Memory) }
    ensures same { IfOk result (λ r. r.1 ≡ r.0) }
{
    let reply = perform(alloc, store, who, call)?;
    match copy_of(alloc, &reply) {
        Ok(copy) => Ok((reply, copy)),
        Err(none) => Err(none),
    }
}

// A buffer of a key as a reply.
fn found(mut key: Vec<u8>, out: &[u8; 128], size: u8) -> Reply
    requires { length key.items ≡ 128 }
    ensures { result ≡ Reply.Found (take size out.now) }
{
    key.copy_from_slice(out);
    key.truncate(size as usize);
    Reply::Found {
        key: Bytes::from_vec(key),
    }
}

// The next key of an iterator, in memory that is had before the store is asked.
fn next_twice<K: Kv>(
    alloc: Global,
    store: &mut K,
    who: u8,
    n: u8,
) -> Result<(Reply, Reply), NoMemory>
    ensures does { Does K.rules_by (K.state store.old) (K.state store.new)
        (answered who (Next n) (reply_or (first_of result))) }
    ensures memory { IfOk result (λ r. r.0 ≢ Reply.Refused Memory) }
    ensures same { IfOk result (λ r. r.1 ≡ r.0) }
{
    let key = vec![in alloc; 0u8; 128]?;
    let copy = vec![in alloc; 0u8; 128]?;
    let mut out = [0u8; 128];
    match store.next(who, n, &mut out) {
        Ok(Some(size)) => Ok((found(key, &out, size), found(copy, &out, size))),
        Ok(None) => Ok((Reply::End, Reply::End)),
        Err(error) => refused(error),
    }
}

// Makes the one call that `call` names, which is no mount, and gives its reply twice. Want of
// memory is answered as such and leaves the state; every other refusal is a reply.
pub(crate) fn perform_twice<K: Kv>(
    alloc: Global,
    store: &mut K,
    who: u8,
    call: &Call,
) -> Result<(Reply, Reply), NoMemory>
    requires { call.now ≢ Call.Mount }
    ensures performs { Performs K.rules_by (K.state store.old) (K.state store.new)
        who call.now (first_of result) }
    ensures memory { IfOk result (λ r. r.0 ≢ Reply.Refused Memory) }
    ensures same { IfOk result (λ r. r.1 ≡ r.0) }
{
    match call {
        Call::Get { .. } => read_twice(alloc, store, who, call),
        Call::Part { .. } => read_twice(alloc, store, who, call),
        Call::Info { key } => match store.info(key.as_slice()) {
            Ok(Info { size, flags }) => {
                Ok((Reply::Facts { size, flags }, Reply::Facts { size, flags }))
            }
            Err(error) => refused(error),
        },
        Call::Set { key, value, flags } => {
            done(store.set(who, key.as_slice(), value.as_slice(), *flags))
        }
        Call::Remove { key } => done(store.remove(who, key.as_slice())),
        Call::Start { key, size, flags } => {
            done(store.set_start(who, key.as_slice(), *size, *flags))
        }
        Call::Add { value } => done(store.set_add(who, value.as_slice())),
        Call::Finish => done(store.set_finish(who)),
        Call::Abort => done(store.set_abort(who)),
        Call::IterOpen { n, prefix } => done(store.iter_open(who, *n, prefix.as_slice())),
        Call::Next { n } => next_twice(alloc, store, who, *n),
        Call::IterClose { n } => done(store.iter_close(who, *n)),
        Call::Reset => done(store.reset(who)),
        Call::Mount => unreachable!(),
    }
}
