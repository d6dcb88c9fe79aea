// A call of a script, performed on any store.
ghost use Rattle.std.specs.Prelude.{◌≡◌, ◌≢◌, ℕ, IfOk};
ghost use Rattle.kv_model.specs.Given.{done_or};
ghost use Rattle.kv_model.specs.Kv.{Does, FailedWrite, answered, kind_of};
ghost use Rattle.kv_model.specs.Operations.{Get, Part, Next};
ghost use Rattle.kv_model.specs.Performs.{Performs, reply_or};
ghost use Rattle.kv_model.specs.declared.error.KvError.TheVariants.{Memory};

use crate::{Bytes, Call, Info, Kv, KvError, NoMemory, Reply};
use std::alloc::Global;

// A refusal as a reply; want of memory is none.
fn refused(error: KvError) -> Result<Reply, NoMemory>
    ensures reply { reply_or result ≡ Reply.Refused error }
    ensures memory { IfOk result (λ reply. reply ≢ Reply.Refused Memory) }
{
    match error {
        KvError::Memory => Err(NoMemory),
        error => Ok(Reply::Refused { error }),
    }
}

// The reply of a call that gives nothing.
fn done(outcome: Result<(), KvError>) -> Result<Reply, NoMemory>
    ensures reply { reply_or result ≡ done_or outcome }
    ensures memory { IfOk result (λ reply. reply ≢ Reply.Refused Memory) }
{
    match outcome {
        Ok(()) => Ok(Reply::Done),
        Err(error) => refused(error),
    }
}

// Reads `size` bytes of a value from `offset` on into memory of its own.
fn read_into<K: Kv>(
    alloc: Global,
    store: &mut K,
    key: &[u8],
    offset: u32,
    size: u32,
) -> Result<Reply, NoMemory>
    ensures does { (who : ℕ) → Does K.rules_by (K.state store.old) (K.state store.new)
        (answered who (Part key.now offset size) (reply_or result)) }
    ensures reads { kind_of (reply_or result) ≢ FailedWrite }
    ensures memory { IfOk result (λ reply. reply ≢ Reply.Refused Memory) }
{
    let mut buf = vec![in alloc; 0u8; size as usize]?;
    match store.get(key, offset, &mut buf) {
        Ok(got) => {
            buf.truncate(got.read as usize);
            Ok(Reply::Value {
                bytes: Bytes::from_vec(buf),
            })
        }
        Err(error) => refused(error),
    }
}

// The whole value of a key.
fn read_whole<K: Kv>(alloc: Global, store: &mut K, key: &[u8]) -> Result<Reply, NoMemory>
    ensures does { (who : ℕ) → Does K.rules_by (K.state store.old) (K.state store.new)
        (answered who (Get key.now) (reply_or result)) }
    ensures memory { IfOk result (λ reply. reply ≢ Reply.Refused Memory) }
{
    match store.info(key) {
        Ok(info) => read_into(alloc, store, key, 0, info.size),
        Err(error) => refused(error),
    }
}

// At most `count` bytes of a value, from `offset` on.
fn read_part<K: Kv>(
    alloc: Global,
    store: &mut K,
    key: &[u8],
    offset: u32,
    count: u32,
) -> Result<Reply, NoMemory>
    ensures does { (who : ℕ) → Does K.rules_by (K.state store.old) (K.state store.new)
        (answered who (Part key.now offset count) (reply_or result)) }
    ensures memory { IfOk result (λ reply. reply ≢ Reply.Refused Memory) }
{
    match store.info(key) {
        Ok(info) => {
            let size = count.min(info.size.saturating_sub(offset));
            read_into(alloc, store, key, offset, size)
        }
        Err(error) => refused(error),
    }
}

// The next key of an iterator, in memory that is had before the store is asked.
fn read_next<K: Kv>(alloc: Global, store: &mut K, who: u8, n: u8) -> Result<Reply, NoMemory>
    ensures does { Does K.rules_by (K.state store.old) (K.state store.new)
        (answered who (Next n) (reply_or result)) }
    ensures memory { IfOk result (λ reply. reply ≢ Reply.Refused Memory) }
{
    let mut key = vec![in alloc; 0u8; 128]?;
    let mut out = [0u8; 128];
    match store.next(who, n, &mut out) {
        Ok(Some(length)) => {
            key.copy_from_slice(&out);
            key.truncate(length as usize);
            Ok(Reply::Found {
                key: Bytes::from_vec(key),
            })
        }
        Ok(None) => Ok(Reply::End),
        Err(error) => refused(error),
    }
}

/// Makes the one call that `call` names, which is no mount. Want of memory is answered as such and
/// leaves the state; every other refusal is a reply. A value is read into memory of its own size.
pub fn perform<K: Kv>(alloc: Global, store: &mut K, who: u8, call: &Call) -> Result<Reply, NoMemory>
    requires { call.now ≢ Call.Mount }
    ensures performs { Performs K.rules_by (K.state store.old) (K.state store.new)
        who call.now result }
    ensures memory { IfOk result (λ reply. reply ≢ Reply.Refused Memory) }
{
    match call {
        Call::Get { key } => read_whole(alloc, store, key.as_slice()),
        Call::Part { key, offset, count } => {
            read_part(alloc, store, key.as_slice(), *offset, *count)
        }
        Call::Info { key } => match store.info(key.as_slice()) {
            Ok(Info { size, flags }) => Ok(Reply::Facts { size, flags }),
            Err(error) => refused(error),
        },
        Call::Set { key, value, flags } => {
            done(store.set(who, key.as_slice(), value.as_slice(), *flags))
        }
        Call::Remove { key } => done(store.remove(who, key.as_slice())),
        Call::Start { key, size, flags } => {
            done(store.set_start(who, key.as_slice(), *size, *flags))
        }
        Call::Add { value } => done(store.set_add(who, value.as_slice())),
        Call::Finish => done(store.set_finish(who)),
        Call::Abort => done(store.set_abort(who)),
        Call::IterOpen { n, prefix } => done(store.iter_open(who, *n, prefix.as_slice())),
        Call::Next { n } => read_next(alloc, store, who, *n),
        Call::IterClose { n } => done(store.iter_close(who, *n)),
        Call::Reset => done(store.reset(who)),
        Call::Mount => unreachable!(),
    }
}
