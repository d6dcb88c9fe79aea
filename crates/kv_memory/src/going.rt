// Runs of calls on any store.
ghost use Rattle.std.specs.Prelude.{◌≡◌, ◌≢◌, ◌+◌, ◌<◌, ℕ, ◌∷◌, [], All, length, take, OnOk, OnErr, IfOk};
ghost use Rattle.kv_model.specs.Orders.{Line};
ghost use Rattle.kv_memory.specs.Going.{HasGoneOn, IsHistory, seen};

use journal_core::Journal;
use kv_model::{Call, Kv, NoMemory, perform};
use std::alloc::Global;

// A copy of a call.
fn copy_of(call: &Call) -> Result<Call, NoMemory>
    ensures { IfOk result (λ copy. copy ≡ call.now) }
{
    Ok(call.clone()?)
}

// Makes one call on a store, and notes it in the journal with its reply.
fn run_one<K: Kv>(
    alloc: Global,
    store: &mut K,
    who: u8,
    call: &Call,
    journal: &mut Journal,
) -> Result<(), NoMemory>
    requires no_mount { call.now ≢ Call.Mount }
    requires numbers { length journal.old.entries < 4294967295 }
    ensures ran { OnOk result (HasGoneOn K.rules_by (seen (K.state store.old) journal.old.entries)
        (seen (K.state store.new) journal.new.entries) ((who, call.now) ∷ [])) }
    ensures stopped { OnErr result
        (HasGoneOn K.rules_by (seen (K.state store.old) journal.old.entries)
        (seen (K.state store.new) journal.new.entries) []) }
{
    journal.reserve()?;
    let noted = copy_of(call)?;
    match perform(alloc, store, who, call) {
        Ok(reply) => {
            journal.append(who, noted, reply);
            Ok(())
        }
        Err(none) => Err(none),
    }
}

/// Makes calls on a store, each for the client of its number, and notes them in the journal with
/// their replies. Want of memory stops the run before one of the calls; the journal then has those
/// before it.
pub fn run_calls<K: Kv>(
    alloc: Global,
    store: &mut K,
    lines: &[(u8, Call)],
    journal: &mut Journal,
) -> Result<(), NoMemory>
    requires no_mounts { All (λ (line : Line). line.1 ≢ Call.Mount) lines.now }
    requires numbers { length journal.old.entries + length lines.now < 4294967296 }
    ensures ran { OnOk result (HasGoneOn K.rules_by (seen (K.state store.old) journal.old.entries)
        (seen (K.state store.new) journal.new.entries) lines.now) }
    ensures stopped { OnErr result ((n : ℕ) × HasGoneOn K.rules_by
        (seen (K.state store.old) journal.old.entries)
        (seen (K.state store.new) journal.new.entries) (take n lines.now)) }
    ensures history { IsHistory K.rules_by (seen (K.state store.old) journal.old.entries)
        (seen (K.state store.new) journal.new.entries) }
{
    for line in lines {
        run_one(alloc, store, line.0, &line.1, journal)?;
    }
    Ok(())
}
