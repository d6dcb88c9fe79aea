// What is noted for proofs alone: the state of a store that a failed write stopped, with the call in
// doubt.
ghost use Rattle.std.specs.Prelude.{◌≡◌};
ghost use Rattle.kv_model.specs.Operations.{Add, Finish, Remove, RemoveStart, Reset, Set, Start};
ghost use Rattle.plain_store.specs.Stores.{in_doubt, state_told};

use crate::PlainStore;
use flash_core::Flash;
use kv_model::{Flags, Key};
use store_note::{Noted, NotedBytes, Notes, note_bytes};

// The state of a store that runs.
struct Running;

impl<F: Flash> Notes<PlainStore<F>> for Running {
    ghost state = { state_told F.state };
}

/// A note of the state of a store that runs.
pub(crate) fn note_state<F: Flash>(store: &PlainStore<F>) -> Noted
    ensures { result.state ≡ state_told F.state store.now }
{
    Noted::of::<PlainStore<F>, Running>(store)
}

// A state, and the call that is in doubt.
#[derive(Drop)]
struct Adding {
    before: Noted,
    who: u8,
    value: NotedBytes,
}

impl Notes<Adding> for Adding {
    ghost state = { λ call. in_doubt call.before.state call.who (Add call.value.bytes) };
}

/// A note of this state with the add of these bytes in doubt.
pub(crate) fn note_add(before: Noted, who: u8, value: &[u8]) -> Noted
    ensures { result.state ≡ in_doubt before.state who (Add value.now) }
{
    let call = Adding {
        before,
        who,
        value: note_bytes(value),
    };
    Noted::of::<Adding, Adding>(&call)
}

#[derive(Drop)]
struct Resetting {
    before: Noted,
    who: u8,
}

impl Notes<Resetting> for Resetting {
    ghost state = { λ call. in_doubt call.before.state call.who Reset };
}

/// A note of this state with a reset in doubt.
pub(crate) fn note_reset(before: Noted, who: u8) -> Noted
    ensures { result.state ≡ in_doubt before.state who Reset }
{
    let call = Resetting { before, who };
    Noted::of::<Resetting, Resetting>(&call)
}

#[derive(Drop)]
struct Finishing {
    before: Noted,
    who: u8,
}

impl Notes<Finishing> for Finishing {
    ghost state = { λ call. in_doubt call.before.state call.who Finish };
}

/// A note of this state with a finish in doubt.
pub(crate) fn note_finish(before: Noted, who: u8) -> Noted
    ensures { result.state ≡ in_doubt before.state who Finish }
{
    let call = Finishing { before, who };
    Noted::of::<Finishing, Finishing>(&call)
}

#[derive(Drop)]
struct Removing {
    before: Noted,
    who: u8,
    key: NotedBytes,
}

// A remove that begins.
struct Begins;

impl Notes<Removing> for Begins {
    ghost state = { λ call. in_doubt call.before.state call.who (RemoveStart call.key.bytes) };
}

/// A note of this state with the start of a remove in doubt.
pub(crate) fn note_remove_start(before: Noted, who: u8, key: &Key) -> Noted
    ensures { result.state ≡ in_doubt before.state who (RemoveStart key.now) }
{
    let call = Removing {
        before,
        who,
        key: note_bytes(key.as_slice()),
    };
    Noted::of::<Removing, Begins>(&call)
}

impl Notes<Removing> for Removing {
    ghost state = { λ call. in_doubt call.before.state call.who (Remove call.key.bytes) };
}

/// A note of this state with a remove in doubt.
pub(crate) fn note_remove(before: Noted, who: u8, key: &Key) -> Noted
    ensures { result.state ≡ in_doubt before.state who (Remove key.now) }
{
    let call = Removing {
        before,
        who,
        key: note_bytes(key.as_slice()),
    };
    Noted::of::<Removing, Removing>(&call)
}

#[derive(Drop)]
struct Starting {
    before: Noted,
    who: u8,
    key: NotedBytes,
    size: u32,
    flags: Flags,
}

impl Notes<Starting> for Starting {
    ghost state = { λ call. in_doubt call.before.state call.who
        (Start call.key.bytes call.size call.flags.bits) };
}

/// A note of this state with the start of a set in doubt.
pub(crate) fn note_start(before: Noted, who: u8, key: &Key, size: u32, flags: Flags) -> Noted
    ensures { result.state ≡ in_doubt before.state who (Start key.now size flags.bits) }
{
    let call = Starting {
        before,
        who,
        key: note_bytes(key.as_slice()),
        size,
        flags,
    };
    Noted::of::<Starting, Starting>(&call)
}

#[derive(Drop)]
struct Setting {
    before: Noted,
    who: u8,
    key: NotedBytes,
    value: NotedBytes,
    flags: Flags,
}

impl Notes<Setting> for Setting {
    ghost state = { λ call. in_doubt call.before.state call.who
        (Set call.key.bytes call.value.bytes call.flags.bits) };
}

/// A note of this state with a set in doubt.
pub(crate) fn note_set(before: Noted, who: u8, key: &Key, value: &[u8], flags: Flags) -> Noted
    ensures { result.state ≡ in_doubt before.state who (Set key.now value.now flags.bits) }
{
    let call = Setting {
        before,
        who,
        key: note_bytes(key.as_slice()),
        value: note_bytes(value),
        flags,
    };
    Noted::of::<Setting, Setting>(&call)
}
