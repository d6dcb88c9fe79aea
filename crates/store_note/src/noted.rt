// What contracts alone see.
ghost use Rattle.std.specs.Prelude.{◌≡◌, ℕ, List};
ghost use Rattle.std.specs.Borrow.{ftrue};
ghost use Rattle.std.specs.Coded.{coded_list, coded_ℕ};
ghost use Rattle.kv_model.specs.Opening.{state_code};
ghost use Rattle.kv_model.specs.StoreState.{StoreState};

use std::marker::Model;

/// How a state is read off a value.
pub trait Notes<X> {
    ghost state: { X → StoreState };
}

/// A state that contracts alone see. It has no bytes.
#[derive(Drop)]
pub struct Noted {
    pub ghost state: { StoreState } by { state_code },
}

impl Model for Noted {
    ghost also_owns = { λ _. ftrue };
}

impl Noted {
    /// A note of the state that is read off a value.
    pub fn of<X, N: Notes<X>>(_of: &X) -> Noted
        ensures { result.state ≡ N.state _of.now }
    {
        Noted {}
    }
}

/// How bytes are read off a value.
pub trait NotesBytes<X> {
    ghost bytes: { X → List ℕ };
}

/// Bytes that contracts alone see.
#[derive(Drop)]
pub struct NotedBytes {
    pub ghost bytes: { List ℕ } by { coded_list coded_ℕ },
}

impl Model for NotedBytes {
    ghost also_owns = { λ _. ftrue };
}

impl NotedBytes {
    /// A note of the bytes that are read off a value.
    pub fn of<X, N: NotesBytes<X>>(_of: &X) -> NotedBytes
        ensures { result.bytes ≡ N.bytes _of.now }
    {
        NotedBytes {}
    }
}
