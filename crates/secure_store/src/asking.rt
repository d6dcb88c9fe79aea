// The calls in which a write may fail.

use kv_model::Flags;

/// What a store is asked to do.
#[derive(Clone, Copy)]
pub(crate) enum Asking<'a> {
    Set {
        key: &'a [u8],
        value: &'a [u8],
        flags: Flags,
    },
    Remove {
        key: &'a [u8],
    },
    RemoveStart {
        key: &'a [u8],
    },
    Start {
        key: &'a [u8],
        size: u32,
        flags: Flags,
    },
    Add {
        value: &'a [u8],
    },
    Finish,
    Reset,
}
