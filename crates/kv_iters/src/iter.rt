// One iterator.
ghost use Rattle.std.specs.Prelude.{◌≡◌, IfOk, Some};
ghost use Rattle.std.specs.Option.{option_copied};
ghost use Rattle.kv_iters.specs.Calls.{at_the_start};

use kv_model::{Bytes, Key, NoMemory};
use std::alloc::Global;
use std::marker::Model;

/// An iterator: the prefix of the keys that it gives, and the key that it gave last.
#[derive(Drop)]
pub struct Iter {
    prefix: Bytes,
    last_key: Option<Key>,
}

impl Model for Iter {
    ghost use Rattle.kv_model.specs.StoreState.{Position};
    ghost use Rattle.kv_iters.specs.Codes.{position_code};

    ghost Value = { Position };

    ghost coded = { position_code };

    ghost view = { λ i. record { prefix = i.prefix; last = i.last_key } };
}

impl Iter {
    pub(crate) fn new(alloc: Global, prefix: &[u8]) -> Result<Iter, NoMemory>
        ensures { IfOk result (λ iter. iter ≡ at_the_start prefix.now) }
    {
        Ok(Iter {
            prefix: Bytes::new(alloc, prefix)?,
            last_key: None,
        })
    }

    // The iterator behind a key that it gave.
    pub(crate) fn behind(self, key: &Key) -> Iter
        ensures { result ≡ record self { last = Some key.now } }
    {
        Iter {
            prefix: self.prefix,
            last_key: Some(key.copied()),
        }
    }

    /// Lends the prefix, 0 to 128 bytes.
    pub fn prefix(&self) -> &[u8]
        ensures { result.now ≡ self.now.prefix }
    {
        self.prefix.as_slice()
    }

    /// Lends the key that the iterator gave last, `None` where it has given none yet.
    pub fn last_key(&self) -> Option<&Key>
        ensures { option_copied result ≡ self.now.last }
    {
        self.last_key.as_ref()
    }
}
