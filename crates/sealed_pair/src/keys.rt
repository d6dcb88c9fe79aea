// Keys from bytes.
ghost use Rattle.sealed_pair.specs.Store.{KeyOr};

use kv_model::{Key, KvError};

/// The key of these bytes.
pub fn key_of(bytes: &[u8]) -> Result<Key, KvError>
    ensures { KeyOr bytes.now result }
{
    if !kv_model::is_key(bytes) {
        return Err(KvError::InvalidKey);
    }
    Ok(Key::new(bytes)?)
}
