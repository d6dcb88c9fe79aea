// The reading of one of the two stores.
ghost use Rattle.std.specs.Prelude.{◌≡◌, ◌≤◌, ◌+◌, true, IfOk, IfErr, Some, IfSome, length};
ghost use Rattle.std.specs.FinMap.{get};
ghost use Rattle.kv_model.specs.FlaggedMap.{Stored};
ghost use Rattle.kv_model.specs.Keys.{is_key};
ghost use Rattle.sealed_pair.specs.Removing.{FlagsOr};
ghost use Rattle.sealed_pair.specs.Reading.{BeginsWith, HasRead, IsPart, IsUnread, WhereTold};

use kv_model::{Flags, Got, Kv, KvError};

/// Reads the front of a key's value, as much as there is and fits. It gives none where the store
/// lacks the key.
pub(crate) fn read_front<K: Kv>(
    store: &mut K,
    key: &[u8],
    buf: &mut [u8],
) -> Result<Option<Got>, KvError>
    requires { is_key key.now ≡ true }
    ensures read { HasRead (K.state store.old) (K.state store.new) }
    ensures refusal { IfErr result (IsUnread (K.state store.old) (K.state store.new)) }
    ensures fits { IfOk result (λ found. IfSome found (λ got. got.read ≤ length buf.old)) }
    ensures found { WhereTold K.rules_by (K.state store.old) (λ state.
        BeginsWith (get state.primary key.now) result (length buf.old) buf.new) }
{
    match store.get(key, 0, buf) {
        Ok(got) => Ok(Some(got)),
        Err(error) => {
            if error == KvError::NotFound {
                Ok(None)
            } else {
                Err(error)
            }
        }
    }
}

/// Fills the buffer with the bytes of a key's value from a place on.
pub(crate) fn read_part<K: Kv>(
    store: &mut K,
    key: &[u8],
    place: u32,
    buf: &mut [u8],
) -> Result<(), KvError>
    requires { is_key key.now ≡ true }
    ensures read { HasRead (K.state store.old) (K.state store.new) }
    ensures refusal { IfErr result (IsUnread (K.state store.old) (K.state store.new)) }
    ensures part { (stored : Stored) → WhereTold K.rules_by (K.state store.old) (λ state.
        get state.primary key.now ≡ Some stored → place + length buf.old ≤ length stored.bytes
        → IsPart stored.bytes place result buf.new) }
{
    match store.get(key, place, buf) {
        Ok(got) => {
            // Only a store that tells nothing gives less than it has.
            if got.read as usize == buf.len() {
                Ok(())
            } else {
                Err(KvError::AuthFailed)
            }
        }
        Err(error) => Err(error),
    }
}

/// The flags that a store keeps with a key. It gives none where the store lacks the key.
pub(crate) fn flags_of<K: Kv>(store: &mut K, key: &[u8]) -> Result<Option<Flags>, KvError>
    requires { is_key key.now ≡ true }
    ensures read { HasRead (K.state store.old) (K.state store.new) }
    ensures refusal { IfErr result (IsUnread (K.state store.old) (K.state store.new)) }
    ensures holds { WhereTold K.rules_by (K.state store.old) (λ state.
        FlagsOr (get state.primary key.now) result) }
{
    match store.info(key) {
        Ok(info) => Ok(Some(info.flags)),
        Err(error) => {
            if error == KvError::NotFound {
                Ok(None)
            } else {
                Err(error)
            }
        }
    }
}
