ghost use Rattle.std.specs.Prelude.{◌≡◌, ◌<◌, ◌≤◌, ◌↔◌, length, IsTrue, IsOk, IfOk, IfErr, Some};
ghost use Rattle.std.specs.List.{list_all};
ghost use Rattle.std.specs.Str.{bytes_eq};
ghost use Rattle.std.specs.Ordering.{nat_cmp};
ghost use Rattle.std.specs.Cmp.{partial_equiv_from_equiv};
ghost use Rattle.std.specs.Cmp.Lexicographic.{slice_cmp, nat_list_eq_equiv, nat_list_cmp_total, texts_po, texts_ties};
ghost use Rattle.std.proofs.Common.{rules};
ghost use Rattle.kv_model.specs.declared.error.KvError.TheVariants.{InvalidKey};
ghost use Rattle.kv_model.specs.Keys.{is_key, is_key_byte, is_prefix};

use crate::{KvError, MAX_KEY};
use std::cmp::Ordering;
use std::marker::Model;

/// A key: 1 to 128 printing bytes, none of `* / ? : ; " | < >` and the backslash, and not `TDBS`.
#[derive(Clone, Debug, Drop)]
pub struct Key {
    buffer: [u8; MAX_KEY],
    length: u8,
}

impl Model for Key {
    ghost use Rattle.std.specs.Prelude.{◌≤◌, ℕ, List, take, IsTrue};
    ghost use Rattle.kv_model.specs.Keys.{is_key};

    ghost Value = { List ℕ };

    ghost view = { λ k. take k.length k.buffer };

    ghost invariant = { λ k. (k.length ≤ 128) × IsTrue (is_key (take k.length k.buffer)) };
}

#[tactic(auto, unfolding(crate::specs::Keys::is_key_byte))]
fn is_key_byte(byte: u8) -> bool
    ensures { result ≡ is_key_byte byte }
{
    let is_reserved = matches!(
        byte,
        b'*' | b'/' | b'?' | b':' | b';' | b'"' | b'|' | b'<' | b'>' | b'\\'
    );
    byte >= 0x21 && byte <= 0x7E && !is_reserved
}

// Whether all bytes may stand in keys.
fn all_key_bytes(bytes: &[u8]) -> bool
    ensures { result ≡ list_all is_key_byte bytes.now }
{
    bytes.iter().all(|byte| is_key_byte(*byte))
}

/// Whether the bytes are a prefix of keys: at most 128 bytes of the kind that keys have.
#[tactic(auto, unfolding(crate::specs::Keys::is_prefix))]
pub fn is_prefix(bytes: &[u8]) -> bool
    ensures { result ≡ is_prefix bytes.now }
{
    bytes.len() <= MAX_KEY && all_key_bytes(bytes)
}

/// Whether the bytes are a key.
#[tactic(auto, unfolding(crate::specs::Keys::is_key))]
pub fn is_key(bytes: &[u8]) -> bool
    ensures { result ≡ is_key bytes.now }
{
    !bytes.is_empty() && is_prefix(bytes) && bytes != b"TDBS".as_slice()
}

impl Key {
    /// The key of these bytes. `InvalidKey` comes exactly where they are no key.
    #[tactic(auto, unfolding(crate::specs::Keys::is_key, crate::specs::Keys::is_prefix))]
    pub fn new(bytes: &[u8]) -> Result<Key, KvError>
        ensures bytes { IfOk result (λ key. key ≡ bytes.now) }
        ensures valid { IsOk result ↔ IsTrue (is_key bytes.now) }
        ensures invalid { IfErr result (λ e. e ≡ InvalidKey) }
    {
        if !is_key(bytes) {
            return Err(KvError::InvalidKey);
        }
        let mut buffer = [0u8; MAX_KEY];
        buffer[..bytes.len()].copy_from_slice(bytes);
        Ok(Key {
            buffer,
            length: bytes.len() as u8,
        })
    }

    /// Lends the bytes of the key, 1 to 128.
    #[tactic(auto, unfolding(crate::specs::Keys::is_key, crate::specs::Keys::is_prefix))]
    pub fn as_slice(&self) -> &[u8]
        ensures bytes { result.now ≡ self.now }
        ensures valid { IsTrue (is_key self.now) }
        ensures not_empty { 0 < length self.now }
        ensures at_most { length self.now ≤ 128 }
    {
        &self.buffer[..self.length as usize]
    }

    /// The same key once more. It takes no memory.
    pub fn copied(&self) -> Key
        ensures { result ≡ self.now }
    {
        Key {
            buffer: self.buffer,
            length: self.length,
        }
    }
}

// Keys compare by their bytes, a prefix before what it begins.
impl PartialEq for Key {
    ghost eq = { bytes_eq };

    ghost laws = { partial_equiv_from_equiv nat_list_eq_equiv };

    fn eq(&self, other: &Key) -> bool {
        self.as_slice() == other.as_slice()
    }
}

impl Eq for Key {
    ghost laws = { nat_list_eq_equiv };
}

impl PartialOrd for Key {
    ghost partial_cmp = { λ a b. Some (slice_cmp nat_cmp a b) };

    ghost laws = { texts_po };

    fn partial_cmp(&self, other: &Key) -> Option<Ordering> {
        Some(self.cmp(other))
    }
}

impl Ord for Key {
    ghost cmp = { slice_cmp nat_cmp };

    ghost total = { nat_list_cmp_total };

    ghost matches_partial_cmp = { Prim.search rules };

    ghost matches_eq = { λ a b. texts_ties a b };

    fn cmp(&self, other: &Key) -> Ordering {
        self.as_slice().cmp(other.as_slice())
    }
}
