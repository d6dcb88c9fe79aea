// The stored bytes of a sealed record, and the CMAC over all of it.
ghost use Rattle.std.specs.Prelude.{◌≡◌, ◌++◌, ◌+◌, ◌≤◌, ℕ, List, [], length};
ghost use Rattle.cipher_core.specs.Salt.{derived};
ghost use Rattle.cipher_core.specs.declared.derivation.Salt.TheVariants.{Enc};
ghost use Rattle.secure_record.specs.Metadata.{spelling};
ghost use Rattle.secure_record.specs.Sealed.{first_counter, opened, record_tag, stored};
ghost use Rattle.secure_record.specs.Streams.{ciphered, moved_on, HasTaken};
ghost use Rattle.secure_record.specs.declared.metadata.Metadata.{Metadata};

use crate::metadata::Metadata;
use cipher_core::{CmacStream, CtrStream, Salt, derive};
use kv_model::Key;

const CONFIDENTIAL: u32 = 2;

/// What the two streams share: the CMAC so far, the cipher where the value is confidential, and how
/// many bytes of the value are to come.
#[derive(Drop)]
pub struct BodyStream {
    pub mac: CmacStream,
    pub cipher: Option<CtrStream>,
    pub left: u32,
}

// The cipher of a confidential value, from its first byte on.
#[tactic(auto, unfolding(crate::specs::Sealed::first_counter))]
fn cipher_for(root: &[u8; 16], key: &Key, vector: u64) -> CtrStream
    ensures { result ≡ record {
      key = derived root.now Enc key.now;
      start = first_counter vector;
      place = 0;
    } }
{
    let mut counter = [0; 16];
    counter[..8].copy_from_slice(&vector.to_be_bytes());
    CtrStream::new(&derive(root, Salt::Enc, key), &counter)
}

// Combines the next bytes with the key stream, where there is one.
fn combine(cipher: &mut Option<CtrStream>, buf: &mut [u8])
    ensures bytes { buf.new ≡ ciphered cipher.old buf.old }
    ensures cipher { cipher.new ≡ moved_on cipher.old (length buf.old) }
{
    if let Some(stream) = cipher {
        stream.update(buf);
    }
}

impl BodyStream {
    /// The body of a record with this metadata, whose bytes are these, before the first byte of its
    /// value.
    pub fn new(root: &[u8; 16], key: &Key, metadata: &Metadata, spelled: &[u8]) -> BodyStream
        requires { spelled.now ≡ spelling metadata.now }
        ensures taken { HasTaken result root.now key.now metadata.now [] }
        ensures left { result.left ≡ metadata.now.size }
    {
        let mut mac = CmacStream::new(&derive(root, Salt::Auth, key));
        mac.update(spelled);
        mac.update(key.as_slice());
        let cipher = if metadata.flags & CONFIDENTIAL != 0 {
            Some(cipher_for(root, key, metadata.vector))
        } else {
            None
        };
        BodyStream {
            mac,
            cipher,
            left: metadata.size,
        }
    }

    /// Puts the next bytes of the value into their stored form.
    pub fn seal(&mut self, buf: &mut [u8])
        requires { length buf.old ≤ self.old.left }
        ensures left { self.new.left + length buf.old ≡ self.old.left }
        ensures taken { (root key : List ℕ) (m : Metadata) (bytes : List ℕ)
            → HasTaken self.old root key m bytes → HasTaken self.new root key m (bytes ++ buf.new) }
        ensures text { buf.new ≡ ciphered self.old.cipher buf.old }
    {
        let left = self.left;
        self.left = left - buf.len() as u32;
        combine(&mut self.cipher, buf);
        self.mac.update(buf);
    }

    /// Puts the next stored bytes into the form that they have in the value.
    pub fn open(&mut self, buf: &mut [u8])
        requires { length buf.old ≤ self.old.left }
        ensures left { self.new.left + length buf.old ≡ self.old.left }
        ensures taken { (root key : List ℕ) (m : Metadata) (bytes : List ℕ)
            → HasTaken self.old root key m bytes → HasTaken self.new root key m (bytes ++ buf.old) }
        ensures text { buf.new ≡ ciphered self.old.cipher buf.old }
    {
        let left = self.left;
        self.left = left - buf.len() as u32;
        self.mac.update(buf);
        combine(&mut self.cipher, buf);
    }

    /// The CMAC of the whole record.
    pub fn finish(self) -> [u8; 16]
        ensures { (root key : List ℕ) (m : Metadata) (bytes : List ℕ)
            → HasTaken self root key m bytes → result ≡ record_tag root key m bytes }
    {
        let BodyStream { mac, .. } = self;
        mac.finish()
    }
}
