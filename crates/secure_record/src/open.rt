// The reading of a sealed record.
ghost use Rattle.std.specs.Prelude.{◌≡◌, ◌++◌, ◌+◌, ◌≤◌, ℕ, List, [], length, Option, Some};
ghost use Rattle.secure_record.specs.Metadata.{metadata_size, IsHead};
ghost use Rattle.secure_record.specs.Sealed.{opened, record_tag};
ghost use Rattle.secure_record.specs.Unseal.{opened_as, unseal};
ghost use Rattle.secure_record.specs.Streams.{record_read, Begins, Ends, HasOpened};

use crate::body::BodyStream;
use crate::metadata::Metadata;
use kv_model::{Flags, Key, KvError};
use std::marker::Model;

/// A sealed record, of either revision, that is read piece by piece.
///
/// The bytes that `absorb` gives are the value only once `finish` has answered Ok.
#[derive(Drop)]
pub struct OpenStream {
    metadata: Metadata,
    body: BodyStream,
}

impl Model for OpenStream {
    ghost use Rattle.secure_record.specs.States.{OpenState};

    ghost Value = { OpenState };

    ghost view = { λ s. record { metadata = s.metadata; body = s.body } };
}

impl OpenStream {
    /// Begins a record of `length` bytes that stands under the key. `head` is its first 40 bytes,
    /// or all where it is shorter. `AuthFailed` comes exactly where these are metadata of neither
    /// revision for that length.
    pub fn new(root: &[u8; 16], key: &Key, head: &[u8], length: u32) -> Result<OpenStream, KvError>
        requires { IsHead head.now length }
        ensures { Begins result root.now key.now head.now length }
    {
        let metadata = Metadata::read(head, length).ok_or(KvError::AuthFailed)?;
        let spelled = &head[..usize::from(metadata.revision.metadata_size())];
        let body = BodyStream::new(root, key, &metadata, spelled);
        Ok(OpenStream { metadata, body })
    }

    /// How many bytes the metadata has, 20 or 40. The stored bytes stand behind it.
    pub fn head_size(&self) -> u32
        ensures { result ≡ metadata_size self.now.metadata.revision }
    {
        u32::from(self.metadata.revision.metadata_size())
    }

    /// The CMAC that the record's own replaced. None comes exactly for revision 1 and where none is
    /// named.
    pub fn prior(&self) -> Option<[u8; 16]>
        ensures { result ≡ self.now.metadata.prior }
    {
        self.metadata.prior
    }

    /// The flags of the value.
    pub fn flags(&self) -> Flags
        ensures { result ≡ record { bits = self.now.metadata.flags } }
    {
        Flags {
            bits: self.metadata.flags,
        }
    }

    /// How many bytes the value has.
    pub fn size(&self) -> u32
        ensures { result ≡ self.now.metadata.size }
    {
        self.metadata.size
    }

    /// Puts the next stored bytes into the form that they have in the value, in place. They are at
    /// most as many as are left of the value's size.
    pub fn absorb(&mut self, buf: &mut [u8])
        requires { length buf.old ≤ self.old.body.left }
        ensures left { self.new.body.left + length buf.old ≡ self.old.body.left }
        ensures metadata { self.new.metadata ≡ self.old.metadata }

        // So it doesn't matter how a record is cut into pieces.
        ensures opened { (root key front : List ℕ) → HasOpened self.old root key front
            → HasOpened self.new root key (front ++ buf.old) }
        ensures pieces { (root key front : List ℕ) → HasOpened self.old root key front
            → let m = self.old.metadata in opened root key m.flags m.vector (front ++ buf.old)
            ≡ opened root key m.flags m.vector front ++ buf.new }
    {
        self.body.open(buf);
    }

    /// The CMAC of the record, once all stored bytes are absorbed, where the record's last 16 bytes
    /// are this CMAC. `AuthFailed` comes exactly where they differ.
    pub fn finish(self, tag: &[u8; 16]) -> Result<[u8; 16], KvError>
        requires { self.body.left ≡ 0 }
        ensures { (root key bytes : List ℕ) → HasOpened self root key bytes
            → Ends result tag.now (unseal root key (record_read self.metadata bytes tag.now))
            (opened_as root key self.metadata bytes) (record_tag root key self.metadata bytes) }
    {
        let OpenStream { body, .. } = self;
        let computed = body.finish();
        if computed == *tag {
            Ok(computed)
        } else {
            Err(KvError::AuthFailed)
        }
    }
}
