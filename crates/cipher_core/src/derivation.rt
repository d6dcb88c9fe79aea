// Derived keys.
ghost use Rattle.std.specs.Prelude.{◌≡◌};
ghost use Rattle.cipher_core.specs.Salt.{salt_text, derived};

use crate::CmacStream;
use kv_model::Key;

/// What a derived key is for.
#[derive(Clone, Copy, Debug, PartialEq, Eq)]
pub enum Salt {
    /// To encipher a value.
    Enc,
    /// To authenticate it.
    Auth,
}

impl Salt {
    fn text(self) -> &'static [u8]
        ensures { result.now ≡ salt_text self }
    {
        match self {
            Salt::Enc => b"ENC",
            Salt::Auth => b"AUTH",
        }
    }
}

/// The key of sixteen bytes that a root key gives for a stored key: the CMAC under the root of the
/// byte 01, the salt's text, the key's bytes, the byte 00 and the bytes 00 80.
pub fn derive(root: &[u8; 16], salt: Salt, key: &Key) -> [u8; 16]
    ensures { result ≡ derived root.now salt key.now }
{
    let mut stream = CmacStream::new(root);
    stream.update(&[0x01]);
    stream.update(salt.text());
    stream.update(key.as_slice());
    stream.update(&[0x00, 0x00, 0x80]);
    stream.finish()
}
