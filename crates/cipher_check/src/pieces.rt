// The ciphers over two pieces of a text.
ghost use Rattle.std.specs.Prelude.{◌≡◌, ◌≤◌, length};
ghost use Rattle.std.specs.Int.{from_be_bytes, w128};
ghost use Rattle.cipher_core.specs.Ctr.{ctr_text};
ghost use Rattle.cipher_core.specs.Cmac.{cmac};

use cipher_core::{CmacStream, CtrStream};

/// Puts a text into counter mode, and gives the CMAC of the text as it was, both over the two
/// pieces that a cut makes.
pub fn in_two_pieces(key: &[u8; 16], start: &[u8; 16], text: &mut [u8], cut: usize) -> [u8; 16]
    requires { cut ≤ length text.old }
    ensures text { text.new ≡ ctr_text key.now (from_be_bytes w128 start.now) 0 text.old }
    ensures tag { result ≡ cmac key.now text.old }
{
    let (front, back) = text.split_at_mut(cut);
    let mut mac = CmacStream::new(key);
    mac.update(front);
    mac.update(back);
    let mut stream = CtrStream::new(key, start);
    stream.update(front);
    stream.update(back);
    mac.finish()
}
