// Counter mode.
ghost use Rattle.std.specs.Prelude.{◌≡◌, ◌+◌, ◌-◌, ◌*◌, ◌%◌, ◌≤◌, ◌<◌, ◌++◌, length, List, ℕ};
ghost use Rattle.std.specs.Int.{from_be_bytes, w128};
ghost use Rattle.aes_core.specs.Aes.{encrypted};
ghost use Rattle.cipher_core.specs.Ctr.{counter_block, ctr_text, advanced, text_from};

use crate::blocks::combine;
use aes_core::Aes128;
use aes_lanes::ctr_blocks;
use std::marker::Model;

/// A text enciphered or deciphered in counter mode, piece by piece.
///
/// A contract sees the key, the number of the first counter block, and the place of the next byte
/// in the text, modulo the 16 * 2 ^ 128 bytes after which the key stream begins again.
#[derive(Drop)]
pub struct CtrStream {
    cipher: Aes128,
    start: u128,
    // whole blocks of the key stream that are used up
    blocks: u128,
    // the block of the key stream that is in use, and how much of it is used up: 0 where none is
    pad: [u8; 16],
    used: usize,
}

impl Model for CtrStream {
    ghost use Rattle.cipher_core.specs.Ctr.{CtrState};

    ghost Value = { CtrState };

    ghost use Rattle.std.specs.Prelude.{◌≡◌, ◌+◌, ◌*◌, ◌<◌};
    ghost use Rattle.aes_core.specs.Aes.{encrypted};
    ghost use Rattle.cipher_core.specs.Ctr.{counter_block};

    ghost view = { λ s.
        record { key = s.cipher; start = s.start; place = 16 * s.blocks + s.used } };

    ghost invariant = { λ s. record {
      below : s.used < 16;
      current : 0 < s.used → s.pad ≡ encrypted s.cipher (counter_block s.start s.blocks);
    } };
}

// The block of the key stream with this number.
#[inline(always)]
fn key_stream_block(cipher: &Aes128, start: u128, number: u128) -> [u8; 16]
    ensures { result ≡ encrypted cipher.now (counter_block start number) }
{
    let mut block = start.wrapping_add(number).to_be_bytes();
    cipher.encrypt(&mut block);
    block
}

impl CtrStream {
    /// A stream under a key, from the counter block of the text's first bytes on.
    pub fn new(key: &[u8; 16], start: &[u8; 16]) -> CtrStream
        ensures { result ≡ record {
          key = key.now;
          start = from_be_bytes w128 start.now;
          place =
              0;
        } }
    {
        CtrStream {
            cipher: Aes128::new(key),
            start: u128::from_be_bytes(*start),
            blocks: 0,
            pad: [0; 16],
            used: 0,
        }
    }

    // Bytes that the block in use is enough for.
    fn use_pad(&mut self, bytes: &mut [u8])
        requires { length bytes.old ≤ (16 - self.old.place % 16) % 16 }
        ensures text { bytes.new ≡ text_from self.old bytes.old }
        ensures state { self.new ≡ advanced self.old (length bytes.old) }
    {
        combine(bytes, &self.pad[self.used..]);
        self.used += bytes.len();
        if self.used == 16 {
            self.used = 0;
            self.blocks = self.blocks.wrapping_add(1);
        }
    }

    // Whole blocks, where none is in use.
    fn use_blocks(&mut self, bytes: &mut [u8])
        requires none_in_use { self.old.place % 16 ≡ 0 }
        requires whole { length bytes.old % 16 ≡ 0 }
        ensures text { bytes.new ≡ text_from self.old bytes.old }
        ensures state { self.new ≡ advanced self.old (length bytes.old) }
    {
        let mut counter = self.start.wrapping_add(self.blocks).to_be_bytes();
        ctr_blocks(&self.cipher, &mut counter, bytes);
        let count = (bytes.len() / 16) as u128;
        self.blocks = self.blocks.wrapping_add(count);
    }

    // Less than a block, where none is in use.
    fn begin_block(&mut self, bytes: &mut [u8])
        requires none_in_use { self.old.place % 16 ≡ 0 }
        requires part { length bytes.old < 16 }
        ensures text { bytes.new ≡ text_from self.old bytes.old }
        ensures state { self.new ≡ advanced self.old (length bytes.old) }
    {
        self.pad = key_stream_block(&self.cipher, self.start, self.blocks);
        combine(bytes, &self.pad);
        self.used = bytes.len();
    }

    /// Combines the next bytes of the text with the key stream, in place.
    pub fn update(&mut self, buf: &mut [u8])
        ensures text { buf.new ≡ text_from self.old buf.old }
        ensures state { self.new ≡ advanced self.old (length buf.old) }

        // So it doesn't matter how a text is cut into pieces.
        ensures pieces { (rest : List ℕ)
            → text_from self.old (buf.old ++ rest) ≡ buf.new ++ text_from self.new rest }
    {
        let left = (16 - self.used) % 16;
        if buf.len() < left {
            self.use_pad(buf);
            return;
        }
        let (front, rest) = buf.split_at_mut(left);
        self.use_pad(front);
        let (whole, part) = rest.split_at_mut(rest.len() / 16 * 16);
        self.use_blocks(whole);
        self.begin_block(part);
    }
}
