// CMAC.
ghost use Rattle.std.specs.Prelude.{◌≡◌, ◌+◌, ◌%◌, ◌/◌, ◌≤◌, ◌<◌, ◌++◌, [], length, take, List, ℕ};
ghost use Rattle.aes_core.specs.Aes.{encrypted, xor_bytes};
ghost use Rattle.cipher_core.specs.Cmac.{chained, cmac, doubled, doubled_number, padded, last_block, tag_of, zero_block, HasFed};

use crate::blocks::combine;
use aes_core::{Aes128, Columns};
use std::marker::Model;

/// The CMAC of a message that comes in pieces.
///
/// A contract sees the key, the chain over the blocks so far, and the bytes held back, of which
/// `HasFed` says after which messages they are these.
#[derive(Drop)]
pub struct CmacStream {
    cipher: Aes128,
    chain: [u8; 16],
    part: [u8; 16],
    held: usize,
}

impl Model for CmacStream {
    ghost use Rattle.cipher_core.specs.Cmac.{CmacState};

    ghost Value = { CmacState };

    ghost use Rattle.std.specs.Prelude.{◌≤◌, take};

    ghost view = { λ s. record { key = s.cipher; chain = s.chain; part = take s.held s.part } };

    ghost invariant = { λ s. s.held ≤ 16 };
}

// Takes one block into the chain.
#[inline(always)]
fn absorb(cipher: &Aes128, chain: &mut [u8; 16], block: &[u8])
    requires { length block.now ≡ 16 }
    ensures { chain.new ≡ encrypted cipher.now (xor_bytes chain.old block.now) }
{
    combine(chain, block);
    cipher.encrypt(chain);
}

// Takes whole blocks into the chain, which stays in columns between them.
fn absorb_blocks(cipher: &Aes128, chain: &mut [u8; 16], bytes: &[u8])
    requires { length bytes.now % 16 ≡ 0 }
    ensures { chain.new ≡ chained cipher.now chain.old bytes.now (length bytes.now / 16) }
{
    let mut state = Columns::from_bytes(chain);
    for block in 0..bytes.len() / 16 {
        let next = Columns::from_bytes(&bytes[16 * block..16 * block + 16]);
        state = cipher.encrypt_columns(state.with_key(next));
    }
    *chain = state.to_block();
}

#[tactic(auto, unfolding(crate::specs::Cmac::doubled_number))]
fn doubled_number(n: u128) -> u128
    ensures { result ≡ doubled_number n }
{
    if n < 1 << 127 { n * 2 } else { n << 1 ^ 0x87 }
}

// K1 from the cipher of the zero block, and K2 from K1.
#[tactic(auto, unfolding(crate::specs::Cmac::doubled))]
fn doubled(block: [u8; 16]) -> [u8; 16]
    ensures { result ≡ doubled block }
{
    doubled_number(u128::from_be_bytes(block)).to_be_bytes()
}

fn padded(part: &[u8]) -> [u8; 16]
    requires { length part.now < 16 }
    ensures { result ≡ padded part.now }
{
    let mut block = [0; 16];
    block[..part.len()].copy_from_slice(part);
    block[part.len()] = 0x80;
    block
}

// The last block, combined with its subkey.
#[tactic(auto, unfolding(crate::specs::Cmac::last_block, crate::specs::Cmac::first_subkey, crate::specs::Cmac::second_subkey))]
fn last_block(cipher: &Aes128, part: &[u8]) -> [u8; 16]
    requires { length part.now ≤ 16 }
    ensures { result ≡ last_block cipher.now part.now }
{
    let mut zero = [0; 16];
    cipher.encrypt(&mut zero);
    let first = doubled(zero);
    if part.len() == 16 {
        let mut block = [0; 16];
        block.copy_from_slice(part);
        combine(&mut block, &first);
        return block;
    }
    let mut block = padded(part);
    combine(&mut block, &doubled(first));
    block
}

impl CmacStream {
    /// A stream under a key, with no byte of the message yet.
    #[tactic(auto, unfolding(crate::specs::Cmac::chained))]
    pub fn new(key: &[u8; 16]) -> CmacStream
        ensures state { result ≡ record { key = key.now; chain = zero_block; part = [] } }
        ensures fed { HasFed result [] }
    {
        CmacStream {
            cipher: Aes128::new(key),
            chain: [0; 16],
            part: [0; 16],
            held: 0,
        }
    }

    // Holds back bytes for which there is room.
    fn hold(&mut self, bytes: &[u8])
        requires { length self.old.part + length bytes.now ≤ 16 }
        ensures { self.new ≡ record self.old { part = self.old.part ++ bytes.now } }
    {
        let end = self.held + bytes.len();
        self.part[self.held..end].copy_from_slice(bytes);
        self.held = end;
    }

    // Takes the block held back into the chain.
    fn absorb_part(&mut self)
        requires { length self.old.part ≡ 16 }
        ensures { self.new ≡ record self.old {
          chain = encrypted self.old.key
              (xor_bytes self.old.chain self.old.part);
          part = [];
        } }
    {
        absorb(&self.cipher, &mut self.chain, &self.part);
        self.held = 0;
    }

    // Takes whole blocks into the chain.
    fn absorb_whole(&mut self, bytes: &[u8])
        requires { length bytes.now % 16 ≡ 0 }
        ensures { self.new ≡ record self.old {
          chain = chained self.old.key self.old.chain bytes.now
              (length bytes.now / 16);
        } }
    {
        absorb_blocks(&self.cipher, &mut self.chain, bytes);
    }

    /// Takes the next bytes of the message.
    pub fn update(&mut self, bytes: &[u8])
        ensures key { self.new.key ≡ self.old.key }

        // So it doesn't matter how a message is cut into pieces.
        ensures fed { (message : List ℕ) → HasFed self.old message
            → HasFed self.new (message ++ bytes.now) }
    {
        let room = 16 - self.held;
        if bytes.len() <= room {
            self.hold(bytes);
            return;
        }
        // More comes after the block held back, so it isn't the last.
        let (front, rest) = bytes.split_at(room);
        self.hold(front);
        self.absorb_part();
        let (whole, part) = rest.split_at((rest.len() - 1) / 16 * 16);
        self.absorb_whole(whole);
        self.hold(part);
    }

    /// The tag of the message.
    #[tactic(auto, unfolding(crate::specs::Cmac::tag_of, crate::specs::Cmac::cmac))]
    pub fn finish(self) -> [u8; 16]
        ensures tag { result ≡ tag_of self.key self.chain self.part }
        ensures cmac { (message : List ℕ) → HasFed self message → result ≡ cmac self.key message }
    {
        let mut tag = self.chain;
        let last = last_block(&self.cipher, &self.part[..self.held]);
        absorb(&self.cipher, &mut tag, &last);
        tag
    }
}
