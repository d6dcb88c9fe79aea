//! AES-128, the block cipher of FIPS 197: a key of sixteen bytes, a block of sixteen bytes, ten
//! rounds.
//!
//! The rounds look up tables of words, whose entries are proved against the field's arithmetic.
//! Nothing here allocates or fails, and nothing is said of the time that a call takes.
#![tactic(auto)]

ghost use Rattle.std.specs.Prelude.{◌≡◌, ◌≤◌};
ghost use Rattle.aes_core.specs.Aes.{encrypted, round_key};
ghost use Rattle.aes_core.specs.Words.{bytes_of};

mod columns;
pub mod laws;
mod tables;

pub use columns::Columns;
use std::marker::Model;

// x ^ n in the field, for the round key n + 1.
const ROUND_CONSTANTS: [u8; 10] = [0x01, 0x02, 0x04, 0x08, 0x10, 0x20, 0x40, 0x80, 0x1b, 0x36];

/// AES-128 under one key. A contract sees it as the key's sixteen bytes.
#[derive(Drop)]
pub struct Aes128 {
    round_keys: [Columns; 11],
}

impl Model for Aes128 {
    ghost use Rattle.std.specs.Prelude.{◌≡◌, ℕ, List, slice_index_or};

    ghost Value = { List ℕ };

    ghost use Rattle.aes_core.specs.Words.{first_key, AreRoundKeys};

    ghost view = { λ a. first_key a.round_keys };

    ghost invariant = { λ a. AreRoundKeys (first_key a.round_keys) 10 a.round_keys };
}

impl Aes128 {
    /// Expands a key.
    pub fn new(key: &[u8; 16]) -> Aes128
        ensures { result ≡ key.now }
    {
        let first = Columns::from_bytes(key);
        let mut round_keys = [first; 11];
        for (i, constant) in ROUND_CONSTANTS.iter().enumerate() {
            round_keys[i + 1] = round_keys[i].next_round_key(*constant);
        }
        Aes128 { round_keys }
    }

    /// The key that is added after n rounds; before the first that is the key itself.
    pub fn round_key(&self, n: u8) -> [u8; 16]
        requires { n ≤ 10 }
        ensures { result ≡ round_key self.now n }
    {
        self.round_keys[n as usize].to_block()
    }

    /// The cipher of a block in columns, which a chain of blocks need not leave.
    #[inline(always)]
    pub fn encrypt_columns(&self, block: Columns) -> Columns
        ensures { bytes_of result ≡ encrypted self.now (bytes_of block) }
    {
        let mut state = block.with_key(self.round_keys[0]);
        for i in 0..9 {
            state = state.round(self.round_keys[i + 1]);
        }
        state.last_round(self.round_keys[10])
    }

    /// Replaces a block by its cipher.
    pub fn encrypt(&self, block: &mut [u8; 16])
        ensures { block.new ≡ encrypted self.now block.old }
    {
        *block = self.encrypt_columns(Columns::from_bytes(block)).to_block();
    }
}

#[cfg(test)]
mod tests {
    use super::*;

    // The example vectors of FIPS 197 (C.1 and B) and of SP 800-38A (F.1.1).
    #[test]
    fn encrypts_the_published_vectors(rt: HostRuntime) {
        let rows = [
            (
                0x000102030405060708090a0b0c0d0e0f_u128,
                0x00112233445566778899aabbccddeeff_u128,
                0x69c4e0d86a7b0430d8cdb78070b4c55a_u128,
            ),
            (
                0x2b7e151628aed2a6abf7158809cf4f3c,
                0x3243f6a8885a308d313198a2e0370734,
                0x3925841d02dc09fbdc118597196a0b32,
            ),
            (
                0x2b7e151628aed2a6abf7158809cf4f3c,
                0x6bc1bee22e409f96e93d7e117393172a,
                0x3ad77bb40d7a3660a89ecaf32466ef97,
            ),
            (
                0x2b7e151628aed2a6abf7158809cf4f3c,
                0xf69f2445df4f9b17ad2b417be66c3710,
                0x7b0c785e27e8ad3f8223207104725dd4,
            ),
        ];
        for (key, plain, cipher) in rows {
            let mut block = plain.to_be_bytes();
            Aes128::new(&key.to_be_bytes()).encrypt(&mut block);
            assert_eq!(rt; block, cipher.to_be_bytes());
        }
    }
}
