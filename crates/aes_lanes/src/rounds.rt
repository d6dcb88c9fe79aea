// Eight blocks enciphered at once.
ghost use Rattle.std.specs.Prelude.{◌≡◌, ◌<◌, ℕ, List};
ghost use Rattle.aes_core.specs.Aes.{add_round_key, encrypted, mix_columns, shift_rows, sub_bytes};
ghost use Rattle.aes_lanes.specs.Sliced.{AreSlicedKeys, HasBlock, HasKey};

use crate::packing::transposed;
use crate::registers::Registers;
use crate::s_box::substituted;
use aes_core::Aes128;
use std::simd::prelude::*;

// A round over each block.
#[inline(always)]
fn round(q: Registers, key: Registers) -> Registers
    ensures { (place : ℕ) (block round_key : List ℕ) → place < 8 → HasBlock q place block
        → HasBlock key place round_key → HasBlock result place
        (add_round_key (mix_columns (shift_rows (sub_bytes block))) round_key) }
{
    substituted(q).shift_rows().mix_columns().add_round_key(key)
}

// The last round, which mixes no columns.
#[inline(always)]
fn last_round(q: Registers, key: Registers) -> Registers
    ensures { (place : ℕ) (block round_key : List ℕ) → place < 8 → HasBlock q place block
        → HasBlock key place round_key
        → HasBlock result place (add_round_key (shift_rows (sub_bytes block)) round_key) }
{
    substituted(q).shift_rows().add_round_key(key)
}

/// Enciphers the block at each place.
pub fn encrypt_eight(keys: &[Registers; 11], q: Registers) -> Registers
    ensures { (key block : List ℕ) (place : ℕ) → place < 8 → AreSlicedKeys key 10 keys.now
        → HasBlock q place block → HasBlock result place (encrypted key block) }
{
    let mut state = q.add_round_key(keys[0]);
    for i in 0..9 {
        state = round(state, keys[i + 1]);
    }
    last_round(state, keys[10])
}

// A round key, sliced, at all eight places.
fn sliced_key(round_key: &[u8; 16]) -> Registers
    ensures { HasKey result round_key.now }
{
    let lanes = u8x16::from_array(*round_key);
    transposed(Registers {
        bit0: lanes,
        bit1: lanes,
        bit2: lanes,
        bit3: lanes,
        bit4: lanes,
        bit5: lanes,
        bit6: lanes,
        bit7: lanes,
    })
}

/// All round keys, sliced.
pub fn sliced_keys(aes: &Aes128) -> [Registers; 11]
    ensures { AreSlicedKeys aes.now 10 result }
{
    let mut keys = [sliced_key(&aes.round_key(0)); 11];
    for n in 1..11 {
        keys[n as usize] = sliced_key(&aes.round_key(n));
    }
    keys
}
