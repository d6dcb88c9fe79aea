// Counter mode over whole blocks.
ghost use Rattle.std.specs.Prelude.{◌≡◌, ◌%◌, ◌<◌, ℕ, List, length};
ghost use Rattle.std.specs.Int.{to_be_bytes, w128};
ghost use Rattle.aes_core.specs.Aes.{encrypted, xor_bytes};
ghost use Rattle.aes_lanes.specs.Ctr.{counter_block, ctr_text};
ghost use Rattle.aes_lanes.specs.Sliced.{AreSlicedKeys, HasBits, HasBlock, register};

use crate::packing::transposed;
use crate::registers::Registers;
use crate::rounds::{encrypt_eight, sliced_keys};
use aes_core::Aes128;
use std::simd::prelude::*;

// Combines a block of the text with one of the key stream.
#[inline(always)]
fn combine(bytes: &mut [u8], pad: u8x16)
    requires { length bytes.old ≡ 16 }
    ensures text { bytes.new ≡ xor_bytes bytes.old pad }

    // A pad is the block whose bits it has.
    ensures pad { (block : List ℕ) → HasBits pad block → pad ≡ block }
{
    (u8x16::from_slice(bytes) ^ pad).copy_to_slice(bytes);
}

// The cipher of one counter block.
#[inline(always)]
fn pad_of(aes: &Aes128, counter: u128) -> u8x16
    ensures { result ≡ encrypted aes.now (to_be_bytes w128 counter) }
{
    let mut block = counter.to_be_bytes();
    aes.encrypt(&mut block);
    u8x16::from_array(block)
}

/// Combines blocks one by one.
pub fn combine_singles(aes: &Aes128, start: u128, bytes: &mut [u8])
    requires { length bytes.old % 16 ≡ 0 }
    ensures { bytes.new ≡ ctr_text aes.now start 0 bytes.old }
{
    let mut next = start;
    for block in 0..bytes.len() / 16 {
        let pad = pad_of(aes, next);
        combine(&mut bytes[16 * block..16 * block + 16], pad);
        next = next.wrapping_add(1);
    }
}

// Counter block n.
#[inline(always)]
fn counter_lanes(start: u128, n: u128) -> u8x16
    ensures { result ≡ counter_block start n }
{
    u8x16::from_array(start.wrapping_add(n).to_be_bytes())
}

// Eight counter blocks, sliced.
fn sliced_counters(start: u128) -> Registers
    ensures { (n : ℕ) → n < 8 → HasBlock result n (counter_block start n) }
{
    transposed(Registers {
        bit0: counter_lanes(start, 0),
        bit1: counter_lanes(start, 1),
        bit2: counter_lanes(start, 2),
        bit3: counter_lanes(start, 3),
        bit4: counter_lanes(start, 4),
        bit5: counter_lanes(start, 5),
        bit6: counter_lanes(start, 6),
        bit7: counter_lanes(start, 7),
    })
}

// The ciphers of eight counter blocks.
fn pads_of(keys: &[Registers; 11], start: u128) -> Registers
    ensures { (key : List ℕ) (n : ℕ) → n < 8 → AreSlicedKeys key 10 keys.now
        → HasBits (register result n) (encrypted key (counter_block start n)) }
{
    transposed(encrypt_eight(keys, sliced_counters(start)))
}

// Combines eight blocks.
fn combine_eight(keys: &[Registers; 11], start: u128, bytes: &mut [u8])
    requires { length bytes.old ≡ 128 }
    ensures { (key : List ℕ) → AreSlicedKeys key 10 keys.now
        → bytes.new ≡ ctr_text key start 0 bytes.old }
{
    let pads = pads_of(keys, start);
    combine(&mut bytes[0..16], pads.bit0);
    combine(&mut bytes[16..32], pads.bit1);
    combine(&mut bytes[32..48], pads.bit2);
    combine(&mut bytes[48..64], pads.bit3);
    combine(&mut bytes[64..80], pads.bit4);
    combine(&mut bytes[80..96], pads.bit5);
    combine(&mut bytes[96..112], pads.bit6);
    combine(&mut bytes[112..128], pads.bit7);
}

/// Combines blocks, eight at a time.
pub fn combine_eights(aes: &Aes128, start: u128, bytes: &mut [u8])
    requires { length bytes.old % 128 ≡ 0 }
    ensures { bytes.new ≡ ctr_text aes.now start 0 bytes.old }
{
    if bytes.is_empty() {
        return;
    }
    let keys = sliced_keys(aes);
    let mut next = start;
    for eight in 0..bytes.len() / 128 {
        combine_eight(&keys, next, &mut bytes[128 * eight..128 * eight + 128]);
        next = next.wrapping_add(8);
    }
}
