//! What the definitions mean in the standards' own words.
ghost use Rattle.std.specs.Prelude.{◌≡◌, ◌*◌, ◌≤◌, ℕ, List, length};
ghost use Rattle.aes_core.specs.Aes.{encrypted, xor_bytes};
ghost use Rattle.cipher_core.specs.Cmac.{cmac};
ghost use Rattle.cipher_core.specs.Ctr.{counter_block, ctr_text};

/// Block n of a text is combined with the cipher of counter block n, and the last one, where it is
/// shorter, with the front of it.
pub fn each_block_meets_its_counter()
    ensures { (key : List ℕ) (start n : ℕ) (block : List ℕ) → length block ≤ 16
        → ctr_text key start (16 * n) block
        ≡ xor_bytes block (encrypted key (counter_block start n)) }
{
    aes_core::laws::ciphers_are_blocks();
}

/// A CMAC has sixteen bytes.
pub fn cmacs_have_sixteen_bytes()
    ensures { (key message : List ℕ) → length (cmac key message) ≡ 16 }
{
    aes_core::laws::ciphers_are_blocks();
}
