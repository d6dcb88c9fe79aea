//! What the definitions of AES-128 mean in the field's own words.
ghost use Rattle.std.specs.Prelude.{◌≡◌, ◌+◌, ◌<◌, ℕ, List, length};
ghost use Rattle.aes_core.specs.Aes.{product, inverse, affine, encrypted, xor_bytes, word_at, turned_word, round_constant, round_key};
ghost use Rattle.aes_core.specs.Bits.{bit_of, affine_bit};

/// The definition's power 254 is the inverse: times the element it is 1, for each byte but 0.
pub fn inverse_times_itself_is_one()
    ensures { (a : ℕ) → 0 < a → a < 256 → product a (inverse a) ≡ 1 }
{}

/// A cipher has sixteen bytes.
pub fn ciphers_are_blocks()
    ensures { (key block : List ℕ) → length (encrypted key block) ≡ 16 }
{}

/// The affine map as the standard writes it, bit by bit.
pub fn affine_map_of_each_bit()
    ensures { (byte i : ℕ) → byte < 256 → i < 8 → bit_of (affine byte) i ≡ affine_bit byte i }
{}

/// The words of the expanded key as the standard numbers them: each is the sum of the one four
/// before it and of the one before it, which is turned where a round key begins.
pub fn words_of_the_expanded_key()
    ensures first { (key : List ℕ) (n : ℕ) → word_at (round_key key (n + 1)) 0
        ≡ xor_bytes (word_at (round_key key n) 0)
        (turned_word (round_constant n) (word_at (round_key key n) 3)) }
    ensures others { (key : List ℕ) (n i : ℕ) → i < 3 → word_at (round_key key (n + 1)) (i + 1)
        ≡ xor_bytes (word_at (round_key key n) (i + 1)) (word_at (round_key key (n + 1)) i) }
{}
