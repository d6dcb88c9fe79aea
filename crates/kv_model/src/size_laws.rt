// Laws of the room that a map uses. Each is a function with nothing to do: its contract is the law.
ghost use Rattle.std.specs.Prelude.{◌≡◌, ◌≤◌, ◌+◌, ◌∷◌, [], ℕ, List, length, codes};
ghost use Rattle.std.specs.FinMap.{empty, insert, remove};
ghost use Rattle.kv_model.specs.FlaggedMap.{FlaggedMap, Stored};
ghost use Rattle.base_core.specs.Sizes.{record_size};
ghost use Rattle.kv_model.specs.Sizes.{used};
ghost use Rattle.kv_model.specs.KeySizes.{key_size};

/// A map uses the size of each key's record once. An insert puts the size of the new record in the
/// place of the old one's, and a remove takes the old one's away.
pub fn used_counts_each_key()
    ensures none { (prog : ℕ) → used prog empty ≡ 0 }
    ensures insert { (prog : ℕ) (map : FlaggedMap) (key : List ℕ) (value : Stored)
        → used prog (insert map key value) + key_size prog map key
        ≡ used prog map + record_size prog (length key) (length value.bytes) }
    ensures remove { (prog : ℕ) (map : FlaggedMap) (key : List ℕ)
        → used prog (remove map key) + key_size prog map key ≡ used prog map }
    ensures each { (prog : ℕ) (map : FlaggedMap) (key : List ℕ)
        → key_size prog map key ≤ used prog map }
{}

/// A key of two bytes with a value of nine takes 40 bytes by units of 8, and the key k takes 32
/// with a value of two bytes, and 40 once it is set to a value of eight.
pub fn used_of_two_keys()
    ensures before { used 8 (insert (insert empty (codes "k")
        (record { flags = 0; bytes = codes "ab" })) (codes "kk")
        (record { flags = 0; bytes = codes "abcdefghi" })) ≡ 32 + 40 }
    ensures after { used 8 (insert (insert (insert empty (codes "k")
        (record { flags = 0; bytes = codes "ab" })) (codes "kk")
        (record { flags = 0; bytes = codes "abcdefghi" })) (codes "k")
        (record { flags = 1; bytes = codes "abcdefgh" })) ≡ 40 + 40 }
{}
