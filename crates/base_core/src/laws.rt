// Laws of the definitions, and sizes worked out by hand. Each is a function with nothing to do: its
// contract is the law.
ghost use Rattle.std.specs.Prelude.{◌≡◌, ◌*◌, ◌≤◌, ℕ};
ghost use Rattle.base_core.specs.Sizes.{master_size, record_size};
ghost use Rattle.base_core.specs.Units.{IsMultipleOf, up};

/// Padding goes to the least multiple of the unit that is not less than the size.
pub fn padding_is_least()
    ensures not_less { (unit x : ℕ) → 1 ≤ unit → x ≤ up unit x }
    ensures multiple { (unit x : ℕ) → IsMultipleOf unit (up unit x) }
    ensures least { (unit x m : ℕ) → 1 ≤ unit → x ≤ m * unit → up unit x ≤ m * unit }
{}

/// Sizes of records and masters in bytes, worked out by hand.
pub fn sizes_of_records()
    ensures small { record_size 8 1 2 ≡ 32 }
    ensures masters { (master_size 8 ≡ 40) × (master_size 32 ≡ 64) × (master_size 1 ≡ 36) }
    ensures largest { record_size 8 1 65471 ≡ 65496 }
    ensures larger { record_size 8 1 65472 ≡ 65504 }
{}
