//! The payload of a record on its way to a device, a piece at a time.
ghost use Rattle.std.specs.Prelude.{◌≡◌, ◌⊎◌, ◌+◌, ◌-◌, ◌<◌, ◌≤◌, ◌^◌, ℕ, length, slice_index};
ghost use Rattle.flash_core.specs.Images.{part, put};
ghost use Rattle.base_core.specs.Units.{up};
ghost use Rattle.record_core.specs.Record.{record_payload};

const ERASED: u8 = 0xFF;

fn copy_at(units: &mut [u8], at: usize, bytes: &[u8])
    requires { at + length bytes.now ≤ length units.old }
    ensures { units.new ≡ put units.old at bytes.now }
{
    units[at..at + bytes.len()].copy_from_slice(bytes);
}

// Of bytes that stand from `start` on, those in the range of `units`, which begins at `from`.
fn overlay(units: &mut [u8], from: usize, start: usize, bytes: &[u8])
    requires limits { from + length units.old + (start + length bytes.now) < 2 ^ 32 }
    ensures inside { (i : ℕ) → i < length units.old → start ≤ from + i
        → from + i < start + length bytes.now
        → slice_index units.new i ≡ slice_index bytes.now (from + i - start) }
    ensures outside { (i : ℕ) → i < length units.old → (from + i < start)
        ⊎ (start + length bytes.now ≤ from + i)
        → slice_index units.new i ≡ slice_index units.old i }
{
    let first = from.max(start);
    let last = (from + units.len()).min(start + bytes.len());
    if first < last {
        copy_at(units, first - from, &bytes[first - start..last - start]);
    }
}

/// Fills `units` with the bytes of the payload of this key and value from `from` on.
pub(crate) fn fill_payload(units: &mut [u8], from: usize, key: &[u8], value: &[u8])
    requires sizes { length key.now + length value.now ≤ 65720 }
    requires limits { from + length units.old < 2 ^ 31 }
    ensures { (prog : ℕ) → 1 ≤ prog
        → from + length units.old ≤ up prog (length key.now + length value.now)
        → units.new ≡ part (record_payload prog key.now value.now) from (length units.old) }
{
    units.fill(ERASED);
    overlay(units, from, 0, key);
    overlay(units, from, key.len(), value);
}
