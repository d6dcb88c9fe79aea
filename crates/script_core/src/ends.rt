// Which clients end their incremental sets, and where.
ghost use Rattle.std.specs.Prelude.{◌≡◌, ◌≤◌, ◌<◌, ◌+◌, ◌^◌, ℕ, List, true, length, slice_index};
ghost use Rattle.script_core.specs.Grammar.{lines_of};
ghost use Rattle.script_core.specs.Reading.{last_end};

use crate::parts::Parts;
use crate::reading;
use crate::script::ScriptMode;

// For each client the number of the last line that finishes or aborts its incremental set, or 0.
// Bad lines between the others don't matter.
fn last_ends(bytes: &[u8]) -> [u32; 17]
    requires { length bytes.now + 1 < 2 ^ 32 }
    ensures { (who : ℕ) → who ≤ 16 → slice_index result who ≡ last_end who 1 (lines_of bytes.now) }
{
    let mut last = [0u32; 17];
    let mut number = 0u32;
    for text in Parts::new(b'\n', bytes) {
        number += 1;
        if let Some(who) = reading::ended_by(text) {
            last[usize::from(who)] = number;
        }
    }
    last
}

// The same where the lines run on threads, which alone ask for it.
pub(crate) fn ends_for(mode: ScriptMode, bytes: &[u8]) -> [u32; 17]
    requires { length bytes.now + 1 < 2 ^ 32 }
    ensures { mode.threads ≡ true → (who : ℕ) → who ≤ 16 →
        slice_index result who ≡ last_end who 1 (lines_of bytes.now) }
{
    if mode.threads {
        last_ends(bytes)
    } else {
        [0; 17]
    }
}
