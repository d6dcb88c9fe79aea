// Whole units.
ghost use Rattle.std.specs.Prelude.{◌≡◌, ◌<◌, ◌≤◌, ◌+◌, ◌^◌};
ghost use Rattle.base_core.specs.Units.{up};

/// The least multiple of the unit that is not less than `len`.
#[tactic(auto, unfolding(crate::specs::Units::up))]
pub fn round_up(unit: u32, len: u32) -> u32
    requires positive { 0 < unit }
    requires fits { len + unit ≤ 2 ^ 32 }
    ensures least { result ≡ up unit len }
    ensures below { result < len + unit }
{
    (len + (unit - 1)) / unit * unit
}
