// The sizes of a device.
ghost use Rattle.std.specs.Prelude.{◌≡◌, ◌↔◌, IsTrue};

use base_core::round_up;

const MAX_PROG: u32 = 4_096;

const MAX_ERASE: u32 = 65_536;

const MAX_SIZE: u64 = 16_777_216;

/// How a device is divided. Nothing is promised of one that isn't valid.
#[derive(Clone, Copy, Debug, PartialEq, Eq)]
pub struct Geometry {
    /// The program unit, in bytes.
    pub prog: u32,
    /// The erase unit, in bytes.
    pub erase: u32,
    /// How many erase units an area has.
    pub units_per_area: u32,
}

impl Geometry {
    ghost use Rattle.flash_core.specs.Sizes.{IsValid, size_of};

    /// Whether the program unit is a power of two up to 4,096, the erase unit a multiple of it that
    /// has room for a record's header and is at most 65,536, and the device at most 16,777,216
    /// bytes, with areas that have room for a master record.
    pub fn is_valid(&self) -> bool
        ensures { IsTrue result ↔ IsValid self.now }
    {
        if !self.prog.is_power_of_two() || self.prog > MAX_PROG {
            return false;
        }
        if self.erase == 0 || self.erase > MAX_ERASE || self.erase % self.prog != 0 {
            return false;
        }
        let header = round_up(self.prog, 24);
        let area = u64::from(self.units_per_area) * u64::from(self.erase);
        header <= self.erase
            && self.units_per_area != 0
            && 2 * area <= MAX_SIZE
            && u64::from(header + round_up(self.prog, 12)) <= area
    }

    /// The bytes of the whole device.
    pub fn size(&self) -> u32
        requires { IsValid self.now }
        ensures { result ≡ size_of self.now }
    {
        2 * self.units_per_area * self.erase
    }
}
