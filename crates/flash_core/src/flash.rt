// The flash device, as everything above sees it.
ghost use Rattle.std.specs.Prelude.{◌≡◌, length};
ghost use Rattle.flash_core.specs.Calls.{CanErase, CanProgram, CanRead, Reads, Writes, erased_unit};
ghost use Rattle.flash_core.specs.State.{FlashState, IsLawful};

use crate::Geometry;

/// A call that the device refused.
#[derive(Clone, Copy, Debug, PartialEq, Eq)]
pub enum FlashFault {
    /// A read failed. The buffer may hold anything.
    Read,
    /// A program or erase failed. Its range may hold anything, and the rest stands.
    Write,
}

/// A NOR flash device. What its contract may speak of is its `state`: the geometry, the image where
/// the device tells it, two counts of faults, a label, whether it is steady (no read fails) and
/// sound (no call fails), the call that was cut off last where it tells that, and a clock: where it
/// tells its moments, which images a power cut may leave at each moment since a time, and inside
/// which call that moment stood.
///
/// A program or erase that answered Ok is durable. A power cut inside one leaves any bytes in its
/// range and every other byte as it was.
pub trait Flash {
    ghost state: { Self → FlashState };

    /// How the device is divided.
    fn geometry(&self) -> Geometry
        ensures { result ≡ (state self.now).geometry };

    /// Reads the bytes from `place` on into the whole of `buf`. `Read` comes only where the count
    /// of read faults rose.
    fn read(&mut self, place: u32, buf: &mut [u8]) -> Result<(), FlashFault>
        requires { CanRead (state self.old) place (length buf.old) }
        ensures { Reads (state self.old) (state self.new) place buf.new result };

    /// Programs whole program units, at most an erase unit of them, on erased bytes. `Write` comes
    /// only where the count of write faults rose.
    fn program(&mut self, place: u32, bytes: &[u8]) -> Result<(), FlashFault>
        requires { CanProgram (state self.old) place (length bytes.now) }
        ensures { Writes (state self.old) (state self.new) place bytes.now result };

    /// Makes each byte of the erase unit at `place` 0xFF. `Write` comes only where the count of
    /// write faults rose.
    fn erase(&mut self, place: u32) -> Result<(), FlashFault>
        requires { CanErase (state self.old) place }
        ensures { Writes (state self.old) (state self.new) place
            (erased_unit (state self.old)) result };

    ghost lawful: { (device : Self) → IsLawful (state device) };
}
