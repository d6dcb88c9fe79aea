// Erase units, one after another.
ghost use Rattle.std.specs.Prelude.{◌≡◌, ◌*◌, IfErr, Some};
ghost use Rattle.flash_core.specs.Erases.{AreUnits, ErasesUnits, erased_from};
ghost use Rattle.flash_core.specs.Runs.{RunsBy, ended};
ghost use Rattle.flash_core.specs.State.{OnImage};

use crate::{Flash, FlashFault};

/// Erases `count` erase units from `place` on, in ascending order and each by one erase. The fault
/// is that of the device. At each moment the first of these units are erased, and no other byte
/// differs.
pub fn erase_units<F: Flash>(flash: &mut F, place: u32, count: u32) -> Result<(), FlashFault>
    requires { AreUnits (F.state flash.old).geometry place count }
    ensures runs { RunsBy (F.state flash.old) (F.state flash.new)
        (ErasesUnits (F.state flash.old).geometry place count) (ended result) }
    ensures fault { IfErr result (λ fault. fault ≡ FlashFault.Write) }
    ensures erased { OnImage (F.state flash.old).image result (λ image. (F.state flash.new).image
        ≡ Some (erased_from image place (count * (F.state flash.old).geometry.erase))) }
{
    let erase = flash.geometry().erase;
    for unit in 0..count {
        flash.erase(place + unit * erase)?;
    }
    Ok(())
}
