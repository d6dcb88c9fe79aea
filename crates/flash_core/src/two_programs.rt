// A record's two ranges, in the order in which they are written.
ghost use Rattle.std.specs.Prelude.{◌≡◌, ◌+◌, length, IfErr, Some};
ghost use Rattle.flash_core.specs.Calls.{CanProgram};
ghost use Rattle.flash_core.specs.Runs.{RunsBy, ended};
ghost use Rattle.flash_core.specs.Sizes.{IsValid};
ghost use Rattle.flash_core.specs.State.{OnImage};
ghost use Rattle.flash_core.specs.TwoPrograms.{IsHeaderLast, both_put};

use crate::{Flash, FlashFault};

/// Programs a payload and then, at `place` right before it, its header. Until the payload stands
/// whole the header's range stays erased. The fault is that of the device.
pub fn program_payload_then_header<F: Flash>(
    flash: &mut F,
    place: u32,
    header: &[u8],
    payload: &[u8],
) -> Result<(), FlashFault>
    requires valid { IsValid (F.state flash.old).geometry }
    requires header { CanProgram (F.state flash.old) place (length header.now) }
    requires payload { CanProgram (F.state flash.old) (place + length header.now)
        (length payload.now) }

    // At each moment the header's range is as it was until the payload is whole.
    ensures runs { RunsBy (F.state flash.old) (F.state flash.new)
        (IsHeaderLast place header.now payload.now) (ended result) }
    ensures fault { IfErr result (λ fault. fault ≡ FlashFault.Write) }
    ensures written { OnImage (F.state flash.old).image result (λ image.
        (F.state flash.new).image ≡ Some (both_put image place header.now payload.now)) }
{
    let behind = place + header.len() as u32;
    flash.program(behind, payload)?;
    flash.program(place, header)
}
