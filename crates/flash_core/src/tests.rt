ghost use Rattle.std.specs.Prelude.{◌≡◌, Some, IfOk, replicate};
ghost use Rattle.flash_core.specs.RecordDevice.{IsLoggedOf, IsMemoryOf};
ghost use Rattle.flash_core.specs.Sizes.{IsValid};

use super::*;
use std::alloc::Global;
use std::test::Fail;

const SMALL: Geometry = Geometry {
    prog: 8,
    erase: 64,
    units_per_area: 2,
};

// The program unit, the erase unit and the erase units of an area, with the size of the device
// where they are valid.
const GEOMETRIES: [(u32, u32, u32, Option<u32>); 22] = [
    (8, 4_096, 16, Some(131_072)),
    (32, 512, 1, Some(1_024)),
    (1, 36, 1, Some(72)),
    (1, 24, 2, Some(96)),
    (4_096, 8_192, 1, Some(16_384)),
    (4_096, 4_096, 2, Some(16_384)),
    (16, 65_536, 128, Some(16_777_216)),
    (0, 4_096, 16, None),
    (3, 4_098, 16, None),
    (6, 4_098, 16, None),
    (8_192, 8_192, 16, None),
    (8, 0, 16, None),
    (8, 4_100, 16, None),
    (1, 65_537, 16, None),
    (8, 65_544, 16, None),
    (1, 23, 100, None),
    (8, 16, 16, None),
    (8, 4_096, 0, None),
    (16, 65_536, 129, None),
    (8, 4_096, 4_294_967_295, None),
    (1, 35, 1, None),
    (4_096, 4_096, 1, None),
];

#[test]
fn a_geometry_is_valid_within_its_limits(rt: HostRuntime) -> Result<(), Fail> {
    for (prog, erase, units_per_area, size) in GEOMETRIES {
        let geometry = Geometry {
            prog,
            erase,
            units_per_area,
        };
        let got = if geometry.is_valid() {
            Some(geometry.size())
        } else {
            None
        };
        assert_eq!(rt; got, size, "{geometry:?}");
    }
    Ok(())
}

// An erased device of four units.
fn erased_device(alloc: Global) -> Result<RecordFlash, Fail>
    requires { IsValid SMALL }
    ensures { IfOk result (λ flash.
        IsMemoryOf (⟦<RecordFlash as Flash>⟧.state flash) SMALL (replicate 256 255)) }
{
    let image = vec![in alloc; 0xFF; 256]?;
    Ok(RecordFlash::new(alloc, SMALL, image)?)
}

// The same with a log.
fn logged_device(alloc: Global, room: u32) -> Result<RecordFlash, Fail>
    requires { IsValid SMALL }
    ensures { IfOk result (λ flash.
        IsLoggedOf (⟦<RecordFlash as Flash>⟧.state flash) SMALL (replicate 256 255)) }
{
    let image = vec![in alloc; 0xFF; 256]?;
    Ok(RecordFlash::with_log(alloc, SMALL, image, room)?)
}

// Programs a payload of 16 bytes and a header of 24 bytes before it.
fn program_both(flash: &mut RecordFlash) -> Result<(), FlashFault>
    requires valid { IsValid SMALL }
    requires geometry { (⟦<RecordFlash as Flash>⟧.state flash.old).geometry ≡ SMALL }
    requires erased { (⟦<RecordFlash as Flash>⟧.state flash.old).image ≡ Some (replicate 256 255) }
    ensures { (⟦<RecordFlash as Flash>⟧.state flash.new).geometry ≡ SMALL }
{
    program_payload_then_header(flash, 64, &[1; 24], &[2; 16])
}

#[test]
fn a_record_is_programmed_read_and_erased(rt: HostRuntime) -> Result<(), Fail> {
    assert!(rt; SMALL.is_valid());
    let mut flash = erased_device(rt.alloc())?;
    assert_eq!(rt; flash.image(), [0xFF; 256].as_slice());
    assert_eq!(rt; flash.geometry(), SMALL);
    program_both(&mut flash)?;
    let mut buf = [0; 8];
    flash.read(84, &mut buf)?;
    assert_eq!(rt; buf, [1, 1, 1, 1, 2, 2, 2, 2]);
    flash.read(100, &mut buf)?;
    assert_eq!(rt; buf, [2, 2, 2, 2, 0xFF, 0xFF, 0xFF, 0xFF]);
    flash.erase(64)?;
    assert_eq!(rt; flash.image(), [0xFF; 256].as_slice());
    Ok(())
}

// The room of a log, and what is refused of a payload of 16 bytes, a header of 24 and an erase of
// 64.
const ROOMS: [(u32, bool, bool, u8, u8); 4] = [
    (15, true, true, 0xFF, 0xFF),
    (39, true, true, 0xFF, 2),
    (40, false, true, 1, 2),
    (104, false, false, 0xFF, 0xFF),
];

#[test]
fn a_log_refuses_what_is_longer_than_its_rest(rt: HostRuntime) -> Result<(), Fail> {
    assert!(rt; SMALL.is_valid());
    for (room, both, erase, header, payload) in ROOMS {
        let mut flash = logged_device(rt.alloc(), room)?;
        assert_eq!(rt; program_both(&mut flash).is_err(), both);
        assert_eq!(rt; flash.erase(64).is_err(), erase);
        let image = flash.into_image();
        assert_eq!(rt; image[64], header, "{room}");
        assert_eq!(rt; image[88], payload, "{room}");
    }
    Ok(())
}

#[test]
fn units_are_erased_and_no_other_byte(rt: HostRuntime) -> Result<(), Fail> {
    assert!(rt; SMALL.is_valid());
    let image = vec![in rt.alloc(); 0; 256]?;
    let mut flash = RecordFlash::new(rt.alloc(), SMALL, image)?;
    erase_units(&mut flash, 64, 2)?;
    let image = flash.image();
    assert_eq!(rt;
        (image[63], image[64], image[191], image[192]),
        (0, 0xFF, 0xFF, 0)
    );
    Ok(())
}
