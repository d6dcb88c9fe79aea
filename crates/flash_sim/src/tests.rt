ghost use Rattle.std.specs.Prelude.{◌≡◌, IfOk, replicate};
ghost use Rattle.flash_core.specs.Sizes.{IsValid};
ghost use Rattle.flash_sim.specs.ChipState.{new_chip};
ghost use Rattle.flash_sim.specs.Views.{view_of};

use super::*;
use flash_core::{Flash, FlashFault, Geometry, program_payload_then_header};
use kv_model::Pattern;
use std::alloc::Global;
use std::test::Fail;

const SMALL: Geometry = Geometry {
    prog: 8,
    erase: 64,
    units_per_area: 2,
};

// An erased chip of four units.
fn erased_chip(alloc: Global) -> Result<Chip, Fail>
    requires { IsValid SMALL }
    ensures { IfOk result (λ chip. view_of chip ≡ new_chip SMALL (replicate 256 255)) }
{
    let image = vec![in alloc; 0xFF; 256]?;
    Ok(Chip::new(SMALL, image))
}

// Programs a payload of 16 bytes and a header of 24 bytes before it.
fn program_both(chip: &mut Chip) -> Result<(), FlashFault>
    requires valid { IsValid SMALL }
    requires geometry { (view_of chip.old).geometry ≡ SMALL }
    requires erased { (view_of chip.old).image ≡ replicate 256 255 }
    ensures { (view_of chip.new).geometry ≡ SMALL }
{
    program_payload_then_header(chip, 64, &[1; 24], &[2; 16])
}

// Which write is torn and how, and the bytes at 64, 75, 76, 88, 95 and 96 afterwards: the header
// has the first three, and the payload the others.
const TEARS: [(u32, Pattern, [u8; 6]); 8] = [
    (1, Pattern::None, [255, 255, 255, 255, 255, 255]),
    (1, Pattern::Half, [255, 255, 255, 2, 2, 255]),
    (1, Pattern::Zero, [255, 255, 255, 0, 0, 0]),
    (1, Pattern::All, [255, 255, 255, 2, 2, 2]),
    (2, Pattern::None, [255, 255, 255, 2, 2, 2]),
    (2, Pattern::Half, [1, 1, 255, 2, 2, 2]),
    (2, Pattern::Zero, [0, 0, 0, 2, 2, 2]),
    (2, Pattern::All, [1, 1, 1, 2, 2, 2]),
];

#[test]
fn a_torn_write_leaves_its_range_as_the_pattern_says(rt: HostRuntime) -> Result<(), Fail> {
    assert!(rt; SMALL.is_valid());
    for (n, pattern, left) in TEARS {
        let mut chip = erased_chip(rt.alloc())?;
        chip.arm(rt.alloc(), n, pattern)?;
        assert!(rt; program_both(&mut chip).is_err());
        assert!(rt; chip.torn().is_some());
        let image = chip.into_image();
        let got = [
            image[64], image[75], image[76], image[88], image[95], image[96],
        ];
        assert_eq!(rt; got, left, "{n} {pattern:?}");
    }
    Ok(())
}

// The high bytes of 1015568748, 1586005467, 2165703038, 3027450565, 217083232, 1587069247,
// 3327581586 and 2388811721.
#[test]
fn a_mixed_tear_leaves_the_numbers_of_its_seed(rt: HostRuntime) -> Result<(), Fail> {
    assert!(rt; SMALL.is_valid());
    let mut chip = erased_chip(rt.alloc())?;
    chip.arm(rt.alloc(), 1, Pattern::Mix { seed: 1 })?;
    assert!(rt; program_both(&mut chip).is_err());
    let mixed: [u8; 8] = [60, 94, 129, 180, 12, 94, 198, 142];
    assert_eq!(rt; &chip.image()[88..96], mixed.as_slice());
    Ok(())
}

#[test]
fn a_torn_chip_fails_until_power_is_on(rt: HostRuntime) -> Result<(), Fail> {
    assert!(rt; SMALL.is_valid());
    let mut chip = erased_chip(rt.alloc())?;
    chip.arm(rt.alloc(), 2, Pattern::None)?;
    assert!(rt; program_both(&mut chip).is_err());
    let mut buf = [0; 8];
    assert!(rt; chip.read(88, &mut buf).is_err());
    assert!(rt; chip.erase(64).is_err());
    chip.power_on();
    chip.read(88, &mut buf)?;
    assert_eq!(rt; buf, [2; 8]);
    chip.erase(64)?;
    Ok(())
}

#[test]
fn named_calls_fail_once(rt: HostRuntime) -> Result<(), Fail> {
    assert!(rt; SMALL.is_valid());
    let mut chip = erased_chip(rt.alloc())?;
    let reads = vec![in rt.alloc(); 2; 1]?;
    let writes = vec![in rt.alloc(); 1; 1]?;
    chip.set_faults(reads, writes);
    let mut buf = [0; 8];
    assert!(rt; chip.read(0, &mut buf).is_ok());
    assert!(rt; chip.read(0, &mut buf).is_err());
    assert!(rt; chip.read(0, &mut buf).is_ok());
    assert!(rt; program_both(&mut chip).is_err());
    assert_eq!(rt; chip.image(), [0xFF; 256].as_slice());
    chip.erase(64)?;
    Ok(())
}
