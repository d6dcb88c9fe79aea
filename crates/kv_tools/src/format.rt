//! Formatting an image.
ghost use Rattle.std.specs.Prelude.{◌≡◌, IfOk};
ghost use Rattle.flash_core.specs.Sizes.{IsValid};
ghost use Rattle.kv_tools.specs.Formatting.{formatted_image};

use base_core::NoMemory;
use flash_core::Geometry;
use flash_sim::Chip;
use record_core::write_master;
use std::alloc::Global;

const ERASED: u8 = 0xFF;

const FIRST_VERSION: u16 = 1;

// At least the largest program unit.
const WORK_SIZE: usize = 4_096;

/// The image of a formatted device: a master record of version 1 at the start of the first area,
/// and every other byte 0xFF.
pub fn format_image(alloc: Global, geometry: Geometry) -> Result<Vec<u8>, NoMemory>
    requires { IsValid geometry }
    ensures { IfOk result (λ image. image.items ≡ formatted_image geometry) }
{
    let image = vec![in alloc; ERASED; geometry.size() as usize]?;
    let mut work = vec![in alloc; 0u8; WORK_SIZE]?;
    let mut chip = Chip::new(geometry, image);
    match write_master(&mut chip, 0, FIRST_VERSION, &mut work) {
        Ok(()) => Ok(chip.into_image()),
        Err(_) => unreachable!(),
    }
}
