// Laws of the definitions. Each is a function with nothing to do: its contract is the law.
ghost use Rattle.std.specs.Prelude.{ℕ, List};
ghost use Rattle.flash_core.specs.declared.geometry.Geometry.{Geometry};
ghost use Rattle.record_core.specs.Mounts.{Mounts};
ghost use Rattle.tdb_read.specs.Reads.{map_in};
ghost use Rattle.tdb_read.specs.Views.{IsLogOf, LogPart};

/// The map of a log's state is the one to which its image mounts.
pub fn a_log_stands_for_what_its_image_mounts_to()
    ensures { (g : Geometry) (image : List ℕ) (log : LogPart)
        → IsLogOf g image log → Mounts g image (map_in g log image) }
{}
