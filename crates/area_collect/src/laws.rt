// Laws of what a collection keeps. Each is a function with nothing to do: its contract is the law.
ghost use Rattle.std.specs.Prelude.{◌≡◌, ◌∷◌, ◌++◌, [], List, ℕ, length};
ghost use Rattle.std.specs.FinMap.{empty, remove};
ghost use Rattle.kv_model.specs.FlaggedMap.{FlaggedMap};
ghost use Rattle.kv_model.specs.Write.{Write, map_of};
ghost use Rattle.flash_core.specs.declared.geometry.Geometry.{Geometry};
ghost use Rattle.flash_core.specs.Sizes.{IsValid, size_of};
ghost use Rattle.record_core.specs.Mounts.{Contents, Holds, Mounts};
ghost use Rattle.area_collect.specs.Collection.{CanCopy, number_of, with_copies, with_master};
ghost use Rattle.area_collect.specs.Copies.{Copy, IsRoute};
ghost use Rattle.area_collect.specs.Kept.{Follows, HasKey, StandForMap};

/// Records by which the keys of a map have their values, one or more for each key, stand for that
/// map, whatever their order; and without a key's record the others stand for the map without the
/// key. No record stands for the empty map, so a collection over an empty table is a reset.
pub fn last_records_stand_for_the_map()
    ensures same_map { (map : FlaggedMap) (records : List Write) → StandForMap map records
        → map_of records ≡ map }
    ensures without { (map : FlaggedMap) (before after : List Write) (r : Write)
        → StandForMap map (before ++ r ∷ after)
        → (HasKey r.key before → ⊥) → (HasKey r.key after → ⊥)
        → map_of (before ++ after) ≡ remove map r.key }
    ensures none { StandForMap empty [] }
{}

/// Copies before which a master record of the next version is written are what the image mounts to.
/// So once `copy_without` left a key's record out, that master record makes the map the one without
/// the key.
pub fn finished_copies_are_mounted()
    ensures { (g : Geometry) (image : List ℕ) (copy : Copy) (version : ℕ) (records : List Write)
        (contents : Contents) → IsValid g → length image ≡ size_of g → IsRoute g copy.route
        → CanCopy g image copy records → Holds g image contents
        → Follows contents (number_of copy.route.from) version
        → Mounts g (with_master g copy.route.to version (with_copies g copy.route.to image records))
        (map_of records) }
{}
