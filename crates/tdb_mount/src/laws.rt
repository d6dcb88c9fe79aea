// Laws of the definitions. Each is a function with nothing to do: its contract is the law.
ghost use Rattle.std.specs.Prelude.{◌≡◌, ◌≢◌, ◌↔◌, ◌+◌, ◌<◌, ◌≤◌, ◌%◌, ◌^◌, ◌++◌, ◌∷◌, [], ℕ, List, length, Some, None};
ghost use Rattle.std.specs.FinMap.{get};
ghost use Rattle.flash_core.specs.declared.geometry.Geometry.{Geometry};
ghost use Rattle.flash_core.specs.Runs.{Done};
ghost use Rattle.flash_core.specs.Sizes.{IsValid, size_of};
ghost use Rattle.kv_model.specs.FlaggedMap.{FlaggedMap};
ghost use Rattle.kv_model.specs.Flags.{remove_flags};
ghost use Rattle.kv_model.specs.Write.{Write};
ghost use Rattle.record_core.specs.Log.{IsRecordAt, extent};
ghost use Rattle.record_core.specs.Mounts.{Mounts, active_area};
ghost use Rattle.area_log.specs.declared.area.Area.{Area};
ghost use Rattle.area_log.specs.Areas.{end_of};
ghost use Rattle.area_log.specs.Listing.{Found};
ghost use Rattle.tdb_mount.specs.Format.{Leaves};
ghost use Rattle.tdb_mount.specs.Index.{places_of};
ghost use Rattle.tdb_mount.specs.Keys.{SpellsKey, keys_in};

/// What a mount leaves of an image mounts to the map that the image had.
pub fn mounting_keeps_the_map()
    ensures { (g : Geometry) (image left : List ℕ) (map : FlaggedMap) → IsValid g
        → length image ≡ size_of g
        → Leaves g image left Done → Mounts g image map → Mounts g left map }
{}

/// Versions count in a circle: behind 65,535 comes 0.
pub fn versions_count_in_a_circle()
    ensures first_is_next { active_area (Some 0) (Some 65535) ≡ Some 0 }
    ensures second_is_next { active_area (Some 65535) (Some 0) ≡ Some 1 }
    ensures neither_is { active_area (Some 5) (Some 9) ≡ Some 0 }
    ensures next { (version : ℕ) → version < 2 ^ 16
        → active_area (Some version) (Some ((version + 1) % 2 ^ 16)) ≡ Some 1 }
    ensures previous { (version : ℕ) → version < 2 ^ 16
        → active_area (Some ((version + 1) % 2 ^ 16)) (Some version) ≡ Some 0 }
{}

/// The last record of a key has the key's place, or takes it away where it is a remove, and moves
/// no other key.
pub fn last_record_has_the_place()
    ensures placed { (list : List Found) (found : Found) → found.header.flags ≢ remove_flags
        → get (places_of (list ++ found ∷ [])) found.key ≡ Some found.at }
    ensures removed { (list : List Found) (found : Found) → found.header.flags ≡ remove_flags
        → get (places_of (list ++ found ∷ [])) found.key ≡ None }
    ensures others { (list : List Found) (found : Found) (key : List ℕ) → key ≢ found.key
        → get (places_of (list ++ found ∷ [])) key ≡ get (places_of list) key }
{}

/// A reader over a device tells the keys that the bytes of its area spell, and no others. Each
/// record of the area is among them.
pub fn keys_are_told_as_spelled()
    ensures spelled { (g : Geometry) (area : Area) (image key : List ℕ) (place : ℕ) → 1 ≤ g.prog
        → (get (keys_in g area image) place ≡ Some key)
        ↔ SpellsKey g.prog image (end_of area) place key }
    ensures records { (g : Geometry) (area : Area) (image : List ℕ) (place : ℕ) (r : Write)
        → 1 ≤ g.prog
        → IsRecordAt g.prog image place r → place + extent g.prog r ≤ end_of area
        → get (keys_in g area image) place ≡ Some r.key }
{}
