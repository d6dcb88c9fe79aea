// Laws of what areas list and of what is read of them. Each is a function with nothing to do: its
// contract is the law.
ghost use Rattle.std.specs.Prelude.{◌≡◌, ◌+◌, ◌-◌, ◌≤◌, ◌++◌, [], ◌∷◌, ℕ, List, length, take, drop};
ghost use Rattle.std.specs.List.{All};
ghost use Rattle.flash_core.specs.declared.geometry.Geometry.{Geometry};
ghost use Rattle.flash_core.specs.Images.{IsErased, Torn, part};
ghost use Rattle.kv_model.specs.declared.call.Got.{Got};
ghost use Rattle.kv_model.specs.Write.{Write};
ghost use Rattle.base_core.specs.Units.{up};
ghost use Rattle.record_core.specs.Header.{header_bytes};
ghost use Rattle.record_core.specs.Log.{IsRecordAt, extent};
ghost use Rattle.area_log.specs.declared.area.Area.{Area};
ghost use Rattle.area_log.specs.Areas.{end_of, first_place};
ghost use Rattle.area_log.specs.Listing.{Found, IsListOf, IsNext, found_at};
ghost use Rattle.area_log.specs.Reading.{Gives, IsWithin};

/// An area has one list of records and one end, and before each record stands one list. The header
/// and the key of each record that is listed are parts of the image, at its place.
pub fn lists_are_one()
    ensures one_list { (g : Geometry) (image : List ℕ) (area : Area) (end other_end : ℕ)
        (list other : List Found) → 1 ≤ g.prog
        → IsListOf g image area end list → IsListOf g image area other_end other → (list ≡ other)
        × (end ≡ other_end) }
    ensures one_before { (g : Geometry) (image : List ℕ) (area : Area) (found : Found)
        (before other : List Found) → 1 ≤ g.prog
        → IsNext g image area found before → IsNext g image area found other → before ≡ other }
    ensures headers { (g : Geometry) (image : List ℕ) (area : Area) (end : ℕ) (list : List Found)
        → 1 ≤ g.prog
        → IsListOf g image area end list
        → All (λ found. part image found.at 24 ≡ header_bytes found.header) list }
    ensures keys { (g : Geometry) (image : List ℕ) (area : Area) (end : ℕ) (list : List Found)
        → 1 ≤ g.prog
        → IsListOf g image area end list
        → All (λ found. part image (found.at + up g.prog 24) (length found.key) ≡ found.key) list }
{}

/// An area that is erased behind its master has no records. One that was appended at the end,
/// before an erased tail, is listed behind the others.
pub fn lists_go_on()
    ensures none { (g : Geometry) (image : List ℕ) (area : Area) → 1 ≤ g.prog
        → first_place g area ≤ end_of area
        → IsErased image (first_place g area) (end_of area - first_place g area)
        → IsListOf g image area (first_place g area) [] }
    ensures one_more { (g : Geometry) (old new : List ℕ) (area : Area) (end : ℕ) (list : List Found)
        (r : Write) → 1 ≤ g.prog
        → IsListOf g old area end list → Torn end (extent g.prog r) old new
        → IsRecordAt g.prog new end r
        → end + extent g.prog r ≤ end_of area
        → IsErased new (end + extent g.prog r) (end_of area - (end + extent g.prog r))
        → IsListOf g new area (end + extent g.prog r) (list ++ found_at end r ∷ []) }
{}

/// A buffer that has room for all that is behind the offset is given it, at its front.
pub fn rest_of_a_value_is_given()
    ensures { (r : Write) (offset : ℕ) (buf : List ℕ) (got : Got)
        → length r.value ≤ offset + length buf
        → IsWithin offset (length buf) got → Gives r offset buf got
        → take got.read buf ≡ drop offset r.value }
{}
