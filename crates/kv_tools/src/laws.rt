//! Laws of the definitions. Each is a function with nothing to do: its contract is the law.
ghost use Rattle.std.specs.Prelude.{◌≡◌, ◌≤◌, ℕ, List, All, map};
ghost use Rattle.std.specs.FinMap as finite;
ghost use Rattle.flash_core.specs.declared.geometry.Geometry.{Geometry};
ghost use Rattle.kv_model.specs.declared.call.Entry.{Entry};
ghost use Rattle.kv_model.specs.Constants.{Constants};
ghost use Rattle.kv_model.specs.FlaggedMap.{FlaggedMap};
ghost use Rattle.kv_model.specs.History.{IsLegal};
ghost use Rattle.kv_model.specs.LogStep.{AreLive};
ghost use Rattle.kv_model.specs.PlainStep.{plain_rules};
ghost use Rattle.kv_model.specs.Sizes.{used};
ghost use Rattle.kv_model.specs.StoreState.{StoreState, fresh_state};
ghost use Rattle.kv_model.specs.Write.{Write};
ghost use Rattle.script_core.specs.LineOrder.{InOrder};
ghost use Rattle.kv_tools.specs.Checking.{IsCheckOf};
ghost use Rattle.kv_tools.specs.Listing.{HasLines, set_of};
ghost use Rattle.kv_tools.specs.Replaying.{CanSet, HasNoFault, IsDone};

/// An image has one check, and one text with the lines of its keys.
pub fn texts_are_one()
    ensures check { (g : Geometry) (image a b : List ℕ) → 1 ≤ g.prog
        → IsCheckOf g image a → IsCheckOf g image b → a ≡ b }
    ensures lines { (line : Write → List ℕ) (g : Geometry) (hash_bits : ℕ) (image a b : List ℕ)
        → 1 ≤ g.prog
        → HasLines line g hash_bits image a → HasLines line g hash_bits image b → a ≡ b }
{}

/// A replay of the sets of a dump by a plain store that holds nothing yet, and that has the room and
/// fails no read and no write, answers each of them with Done, and leaves the map that was dumped.
pub fn a_replayed_dump_makes_the_map()
    ensures { (constants : Constants) (m : FlaggedMap) (live : List Write) (entries : List Entry)
        (after : StoreState)
        → AreLive constants.hash_bits m live → All CanSet live
        → used constants.prog m ≤ constants.room
        → IsLegal (plain_rules constants) (fresh_state finite.empty finite.empty 0) entries after
        → InOrder entries (map set_of live) → All HasNoFault entries
        → All IsDone entries × (after.primary ≡ m) }
{}
