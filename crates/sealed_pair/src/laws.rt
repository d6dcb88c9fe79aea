//! What the rules of a secure store mean.
ghost use Rattle.std.specs.Prelude.{◌≡◌, ◌↔◌, ◌<◌, ◌^◌, ◌+◌, ℕ, true, false, List, length, Option, Some};
ghost use Rattle.std.specs.FinMap.{empty, get};
ghost use Rattle.kv_model.specs.Constants.{Constants, Secure};
ghost use Rattle.kv_model.specs.declared.limits.TheConstants.{MAX_VALUE};
ghost use Rattle.kv_model.specs.declared.call.Reply.TheVariants.{Done, Refused};
ghost use Rattle.kv_model.specs.declared.error.KvError.TheVariants.{WriteProtected};
ghost use Rattle.kv_model.specs.declared.call.Entry.{Entry};
ghost use Rattle.kv_model.specs.History.{Follows};
ghost use Rattle.kv_model.specs.FlaggedMap.{Stored};
ghost use Rattle.kv_model.specs.Iterations.{SharesIterators};
ghost use Rattle.kv_model.specs.Operations.{Operation, Set, Finish, Remove, Reset};
ghost use Rattle.kv_model.specs.Rules.{AreRules};
ghost use Rattle.kv_model.specs.Sizes.{used};
ghost use Rattle.kv_model.specs.StoreState.{Maps, OpenSet, StoreState, fresh_state};
ghost use Rattle.secure_record.specs.Sealed.{seal, sealed_vector, stored, tag};
ghost use Rattle.sealed_pair.specs.declared.limits.TheConstants.{MAX_SECURE_VALUE, SEAL_SIZE};
ghost use Rattle.sealed_pair.specs.Heal.{heal, IsHealed};
ghost use Rattle.sealed_pair.specs.Laws.{HealsKey, LeavesOthers, MaySeal, MaySetNow, ShowsOldOrSet, ShowsOldSetOrFailed, ShowsOthers, ShowsSet};
ghost use Rattle.sealed_pair.specs.Sealing.{tag_of};
ghost use Rattle.sealed_pair.specs.Limits.{HasRooms, IsSecure};
ghost use Rattle.sealed_pair.specs.View.{Absent, Held};
ghost use Rattle.sealed_pair.specs.SecureStep.{is_protected, secure_rules, secure_step, view};

/// The rules of a secure store are rules of a store: what a call does is no refusal, a get, a part
/// and an info read one value alike, and iterators are those of every store.
pub fn secure_rules_are_rules()
    ensures rules { (constants : Constants) → AreRules (secure_rules constants) }
    ensures iterators { (constants : Constants)
        → SharesIterators constants.hash_bits (secure_rules constants) }
{}

/// A sealed value takes a fixed size more than the value, its tag is the CMAC of its record, and
/// the largest one is as long as a value of the store below may be.
pub fn sealed_values_have_their_size()
    ensures size { (root key : List ℕ) (flags iv : ℕ) (prior : Option (List ℕ)) (value : List ℕ)
        → MaySeal flags iv prior value
        → length (seal root key flags iv prior value) ≡ length value + SEAL_SIZE }
    ensures tag { (root key : List ℕ) (flags iv : ℕ) (prior : Option (List ℕ)) (value : List ℕ)
        → tag_of (seal root key flags iv prior value)
        ≡ tag root key flags (sealed_vector flags iv) prior
        (stored root key flags (sealed_vector flags iv) value) }
    ensures largest { MAX_SECURE_VALUE + SEAL_SIZE ≡ MAX_VALUE }
{
    secure_record::laws::sealed_records_have_their_form();
}

/// Healing leaves the primary map. It puts the tag of a key's record in the place of the tag that
/// this record replaces, wherever that stands and may be replaced, and leaves all else. So the
/// rollback map takes as much room as before, and healing what is healed changes nothing.
pub fn healing_completes_sets()
    ensures primary { (secure : Secure) (maps : Maps)
        → (heal secure maps).primary ≡ maps.primary }
    ensures each { (secure : Secure) (maps : Maps) (key : List ℕ)
        → HealsKey secure maps key (get maps.rollback key) (get (heal secure maps).rollback key) }
    ensures whole { (secure : Secure) (maps : Maps) (key : List ℕ) (old new : Stored)
        → IsHealed secure maps key old new → get maps.rollback key ≡ Some old
        → get (heal secure maps).rollback key ≡ Some new }
    ensures used { (secure : Secure) (maps : Maps)
        → used secure.prog (heal secure maps).rollback ≡ used secure.prog maps.rollback }
    ensures twice { (secure : Secure) (maps : Maps)
        → heal secure (heal secure maps) ≡ heal secure maps }
{}

/// After a set that is done, or the finish of a set, the key is held with the flags and the value
/// that were set, and every other key has the view that it had.
pub fn a_set_is_shown()
    ensures set { (constants : Constants) (state : StoreState) (who : ℕ) (key value : List ℕ)
        (flags : ℕ) → IsSecure state
        → (secure_step constants state who (Set key value flags)).reply ≡ Done
        → ShowsSet constants state (secure_step constants state who (Set key value flags)).state
        key flags value }
    ensures finish { (constants : Constants) (state : StoreState) (who : ℕ) (set : OpenSet)
        → IsSecure state → state.open_set ≡ Some set → set.is_remove ≡ false
        → (secure_step constants state who Finish).reply ≡ Done
        → ShowsSet constants state (secure_step constants state who Finish).state
        set.key set.flags set.bytes }
{
    secure_record::laws::sealed_records_are_opened();
}

/// After a power cut or a failed write in a set of a key for which the rollback store has a tag, or
/// in the finish of such a set, whatever of it stands, a mount shows of the key what it would have
/// shown before, or what was set.
pub fn a_cut_set_is_whole_or_absent()
    ensures set { (constants : Constants) (state : StoreState) (who : ℕ) (key value : List ℕ)
        (flags : ℕ) (tag : Stored) → IsSecure state
        → get state.rollback key ≡ Some tag → length tag.bytes ≡ 16
        → ShowsOldOrSet constants state who (Set key value flags) key (Held flags value) }
    ensures finish { (constants : Constants) (state : StoreState) (who : ℕ) (set : OpenSet)
        (tag : Stored) → IsSecure state → HasRooms constants state
        → state.open_set ≡ Some set → set.is_remove ≡ false
        → get state.rollback set.key ≡ Some tag → length tag.bytes ≡ 16
        → ShowsOldOrSet constants state who Finish set.key (Held set.flags set.bytes) }
{
    secure_record::laws::sealed_records_are_opened();
    secure_record::laws::sealed_records_have_their_form();
}

/// After a power cut or a failed write in any set, remove or reset, or in a finish, a mount shows
/// of the key what it would have shown before, or what the call makes of it, or that the two
/// stores don't belong together. It never shows a third value.
pub fn a_cut_shows_no_other_value()
    ensures set { (constants : Constants) (state : StoreState) (who : ℕ) (key value : List ℕ)
        (flags : ℕ) → IsSecure state
        → ShowsOldSetOrFailed constants state who (Set key value flags) key (Held flags value) }
    ensures finish { (constants : Constants) (state : StoreState) (who : ℕ) (set : OpenSet)
        → IsSecure state → state.open_set ≡ Some set → set.is_remove ≡ false
        → ShowsOldSetOrFailed constants state who Finish set.key (Held set.flags set.bytes) }
    ensures remove { (constants : Constants) (state : StoreState) (who : ℕ) (key : List ℕ)
        → ShowsOldSetOrFailed constants state who (Remove key) key Absent }
    ensures finish_remove { (constants : Constants) (state : StoreState) (who : ℕ) (set : OpenSet)
        → state.open_set ≡ Some set → set.is_remove ≡ true
        → ShowsOldSetOrFailed constants state who Finish set.key Absent }
    ensures reset { (constants : Constants) (state : StoreState) (who : ℕ) (key : List ℕ)
        → ShowsOldSetOrFailed constants state who Reset key Absent }
{
    secure_record::laws::sealed_records_are_opened();
}

/// After a remove that is done the key is absent, and after a reset every key.
pub fn a_removed_key_is_absent()
    ensures remove { (constants : Constants) (state : StoreState) (who : ℕ) (key : List ℕ)
        → (secure_step constants state who (Remove key)).reply ≡ Done
        → view constants (secure_step constants state who (Remove key)).state key ≡ Absent }
    ensures reset { (constants : Constants) (state : StoreState) (who : ℕ) (key : List ℕ)
        → (secure_step constants state who Reset).reply ≡ Done
        → view constants (secure_step constants state who Reset).state key ≡ Absent }
{}

/// Whatever a cut of a set, a remove or a finish leaves, both stores hold of every other key what
/// they held.
pub fn a_cut_leaves_other_keys()
    ensures set { (constants : Constants) (state : StoreState) (who : ℕ) (key value : List ℕ)
        (flags : ℕ) → LeavesOthers constants state who (Set key value flags) key }
    ensures remove { (constants : Constants) (state : StoreState) (who : ℕ) (key : List ℕ)
        → LeavesOthers constants state who (Remove key) key }
    ensures finish { (constants : Constants) (state : StoreState) (who : ℕ) (set : OpenSet)
        → state.open_set ≡ Some set → LeavesOthers constants state who Finish set.key }
{}

/// Whatever a cut of a set, a remove or a finish leaves, a mount then shows of every other key the
/// view that it had, or the one that completing its own set gives it: a cut may change how much
/// room there is for that.
pub fn a_cut_shows_other_keys()
    ensures set { (constants : Constants) (state : StoreState) (who : ℕ) (key value : List ℕ)
        (flags : ℕ) → ShowsOthers constants state who (Set key value flags) key }
    ensures remove { (constants : Constants) (state : StoreState) (who : ℕ) (key : List ℕ)
        → ShowsOthers constants state who (Remove key) key }
    ensures finish { (constants : Constants) (state : StoreState) (who : ℕ) (set : OpenSet)
        → state.open_set ≡ Some set → ShowsOthers constants state who Finish set.key }
{}

/// A set that nothing refuses before the stores are asked is refused as write-protected exactly
/// where one of the two holds the key write-once.
pub fn write_once_keys_are_refused()
    ensures { (constants : Constants) (state : StoreState) (who : ℕ) (key value : List ℕ)
        (flags : ℕ) → MaySetNow state key value flags
        → ((secure_step constants state who (Set key value flags)).reply ≡ Refused WriteProtected)
        ↔ (is_protected constants state key ≡ true) }
{}

/// A secure store begins within the limits of a state, and every call, fault and mount keeps them.
pub fn limits_are_kept()
    ensures fresh { (next_vector : ℕ) → next_vector < 2 ^ 64
        → IsSecure (fresh_state empty empty next_vector) }
    ensures step { (constants : Constants) (state : StoreState) (who : ℕ) (operation : Operation)
        → IsSecure state → IsSecure (secure_step constants state who operation).state }
    ensures history { (constants : Constants) (old new : StoreState) (entry : Entry)
        → IsSecure old → Follows (secure_rules constants) old entry new → IsSecure new }
{
    secure_record::laws::sealed_records_have_their_form();
}

/// What a secure store holds in its two stores fits in their rooms, and what the set that is active
/// will store with it, from empty stores on and through every call, fault and mount.
pub fn rooms_are_kept()
    ensures fresh { (constants : Constants) (next_vector : ℕ)
        → HasRooms constants (fresh_state empty empty next_vector) }
    ensures step { (constants : Constants) (state : StoreState) (who : ℕ) (operation : Operation)
        → IsSecure state → HasRooms constants state
        → HasRooms constants (secure_step constants state who operation).state }
    ensures history { (constants : Constants) (old new : StoreState) (entry : Entry)
        → IsSecure old → HasRooms constants old → Follows (secure_rules constants) old entry new
        → HasRooms constants new }
{
    secure_record::laws::sealed_records_have_their_form();
}
