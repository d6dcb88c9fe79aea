//! What histories with fresh numbers mean.
ghost use Rattle.std.specs.Prelude.{◌≡◌, true, ℕ, List, Contains};
ghost use Rattle.kv_model.specs.declared.call.Entry.{Entry};
ghost use Rattle.kv_model.specs.Constants.{Constants};
ghost use Rattle.kv_model.specs.Flags.{is_mirrored};
ghost use Rattle.kv_model.specs.History.{Follows as FollowsBy};
ghost use Rattle.kv_model.specs.StoreState.{Maps, StoreState};
ghost use Rattle.sealed_pair.specs.Laws.{mounted_view};
ghost use Rattle.sealed_pair.specs.Limits.{IsSecure};
ghost use Rattle.sealed_pair.specs.Sealing.{secure_of};
ghost use Rattle.sealed_pair.specs.SecureStep.{secure_rules, view};
ghost use Rattle.sealed_pair.specs.View.{Held, view_of};
ghost use Rattle.fresh_numbers.specs.Attacks.{Attack, IsPossible, copy_put_back, protected_flags, set_again};
ghost use Rattle.fresh_numbers.specs.Histories.{Finds, HasEvent, History, IsHistory, all_states, present, root_of};
ghost use Rattle.fresh_numbers.specs.PutBacks.{IsHistoryUnderAttack};
ghost use Rattle.fresh_numbers.specs.Replays.{HasHad, HasNumber, HaveOneMac, HaveOneTag, MayHaveHad, ShowsNothingOld, ShowsNothingOlder};

/// No replay while numbers are fresh. Let each run begin with a number that is not below the next
/// one of the run before. Then the primary map of any earlier moment, mounted beside the rollback
/// map of now, shows of each key that is now held with replay protection or write-once what it
/// shows now, or that the two stores don't belong together, unless two different records that the
/// history stored for the key have one CMAC.
pub fn old_maps_show_nothing_old()
    ensures { (h : History) (earlier : StoreState) (key : List ℕ) (flags : ℕ) (value : List ℕ)
        → IsHistory h → Contains (all_states h) earlier
        → view h.constants (present h) key ≡ Held flags value → is_mirrored flags ≡ true
        → ShowsNothingOld h earlier.primary key }
{
    secure_record::laws::sealed_records_are_opened();
    secure_record::laws::sealed_records_have_their_form();
    secure_record::laws::records_have_one_reading();
    sealed_pair::laws::healing_completes_sets();
}

/// No older value, however often old primary maps are put back. Let any primary map that the store
/// has had, or that a cut may have left, stand at each mount in the place of its own. Then each of
/// them, put back now, shows what is there now, or that the stores don't belong together, or a
/// value of its own with a higher number than the one that is there now, and so never an older
/// one. A history without attacks is one of these.
pub fn maps_put_back_show_nothing_older()
    ensures shown { (h : History) (state : StoreState) (maps : Maps) (key : List ℕ) (flags : ℕ)
        (value : List ℕ) → IsHistoryUnderAttack h → Contains (all_states h) state
        → Finds h.constants state maps
        → view h.constants (present h) key ≡ Held flags value → is_mirrored flags ≡ true
        → ShowsNothingOlder h maps.primary key }
    ensures honest { (h : History) → IsHistory h → IsHistoryUnderAttack h }
{
    secure_record::laws::sealed_records_are_opened();
    secure_record::laws::sealed_records_have_their_form();
    secure_record::laws::records_have_one_reading();
    sealed_pair::laws::healing_completes_sets();
}

/// Every record of a history is a sealed one. So where two of one key have one tag, two different
/// messages have one CMAC.
pub fn one_tag_is_one_mac()
    ensures stood { (h : History) (key : List ℕ) → IsHistory h
        → HaveOneTag (HasHad h key) → HaveOneMac (root_of h) key }
    ensures attacked { (h : History) (key : List ℕ) → IsHistoryUnderAttack h
        → HaveOneTag (MayHaveHad h key) → HaveOneMac (root_of h) key }
{
    secure_record::laws::sealed_records_are_opened();
    secure_record::laws::sealed_records_have_their_form();
    secure_record::laws::records_have_one_reading();
    sealed_pair::laws::healing_completes_sets();
}

/// A legal history of one run, with the calls of its clients and its mounts, is a history: each
/// entry is an event, and a mount in a run goes on with the next number.
pub fn entries_are_events()
    ensures { (constants : Constants) (old new : StoreState) (entry : Entry)
        → IsSecure old → FollowsBy (secure_rules constants) old entry new
        → HasEvent constants old new }
{}

/// A number is taken once while numbers are fresh: two records of a key that have one number are
/// one record. So no two values of a key are enciphered with one key stream.
pub fn numbers_are_taken_once()
    ensures { (h : History) (key first second : List ℕ) (number : ℕ) → IsHistory h
        → HasHad h key first → HasNumber (root_of h) key first number
        → HasHad h key second → HasNumber (root_of h) key second number → first ≡ second }
{
    secure_record::laws::sealed_records_are_opened();
    secure_record::laws::sealed_records_have_their_form();
    secure_record::laws::records_have_one_reading();
    sealed_pair::laws::healing_completes_sets();
}

/// Why numbers must be fresh. Where a run takes a number again, a value may get the very record
/// that it had, and an old primary map with the record that replaced it is accepted: a mount takes
/// it for a set that was cut and completes it, so the old value is shown in place of the present
/// one.
pub fn a_number_taken_again_lets_an_old_map_in()
    ensures { (a : Attack) → IsPossible a
        → (view_of (secure_of a.constants).root (set_again a) a.key ≡ Held protected_flags a.first)
        × (mounted_view a.constants (copy_put_back a) a.key ≡ Held protected_flags a.second) }
{
    secure_record::laws::sealed_records_are_opened();
    secure_record::laws::sealed_records_have_their_form();
}
