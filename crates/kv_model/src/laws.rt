// Laws of the definitions, and facts that tie them to values worked out by hand. Each is a function
// with nothing to do: its contract is the law.
ghost use Rattle.std.specs.Prelude.{◌≡◌, ◌+◌, ◌*◌, ◌%◌, ◌<◌, ◌≤◌, ◌^◌, ◌++◌, [], ◌∷◌, ℕ, List, All, Some, codes};
ghost use Rattle.std.specs.Cmp.{IsTotalOrder};
ghost use Rattle.std.specs.FinMap.{empty};
ghost use Rattle.kv_model.specs.declared.call.Entry.{Entry};
ghost use Rattle.kv_model.specs.Crc.{crc_of, key_hash};
ghost use Rattle.base_core.specs.Units.{up};
ghost use Rattle.base_core.specs.Sizes.{record_size, master_size};
ghost use Rattle.kv_model.specs.Sizes.{room_of};
ghost use Rattle.kv_model.specs.KeyOrder.{key_order};
ghost use Rattle.kv_model.specs.StoreState.{Doubt, StoreState, fresh_state};
ghost use Rattle.kv_model.specs.Constants.{Constants};
ghost use Rattle.kv_model.specs.Rules.{Rules, Outcome, refuses, step};
ghost use Rattle.kv_model.specs.declared.error.KvError.TheVariants.{Stopped};
ghost use Rattle.kv_model.specs.History.{AreNumbered, Runs, Follows};
ghost use Rattle.kv_model.specs.Write.{Write, map_of};
ghost use Rattle.kv_model.specs.Writes.{IsOrdinary, NoRemoveBegun, writes};
ghost use Rattle.kv_model.specs.Limits.{HasRoom, IsPlain};
ghost use Rattle.kv_model.specs.Operations.{Operation};
ghost use Rattle.kv_model.specs.PlainStep.{plain_rules, plain_step};

/// The CRC is the complement of the usual CRC-32, whose published values these are, and hashes are
/// its low bits.
pub fn crc_values()
    ensures digits { crc_of (codes "123456789") ≡ 0x340B_C6D9 }
    ensures a { crc_of (codes "a") ≡ 0x1748_41BC }
    ensures b { crc_of (codes "b") ≡ 0x8E41_1006 }
    ensures c { crc_of (codes "c") ≡ 0xF946_2090 }
    ensures hashes_of_4_bits { (key_hash 4 (codes "a") ≡ 12) × (key_hash 4 (codes "b") ≡ 6)
        × (key_hash 4 (codes "c") ≡ 0) }
    ensures hashes_of_8_bits { (key_hash 8 (codes "a") ≡ 188) × (key_hash 8 (codes "b") ≡ 6)
        × (key_hash 8 (codes "c") ≡ 144) }
    ensures hash_of_no_bits { key_hash 0 (codes "a") ≡ 0 }
{}

/// Sizes of records, masters and rooms in bytes, worked out by hand.
pub fn record_sizes()
    ensures small { record_size 8 1 2 ≡ 32 }
    ensures masters { (master_size 8 ≡ 40) × (master_size 32 ≡ 64) × (master_size 1 ≡ 36) }
    ensures room { room_of 8 65536 ≡ 65496 }
    ensures largest { record_size 8 1 65471 ≡ 65496 }
    ensures too_large { record_size 8 1 65472 ≡ 65504 }
{}

/// Iterators give keys in a total order: no two keys tie.
pub fn key_order_is_total()
    ensures total { (hash_bits : ℕ) → IsTotalOrder (key_order hash_bits) }
{}

/// A history goes on by one entry that follows from its last state and has the next numbers.
pub fn history_goes_on()
    ensures runs { (rules : Rules) (old mid new : StoreState) (entries : List Entry) (entry : Entry)
        → Runs rules old entries mid → Follows rules mid entry new
        → Runs rules old (entries ++ entry ∷ []) new }
    ensures numbered { (entries : List Entry) (entry : Entry)
        → AreNumbered [] entries → AreNumbered entries (entry ∷ [])
        → AreNumbered [] (entries ++ entry ∷ []) }
{}

/// A plain store begins within the limits of a state, and every call, fault and mount keeps them.
pub fn limits_are_kept()
    ensures fresh { (next_vector : ℕ) → next_vector < 2 ^ 64
        → IsPlain (fresh_state empty empty next_vector) }
    ensures step { (constants : Constants) (state : StoreState) (who : ℕ) (operation : Operation)
        → IsPlain state → IsPlain (plain_step constants state who operation).state }
    ensures history { (constants : Constants) (old new : StoreState) (entry : Entry)
        → IsPlain old → Follows (plain_rules constants) old entry new → IsPlain new }
{}

/// What a plain store holds, and the set that is active with it, fits in the room, from an empty
/// store on and through every call, fault and mount.
pub fn room_is_kept()
    ensures fresh { (constants : Constants) (next_vector : ℕ)
        → HasRoom constants (fresh_state empty empty next_vector) }
    ensures step { (constants : Constants) (state : StoreState) (who : ℕ) (operation : Operation)
        → IsPlain state → HasRoom constants state
        → HasRoom constants (plain_step constants state who operation).state }
    ensures history { (constants : Constants) (old new : StoreState) (entry : Entry)
        → IsPlain old → HasRoom constants old → Follows (plain_rules constants) old entry new
        → HasRoom constants new }
{}

/// The records of a plain store, with those that a history writes behind them, stand for the map
/// that it leaves, where nothing is reset or mounted and no write fails.
pub fn writes_stand_for_the_map()
    ensures { (constants : Constants) (old new : StoreState)
        (records : List Write) (entries : List Entry)
        → IsPlain old → NoRemoveBegun old → All IsOrdinary entries
        → Runs (plain_rules constants) old entries new → old.primary ≡ map_of records
        → new.primary ≡ map_of (records ++ writes old.open_set entries) }
{}

/// A store that a failed write stopped answers each call so, and stands, until it is mounted.
pub fn a_stopped_store_refuses()
    ensures { (rules : Rules) (state : StoreState) (doubt : Doubt) (who : ℕ) (operation : Operation)
        → state.doubt ≡ Some doubt → step rules state who operation ≡ refuses state Stopped }
{}
