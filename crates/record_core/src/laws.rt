// Laws of the definitions of records, and an example worked out by hand. Each is a function with
// nothing to do: its contract is the law.
ghost use Rattle.std.specs.Prelude.{◌≡◌, ◌≢◌, ◌⊎◌, ◌+◌, ◌-◌, ◌<◌, ◌≤◌, ◌^◌, ◌++◌, [], ◌∷◌, ℕ, List, length, slice_index, IsTrue, Option, Some, None};
ghost use Rattle.std.specs.FinMap as map;
ghost use Rattle.flash_core.specs.declared.geometry.Geometry.{Geometry};
ghost use Rattle.flash_core.specs.Images.{IsErased, part, put, Torn};
ghost use Rattle.kv_model.specs.FlaggedMap.{FlaggedMap};
ghost use Rattle.kv_model.specs.Flags.{remove_flags};
ghost use Rattle.kv_model.specs.Write.{Write, applied, map_of};
ghost use Rattle.kv_model.specs.Keys.{is_key};
ghost use Rattle.base_core.specs.Units.{up};
ghost use Rattle.base_core.specs.Sizes.{master_size};
ghost use Rattle.record_core.specs.Header.{IsHeader, IsValid, header_bytes};
ghost use Rattle.record_core.specs.declared.header.Header.{Header};
ghost use Rattle.record_core.specs.Log.{AreAllRecords, AreRecords, IsRecordAt, extent, spelling_of};
ghost use Rattle.record_core.specs.Mounts.{Contents, Holds, MasterAt, Mounts, Stand, reads_of};
ghost use Rattle.record_core.specs.Reading.{HasRecord, RecordAt};
ghost use Rattle.record_core.specs.Record.{IsMaster, IsRecord, header_of, master_bytes, record_bytes};

/// The bytes of a record, worked out by hand but for its CRC: program unit 8, key `a`, value
/// `00ff`.
pub fn record_example()
    ensures front { part (record_bytes 8 0 (97 ∷ []) (0 ∷ 255 ∷ [])) 0 20
        ≡ 0x4b ∷ 0x56 ∷ 0x52 ∷ 0x31 ∷ 24 ∷ 0 ∷ 1 ∷ 0 ∷ 0 ∷ 0 ∷ 0 ∷ 0 ∷ 1 ∷ 0 ∷ 0 ∷ 0 ∷ 2 ∷ 0 ∷ 0 ∷ 0
        ∷ [] }
    ensures payload { part (record_bytes 8 0 (97 ∷ []) (0 ∷ 255 ∷ [])) 24 8
        ≡ 0x61 ∷ 0 ∷ 255 ∷ 255 ∷ 255 ∷ 255 ∷ 255 ∷ 255 ∷ [] }
    ensures size { length (record_bytes 8 0 (97 ∷ []) (0 ∷ 255 ∷ [])) ≡ 32 }
{}

/// At a place stands at most one record, no record's spelling is a proper prefix of another's, the
/// spelling of a header has its sizes and flags, and a master record has one version.
pub fn records_are_unambiguous()
    ensures one_record { (prog : ℕ) (image : List ℕ) (place : ℕ) (r s : Write) → 1 ≤ prog
        → IsRecordAt prog image place r → IsRecordAt prog image place s → r ≡ s }
    ensures no_prefix { (prog : ℕ) (r s : Write) (front rest : List ℕ) → 1 ≤ prog
        → IsRecord prog r.flags r.key r.value front
        → IsRecord prog s.flags s.key s.value (front ++ rest) → rest ≡ [] }
    ensures one_header { (a b : Header) → IsValid a → IsValid b → header_bytes a ≡ header_bytes b
        → (a.flags ≡ b.flags) × (a.key_size ≡ b.key_size) × (a.value_size ≡ b.value_size) }
    ensures one_master { (prog : ℕ) (bytes : List ℕ) (v w : ℕ) → 1 ≤ prog → IsMaster prog v bytes
        → IsMaster prog w bytes → v ≡ w }
{}

/// A record or a master record that was programmed stands, at its place, and where the first byte
/// is erased neither does.
pub fn records_stand_where_programmed()
    ensures log_record { (prog : ℕ) (image : List ℕ) (place : ℕ) (r : Write) → 1 ≤ prog
        → IsTrue (is_key r.key) → IsHeader r.flags (length r.key) (length r.value)
        → place + extent prog r ≤ length image
        → IsRecordAt prog (put image place (spelling_of prog r)) place r }
    ensures master { (prog : ℕ) (image : List ℕ) (area version : ℕ) → 1 ≤ prog → version < 2 ^ 16
        → area + master_size prog ≤ length image
        → IsMaster prog version (part (put image area (master_bytes prog version)) area
        (master_size prog)) }
    ensures no_record { (prog : ℕ) (image : List ℕ) (place : ℕ) (r : Write) → 1 ≤ prog
        → slice_index image place ≡ 255 → IsRecordAt prog image place r → ⊥ }
    ensures no_master { (prog : ℕ) (image : List ℕ) (area version : ℕ) → 1 ≤ prog
        → slice_index image area ≡ 255 → IsMaster prog version (part image area (master_size prog))
        → ⊥ }
{}

/// What a reader may answer is one thing, whatever bytes stand there. Of a record or a master
/// record that was programmed it is the header and the key, or the version; where the first byte is
/// erased it is nothing.
pub fn readers_have_one_answer()
    ensures one_header { (prog : ℕ) (image : List ℕ) (place end : ℕ) (key other : List ℕ)
        (a b : Option Header) → 1 ≤ prog
        → RecordAt prog image place end key a → RecordAt prog image place end other b → a ≡ b }
    ensures one_key { (prog : ℕ) (image : List ℕ) (place end : ℕ) (key other : List ℕ)
        (a b : Header) → 1 ≤ prog
        → HasRecord prog image place end key a → HasRecord prog image place end other b
        → key ≡ other }
    ensures one_version { (prog : ℕ) (image : List ℕ) (area : ℕ) (a b : Option ℕ) → 1 ≤ prog
        → MasterAt prog image area a → MasterAt prog image area b → a ≡ b }
    ensures programmed { (prog : ℕ) (image : List ℕ) (place end : ℕ) (r : Write) (key : List ℕ)
        (found : Option Header) → 1 ≤ prog
        → IsTrue (is_key r.key) → IsHeader r.flags (length r.key) (length r.value)
        → place + extent prog r ≤ end → end ≤ length image
        → RecordAt prog (put image place (spelling_of prog r)) place end key found
        → found ≡ Some (header_of r.flags r.key r.value) }
    ensures master { (prog : ℕ) (image : List ℕ) (area version : ℕ) (found : Option ℕ) → 1 ≤ prog
        → version < 2 ^ 16
        → area + master_size prog ≤ length image
        → MasterAt prog (put image area (master_bytes prog version)) area found
        → found ≡ Some version }
    ensures erased { (prog : ℕ) (image : List ℕ) (place end : ℕ) (key : List ℕ)
        (found : Option Header) → 1 ≤ prog
        → slice_index image place ≡ 255 → RecordAt prog image place end key found → found ≡ None }
    ensures erased_master { (prog : ℕ) (image : List ℕ) (area : ℕ) (found : Option ℕ) → 1 ≤ prog
        → slice_index image area ≡ 255 → MasterAt prog image area found → found ≡ None }
{}

/// Records one behind another go on by more, stay where a range before or behind them is written or
/// torn, and are all where the rest is erased. The header, the key and the value of each are parts
/// of the image.
pub fn records_go_on()
    ensures append { (prog : ℕ) (image : List ℕ) (place mid end : ℕ) (rs ss : List Write)
        → AreRecords prog image place mid rs → AreRecords prog image mid end ss
        → AreRecords prog image place end (rs ++ ss) }
    ensures stay { (prog : ℕ) (range size : ℕ) (old new : List ℕ) (place end : ℕ) (rs : List Write)
        → 1 ≤ prog
        → Torn range size old new → (end ≤ range) ⊎ (range + size ≤ place)
        → AreRecords prog old place end rs → AreRecords prog new place end rs }
    ensures all { (prog : ℕ) (image : List ℕ) (place limit end : ℕ) (rs : List Write) → 1 ≤ prog
        → AreRecords prog image place end rs
        → end ≤ limit → IsErased image end (limit - end)
        → AreAllRecords prog image place limit end rs }
    ensures header { (prog : ℕ) (image : List ℕ) (place : ℕ) (r : Write) → 1 ≤ prog
        → IsRecordAt prog image place r
        → part image place 24 ≡ header_bytes (header_of r.flags r.key r.value) }
    ensures key { (prog : ℕ) (image : List ℕ) (place : ℕ) (r : Write) → 1 ≤ prog
        → IsRecordAt prog image place r → part image (place + up prog 24) (length r.key) ≡ r.key }
    ensures value { (prog : ℕ) (image : List ℕ) (place : ℕ) (r : Write) → 1 ≤ prog
        → IsRecordAt prog image place r
        → part image (place + (up prog 24 + length r.key)) (length r.value) ≡ r.value }
{}

/// The map of no records is empty. One record more gives its key its flags and value, or takes the
/// key out, and changes no other key.
pub fn last_record_decides()
    ensures none { map_of [] ≡ map.empty }
    ensures append { (rs : List Write) (r : Write) → map_of (rs ++ r ∷ []) ≡ applied r (map_of rs) }
    ensures stored { (m : FlaggedMap) (r : Write) → r.flags ≢ remove_flags
        → map.get (applied r m) r.key ≡ Some (record { flags = r.flags; bytes = r.value }) }
    ensures removed { (m : FlaggedMap) (r : Write) → r.flags ≡ remove_flags
        → map.get (applied r m) r.key ≡ None }
    ensures others { (m : FlaggedMap) (r : Write) (key : List ℕ) → key ≢ r.key
        → map.get (applied r m) key ≡ map.get m key }
{}

/// An image holds one thing, and mounts to one map. Each master and record that mounting reads
/// stands at its place.
pub fn mounts_once()
    ensures contents { (g : Geometry) (image : List ℕ) (a b : Contents) → 1 ≤ g.prog
        → Holds g image a → Holds g image b → a ≡ b }
    ensures map { (g : Geometry) (image : List ℕ) (m n : FlaggedMap) → 1 ≤ g.prog → Mounts g image m
        → Mounts g image n → m ≡ n }
    ensures reads { (g : Geometry) (image : List ℕ) (contents : Contents) → 1 ≤ g.prog
        → Holds g image contents → Stand image (reads_of g contents) }
{}
