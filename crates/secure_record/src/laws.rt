//! What the definitions of sealed records mean together.
ghost use Rattle.std.specs.Prelude.{◌≡◌, ◌<◌, ◌≤◌, ◌-◌, ◌^◌, ℕ, List, length, take, drop, IsTrue, Option, Some, None};
ghost use Rattle.kv_model.specs.Flags.{is_secure_flags};
ghost use Rattle.secure_record.specs.Metadata.{metadata_of, record_size, HasPrior, IsMetadata};
ghost use Rattle.secure_record.specs.Sealed.{record_tag, seal, seal1, sealed, sealed_vector, sealed_vector1, stored};
ghost use Rattle.secure_record.specs.Unseal.{unseal, IsInParts, Opened, WasSealed};
ghost use Rattle.secure_record.specs.declared.metadata.Metadata.{Metadata};
ghost use Rattle.secure_record.specs.declared.metadata.Revision.TheVariants.{Second};

/// What is sealed opens to the same flags and value under the same key, in either revision. The
/// vector is the number of the seal; it is zero in revision 2 without flags, and in revision 1
/// where the value isn't confidential.
pub fn sealed_records_are_opened()
    ensures second { (root key : List ℕ) (flags iv : ℕ) (prior : Option (List ℕ)) (value : List ℕ)
        → IsTrue (is_secure_flags flags) → iv < 2 ^ 64 → HasPrior Second prior
        → length value ≤ 65536
        → unseal root key (seal root key flags iv prior value)
        ≡ Some (record { flags = flags; vector = sealed_vector flags iv; value = value }) }
    ensures first { (root key : List ℕ) (flags iv : ℕ) (value : List ℕ)
        → IsTrue (is_secure_flags flags) → iv < 2 ^ 64 → length value ≤ 65536
        → unseal root key (seal1 root key flags iv value)
        ≡ Some (record { flags = flags; vector = sealed_vector1 flags iv; value = value }) }
{
    cipher_core::laws::cmacs_have_sixteen_bytes();
}

/// What opens was sealed for that key: it is the record of its flags, vector and value in one of
/// the two revisions.
pub fn opened_records_were_sealed()
    ensures { (root key bytes : List ℕ) (o : Opened) → unseal root key bytes ≡ Some o
        → WasSealed root key bytes o }
{}

/// A record is read in one way: two records with the same bytes have the same metadata, its
/// revision included, and the same value.
pub fn records_have_one_reading()
    ensures { (root key : List ℕ) (m n : Metadata) (v w : List ℕ)
        → IsMetadata m → IsMetadata n → length v ≡ m.size → length w ≡ n.size
        → sealed root key m v ≡ sealed root key n w → (m ≡ n) × (v ≡ w) }
{
    cipher_core::laws::cmacs_have_sixteen_bytes();
}

/// Bytes with metadata are that, the stored bytes and a tag; bytes without metadata seal nothing.
pub fn metadata_divides_records()
    ensures parts { (bytes : List ℕ) (m : Metadata)
        → metadata_of (take 40 bytes) (length bytes) ≡ Some m → IsInParts bytes m }
    ensures none { (root key bytes : List ℕ)
        → metadata_of (take 40 bytes) (length bytes) ≡ None → unseal root key bytes ≡ None }
{}

/// A record begins with its metadata and has the size that this says; its last 16 bytes are its
/// CMAC.
pub fn sealed_records_have_their_form()
    ensures size { (root key : List ℕ) (m : Metadata) (value : List ℕ)
        → IsMetadata m → length value ≡ m.size
        → length (sealed root key m value) ≡ record_size m }
    ensures tag { (root key : List ℕ) (m : Metadata) (value : List ℕ)
        → drop (length (sealed root key m value) - 16) (sealed root key m value)
        ≡ record_tag root key m (stored root key m.flags m.vector value) }
    ensures metadata { (root key : List ℕ) (m : Metadata) (value : List ℕ)
        → IsMetadata m → length value ≡ m.size
        → metadata_of (take 40 (sealed root key m value)) (length (sealed root key m value))
        ≡ Some m }
{
    cipher_core::laws::cmacs_have_sixteen_bytes();
}
