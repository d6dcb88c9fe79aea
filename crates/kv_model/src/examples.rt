// Worked examples of the plain step, each computed from the definitions.
ghost use Rattle.std.specs.Prelude.{◌≡◌, ◌∷◌, [], codes};
ghost use Rattle.kv_model.specs.declared.call.Reply.TheVariants.{Done, Value, Facts, End, Refused};
ghost use Rattle.kv_model.specs.declared.error.KvError.TheVariants.{NotFound, InvalidFlags, InvalidSize, WriteProtected, MediaFull, TooManyIterators, NoIterator, SetOpen, NoSet, Busy};
ghost use Rattle.kv_model.specs.Operations.{Get, Part, Info, Set, Remove, Start, Add, Finish, OpenIterator, Next, CloseIterator};
ghost use Rattle.kv_model.specs.Examples.{example_store, empty_store, k, map_of_keys, position_behind, with_iterators};
ghost use Rattle.kv_model.specs.NextKey.{next_key};
ghost use Rattle.kv_model.specs.Replies.{plain_replies};

/// What is set is what a get gives.
pub fn set_then_get()
    ensures { plain_replies example_store empty_store (
        (1, Set k (0x00 ∷ 0xFF ∷ []) 0)
        ∷ (1, Get k)
        ∷ []
        ) ≡ Done ∷ Value (0x00 ∷ 0xFF ∷ []) ∷ [] }
{}

/// An empty value is a value, and can be read from its end on.
pub fn empty_value()
    ensures { plain_replies example_store empty_store (
        (1, Set k [] 0)
        ∷ (1, Get k)
        ∷ (1, Info k)
        ∷ (1, Part k 0 4)
        ∷ (1, Part k 1 1)
        ∷ []
        ) ≡ Done ∷ Value [] ∷ Facts 0 (record { bits = 0 }) ∷ Value [] ∷ Refused InvalidSize ∷ [] }
{}

/// A write-once key is not set again or removed, and a plain store has no confidentiality.
pub fn write_once()
    ensures { plain_replies example_store empty_store (
        (1, Set k (1 ∷ []) 1)
        ∷ (1, Set k (2 ∷ []) 0)
        ∷ (1, Remove k)
        ∷ (1, Get k)
        ∷ (1, Set (codes "j") (1 ∷ []) 2)
        ∷ (1, Get (codes "j"))
        ∷ []
        ) ≡ Done ∷ Refused WriteProtected ∷ Refused WriteProtected ∷ Value (1 ∷ [])
        ∷ Refused InvalidFlags ∷ Refused NotFound ∷ [] }
{}

/// A get beside an incremental set gives the old value until the set is finished.
pub fn get_beside_an_open_set()
    ensures { plain_replies example_store empty_store (
        (1, Set k (1 ∷ []) 0)
        ∷ (1, Start k 2 0)
        ∷ (1, Add (0xAA ∷ []))
        ∷ (2, Get k)
        ∷ (1, Add (0xBB ∷ []))
        ∷ (1, Finish)
        ∷ (2, Get k)
        ∷ []
        ) ≡ Done ∷ Done ∷ Done ∷ Value (1 ∷ []) ∷ Done ∷ Done ∷ Value (0xAA ∷ 0xBB ∷ []) ∷ [] }
{}

/// The refusals beside an incremental set, and the end of one whose bytes are missing.
pub fn refusals_beside_an_open_set()
    ensures { plain_replies example_store empty_store (
        (1, Set k (1 ∷ []) 0)
        ∷ (1, Start k 2 0)
        ∷ (2, Start (codes "j") 1 0)
        ∷ (1, Start k 1 0)
        ∷ (2, Add (0x00 ∷ []))
        ∷ (1, Add (0xAA ∷ 0xBB ∷ 0xCC ∷ []))
        ∷ (1, Add (0xAA ∷ []))
        ∷ (1, Finish)
        ∷ (2, Get k)
        ∷ (2, Set (codes "j") (5 ∷ []) 0)
        ∷ (2, Get (codes "j"))
        ∷ []
        ) ≡ Done ∷ Done ∷ Refused (Busy 1) ∷ Refused SetOpen ∷ Refused NoSet
        ∷ Refused InvalidSize ∷ Done ∷ Refused InvalidSize
        ∷ Value (1 ∷ []) ∷ Done ∷ Value (5 ∷ []) ∷ [] }
{}

/// An iterator gives the keys of the moment, in the order of their bytes where all hashes are
/// equal: b of b, d and f; and once d was removed and a and e were set, e, then f, and then no
/// more.
pub fn iterator_beside_changes()
    ensures first { next_key 0 (map_of_keys (codes "bdf"))
        (position_behind None) ≡ Some (codes "b") }
    ensures second { next_key 0 (map_of_keys (codes "abef"))
        (position_behind (Some (codes "b"))) ≡ Some (codes "e") }
    ensures third { next_key 0 (map_of_keys (codes "abef"))
        (position_behind (Some (codes "e"))) ≡ Some (codes "f") }
    ensures none { next_key 0 (map_of_keys (codes "abef"))
        (position_behind (Some (codes "f"))) ≡ None }
{}

/// Iterators are opened, read and closed by their numbers.
pub fn iterators_by_number()
    ensures { plain_replies example_store empty_store (
        (1, Next 0)
        ∷ (1, OpenIterator 0 [])
        ∷ (1, Next 0)
        ∷ (2, Next 0)
        ∷ (1, CloseIterator 0)
        ∷ (1, Next 0)
        ∷ []
        ) ≡ Refused NoIterator ∷ Done ∷ End ∷ Refused NoIterator ∷ Done ∷ Refused NoIterator ∷ [] }
{}

/// Of sixteen active iterators a further one is refused, and one of them can be opened anew.
pub fn sixteen_iterators()
    ensures { plain_replies example_store (with_iterators (
        0 ∷ 1 ∷ 2 ∷ 3 ∷ 4 ∷ 5 ∷ 6 ∷ 7 ∷ 8 ∷ 9 ∷ 10 ∷ 11 ∷ 12 ∷ 13 ∷ 14 ∷ 15 ∷ []
        )) (
        (1, OpenIterator 16 [])
        ∷ (2, OpenIterator 0 [])
        ∷ (1, OpenIterator 3 [])
        ∷ []
        ) ≡ Refused TooManyIterators ∷ Refused TooManyIterators ∷ Done ∷ [] }
{}

/// A set that the room does not hold is refused with both sizes.
pub fn full_store()
    ensures { plain_replies (record example_store { room = 32 }) empty_store (
        (1, Set k (1 ∷ 2 ∷ []) 0)
        ∷ (1, Set k (3 ∷ []) 0)
        ∷ []
        ) ≡ Done ∷ Refused (MediaFull 64 32) ∷ [] }
{}
