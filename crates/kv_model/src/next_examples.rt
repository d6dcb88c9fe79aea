// Worked examples of iterators, each computed from the definitions.
ghost use Rattle.std.specs.Prelude.{◌≡◌, ◌∷◌, ◌++◌, [], Some, None, codes};
ghost use Rattle.kv_model.specs.declared.call.Reply.TheVariants.{Done, Found, End, Refused};
ghost use Rattle.kv_model.specs.declared.error.KvError.TheVariants.{NoIterator};
ghost use Rattle.kv_model.specs.Operations.{Set, Remove, OpenIterator, Next, CloseIterator};
ghost use Rattle.kv_model.specs.Replies.{plain_replies};
ghost use Rattle.kv_model.specs.Examples.{example_store, empty_store, map_of_keys};
ghost use Rattle.kv_model.specs.IteratorExamples.{map_of_names, begins_with, given, one_hash_store, with_two_keys, opening, during, ending, opened, gave_a, without_c};
ghost use Rattle.kv_model.specs.PlainStep.{plain_rules};
ghost use Rattle.kv_model.specs.History.{PassesThrough};
ghost use Rattle.kv_model.specs.Iterations.{Ends, Passes, IsIteration, turn_of, turns_of, keys_given, times_given};

/// The keys a, b and c come in the order of the low bits of their CRCs, 174841BC, 8E411006 and
/// F9462090: by 4 bits c, b and a, by 8 bits b, c and a, and by all bits or none a, b and c.
pub fn hash_bits_order_keys()
    ensures of_4 { given 4 (map_of_keys (codes "abc")) (begins_with []) 4
        ≡ Some (codes "c") ∷ Some (codes "b") ∷ Some (codes "a") ∷ None ∷ [] }
    ensures of_8 { given 8 (map_of_keys (codes "abc")) (begins_with []) 4
        ≡ Some (codes "b") ∷ Some (codes "c") ∷ Some (codes "a") ∷ None ∷ [] }
    ensures of_32 { given 32 (map_of_keys (codes "abc")) (begins_with []) 4
        ≡ Some (codes "a") ∷ Some (codes "b") ∷ Some (codes "c") ∷ None ∷ [] }
    ensures of_0 { given 0 (map_of_keys (codes "abc")) (begins_with []) 4
        ≡ Some (codes "a") ∷ Some (codes "b") ∷ Some (codes "c") ∷ None ∷ [] }
{}

/// An iterator over a prefix gives the keys that begin with it, one that is the prefix itself
/// first, and no other.
pub fn prefix_limits_keys()
    ensures within { given 0
        (map_of_names (codes "kb" ∷ codes "j" ∷ codes "k" ∷ codes "l" ∷ []))
        (begins_with (codes "k")) 3 ≡ Some (codes "k") ∷ Some (codes "kb") ∷ None ∷ [] }
    ensures none { given 0 (map_of_keys (codes "jl")) (begins_with (codes "k")) 1 ≡ None ∷ [] }
{}

/// With all hashes equal, while d is removed and a and e are set: b, then e and f, and then the
/// end, as often as it is asked for.
pub fn iterator_with_equal_hashes()
    ensures { plain_replies (record example_store { hash_bits = 0 }) empty_store (
        (1, Set (codes "b") (0x00 ∷ []) 0)
        ∷ (1, Set (codes "d") (0x00 ∷ []) 0)
        ∷ (1, Set (codes "f") (0x00 ∷ []) 0)
        ∷ (1, OpenIterator 0 [])
        ∷ (1, Next 0)
        ∷ (1, Remove (codes "d"))
        ∷ (1, Set (codes "a") (0x00 ∷ []) 0)
        ∷ (1, Set (codes "e") (0x00 ∷ []) 0)
        ∷ (1, Next 0)
        ∷ (1, Next 0)
        ∷ (1, Next 0)
        ∷ (1, Next 0)
        ∷ (1, CloseIterator 0)
        ∷ (1, Next 0)
        ∷ []
        ) ≡ Done ∷ Done ∷ Done ∷ Done ∷ Found (codes "b") ∷ Done ∷ Done ∷ Done
        ∷ Found (codes "e") ∷ Found (codes "f") ∷ End ∷ End ∷ Done ∷ Refused NoIterator ∷ [] }
{}

/// A history with an iteration to its end, in which one key is given and one is taken away.
pub fn iteration_in_a_history()
    ensures passes { PassesThrough (plain_rules one_hash_store) with_two_keys
        (opening ∷ during ++ ending ∷ []) (opened ∷ gave_a ∷ without_c ∷ without_c ∷ []) }
    ensures iteration { IsIteration 1 0 [] opening during }
    ensures ends { turn_of 1 0 ending ≡ Ends }
    ensures given { keys_given (turns_of 1 0 during) ≡ codes "a" ∷ [] }
    ensures once { times_given (codes "a") (turns_of 1 0 during) ≡ 1 }
    ensures other { turns_of 2 0 during ≡ Passes ∷ Passes ∷ [] }
{}
