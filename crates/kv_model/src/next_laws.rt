// Laws of iterators. Each is a function with nothing to do: its contract is the law.
ghost use Rattle.std.specs.Prelude.{◌≡◌, ◌↔◌, ℕ, List, Option};
ghost use Rattle.kv_model.specs.FlaggedMap.{FlaggedMap};
ghost use Rattle.kv_model.specs.StoreState.{Position};
ghost use Rattle.kv_model.specs.NextKey.{next_key, IsNext};
ghost use Rattle.kv_model.specs.Rules.{Rules};
ghost use Rattle.kv_model.specs.Constants.{Constants};
ghost use Rattle.kv_model.specs.PlainStep.{plain_rules};
ghost use Rattle.kv_model.specs.Iterations.{SharesIterators, GivesNoKeyTwice, GivesEachKeyOnce};

/// The next key of an iterator is the one present key with its prefix that is above the key given
/// last and below every other such key, and there is none exactly where no such key is present.
pub fn next_key_is_least()
    ensures { (hash_bits : ℕ) (map : FlaggedMap) (position : Position) (found : Option (List ℕ))
        → IsNext hash_bits map position found ↔ (next_key hash_bits map position ≡ found) }
{}

/// In every legal history of a store that takes the shared rows of iterators, as the plain one
/// does: from an iterator's opening to its end, with no mount, close or new opening of it between,
/// each key with the prefix that was present throughout is answered exactly once, and none twice.
pub fn iterators_give_each_key_once()
    ensures plain { (constants : Constants)
        → SharesIterators constants.hash_bits (plain_rules constants) }
    ensures no_key_twice { (hash_bits : ℕ) (rules : Rules)
        → SharesIterators hash_bits rules → GivesNoKeyTwice rules }
    ensures each_key_once { (hash_bits : ℕ) (rules : Rules)
        → SharesIterators hash_bits rules → GivesEachKeyOnce rules }
{}
