// Laws of the words. Each is a function with nothing to do: its contract is the law.
ghost use Rattle.std.specs.Prelude.{◌≡◌, ◌≤◌, List, ℕ, [], ◌∷◌, ◌++◌, length, false, IsTrue, codes};
ghost use Rattle.command_words.specs.declared.option_name.OptionName.{OptionName};
ghost use Rattle.command_words.specs.Commands.{Command, Replay, Means, options_for, plain_session};
ghost use Rattle.command_words.specs.Items.{Given, Word, is_among, option_word, takes_value, is_plain};
ghost use Rattle.command_words.specs.Items.{session_options, items_of, all_known, values_of};

/// No words are two commands.
pub fn words_have_one_meaning()
    ensures { (words : List (List ℕ)) (a b : Command) → Means words a → Means words b → a ≡ b }
{}

/// How an option of `run` and `replay` may stand: with its value in the next word, with its value
/// behind `=`, or as a flag.
pub fn options_have_these_forms()
    ensures apart { (option : OptionName) (value : List ℕ) (words : List (List ℕ))
        → IsTrue (takes_value option) → IsTrue (is_plain value)
        → items_of session_options (option_word option ∷ value ∷ words)
        ≡ Given option value ∷ items_of session_options words }
    ensures together { (option : OptionName) (value : List ℕ) (words : List (List ℕ))
        → IsTrue (takes_value option)
        → items_of session_options ((option_word option ++ codes "=" ++ value) ∷ words)
        ≡ Given option value ∷ items_of session_options words }
    ensures flag { (option : OptionName) (words : List (List ℕ)) → takes_value option ≡ false
        → items_of session_options (option_word option ∷ words)
        ≡ Given option [] ∷ items_of session_options words }
    ensures other { (word : List ℕ) (words : List (List ℕ)) → IsTrue (is_plain word)
        → items_of session_options (word ∷ words) ≡ Word word ∷ items_of session_options words }
{}

/// An option that is moved past another word, from anywhere to anywhere, changes no meaning.
pub fn options_stand_anywhere()
    ensures on { (name other : List ℕ) (front given back : List (List ℕ)) (option : OptionName)
        (value : List ℕ) (command : Command)
        → IsTrue (all_known (items_of (options_for command) front))
        → items_of (options_for command) given ≡ Given option value ∷ []
        → IsTrue (is_plain other) → Means (name ∷ (front ++ given ++ other ∷ back)) command
        → Means (name ∷ (front ++ other ∷ given ++ back)) command }
    ensures back { (name other : List ℕ) (front given back : List (List ℕ)) (option : OptionName)
        (value : List ℕ) (command : Command)
        → IsTrue (all_known (items_of (options_for command) front))
        → items_of (options_for command) given ≡ Given option value ∷ []
        → IsTrue (is_plain other) → Means (name ∷ (front ++ other ∷ given ++ back)) command
        → Means (name ∷ (front ++ given ++ other ∷ back)) command }
{}

/// Words in which an option or a flag of the command stands twice mean nothing, and nor do words
/// with `--`.
pub fn wrong_words_mean_nothing()
    ensures twice { (name : List ℕ) (words : List (List ℕ)) (option : OptionName)
        (command : Command) → IsTrue (is_among (options_for command) option)
        → Means (name ∷ words) command
        → length (values_of option (items_of (options_for command) words)) ≤ 1 }
    ensures dashes { (name : List ℕ) (front back : List (List ℕ)) (command : Command)
        → Means (name ∷ (front ++ codes "--" ∷ back)) command → ⊥ }
{}

/// Without any option a replay is plain, with the default of each.
pub fn options_have_defaults()
    ensures { (primary script : List ℕ) → IsTrue (is_plain primary) → IsTrue (is_plain script)
        → Means (codes "replay" ∷ primary ∷ codes "-" ∷ script ∷ [])
        (Replay (plain_session primary script)) }
{}
