// Laws of the grammar. Each is a function with nothing to do: its contract is the law.
ghost use Rattle.std.specs.Prelude.{◌≡◌, ℕ, List, [], ◌∷◌, ◌++◌};
ghost use Rattle.std.specs.List.{AllByRecursion, flat_map};
ghost use Rattle.script_core.specs.declared.line.Line.{Line};
ghost use Rattle.script_core.specs.declared.script.ScriptMode.{ScriptMode};
ghost use Rattle.script_core.specs.Grammar.{lines_of, HasNoLineFeed, Spells, IsScript};

/// A text is its lines, each followed by a line feed, where the last one's may be missing. A text
/// that ends in a line feed has an empty line behind it, which is skipped.
pub fn lines_end_in_line_feeds()
    ensures { (lines : List (List ℕ)) (last : List ℕ) → AllByRecursion HasNoLineFeed lines →
        HasNoLineFeed last
        → lines_of (flat_map (λ line. line ++ 10 ∷ []) lines ++ last) ≡ lines ++ last ∷ [] }
{}

/// No line spells two lines of a script.
pub fn a_line_has_one_reading()
    ensures { (text : List ℕ) (a b : Line) → Spells text a → Spells text b → a ≡ b }
{}

/// No text is two scripts.
pub fn a_text_has_one_reading()
    ensures { (mode : ScriptMode) (text : List ℕ) (a b : List Line) → IsScript mode text a →
        IsScript mode text b → a ≡ b }
{}
