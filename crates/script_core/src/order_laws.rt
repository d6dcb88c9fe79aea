// Laws of the order of lines. Each is a function with nothing to do: its contract is the law.
ghost use Rattle.std.specs.Prelude.{◌≡◌, ◌++◌, ◌∷◌, [], List, length};
ghost use Rattle.kv_model.specs.declared.call.Entry.{Entry};
ghost use Rattle.script_core.specs.declared.line.Line.{Line};
ghost use Rattle.script_core.specs.LineOrder.{InOrder, Interleaves, IsCut, calls_of, line_for};

/// A history that has a script's calls in order also has each client's in order, and has as many
/// entries as the script has lines that are no cut. Both go on by one call, and over a cut.
pub fn entries_are_calls()
    ensures in_order { (entries : List Entry) (lines : List Line)
        → InOrder entries lines → Interleaves entries lines }
    ensures as_many { (entries : List Entry) (lines : List Line)
        → Interleaves entries lines → length entries ≡ length (calls_of lines) }
    ensures one_more_in_order { (entries : List Entry) (lines : List Line) (entry : Entry)
        → InOrder entries lines → InOrder (entries ++ entry ∷ []) (lines ++ line_for entry ∷ []) }
    ensures one_more { (entries : List Entry) (lines : List Line) (entry : Entry)
        → Interleaves entries lines
        → Interleaves (entries ++ entry ∷ []) (lines ++ line_for entry ∷ []) }
    ensures cut_in_order { (entries : List Entry) (lines : List Line) (cut : Line) → IsCut cut
        → InOrder entries lines → InOrder entries (lines ++ cut ∷ []) }
    ensures cut { (entries : List Entry) (lines : List Line) (cut : Line) → IsCut cut
        → Interleaves entries lines → Interleaves entries (lines ++ cut ∷ []) }
{}
