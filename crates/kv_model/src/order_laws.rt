// Laws of the order of lines. Each is a function with nothing to do: its contract is the law.
ghost use Rattle.std.specs.Prelude.{◌≡◌, ◌++◌, ◌∷◌, ◌==◌, [], false, List, length};
ghost use Rattle.kv_model.specs.declared.call.Entry.{Entry};
ghost use Rattle.kv_model.specs.declared.call.Call.TheVariants as call;
ghost use Rattle.kv_model.specs.OrderExamples.{example_entries};
ghost use Rattle.kv_model.specs.Orders.{Line, line_of, InOrder, Interleaves};

/// A history that has the lines in order also has each client's in order, and a history that has
/// each client's has as many entries as there are lines. Both go on by one line, and lines of two
/// clients may change places for the second.
pub fn entries_are_lines()
    ensures in_order { (entries : List Entry) (lines : List Line)
        → InOrder entries lines → Interleaves entries lines }
    ensures as_many { (entries : List Entry) (lines : List Line)
        → Interleaves entries lines → length entries ≡ length lines }
    ensures one_more_in_order { (entries : List Entry) (lines : List Line) (entry : Entry)
        → InOrder entries lines → InOrder (entries ++ entry ∷ []) (lines ++ line_of entry ∷ []) }
    ensures one_more { (entries : List Entry) (lines : List Line) (entry : Entry)
        → Interleaves entries lines
        → Interleaves (entries ++ entry ∷ []) (lines ++ line_of entry ∷ []) }
    ensures places { (entries : List Entry) (earlier : List Line) (a b : Line) (later : List Line)
        → (a.0 == b.0) ≡ false → Interleaves entries (earlier ++ (a ∷ b ∷ later))
        → Interleaves entries (earlier ++ (b ∷ a ∷ later)) }
{}

/// Entries of client 1, then 2, then 1 interleave with the lines of 2 and then those of 1, and have
/// not their order. Where 1 has its calls the other way round, or has one more, they don't.
pub fn two_clients()
    ensures interleaves { Interleaves example_entries
        ((2, call.Abort) ∷ (1, call.Finish) ∷ (1, call.Abort) ∷ []) }
    ensures in_order { InOrder example_entries
        ((1, call.Finish) ∷ (2, call.Abort) ∷ (1, call.Abort) ∷ []) }
    ensures not_in_order { InOrder example_entries
        ((2, call.Abort) ∷ (1, call.Finish) ∷ (1, call.Abort) ∷ []) → ⊥ }
    ensures not_turned { Interleaves example_entries
        ((2, call.Abort) ∷ (1, call.Abort) ∷ (1, call.Finish) ∷ []) → ⊥ }
    ensures not_more { Interleaves example_entries
        ((2, call.Abort) ∷ (1, call.Finish) ∷ []) → ⊥ }
{}
