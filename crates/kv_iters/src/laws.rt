// Laws of the definitions. Each is a function with nothing to do: its contract is the law.
ghost use Rattle.std.specs.Prelude.{ℕ, List};
ghost use Rattle.kv_model.specs.StoreState.{StoreState};
ghost use Rattle.kv_iters.specs.Rows.{AdvancesAsTheModel, ClosesAsTheModel, OpensAsTheModel};

/// What the calls on iterators refuse and do is what the model of a store says of its calls on
/// iterators.
pub fn iterator_calls_are_those_of_the_model()
    ensures start { (state : StoreState) (who n : ℕ) (prefix : List ℕ)
        → OpensAsTheModel state who n prefix }
    ensures advance { (state : StoreState) (who n : ℕ) (key : List ℕ)
        → AdvancesAsTheModel state who n key }
    ensures end { (state : StoreState) (who n : ℕ) → ClosesAsTheModel state who n }
{}
