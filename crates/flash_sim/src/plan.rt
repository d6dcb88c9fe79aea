// Device calls of one kind that are named to fail.
ghost use Rattle.std.specs.Prelude.{◌≡◌};
ghost use Rattle.flash_sim.specs.Plan.{after_call, after_fault, is_named, names, no_plan};

use std::marker::Model;

/// The calls that are named to fail, and the counts.
#[derive(Drop)]
pub struct Plan {
    named: Option<Vec<u32>>,
    next: u64,
    faults: u64,
}

impl Model for Plan {
    ghost use Rattle.flash_sim.specs.Plan.{PlanState, numbers_of};

    ghost Value = { PlanState };

    ghost view = { λ p. record {
      named = numbers_of (λ v. v.items) p.named;
      next = p.next;
      faults = p.faults;
    } };
}

// Whether the number is one of these.
fn has(named: &[u32], number: u64) -> bool
    ensures { result ≡ names named.now number }
{
    for first in named {
        if u64::from(*first) == number {
            return true;
        }
    }
    false
}

impl Plan {
    /// No call is named, and none has failed.
    pub fn new() -> Plan
        ensures { result ≡ no_plan }
    {
        Plan {
            named: None,
            next: 1,
            faults: 0,
        }
    }

    /// Names the calls from now that fail, counted from 1.
    pub fn name(&mut self, named: Vec<u32>)
        ensures { self.new ≡ record self.old { named = named.items; next = 1 } }
    {
        self.named = Some(named);
        self.next = 1;
    }

    /// Counts a call. The answer is whether it is named.
    #[tactic(auto, unfolding(crate::specs::Plan::names))]
    pub fn count(&mut self) -> bool
        ensures named { result ≡ is_named self.old }
        ensures counted { self.new ≡ after_call self.old }
    {
        let is_named = match &self.named {
            Some(named) => has(named, self.next),
            None => false,
        };
        self.next = self.next.saturating_add(1);
        is_named
    }

    /// Counts a fault.
    pub fn fail(&mut self)
        ensures { self.new ≡ after_fault self.old }
    {
        self.faults = self.faults.saturating_add(1);
    }
}
