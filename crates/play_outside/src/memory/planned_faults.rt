//! Faults that are planned by the numbers of calls.
ghost use Rattle.std.specs.Prelude.{◌≡◌, ◌==◌};
ghost use Rattle.std.specs.List.{list_any};
ghost use Rattle.play_outside.specs.Faults.{one_more};

/// The numbers of the calls that are to fail, counted from 1, and how many calls and faults there were.
#[derive(Drop)]
pub struct PlannedFaults {
    pub at_calls: Vec<u64>,
    pub calls: u64,
    pub count: u64,
}

impl PlannedFaults {
    /// Plans a fault at each call of these numbers, before the first call.
    pub fn new(at_calls: Vec<u64>) -> PlannedFaults
        ensures { result ≡ record { at_calls = at_calls; calls = 0; count = 0 } }
    {
        PlannedFaults {
            at_calls,
            calls: 0,
            count: 0,
        }
    }

    /// Counts a call, and returns whether it is to fail.
    pub fn fails_now(&mut self) -> bool
        ensures answer { result ≡ list_any (λ number. number == self.new.calls) self.old.at_calls.items }
        ensures after { self.new ≡ record self.old { calls = one_more self.old.calls } }
    {
        self.calls = self.calls.saturating_add(1);
        self.at_calls.as_slice().contains(&self.calls)
    }

    /// Counts a fault.
    pub fn raise(&mut self)
        ensures { self.new ≡ record self.old { count = one_more self.old.count } }
    {
        self.count = self.count.saturating_add(1);
    }
}
