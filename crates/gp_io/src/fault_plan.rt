//! Which calls of a shelf or a sink in memory fail.
ghost use Rattle.std.specs.Prelude.{◌≡◌, ◌+◌, ◌-◌, ◌^◌, ◌↔◌, min, IsTrue};
ghost use Rattle.std.specs.List.{Contains};

/// The number of calls made, and the numbers of the calls that fail, from 1 on.
#[derive(Drop)]
pub(crate) struct FaultPlan {
    made: u64,
    fail_at: Vec<u64>,
}

impl FaultPlan {
    /// A plan before the first call.
    pub(crate) fn new(fail_at: Vec<u64>) -> FaultPlan
        ensures made { result.made ≡ 0 }
        ensures fail_at { result.fail_at ≡ fail_at }
    {
        FaultPlan { made: 0, fail_at }
    }

    /// Counts one more call, up to the greatest `u64`, and answers whether it fails.
    pub(crate) fn next_fails(&mut self) -> bool
        ensures counted { self.new.made ≡ min (self.old.made + 1) (2 ^ 64 - 1) }
        ensures fails { IsTrue result ↔ Contains self.old.fail_at.items self.new.made }
        ensures fail_at { self.new.fail_at ≡ self.old.fail_at }
    {
        self.made = self.made.saturating_add(1);
        self.fail_at.contains(&self.made)
    }
}
