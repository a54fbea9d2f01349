// How failures are counted.
ghost use Rattle.std.specs.Prelude.{◌≡◌};
ghost use Rattle.dbsource.specs.Failures.{one_more};

use std::marker::Model;

/// How many calls failed, in 64 bits: after the greatest number comes 0.
#[derive(Drop)]
pub struct Failures {
    count: u64,
}

impl Model for Failures {
    ghost use Rattle.std.specs.Prelude.{ℕ};

    ghost Value = { ℕ };

    ghost view = { λ f. f.count };
}

impl Failures {
    /// No failure yet.
    pub fn new() -> Failures
        ensures { result ≡ 0 }
    {
        Failures { count: 0 }
    }

    /// Counts one more failure.
    pub fn add(&mut self)
        ensures { self.new ≡ one_more self.old }
    {
        self.count = self.count.wrapping_add(1);
    }
}
