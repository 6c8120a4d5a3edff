// How many workers a codec can use.
ghost use Rattle.std.specs.Prelude.{◌≡◌};

/// How many workers a codec's work on one array can be shared by.
#[derive(Debug, Clone, Copy, PartialEq, Eq)]
pub struct RecommendedConcurrency {
    maximum: usize,
}

impl Model for RecommendedConcurrency {
    ghost use Rattle.std.specs.Prelude.{ℕ};

    // the largest number of workers
    ghost Value = { ℕ };

    ghost view = { λ recommended. recommended.maximum };

    ghost inverse = { λ n. record { maximum = n } };
}

use std::marker::Model;

impl RecommendedConcurrency {
    /// From one worker to so many.
    pub fn new_maximum(maximum: usize) -> Self
        ensures { result ≡ maximum }
    {
        RecommendedConcurrency { maximum }
    }

    /// The smallest number of workers, 1.
    pub fn min(&self) -> usize
        ensures { result ≡ 1 }
    {
        1
    }

    /// The largest number of workers.
    pub fn max(&self) -> usize
        ensures { result ≡ self.now }
    {
        self.maximum
    }
}
