// The options of a call, and those of one codec.
ghost use Rattle.std.specs.Prelude.{◌≡◌, max, Some, None, MatchOption};

use std::marker::Model;

/// What a caller asks of a codec's calls beside their arguments.
#[derive(Debug, Clone, Copy, PartialEq, Eq)]
pub struct CodecOptions {
    concurrent_target: usize,
}

impl Model for CodecOptions {
    ghost use Rattle.std.specs.Prelude.{ℕ};

    // how many workers a worker call may use
    ghost Value = { ℕ };

    ghost view = { λ options. options.concurrent_target };

    ghost inverse = { λ n. record { concurrent_target = n } };
}

impl Default for CodecOptions {
    ghost use Rattle.std.specs.Prelude.{◌≡◌};

    ghost is_default = { λ options. options ≡ 1 };

    /// One worker.
    fn default() -> Self {
        CodecOptions {
            concurrent_target: 1,
        }
    }
}

impl CodecOptions {
    /// The same options with another number of workers, where 0 counts as 1.
    pub fn with_concurrent_target(self, concurrent_target: usize) -> Self
        ensures { result ≡ max concurrent_target 1 }
    {
        CodecOptions {
            concurrent_target: concurrent_target.max(1),
        }
    }

    /// How many workers a worker call may use.
    pub fn concurrent_target(&self) -> usize
        ensures { result ≡ self.now }
    {
        self.concurrent_target
    }
}

/// Options of type `S` that one codec takes beside those of every call, or none.
#[derive(Drop)]
pub struct CodecSpecificOptions<S> {
    option: Option<S>,
}

impl<S> Model for CodecSpecificOptions<S> {
    ghost use Rattle.std.specs.Prelude.{Option};

    // the options, where there are any
    ghost Value = { Option S };

    ghost view = { λ options. options.option };

    ghost inverse = { λ option. record { option = option } };
}

impl<S> Default for CodecSpecificOptions<S> {
    ghost use Rattle.std.specs.Prelude.{◌≡◌, None};

    ghost is_default = { λ options. options ≡ None };

    /// None.
    fn default() -> Self {
        CodecSpecificOptions { option: None }
    }
}

impl<S: Drop> CodecSpecificOptions<S> {
    /// These options instead.
    pub fn with_option(self, option: S) -> Self
        ensures { result ≡ Some option }
    {
        CodecSpecificOptions {
            option: Some(option),
        }
    }
}

impl<S> CodecSpecificOptions<S> {
    /// The options, where there are any.
    pub fn get_option(&self) -> Option<&S>
        ensures { MatchOption result (self.now ≡ None) (λ option. self.now ≡ Some option.now) }
    {
        self.option.as_ref()
    }
}
