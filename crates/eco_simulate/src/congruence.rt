//! A linear congruential generator.

use std::marker::Model;

/// A linear congruential generator modulo 2^64, whose value is its state. The upper bits of its numbers look random, the
/// lower ones don't.
#[derive(Drop)]
pub struct Congruence {
    state: u64,
}

impl Model for Congruence {
    ghost use Rattle.std.specs.Prelude.{ℕ};

    ghost Value = { ℕ };

    ghost view = { λ draws. draws.state };
}

impl Congruence {
    ghost use Rattle.std.specs.Prelude.{◌≡◌, ◌+◌, ◌*◌, ◌^◌, ◌%◌};

    /// The generator with this seed.
    pub fn new(seed: u64) -> Congruence
        ensures { result ≡ seed }
    {
        Congruence { state: seed }
    }

    /// The next number, which is the next state too.
    pub fn next(&mut self) -> u64
        ensures state { self.new ≡ (self.old * 6364136223846793005 + 1442695040888963407) % 2 ^ 64 }
        ensures number { result ≡ self.new }
    {
        self.state = self
            .state
            .wrapping_mul(6_364_136_223_846_793_005)
            .wrapping_add(1_442_695_040_888_963_407);
        self.state
    }
}
