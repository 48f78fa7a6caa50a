ghost use Rattle.std.specs.Prelude.{◌≡◌};
ghost use Rattle.hj_base.specs.Lcg.{next, drawn};

use std::marker::Model;

/// Numbers that a seed determines: a linear congruential generator of 64 bits, whose upper 31 bits are given out (the
/// multiplier and the increment are those of Knuth's MMIX; The Art of Computer Programming, volume 2, section 3.3.4).
/// Seen as the number that it holds.
#[derive(Debug, Drop)]
pub struct Lcg {
    held: u64,
}

impl Model for Lcg {
    ghost use Rattle.std.specs.Prelude.{ℕ};

    ghost Value = { ℕ };

    ghost view = { λ lcg. lcg.held };
}

impl Lcg {
    /// Makes the generator that begins with this seed.
    pub fn new(seed: u64) -> Self
        ensures { result ≡ seed }
    {
        Lcg { held: seed }
    }

    /// Returns the next number, below 2^31.
    pub fn draw(&mut self) -> u64
        ensures number { result ≡ drawn self.new }
        ensures held { self.new ≡ next self.old }
    {
        self.held = self
            .held
            .wrapping_mul(6_364_136_223_846_793_005)
            .wrapping_add(1_442_695_040_888_963_407);
        self.held >> 33
    }
}
