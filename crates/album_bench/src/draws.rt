//! Pseudo-random draws, which a seed determines.
use rand_core::Rng;
use rand_pcg::Pcg32;

/// One of the sequences of the generator: any would do.
const SEQUENCE: u64 = 0;

#[derive(Drop)]
pub struct Draws {
    generator: Pcg32,
}

impl Draws {
    pub fn new(seed: u64) -> Draws {
        Draws {
            generator: Pcg32::new(seed, SEQUENCE),
        }
    }

    /// A number below the bound, and 0 where the bound is.
    pub fn below(&mut self, bound: u64) -> u64 {
        self.generator.next_u64() % bound.max(1)
    }
}

/// A number that looks as if drawn, and is always the same of this one.
pub fn spread(number: u64) -> u64 {
    number.wrapping_mul(11_400_714_819_323_198_485) >> 33
}
