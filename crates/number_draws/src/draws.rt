ghost use Rattle.std.specs.Prelude.{◌≡◌, ◌-◌, ◌+◌, ◌<◌, ◌≤◌, ◌^◌, length};
ghost use Rattle.std.specs.List.Sorted.{IsPermutation};
ghost use Rattle.number_draws.specs.Words.{seeded, beyond};
ghost use Rattle.number_draws.specs.Draws.{random_of, nu_rand_of, shuffled};

use rand_core::SeedableRng;
use rand_core::utils::NextWord;
use rand_pcg::Pcg64;
use std::marker::Model;

/// The numbers of one seed, in the order in which they are drawn. Each is computed from one or more
/// words of a generator. The same seed gives the same numbers.
#[derive(Drop)]
pub struct NumberDraws {
    generator: Pcg64,
}

impl Model for NumberDraws {
    ghost use Rattle.rand_pcg.specs.Lcg.{Lcg};

    ghost Value = { Lcg };

    ghost view = { λ d. d.generator };
}

impl NumberDraws {
    /// The words of `Pcg64`, seeded by `seed_from_u64`.
    pub fn new(seed: u64) -> Self
        ensures { result ≡ seeded seed }
    {
        NumberDraws {
            generator: Pcg64::seed_from_u64(seed),
        }
    }

    /// Draws a whole number from `low` to `high`, both included: `low` plus the remainder of one word
    /// divided by their count.
    pub fn random(&mut self, low: u32, high: u32) -> u32
        requires { low ≤ high }
        ensures value { result ≡ random_of low high self.old }
        ensures generator { self.new ≡ beyond 1 self.old }
        ensures low { low ≤ result }
        ensures high { result ≤ high }
    {
        let count = u64::from(high - low) + 1;
        low + (self.generator.next_word() % count) as u32
    }

    /// Draws a number from `low` to `high` that isn't evenly distributed (clause 2.1.6): the bitwise or
    /// of a number from 0 to `bits` and one from `low` to `high`, plus the constant; `low` plus the
    /// remainder of that by the count. The number up to `bits` is drawn first.
    pub fn nu_rand(&mut self, bits: u32, constant: u32, low: u32, high: u32) -> u32
        requires { low ≤ high }
        ensures value { result ≡ nu_rand_of bits constant low high self.old }
        ensures generator { self.new ≡ beyond 2 self.old }
        ensures low { low ≤ result }
        ensures high { result ≤ high }
    {
        let left = self.random(0, bits);
        let right = self.random(low, high);
        let count = u64::from(high - low) + 1;
        low + ((u64::from(left | right) + u64::from(constant)) % count) as u32
    }

    /// Shuffles the items: for each place k from the last down to 1, counted from 0, exchanges the items
    /// at k and at `random(0, k)`.
    pub fn shuffle<T>(&mut self, items: &mut [T])
        requires { length items.old ≤ 2 ^ 32 }
        ensures value { items.new ≡ shuffled (length items.old - 1) items.old self.old }
        ensures generator { self.new ≡ beyond (length items.old - 1) self.old }
        ensures permutation { IsPermutation items.old items.new }
    {
        for last in (1..items.len()).rev() {
            let chosen = self.random(0, last as u32);
            items.swap(last, chosen as usize);
        }
    }
}
