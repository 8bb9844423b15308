//! The words of a generated script (PCG XSH RR 64/32).

ghost use Rattle.std.specs.Prelude.{◌≡◌};
ghost use Rattle.script_storm.specs.Words.{words};

use crate::request::Storm;
use rand_core::utils::NextWord;
use rand_pcg::Lcg64Xsh32;
use std::marker::Model;

/// The stream of the generator.
const STREAM: u64 = 1;

/// The words that are still to come. Contracts see them as their list.
#[derive(Drop)]
pub struct Words {
    generator: Lcg64Xsh32,
    left: u32,
}

impl Model for Words {
    ghost use Rattle.std.specs.Prelude.{List, ℕ};
    ghost use Rattle.rand_core.specs.Steps.{first_words};
    ghost use Rattle.rand_pcg.specs.Pcg.{pcg32};

    ghost Value = { List ℕ };

    ghost view = { λ w. first_words pcg32 w.left w.generator };
}

impl Words {
    /// The words of a generated script: the first of the generator of its seed.
    pub fn new(storm: Storm) -> Words
        ensures { result ≡ words storm.seed storm.count }
    {
        Words {
            generator: Lcg64Xsh32::new(u64::from(storm.seed), STREAM),
            left: storm.count,
        }
    }
}

impl Iterator for Words {
    ghost use Rattle.std.specs.Iterator.{YieldsFirst, item_count};

    type Item = u32;

    ghost next_gives = { YieldsFirst (λ words. words) };

    ghost remaining = { item_count (λ words. words) };

    #[tactic(auto, using(crate::proofs::Drawing::none_left, crate::proofs::Drawing::one_drawn))]
    fn next(&mut self) -> Option<u32> {
        if self.left == 0 {
            return None;
        }
        self.left -= 1;
        Some(self.generator.next_word())
    }
}
