//! What the words of the program ask for.

ghost use Rattle.std.specs.Prelude.{◌≡◌, ℕ, Some, IfSome};
ghost use Rattle.script_storm.specs.Request.{IsNumber, Asks};

use itoa::Buffer;

/// The largest seed.
const MOST_SEED: u32 = 999_999_999;
/// The most lines after the set-up.
const MOST_LINES: u32 = 20_000;

/// A generated script: the seed of its words, and how many lines follow the set-up.
#[derive(Clone, Copy, Debug, PartialEq, Eq)]
pub struct Storm {
    pub seed: u32,
    pub count: u32,
}

impl Storm {
    /// The generated script that two words ask for: a seed of at most 999,999,999 and a count of at most
    /// 20,000, in decimal without leading zeros. None exactly where they ask for none.
    pub fn read(seed: &str, count: &str) -> Option<Storm>
        ensures some { IfSome result (λ storm. Asks seed.now count.now storm) }
        ensures exact { (storm : Storm) → Asks seed.now count.now storm → result ≡ Some storm }
    {
        let seed = number_of(seed, MOST_SEED)?;
        let count = number_of(count, MOST_LINES)?;
        Some(Storm { seed, count })
    }
}

/// The number of at most `most` that a text is.
#[tactic(auto, using(crate::proofs::Reading::read_back, crate::proofs::Reading::texts_same))]
fn number_of(text: &str, most: u32) -> Option<u32>
    ensures some { IfSome result (λ number. IsNumber most text.now number) }
    ensures exact { (number : ℕ) → IsNumber most text.now number → result ≡ Some number }
{
    let number = text.parse::<u32>().ok()?;
    if number > most {
        return None;
    }
    let mut digits = Buffer::new();
    if digits.format(number) == text {
        Some(number)
    } else {
        None
    }
}
