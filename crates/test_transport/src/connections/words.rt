//! Options and sizes in the words of the script and of the table.

ghost use Rattle.std.specs.Prelude.{IfOk};
ghost use Rattle.tp4_conn.specs.End.{IsSize, IsSized, IsSizedBy};
ghost use Rattle.tpdu.specs.Writing.{IsKnownSize, IsPreferred};

use crate::words::word;
use std::test::Fail;
use tpdu::{Format, Options};

/// The options behind the first word.
pub fn options(words: &[&str]) -> Result<Options, Fail>
    ensures { IfOk result IsSized }
{
    let size = word(words, 2);
    match size.strip_prefix('p') {
        Some(number) => preferred(words, number.parse()?),
        None => Ok(sized(words, size_of(size)?, false)),
    }
}

/// The options with a preferred size.
fn preferred(words: &[&str], number: u16) -> Result<Options, Fail>
    ensures { IfOk result IsSized }
{
    if number < 1 || 128 < number {
        return Err(Fail::from("a preferred size is 1 to 128 times 128 octets"));
    }
    Ok(sized(words, 128 * number, true))
}

fn sized(words: &[&str], size: u16, preferred: bool) -> Options
    requires { IsSizedBy preferred size }
    ensures { IsSized result }
{
    Options {
        format: format_of(word(words, 1)),
        size,
        expedited: word(words, 3) == "exp",
        sum: word(words, 4) == "sum",
        preferred,
    }
}

/// The sizes of a CR or a CC of the partner.
#[derive(Clone, Copy)]
pub struct Sizes {
    pub size: Option<u16>,
    pub preferred: Option<u32>,
}

impl Sizes {
    /// One size: a listed one, or a preferred one.
    #[tactic(auto, using(tp4_conn::proofs::Sizes::confirmed_known, tp4_conn::proofs::Sizes::number_known))]
    pub fn of(options: Options) -> Sizes
        requires { IsSized options }
        ensures size { IsKnownSize result.size }
        ensures preferred { IsPreferred result.preferred }
    {
        if options.preferred {
            Sizes {
                size: None,
                preferred: Some(u32::from(options.size / 128)),
            }
        } else {
            Sizes {
                size: Some(options.size),
                preferred: None,
            }
        }
    }

    /// `-` for none, a listed size, or `p` and a preferred one of at least 1.
    #[tactic(auto, using(tp4_conn::proofs::Sizes::known_size))]
    pub fn read(text: &str) -> Result<Sizes, Fail>
        ensures size { IfOk result (λ sizes. IsKnownSize sizes.size) }
        ensures preferred { IfOk result (λ sizes. IsPreferred sizes.preferred) }
    {
        if text == "-" {
            return Ok(Sizes {
                size: None,
                preferred: None,
            });
        }
        let Some(number) = text.strip_prefix('p') else {
            return Ok(Sizes {
                size: Some(size_of(text)?),
                preferred: None,
            });
        };
        let number: u32 = number.parse()?;
        if number < 1 {
            return Err(Fail::from("a preferred size is at least 1"));
        }
        Ok(Sizes {
            size: None,
            preferred: Some(number),
        })
    }
}

pub fn format_of(word: &str) -> Format {
    match word {
        "extended" => Format::Extended,
        _ => Format::Normal,
    }
}

#[tactic(auto, using(tp4_conn::proofs::Sizes::size_known))]
pub fn size_of(word: &str) -> Result<u16, Fail>
    ensures { IfOk result IsSize }
{
    match word {
        "128" => Ok(128),
        "256" => Ok(256),
        "512" => Ok(512),
        "1024" => Ok(1024),
        "2048" => Ok(2048),
        "4096" => Ok(4096),
        "8192" => Ok(8192),
        _ => Err(Fail::from("a size has a code")),
    }
}
