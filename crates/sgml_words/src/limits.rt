// The numbers of the options.
ghost use Rattle.std.specs.Prelude.{◌≡◌, ◌≤◌, IfSome, option_map};
ghost use Rattle.clap.specs.Matches.{first_value, found_of};
ghost use Rattle.sgml_words.specs.Told.{limits_told, number_or};

use crate::number::number;
use clap::ArgMatches;

/// How much is read at a time, and how much in all.
#[derive(Clone, Copy, Debug, PartialEq, Eq)]
pub struct Limits {
    /// How many bytes are read at a time, 1 to 1,048,576.
    pub piece: u32,
    /// What the lengths of all texts that are opened may add up to, 0 to 1,073,741,824.
    pub expand: u64,
}

// The number of an option, or its default.
fn number_given(text: Option<&str>, default: u64, least: u64, most: u64) -> Option<u64>
    requires { default ≤ most }
    ensures value { result ≡ number_or default least most (option_map (λ s. s.now) text.entry) }
    ensures within { IfSome result (λ n. n ≤ most) }
{
    match text {
        Some(text) => number(text, least, most),
        None => Some(default),
    }
}

/// The numbers of `--piece` and `--expand`.
#[tactic(auto, unfolding(crate::specs::Told::limits_told))]
pub(crate) fn limits_given(matches: &ArgMatches<'_>) -> Option<Limits>
    ensures { result ≡ limits_told (first_value (found_of matches.now)) }
{
    let piece = number_given(matches.get_str("piece"), 65_536, 1, 1_048_576)?;
    let expand = number_given(matches.get_str("expand"), 67_108_864, 0, 1_073_741_824)?;
    Some(Limits {
        piece: piece as u32,
        expand,
    })
}
